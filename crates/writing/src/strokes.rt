// The strokes of the walk: to serve an atom, to put one, its hydrogens, and to close a ring.
ghost use Rattle.std.specs.Prelude.{◌≡◌, ℕ, ◌≤◌};
ghost use Rattle.sling.specs.Walk.{Written, serve, put, close, put_hs};
ghost use Rattle.writing.specs.Shown.{size, Lettered, Asks, Draws, begun};

use crate::place::Place;
use crate::printed::Name;
use kinds::Kind;

// What is written of the name, the next place, the cursor's place, and whether a digit stands before.
#[derive(Drop)]
pub struct Pen {
    pub name: Name,
    pub next: Place,
    pub cursor: Place,
    pub digit: bool,
}

impl Pen {
    // "Start at rank 1. To write an atom: symbol"
    pub fn started(kind: Kind) -> Pen
        requires { size (begun kind) ≤ 2048 }
        ensures { Lettered result (begun kind) }
    {
        let mut name = Name::empty();
        name.put_symbol(kind);
        let next = Place::FIRST.next();
        Pen {
            name,
            next,
            cursor: Place::FIRST,
            digit: false,
        }
    }

    // "Whenever the cursor isn't at the atom being served, the atom's place is written first."
    pub fn serve(&mut self, place: Place)
        requires { Asks serve place self.old }
        ensures { Draws serve place self.old self.new }
    {
        if self.cursor == place {
            return;
        }
        self.name.put_reference(self.digit, place);
        self.cursor = place;
        self.digit = true;
    }

    // An atom behind a mark, bonded to the cursor's: the cursor moves to it.
    pub fn put(&mut self, code: u8, kind: Kind)
        requires { (s : ℕ) × (w : Written) × Lettered self.old w × (size (put s kind code w) ≤ 2048) }
        ensures { (s : ℕ) (w : Written) → Lettered self.old w → size (put s kind code w) ≤ 2048 → Lettered self.new (put s kind code w) }
    {
        self.name.put_atom(code, kind);
        self.cursor = self.next;
        self.next = self.next.next();
        self.digit = false;
    }

    // "One already written gets mark, `/` and its place."
    pub fn close(&mut self, code: u8, place: Place)
        requires { Asks (λ s. close s code) place self.old }
        ensures { Draws (λ s. close s code) place self.old self.new }
    {
        self.name.put_ring(code, place);
        self.cursor = place;
        self.digit = true;
    }

    // One H on the atom at `place`.
    fn put_hydrogen(&mut self, place: Place)
        requires { Asks (λ r w. put 0 0 1 (serve r w)) place self.old }
        ensures { Draws (λ r w. put 0 0 1 (serve r w)) place self.old self.new }
    {
        self.serve(place);
        self.put(1, Kind::H);
    }

    // "then its hydrogens, each H an atom"
    pub fn put_hydrogens(&mut self, place: Place, count: u8)
        requires { Asks (put_hs count) place self.old }
        ensures { Draws (put_hs count) place self.old self.new }
    {
        for h in 0..count {
            self.put_hydrogen(place);
        }
    }
}
