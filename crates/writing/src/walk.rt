// What follows an atom's symbol: its hydrogens, then each neighbour whose bond is not yet traced, itself finished first.
ghost use Rattle.std.specs.Prelude.{◌≡◌, ◌<◌, ◌≤◌, ℕ};
ghost use Rattle.writing.specs.Shown.{size, begun, marked};
ghost use Rattle.writing.specs.Walked.{Shows, Finishable, Finished, Traceable, Traced};

use crate::Served;
use crate::place::Place;
use crate::strokes::Pen;
use kinds::Kind;
use table::{AtomNo, Table};

// What the walk keeps: the pen with what it wrote, the place of each atom that is written, and for each two atoms whether their bond is traced.
#[derive(Drop)]
pub struct Sheet {
    pub pen: Pen,
    pub places: [Option<Place>; Table::MAX_ATOMS],
    pub traced: [bool; Sheet::PAIRS],
}

// The bond of two atoms is traced, from whichever it is looked at.
fn mark(traced: &mut [bool; Sheet::PAIRS], one: AtomNo, two: AtomNo)
    requires { (one.0 < 64) × (two.0 < 64) }
    ensures { traced.new ≡ marked traced.old one.0 two.0 }
{
    let a = one.0 as usize;
    let b = two.0 as usize;
    traced[Table::MAX_ATOMS * a + b] = true;
    traced[Table::MAX_ATOMS * b + a] = true;
}

impl Sheet {
    // A flag for each two atoms.
    pub const PAIRS: usize = Table::MAX_ATOMS * Table::MAX_ATOMS;

    // The atom of rank 1, of the kind given, is written, and nothing else.
    pub fn started(kind: Kind) -> Sheet
        requires { size (begun kind) ≤ 2048 }
        ensures { (n : ℕ) → n ≤ 64 → Shows n result (begun kind) }
    {
        let mut places = [None; Table::MAX_ATOMS];
        places[0] = Some(Place::FIRST);
        Sheet {
            pen: Pen::started(kind),
            places,
            traced: [false; Sheet::PAIRS],
        }
    }

    // The depth bounds how deep atoms hang from each other.
    #[cycle(finish_trace)]
    pub fn finish(&mut self, t: &Table, served: &Served, depth: usize)
        requires { Finishable t.now self.old served.now depth }
        ensures { Finished t.now self.old self.new served.now depth }
    {
        if depth == 0 {
            return;
        }
        let a = served.atom.0 as usize;
        self.pen.put_hydrogens(served.place, t.hydrogens[a]);
        let degree = t.rows.degrees[a] as usize;
        for k in 0..degree {
            self.trace(t, served, k, depth - 1);
        }
    }

    // The neighbour in slot k of the row of the atom served: a ring where it is written already, else it is put, and itself finished first.
    #[cycle(finish_trace)]
    fn trace(&mut self, t: &Table, served: &Served, k: usize, depth: usize)
        requires { Traceable t.now self.old served.now k depth }
        ensures { Traced t.now self.old self.new served.now k depth }
    {
        let a = served.atom.0 as usize;
        let slot = Table::MAX_BONDS_ON * a + k;
        let to = AtomNo(t.rows.near[slot]);
        let b = to.0 as usize;
        if self.traced[Table::MAX_ATOMS * a + b] {
            return;
        }
        mark(&mut self.traced, served.atom, to);
        let code = t.rows.codes[slot];
        self.pen.serve(served.place);
        match self.places[b] {
            Some(there) => self.pen.close(code, there),
            None => {
                self.pen.put(code, t.kinds[b]);
                let next = Served {
                    atom: to,
                    place: self.pen.cursor,
                };
                self.places[b] = Some(next.place);
                self.finish(t, &next, depth);
            }
        }
    }
}
