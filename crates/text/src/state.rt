// What a reader has of a text so far.
ghost use Rattle.std.specs.Prelude.{◌≡◌, ◌≤◌, ◌<◌, length};
ghost use Rattle.molecule.specs.Bonds.{joins};
ghost use Rattle.sling.specs.Reading.{start, climb, place_of};
ghost use Rattle.sling.specs.Folded.{lone_h};
ghost use Rattle.text.specs.Scanning.{target_of};
ghost use Rattle.text.specs.Holding.{atom_at, bond_of, view_of, Held, h_bond};
ghost use Rattle.text.specs.Changing.{fresh, raised, h_between, grown, bonded, Growable, Bondable, Climbable};
ghost use Rattle.text.specs.Judging.{paired_in};

use crate::item::{Place, Target};
use kinds::Kind;
use table::Table;

// An atom of a text: its kind, the place at which it was attached (a byte, since every place is below 192), and how many bonds to an H
// and how many others are drawn on it.
#[derive(Clone, Copy, Drop)]
pub struct TextAtom {
    pub kind: Kind,
    pub up: u8,
    pub hydrogens: u8,
    pub bonds: u8,
}

impl TextAtom {
    // An atom attached at a place, with no bond yet.
    pub fn new(kind: Kind, up: Place) -> TextAtom
        requires { up.0 < 256 }
        ensures { result ≡ fresh kind up.0 }
    {
        TextAtom {
            kind,
            up: up.0 as u8,
            hydrogens: 0,
            bonds: 0,
        }
    }

    // With a bond more, to an H or another.
    pub fn raised(&self, to_h: bool) -> TextAtom
        requires { (self.now.hydrogens ≤ 6) × (self.now.bonds ≤ 6) }
        ensures { result ≡ raised to_h self.now }
    {
        TextAtom {
            hydrogens: self.hydrogens + to_h as u8,
            bonds: self.bonds + !to_h as u8,
            ..*self
        }
    }
}

// Whether a bond between two kinds is one to an H.
pub fn h_bond(one: Kind, other: Kind) -> bool
    ensures { result ≡ h_bond one other }
{
    one == Kind::H || other == Kind::H
}

// A bond drawn in a text, between two places.
#[derive(Clone, Copy, Drop)]
pub struct TextBond {
    pub one: u8,
    pub two: u8,
    pub code: u8,
}

impl TextBond {
    // Whether it joins p and q, either way round.
    fn joins(&self, p: Place, q: Place) -> bool
        ensures { result ≡ joins p.0 q.0 (bond_of self.now) }
    {
        let one = self.one as u16;
        let two = self.two as u16;
        (one == p.0 && two == q.0) || (one == q.0 && two == p.0)
    }
}

// By place the atoms; the bonds drawn; the cursor. What the limits count is kept beside them (atoms and bonds without H, hydrogens in total),
// so that judging an item counts nothing. Arrays with their counts, and no lists, since nothing is taken from a heap. `Held` is asked in
// contracts and is no invariant of the type: an atom that was grown hangs on nothing until its bond is drawn, so that no items lead to
// the state between the two.
#[derive(Clone, Copy, Drop)]
pub struct State {
    pub placed: [TextAtom; State::PLACES],
    pub links: [TextBond; State::BONDS],
    pub n: usize,
    pub drawn: usize,
    pub atoms: usize,
    pub total: usize,
    pub bonds: usize,
    pub cursor: Place,
}

impl State {
    pub const PLACES: usize = Table::MAX_ATOMS + Table::MAX_HYDROGENS;

    pub const BONDS: usize = Table::MAX_BONDS + Table::MAX_HYDROGENS;

    // Before any item.
    pub fn empty() -> State
        ensures { (view_of result ≡ start) × Held result }
    {
        State {
            placed: [TextAtom {
                kind: Kind::H,
                up: 0,
                hydrogens: 0,
                bonds: 0,
            }; State::PLACES],
            links: [TextBond {
                one: 0,
                two: 0,
                code: 0,
            }; State::BONDS],
            n: 0,
            drawn: 0,
            atoms: 0,
            total: 0,
            bonds: 0,
            cursor: Place(0),
        }
    }

    // The atom at a place.
    pub fn atom(&self, place: Place) -> TextAtom
        requires { (place.0 < 192) × (length self.now.placed ≡ 192) }
        ensures { result ≡ atom_at self.now place.0 }
    {
        self.placed[place.0 as usize]
    }

    // Whether a bond is one to an H.
    pub fn to_h(&self, bond: &TextBond) -> bool
        requires { (bond.now.one < 192) × (bond.now.two < 192) × (length self.now.placed ≡ 192) }
        ensures { result ≡ h_between self.now bond.now.one bond.now.two }
    {
        h_bond(
            self.placed[bond.one as usize].kind,
            self.placed[bond.two as usize].kind,
        )
    }

    // So many steps up from the cursor; too many lead to the place that is not there yet.
    fn climbed(&self, steps: u16) -> Place
        requires { Climbable self.now }
        ensures { result.0 ≡ climb (view_of self.now) steps self.now.cursor.0 }
    {
        // An index, widened once for each step and no more: a step waits for the one before it.
        let mut p = self.cursor.0 as usize;
        for _step in 0..steps {
            if p == 0 {
                return Place(self.n as u16);
            }
            p = self.placed[p].up as usize;
        }
        Place(p as u16)
    }

    // The place that a target names.
    pub fn named(&self, target: Target) -> Place
        requires { Climbable self.now }
        ensures { result.0 ≡ place_of (view_of self.now) (target_of target) }
    {
        match target {
            Target::At(place) => place,
            Target::Up(steps) => self.climbed(steps),
        }
    }

    // Whether the cursor's atom has a bond with the atom at a place.
    pub fn paired(&self, to: Place) -> bool
        requires { self.now.drawn ≤ length self.now.links }
        ensures { result ≡ paired_in self.now to.0 }
    {
        let from = self.cursor;
        self.links[..self.drawn]
            .iter()
            .any(|bond| bond.joins(from, to))
    }

    // An atom more, attached at the cursor.
    pub fn grow(&mut self, kind: Kind)
        requires { Growable self.old }
        ensures { self.new ≡ grown kind self.old }
    {
        let is_h = kind == Kind::H;
        self.placed[self.n] = TextAtom::new(kind, self.cursor);
        self.n += 1;
        self.atoms += !is_h as usize;
        self.total += is_h as usize;
    }

    // A bond drawn from the cursor, which moves along it.
    pub fn draw(&mut self, to: Place, code: u8)
        requires { Bondable self.old to.0 }
        ensures { self.new ≡ bonded to code self.old }
    {
        let c = self.cursor.0 as usize;
        let p = to.0 as usize;
        let bond = TextBond {
            one: self.cursor.0 as u8,
            two: to.0 as u8,
            code,
        };
        let to_h = self.to_h(&bond);
        self.links[self.drawn] = bond;
        self.placed[c] = self.placed[c].raised(to_h);
        self.placed[p] = self.placed[p].raised(to_h);
        self.drawn += 1;
        self.bonds += !to_h as usize;
        self.cursor = to;
    }

    // Whether an H alone was read, or nothing, as the rules have it.
    pub fn lone_h(&self) -> bool
        requires { Held self.now }
        ensures { result ≡ lone_h (view_of self.now) }
    {
        if self.drawn != 0 {
            return false;
        }
        self.n == 0 || self.placed[0].kind == Kind::H
    }
}
