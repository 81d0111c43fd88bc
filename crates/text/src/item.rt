// The items of a text.
use kinds::Kind;

// A place of an atom in a text, from 0, hydrogens counted: no atom number, since a table has no hydrogens.
#[derive(Clone, Copy, Debug, PartialEq, Eq, PartialOrd, Ord, Drop)]
pub struct Place(pub u16);

// What a reference or a ring bond names: an atom by its place, or so many steps up.
#[derive(Clone, Copy, Debug, PartialEq, Eq, Drop)]
pub enum Target {
    At(Place),
    Up(u16),
}

// A mark is given as its bond's code, 1 for none (the byte that cards and the rows of a table have); a symbol as its kind, if it is one.
#[derive(Clone, Copy, Drop)]
pub enum Item {
    Atom { code: u8, kind: Option<Kind> },
    Reference(Target),
    Ring { code: u8, target: Target },
}

// An item as it stands in a text, with the offset behind it.
#[derive(Clone, Copy, Drop)]
pub struct Scanned {
    pub item: Item,
    pub next: usize,
}

// An item that can follow: its kind is known, its atom named by place.
#[derive(Clone, Copy, Drop)]
pub enum Step {
    Atom { code: u8, kind: Kind },
    Reference(Place),
    Ring { code: u8, place: Place },
}
