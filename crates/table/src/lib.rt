// A molecule in arrays: its atoms in order, and for each atom a row of at most six neighbours, ascending.
#![tactic(auto)]

ghost use Rattle.std.specs.Prelude.{◌≡◌, ◌<◌};
ghost use Rattle.molecule.specs.Molecule.{connected};
ghost use Rattle.table.specs.View.{view_of, TidyTable, EvenTable};

use flood::Flood;
use kinds::Kind;
use rows::Rows;

mod flood;
pub mod rows;

// An atom's number in a card or a table, from 0.
#[derive(Clone, Copy, Debug, PartialEq, Eq, PartialOrd, Ord, Drop)]
pub struct AtomNo(pub u8);

// An atom's rank in a marking, from 1.
#[derive(Clone, Copy, Debug, PartialEq, Eq, PartialOrd, Ord, Drop)]
pub struct Rank(pub u8);

// The first n atoms count; memory is fixed, so the arrays have room for the largest table.
#[derive(Clone, Copy, Drop)]
pub struct Table {
    pub n: usize,
    pub kinds: [Kind; Table::MAX_ATOMS],
    pub hydrogens: [u8; Table::MAX_ATOMS],
    pub rows: Rows,
}

impl Table {
    pub const MAX_ATOMS: usize = 64;

    pub const MAX_BONDS: usize = 80;

    pub const MAX_HYDROGENS: usize = 128;

    pub const MAX_BONDS_ON: usize = 6;

    pub const MAX_HYDROGENS_ON: usize = 4;

    // The row of atom a stands in the slots from 6 a on.
    pub const SLOTS: usize = Table::MAX_ATOMS * Table::MAX_BONDS_ON;

    pub fn empty() -> Table
        ensures { (result.n ≡ 0) × TidyTable result }
    {
        Table {
            n: 0,
            kinds: [Kind::H; Table::MAX_ATOMS],
            hydrogens: [0u8; Table::MAX_ATOMS],
            rows: Rows::empty(),
        }
    }

    // Whether every atom is reached from atom 0: atoms are looked at in the order in which they were seen, each row once.
    pub fn connected(&self) -> bool
        requires { TidyTable self.now × EvenTable self.now × (0 < self.now.n) }
        ensures { result ≡ connected (view_of self.now) }
    {
        let mut flood = Flood::start();
        let mut head: usize = 0;
        // The queue grows while it is gone through, so no range counts the turns.
        while head < flood.end {
            let a = AtomNo(flood.queue[head]);
            flood.visit(&self.rows, a);
            head += 1;
        }
        flood.end == self.n
    }
}
