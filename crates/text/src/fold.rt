// The molecule that a text writes, hydrogens folded.
ghost use Rattle.molecule.specs.Renumbering.{Renumbered};
ghost use Rattle.sling.specs.Folded.{folded};
ghost use Rattle.table.specs.View.{TidyTable};
ghost use Rattle.text.specs.Holding.{view_of, Held};
ghost use Rattle.text.specs.Folding.{molecule_of, Bares};

use crate::state::State;
use kinds::Kind;
use table::rows::Rows;
use table::{AtomNo, Table};

// The atoms of a text as a table without bonds, and by place the number that an atom there has in it.
// `drawing` has its like over 999 atoms whose hydrogens are counted later: one type for both would share two fields and no step.
#[derive(Clone, Copy, Drop)]
pub struct Bare {
    pub table: Table,
    pub numbers: [AtomNo; State::PLACES],
}

// The atoms; an H is no atom of a table.
fn bare_atoms(state: &State) -> Bare
    requires { Held state.now }
    ensures { Bares state.now result }
{
    let mut table = Table {
        n: 0,
        kinds: [Kind::H; Table::MAX_ATOMS],
        hydrogens: [0u8; Table::MAX_ATOMS],
        rows: Rows::empty(),
    };
    let mut numbers = [AtomNo(0); State::PLACES];
    for p in 0..state.n {
        let atom = state.placed[p];
        numbers[p] = AtomNo(table.n as u8);
        if atom.kind == Kind::H {
            continue;
        }
        table.kinds[table.n] = atom.kind;
        table.hydrogens[table.n] = atom.hydrogens;
        table.n += 1;
    }
    Bare { table, numbers }
}

// The atoms and the bonds; one to an H is no bond of a table.
pub fn folded(state: &State) -> Table
    requires { Held state.now }
    ensures { TidyTable result × Renumbered (λ a. a) (folded (view_of state.now)) (molecule_of result) }
{
    let bare = bare_atoms(state);
    let mut table = bare.table;
    for bond in &state.links[..state.drawn] {
        if state.to_h(bond) {
            continue;
        }
        let one = bare.numbers[bond.one as usize];
        let two = bare.numbers[bond.two as usize];
        table.rows.put_bond(one, two, bond.code);
    }
    table
}
