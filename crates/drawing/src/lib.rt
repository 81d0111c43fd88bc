// A molfile's drawing, judged and folded into a table.
#![tactic(auto)]

ghost use Rattle.std.specs.Prelude.{◌≡◌};
ghost use Rattle.drawing.specs.View.{empty_drawing, drawing_in, Fits};
ghost use Rattle.drawing.specs.Folding.{IsFolded};

use folding::Folding;
use kinds::Kind;
use refusal::Refusal;
use table::Table;

mod counting;
mod folding;
mod hydrogens;

// How many atoms and bonds a counts line counts.
#[derive(Clone, Copy, Debug, PartialEq, Eq, Drop)]
pub struct Counts {
    pub atoms: usize,
    pub bonds: usize,
}

// A bond line: two places of atoms in the file, from 0, and a code.
#[derive(Clone, Copy, Debug, PartialEq, Eq, Drop)]
pub struct Bond {
    pub one: u16,
    pub two: u16,
    pub code: u16,
}

// The first so many atoms by their kinds, none where a symbol is unknown, as is one whose number no kind has, and the first so many bonds.
// Memory is fixed, so the arrays have room for the longest counts line, and the counts stand beside them.
// That they fit is a clause (Fits) and no ghost field: the sections of a file are lent the counts and each array alone, and of an array
// of kinds behind a reference no proof was found that knows its length.
#[derive(Clone, Copy, Drop)]
pub struct Drawing {
    pub counts: Counts,
    pub kinds: [Option<Kind>; Drawing::MAX_ATOMS],
    pub bonds: [Bond; Drawing::MAX_BONDS],
}

impl Drawing {
    // A counts line has three columns for the atoms and three for the bonds.
    pub const MAX_ATOMS: usize = 999;

    pub const MAX_BONDS: usize = 999;

    pub fn empty() -> Drawing
        ensures { result ≡ empty_drawing }
    {
        Drawing {
            counts: Counts { atoms: 0, bonds: 0 },
            kinds: [None; Drawing::MAX_ATOMS],
            bonds: [Bond {
                one: 0,
                two: 0,
                code: 0,
            }; Drawing::MAX_BONDS],
        }
    }
}

// Judges a drawing by the order of document 02: 1; 4 for counts of atoms, then bonds; 3; bonds in order 5, 7, 6, 4; 7; 4; 8.
pub fn judged(drawing: &Drawing) -> Result<Table, Refusal>
    requires { Fits drawing.now }
    ensures { IsFolded (drawing_in drawing.now) result }
{
    drawing.counts_fault()?;
    let mut folding = Folding::empty();
    folding.put_atoms(drawing)?;
    folding.put_bonds(drawing)?;
    folding.finished(drawing)?;
    Ok(folding.table)
}
