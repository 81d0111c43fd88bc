// What is written of a molecule that was read and numbered: its name, its canonical card or its class marks.
#![tactic(auto)]

ghost use Rattle.std.specs.Prelude.{List, ℕ, IfOk};
ghost use Rattle.lent.specs.Written.{Written};
ghost use Rattle.molecule.specs.Molecule.{Molecule};
ghost use Rattle.rules.specs.Answers.{name_out, canonical_out, marks_out};
ghost use Rattle.table.specs.View.{view_of};
ghost use Rattle.outputs.specs.Numbered.{Listed, Ready};
ghost use Rattle.outputs.specs.Left.{left_by, AnswersAs};

use numbering::{Numbering, class_marks, renumber};
use refusal::{Refusal, Refused};
use table::Table;

/// How many leaves a molecule has, and how many bytes were written.
#[derive(Clone, Copy, Debug, PartialEq, Eq, Drop)]
pub struct Accepted {
    pub leaves: u32,
    pub length: usize,
}

/// One of the three things that are written of a numbered molecule.
pub trait Output {
    // Its bytes, by the rules.
    ghost bytes_of: { Molecule → List ℕ };

    fn write(t: &Table, n: &Numbering, out: &mut [u8]) -> Result<usize, Refusal>
        requires { Ready t.now n.now }
        ensures { Written (bytes_of (view_of t.now)) out.old out.new result };
}

#[derive(Clone, Copy, Drop)]
pub struct Name;

#[derive(Clone, Copy, Drop)]
pub struct CanonicalCard;

#[derive(Clone, Copy, Drop)]
pub struct ClassMarks;

impl Output for Name {
    ghost bytes_of = { name_out };

    fn write(t: &Table, n: &Numbering, out: &mut [u8]) -> Result<usize, Refusal> {
        let best = n.best;
        writing::write(&renumber::renumbered(t, best), out)
    }
}

impl Output for CanonicalCard {
    ghost bytes_of = { canonical_out };

    fn write(t: &Table, n: &Numbering, out: &mut [u8]) -> Result<usize, Refusal> {
        let ranks = n.best;
        card::write(&renumber::renumbered(t, ranks), out)
    }
}

impl Output for ClassMarks {
    ghost bytes_of = { marks_out };

    fn write(_: &Table, n: &Numbering, out: &mut [u8]) -> Result<usize, Refusal> {
        let marks = n.marks;
        class_marks::write(marks, out)
    }
}

// A refusal that the table came with stands; then 9; then 10.
pub fn written<O: Output>(
    read: Result<Table, Refused>,
    allowance: u16,
    out: &mut [u8],
) -> Result<Accepted, Refused>
    requires { IfOk read Listed }
    ensures { AnswersAs O.bytes_of read allowance out.old (left_by result out.new) }
{
    let t = read?;
    let n = numbering::numbered(&t, allowance)?;
    let length = O::write(&t, &n, out)?;
    Ok(Accepted {
        leaves: n.leaves,
        length,
    })
}
