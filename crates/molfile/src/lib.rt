// Reading a molfile: its lines, one by one, into the arrays of its drawing, and that into a table.
#![tactic(auto)]

ghost use Rattle.std.specs.Prelude.{◌≡◌, length};
ghost use Rattle.drawing.specs.View.{empty_drawing};
ghost use Rattle.molfile.specs.Filing.{IsFiled};
ghost use Rattle.molfile.specs.Reading.{IsRead};

use drawing::Drawing;
use refusal::{Refusal, Refused};
use sections::{Header, pass, properties};
use table::Table;

mod field;
mod forms;
mod line;
mod properties;
mod sections;

const MOST_BYTES: usize = 65536;

const HEADER: usize = 3;

// The arrays of the drawing live only here: what goes on is the table.
pub fn read(file: &[u8]) -> Result<Table, Refused>
    ensures { IsRead file.now result }
{
    if MOST_BYTES < file.len() {
        return Err(Refused::from(Refusal::OverLimit));
    }
    let mut drawing = Drawing::empty();
    filed(file, &mut drawing)?;
    let table = drawing::judged(&drawing)?;
    Ok(table)
}

// The verdict on a file, and what a sound one draws. What the arrays hold of a broken one is of no use.
fn filed(file: &[u8], drawing: &mut Drawing) -> Result<(), Refused>
    requires { drawing.old ≡ empty_drawing }
    ensures { IsFiled file.now drawing.new result }
{
    let at_counts = pass(file, 0, HEADER, &mut Header {})?;
    let at_atoms = pass(file, at_counts, 1, &mut drawing.counts)?;
    let at_bonds = pass(file, at_atoms, drawing.counts.atoms, &mut drawing.kinds)?;
    let at_properties = pass(file, at_bonds, drawing.counts.bonds, &mut drawing.bonds)?;
    properties(file, at_properties, drawing.counts.atoms)
}
