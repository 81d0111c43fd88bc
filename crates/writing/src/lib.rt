// The name of a molecule whose atoms are in rank order, written into a lent buffer.
#![tactic(auto)]

ghost use Rattle.lent.specs.Written.{Written};
ghost use Rattle.sling.specs.Printed.{name_bytes};
ghost use Rattle.table.specs.View.{view_of};
ghost use Rattle.writing.specs.Nameable.{Nameable};

use place::Place;
use refusal::Refusal;
use table::{AtomNo, Table};
use walk::Sheet;

mod place;
mod printed;
mod strokes;
#[cfg(test)]
mod tests;
mod walk;

// An atom being served, and where it is written.
#[derive(Drop)]
struct Served {
    pub atom: AtomNo,
    pub place: Place,
}

// The name of a table whose atoms stand in rank order. The whole name is known, and its length, before a lent byte is touched.
// Not inlined: the sheet takes room on the stack only while a name is written.
#[inline(never)]
pub fn write(t: &Table, out: &mut [u8]) -> Result<usize, Refusal>
    requires { Nameable t.now }
    ensures { Written (name_bytes (view_of t.now)) out.old out.new result }
{
    let mut sheet = Sheet::started(t.kinds[0]);
    let first = Served {
        atom: AtomNo(0),
        place: Place::FIRST,
    };
    sheet.finish(t, &first, t.n);
    lent::write(sheet.pen.name.bytes(), out)
}
