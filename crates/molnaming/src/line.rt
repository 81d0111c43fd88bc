// The line that is printed for a molfile.
ghost use Rattle.std.specs.Prelude.{◌+◌, ◌≤◌, length};
ghost use Rattle.lines.specs.Written.{Prints};
ghost use Rattle.molnaming.specs.Lines.{named_line, mol_line, record_line};

use crate::refused;
use lines::output::Printed;
use lines::{ALLOWANCE, MOST_NAME};

fn put_named(name: &[u8], out: &mut [u8]) -> usize
    requires { length name.now + 1 ≤ length out.old }
    ensures { Prints (named_line name.now) out.old out.new result }
{
    let mut line = Printed::nothing(out);
    line.put_piece(name);
    line.put_newline();
    line.at
}

// The line of a file at the start of a buffer; answers its length, since `Prints` says what the
// whole buffer has.
pub fn mol_line(file: &[u8], printed: &mut [u8]) -> usize
    requires { 2049 ≤ length printed.old }
    ensures { Prints (mol_line file.now) printed.old printed.new result }
{
    let mut lent = [0u8; MOST_NAME];
    let a = scallopgrid::name_of_molfile(file, ALLOWANCE, &mut lent);
    match a.refusal {
        0 => put_named(&lent[..a.length], printed),
        refusal => refused::put_refusal(file, refusal, a.place, printed),
    }
}

// The line of a record behind its number, at the start of a buffer; answers its length, since `Prints` says what the
// whole buffer has.
pub fn record_line(number: u64, file: &[u8], printed: &mut [u8]) -> usize
    requires { 2071 ≤ length printed.old }
    ensures { Prints (record_line number file.now) printed.old printed.new result }
{
    let mut front = Printed::nothing(printed);
    front.put_digits(number);
    front.put_piece(b": ");
    let at = front.at;
    at + mol_line(file, &mut printed[at..])
}
