// The program `name` over a reader and a writer: a card in, a line out.
#![tactic(auto)]

ghost use Rattle.std.specs.Prelude.{◌+◌, ◌≤◌, length};
ghost use Rattle.lines.specs.Written.{Prints};
ghost use Rattle.naming.specs.Lines.{shown, name_line};

use lines::output::Printed;
use lines::{ALLOWANCE, MOST_NAME, input, output};
use scallopgrid::Answer;
use std::io;
use std::io::{Read, Write};

const MOST_CARD: usize = 4096;

// One byte more than a card may have.
const MOST_INPUT: usize = 4097;

// Three numbers with a blank each, a name or a dash, and a newline.
const LONGEST_LINE: usize = 2113;

fn put_name(a: Answer, name: &[u8], out: &mut [u8]) -> usize
    requires { length name.now + 65 ≤ length out.old }
    ensures { Prints (shown a.refusal a.place a.leaves name.now) out.old out.new result }
{
    let mut line = Printed::nothing(out);
    line.put_three(a.refusal as u64, a.place as u64, a.leaves as u64);
    line.put_text(name);
    line.put_newline();
    line.at
}

// The line that is printed for an input, at the start of a buffer; answers its length, since `Prints` says what the
// whole buffer has.
pub fn name_line(input: &[u8], printed: &mut [u8]) -> usize
    requires { 2113 ≤ length printed.old }
    ensures { Prints (name_line input.now) printed.old printed.new result }
{
    if MOST_CARD < input.len() {
        return output::copy(b"4 0 0 -\n", printed);
    }
    let mut lent = [0u8; MOST_NAME];
    let a = scallopgrid::name_of_card(input, ALLOWANCE, &mut lent);
    put_name(a, &lent[..a.length], printed)
}

pub fn run<R: Read, W: Write>(reader: &mut R, writer: &mut W) -> io::Result<()> {
    let mut card = [0u8; MOST_INPUT];
    let n = input::read_full(reader, &mut card)?;
    let mut printed = [0u8; LONGEST_LINE];
    let k = name_line(&card[..n], &mut printed);
    writer.write_all(&printed[..k])
}
