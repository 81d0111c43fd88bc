// A request answered, and the answer printed.
ghost use Rattle.std.specs.Prelude.{true, ◌≡◌, ◌+◌, ◌*◌, ◌≤◌, length};
ghost use Rattle.rules.specs.Allowed.{Allowed};
ghost use Rattle.scallopgrid.specs.Returned.{returned};
ghost use Rattle.lines.specs.Written.{fronted, Prints};
ghost use Rattle.answering.specs.Answers.{answer_of, shown, line_for, answer_line, buffer_after};
ghost use Rattle.answering.specs.Requests.{is_input, input_of};

use crate::request;
use crate::request::{MOST_ROOM, Op, Request};
use lines::output;
use lines::output::Printed;
use scallopgrid::Answer;

fn ask(op: Op, input: &[u8], allowance: u16, out: &mut [u8]) -> Answer
    ensures { Allowed (answer_of op input.now allowance (length out.old)) out.old (returned result out.new) × (result.length ≤ length out.old) }
{
    match op {
        Op::Name => scallopgrid::name_of_card(input, allowance, out),
        Op::Read => scallopgrid::card_of_text(input, out),
        Op::Canon => scallopgrid::canonical_card(input, allowance, out),
        Op::Marks => scallopgrid::class_marks(input, allowance, out),
        Op::Mol => scallopgrid::name_of_molfile(input, allowance, out),
    }
}

fn put_answer(a: Answer, bytes: &[u8], out: &mut [u8]) -> usize
    requires { 2 * length bytes.now + 86 ≤ length out.old }
    ensures { Prints (shown a.refusal a.place a.leaves bytes.now) out.old out.new result }
{
    let mut line = Printed::nothing(out);
    line.put_three(a.refusal as u64, a.place as u64, a.leaves as u64);
    line.put_number(bytes.len() as u64);
    line.put_bytes(bytes);
    line.put_newline();
    line.at
}

fn answer_request(asked: Request, hex: &[u8], input: &mut [u8], printed: &mut [u8]) -> usize
    requires { (asked.room ≤ 4096) × (is_input hex.now ≡ true) × (65600 ≤ length input.old) × (8278 ≤ length printed.old) }
    ensures { Prints (line_for (Some asked) (input_of hex.now)) printed.old printed.new result × (input.new ≡ fronted (input_of hex.now) input.old) }
{
    let n = request::read_input(hex, input);
    let mut lent = [0u8; MOST_ROOM];
    let a = ask(
        asked.op,
        &input[..n],
        asked.allowance,
        &mut lent[..asked.room],
    );
    put_answer(a, &lent[..a.length], printed)
}

// The line that is printed for a line, at the start of a buffer; answers its length, since `Prints` says what the whole
// buffer has.
// The input is read into a lent buffer, since one of its own would be zeroed for every line.
pub fn answer(line: &[u8], input: &mut [u8], printed: &mut [u8]) -> usize
    requires { (65600 ≤ length input.old) × (8278 ≤ length printed.old) }
    ensures { Prints (answer_line line.now) printed.old printed.new result × (input.new ≡ buffer_after line.now input.old) }
{
    match request::request_of(line) {
        None => output::copy(b"BADLINE\n", printed),
        Some(asked) => answer_request(asked, request::input_field(line), input, printed),
    }
}
