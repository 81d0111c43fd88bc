// A line as a request.
ghost use Rattle.std.specs.Prelude.{true, ◌≡◌, ◌≤◌, length};
ghost use Rattle.lines.specs.Written.{Prints};
ghost use Rattle.answering.specs.Requests.{word_of, input_field, is_input, input_of, request_of};

use lines::{field, hex, number};

// What is asked.
#[derive(Clone, Copy, Drop)]
pub enum Op {
    Name,
    Read,
    Canon,
    Marks,
    Mol,
}

#[derive(Clone, Copy, Drop)]
pub struct Request {
    pub op: Op,
    pub allowance: u16,
    pub room: usize,
}

const MOST_ALLOWANCE: u32 = 65535;

// The longest room that is asked for.
pub const MOST_ROOM: usize = 4096;

const MOST_DIGITS: usize = 131200;

// Tried: a match on the words; it leaves a goal for each byte at which two words part.
#[tactic(auto, unfolding(crate::specs::Requests::word_of))]
fn word_of(word: &[u8]) -> Option<Op>
    ensures { result ≡ word_of word.now }
{
    if field::is_word(word, b"name") {
        return Some(Op::Name);
    }
    if field::is_word(word, b"read") {
        return Some(Op::Read);
    }
    if field::is_word(word, b"canon") {
        return Some(Op::Canon);
    }
    if field::is_word(word, b"marks") {
        return Some(Op::Marks);
    }
    if field::is_word(word, b"mol") {
        return Some(Op::Mol);
    }
    None
}

pub fn input_field(line: &[u8]) -> &[u8]
    ensures { result.now ≡ input_field line.now }
{
    field::rest(field::rest(field::rest(line)))
}

#[tactic(auto, unfolding(crate::specs::Requests::is_input))]
fn is_input(hex: &[u8]) -> bool
    ensures { result ≡ is_input hex.now }
{
    field::is_word(hex, b"-") || !hex.is_empty() && hex.len() <= MOST_DIGITS && hex::is_hex(hex)
}

// The bytes of a sound input field, at the start of a buffer; answers how many there are.
#[tactic(auto, unfolding(crate::specs::Requests::input_of))]
pub fn read_input(hex: &[u8], out: &mut [u8]) -> usize
    requires { (is_input hex.now ≡ true) × (65600 ≤ length out.old) }
    ensures { Prints (input_of hex.now) out.old out.new result }
{
    if field::is_word(hex, b"-") {
        return 0;
    }
    hex::read_bytes(hex, out)
}

#[tactic(auto, unfolding(crate::specs::Requests::request_of))]
pub fn request_of(line: &[u8]) -> Option<Request>
    ensures { result ≡ request_of line.now }
{
    let op = word_of(field::field(line))?;
    let behind = field::rest(line);
    let allowance = number::number_of(field::field(behind), MOST_ALLOWANCE)?;
    let last = field::rest(behind);
    let room = number::number_of(field::field(last), MOST_ROOM as u32)?;
    if !is_input(field::rest(last)) {
        return None;
    }
    Some(Request {
        op,
        allowance: allowance as u16,
        room: room as usize,
    })
}
