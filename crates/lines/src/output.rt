// What is printed, put piece behind piece into one buffer.
ghost use Rattle.std.specs.Prelude.{[], ◌∷◌, ◌++◌, ◌≡◌, ◌+◌, ◌*◌, ◌≤◌, ◌<◌, length};
ghost use Rattle.lines.specs.Hex.{hex_of};
ghost use Rattle.lines.specs.Numbers.{decimal_of};
ghost use Rattle.lines.specs.Written.{Prints, or_dash, numbered};

use crate::{BLANK, NEWLINE, hex, number};

const DASH: u8 = b'-';

// Bytes at the start of a buffer; answers how many there are, and no slice, since `Prints` says what the whole buffer has.
#[tactic(auto, unfolding(crate::specs::Written::fronted))]
pub fn copy(bytes: &[u8], out: &mut [u8]) -> usize
    requires { length bytes.now ≤ length out.old }
    ensures { Prints bytes.now out.old out.new result }
{
    let n = bytes.len();
    out[..n].copy_from_slice(bytes);
    n
}

// A buffer, and how many bytes were put at its start. Each piece is put by a method and not by `Display`, since no clause
// of a formatter says what a lent buffer holds behind it.
#[derive(Drop)]
pub struct Printed<'a> {
    pub out: &'a mut [u8],
    pub at: usize,
    ghost fits: { at ≤ length out.now },
}

impl<'a> Printed<'a> {
    ghost use Rattle.lines.specs.Added.{Begins, Adds};

    pub fn nothing(out: &'a mut [u8]) -> Printed<'a>
        ensures { Begins out.entry result }
    {
        Printed { out, at: 0 }
    }

    fn put_byte(&mut self, b: u8)
        requires { self.old.at < length self.old.out.now }
        ensures { Adds (b ∷ []) self.old self.new }
    {
        self.out[self.at] = b;
        self.at += 1;
    }

    pub fn put_newline(&mut self)
        requires { self.old.at < length self.old.out.now }
        ensures { Adds (10 ∷ []) self.old self.new }
    {
        self.put_byte(NEWLINE);
    }

    // Bytes as they are.
    pub fn put_piece(&mut self, piece: &[u8])
        requires { self.old.at + length piece.now ≤ length self.old.out.now }
        ensures { Adds piece.now self.old self.new }
    {
        self.at += copy(piece, &mut self.out[self.at..]);
    }

    pub fn put_digits(&mut self, n: u64)
        requires { self.old.at + 20 ≤ length self.old.out.now }
        ensures adds { Adds (decimal_of n) self.old self.new }
        ensures within { self.new.at ≤ self.old.at + 20 }
    {
        self.at += number::put_decimal(n, &mut self.out[self.at..]);
    }

    // A number and a blank.
    pub fn put_number(&mut self, n: u64)
        requires { self.old.at + 21 ≤ length self.old.out.now }
        ensures adds { Adds (numbered n) self.old self.new }
        ensures within { self.new.at ≤ self.old.at + 21 }
    {
        self.put_digits(n);
        self.put_byte(BLANK);
    }

    // Three numbers, each with a blank behind it.
    pub fn put_three(&mut self, a: u64, b: u64, c: u64)
        requires { self.old.at + 63 ≤ length self.old.out.now }
        ensures adds { Adds (numbered a ++ (numbered b ++ numbered c)) self.old self.new }
        ensures within { self.new.at ≤ self.old.at + 63 }
    {
        self.put_number(a);
        self.put_number(b);
        self.put_number(c);
    }

    // A text, or - where it is empty.
    pub fn put_text(&mut self, text: &[u8])
        requires { self.old.at + (length text.now + 1) ≤ length self.old.out.now }
        ensures adds { Adds (or_dash text.now) self.old self.new }
        ensures within { self.new.at ≤ self.old.at + (length text.now + 1) }
    {
        if text.is_empty() {
            return self.put_byte(DASH);
        }
        self.put_piece(text);
    }

    // Bytes in hexadecimal, or - where there are none.
    pub fn put_bytes(&mut self, bytes: &[u8])
        requires { self.old.at + (2 * length bytes.now + 1) ≤ length self.old.out.now }
        ensures adds { Adds (or_dash (hex_of bytes.now)) self.old self.new }
        ensures within { self.new.at ≤ self.old.at + (2 * length bytes.now + 1) }
    {
        if bytes.is_empty() {
            return self.put_byte(DASH);
        }
        self.at += hex::put_hex(bytes, &mut self.out[self.at..]);
    }
}
