// A refusal in plain words.
ghost use Rattle.std.specs.Prelude.{◌≡◌, ◌+◌, ◌≤◌, length};
ghost use Rattle.lines.specs.Added.{Adds};
ghost use Rattle.lines.specs.Written.{Prints};
ghost use Rattle.molnaming.specs.Lines.{words_of, place_of, refused_line};

use crate::part;
use lines::output::Printed;

// The refusal that has a place.
const BROKEN_LINE: u8 = 11;

// A refusal is C's number here, as `scallopgrid::Answer` has it.
fn words_of(refusal: u8) -> &'static [u8]
    ensures words { result.now ≡ words_of refusal }
    ensures within { length result.now ≤ 103 }
{
    match refusal {
        1 => b"no atom but hydrogen",
        3 => b"an element that is not among the 24",
        4 =>
            b"too large: more than 65536 bytes, 64 atoms, 80 bonds, 128 hydrogens, 4 hydrogens or 6 bonds on one atom",
        5 => b"a bond to an atom that the file does not have",
        6 =>
            b"a bond from an atom to itself, a second bond between two atoms, or a bond type other than 1 to 4",
        7 =>
            b"a hydrogen with no bond, two bonds, a bond that is not single, or a bond to another hydrogen",
        8 => b"more than one piece",
        9 => b"more numberings than the allowance of 4096",
        10 => b"a name longer than 2048 bytes",
        11 => b"a broken or unsupported line",
        _ => b"not named",
    }
}

// Of refusal 11 the place, and the line's number.
fn put_place(line: &mut Printed, file: &[u8], refusal: u8, place: usize)
    requires { line.old.at + 56 ≤ length line.old.out.now }
    ensures adds { Adds (place_of file.now refusal place) line.old line.new }
    ensures within { line.new.at ≤ line.old.at + 56 }
{
    if refusal != BROKEN_LINE {
        return;
    }
    let number = 1 + part::lines_in(part::front(file, place));
    line.put_piece(b" at byte ");
    line.put_digits(place as u64);
    line.put_piece(b", line ");
    line.put_digits(number as u64);
}

// The line of a refused file, at the start of a buffer; answers its length, since `Prints` says what the
// whole buffer has.
pub fn put_refusal(file: &[u8], refusal: u8, place: usize, out: &mut [u8]) -> usize
    requires { 190 ≤ length out.old }
    ensures { Prints (refused_line file.now refusal place) out.old out.new result }
{
    let mut line = Printed::nothing(out);
    line.put_piece(b"refused ");
    line.put_digits(refusal as u64);
    put_place(&mut line, file, refusal, place);
    line.put_piece(b": ");
    line.put_piece(words_of(refusal));
    line.put_newline();
    line.at
}
