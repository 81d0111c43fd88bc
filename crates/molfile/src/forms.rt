// The counts line, an atom line and a bond line.
ghost use Rattle.std.specs.Prelude.{◌≡◌, ◌<◌, length};
ghost use Rattle.ctfile.specs.Forms.{is_version, is_atom_line, from_one};
ghost use Rattle.ctfile.specs.Forms as rules;
ghost use Rattle.kinds.specs.Known.{kind_in};
ghost use Rattle.molfile.specs.Taking.{AreCounts, IsBond};

use crate::field::{are_blank, columns, number_at, size_at, unled, untrailed};
use drawing::{Bond, Counts};
use kinds::Kind;

fn is_version(line: &[u8]) -> bool
    ensures { result ≡ is_version line.now }
{
    let version = columns::<6>(line, 33);
    version == *b" V2000" || version == *b"V2000 "
}

// What a counts line counts, and none where a line is no counts line.
pub fn counts_in(line: &[u8]) -> Option<Counts>
    ensures { AreCounts line.now result }
{
    if !is_version(line) {
        return None;
    }
    let atoms = number_at(line, 0)? as usize;
    let bonds = number_at(line, 3)? as usize;
    Some(Counts { atoms, bonds })
}

// The kind of an atom line's symbol. No symbol has three letters.
pub fn kind_in(line: &[u8]) -> Option<Kind>
    ensures { kind_in result ≡ rules.kind_in line.now }
{
    let field: [u8; 3] = columns(line, 31);
    let symbol = untrailed(unled(&field));
    match symbol.len() {
        1 => Kind::of_capital(symbol[0]),
        2 => Kind::of_letters(symbol[0], symbol[1]),
        _ => None,
    }
}

pub fn is_atom_line(line: &[u8]) -> bool
    ensures { result ≡ is_atom_line line.now }
{
    let symbol: [u8; 3] = columns(line, 31);
    !are_blank(&symbol) && size_at::<2>(line, 34) == Some(0) && number_at(line, 36) == Some(0)
}

// A number that counts from 1, counted from 0. No atom has the number 0: of at most 999 atoms none is at the place 1000.
fn from_one(number: u16) -> u16
    ensures { result ≡ from_one number }
{
    if number == 0 { 1000 } else { number - 1 }
}

// The bond of a bond line, and none where a line is no bond line.
pub fn bond_in(line: &[u8]) -> Option<Bond>
    ensures { IsBond line.now result }
{
    if line.len() < 9 {
        return None;
    }
    let one = number_at(line, 0)?;
    let two = number_at(line, 3)?;
    let code = number_at(line, 6)?;
    Some(Bond {
        one: from_one(one),
        two: from_one(two),
        code,
    })
}
