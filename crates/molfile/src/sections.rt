// The sections of a file, each from the offset of its first line on. A line that is missing is refused at the file's length.
ghost use Rattle.std.specs.Prelude.{◌≡◌, ◌≤◌, ◌<◌, ℕ, List, [], ◌∷◌, ◌++◌, true, length, replicate, IfOk};
ghost use Rattle.ctfile.specs.Filed.{Form};
ghost use Rattle.molfile.specs.Passing.{broken_at, passed, Passes, Ends};

use crate::forms::{bond_in, counts_in, is_atom_line, kind_in};
use crate::line::line_at;
use crate::properties::{is_end_line, is_property_line};
use drawing::{Bond, Counts, Drawing};
use kinds::Kind;
use refusal::{Refusal, Refused};

/// What is taken of the lines of a section, one after the other.
pub trait Section: Drop {
    // The form that is due.
    ghost form: { Form };

    // What it is once these lines were taken.
    ghost holds: { Self → List (List ℕ) → Type 0 };

    // Takes a line that comes after so many others, and says whether it is in the form that is due.
    fn take(&mut self, k: usize, line: &[u8]) -> bool
        requires { k < 999 }
        ensures form { result ≡ form line.now }
        ensures taken { result ≡ true → (ls : List (List ℕ)) → length ls ≡ k → holds self.old ls → holds self.new (ls ++ (line.now ∷ [])) };
}

fn broken_at(place: usize) -> Refused
    ensures { result ≡ broken_at place }
{
    Refused {
        refusal: Refusal::BrokenLine,
        place,
    }
}

// Passes so many lines from an offset on, each taken by the section, to the offset of the line that follows.
pub fn pass<S: Section>(
    file: &[u8],
    from: usize,
    count: usize,
    section: &mut S,
) -> Result<usize, Refused>
    requires { (count ≤ 999) × S.holds section.old [] }
    ensures passes { Passes (replicate count S.form) file.now from result }
    ensures taken { IfOk result (λ p. S.holds section.new (passed file.now from count)) }
{
    let mut at = from;
    for k in 0..count {
        if file.len() <= at {
            return Err(broken_at(file.len()));
        }
        let line = line_at(file, at);
        if !section.take(k, line.bytes) {
            return Err(broken_at(at));
        }
        at = line.next;
    }
    Ok(at)
}

// The property lines to the end line, behind which nothing is read.
pub fn properties(file: &[u8], from: usize, atoms: usize) -> Result<(), Refused>
    requires { atoms ≤ 999 }
    ensures { Ends file.now from atoms result }
{
    let mut at = from;
    // No range counts these lines: which of them ends the section is known only when it is read.
    while at < file.len() {
        let line = line_at(file, at);
        if is_end_line(line.bytes) {
            return Ok(());
        }
        if !is_property_line(line.bytes, atoms) {
            return Err(broken_at(at));
        }
        at = line.next;
    }
    Err(broken_at(file.len()))
}

/// The header, of which nothing is kept.
#[derive(Clone, Copy, Drop)]
pub struct Header {}

impl Section for Header {
    ghost use Rattle.molfile.specs.Taking.{any_line};

    ghost form = { any_line };

    ghost holds = { λ h ls. Unit {0} };

    fn take(&mut self, k: usize, line: &[u8]) -> bool {
        true
    }
}

impl Section for Counts {
    ghost use Rattle.ctfile.specs.Forms.{is_counts_line};
    ghost use Rattle.molfile.specs.Taking.{HasCounts};

    ghost form = { is_counts_line };

    ghost holds = { HasCounts };

    fn take(&mut self, k: usize, line: &[u8]) -> bool {
        match counts_in(line) {
            Some(counts) => {
                *self = counts;
                true
            }
            None => false,
        }
    }
}

impl Section for [Option<Kind>; Drawing::MAX_ATOMS] {
    ghost use Rattle.ctfile.specs.Forms.{is_atom_line};
    ghost use Rattle.molfile.specs.Taking.{HasKinds};

    ghost form = { is_atom_line };

    ghost holds = { HasKinds };

    fn take(&mut self, k: usize, line: &[u8]) -> bool {
        self[k] = kind_in(line);
        is_atom_line(line)
    }
}

impl Section for [Bond; Drawing::MAX_BONDS] {
    ghost use Rattle.ctfile.specs.Forms.{is_bond_line};
    ghost use Rattle.molfile.specs.Taking.{HasBonds};

    ghost form = { is_bond_line };

    ghost holds = { HasBonds };

    fn take(&mut self, k: usize, line: &[u8]) -> bool {
        match bond_in(line) {
            Some(bond) => {
                self[k] = bond;
                true
            }
            None => false,
        }
    }
}
