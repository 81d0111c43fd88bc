// The parts of a card written one after the other into a lent buffer.
ghost use Rattle.std.specs.Prelude.{◌≡◌, ◌+◌, ◌*◌, ◌/◌, ◌%◌, ◌<◌, ◌≤◌, length};
ghost use mathlib.Core.List.{[], ◌∷◌, flatten};
ghost use Rattle.lists.specs.Upto.{each, sum};
ghost use Rattle.table.specs.Arrays.{HasRow};
ghost use Rattle.table.specs.View.{TidyTable};
ghost use Rattle.card.specs.Writing.{atom_piece, bond_piece, row_bytes, row_length, PutIn};

use table::rows::Rows;
use table::{AtomNo, Table};

// A lent buffer, and the place in it at which the next byte is written.
#[derive(Drop)]
pub struct Writer<'a> {
    pub out: &'a mut [u8],
    pub at: usize,
}

impl Writer<'_> {
    // Writes the bytes at its place and goes on after them.
    fn put(&mut self, bytes: &[u8])
        requires { self.old.at + length bytes.now ≤ length self.old.out.now }
        ensures { PutIn self.old bytes.now self.new }
    {
        let start = self.at;
        let end = start + bytes.len();
        self.out[start..end].copy_from_slice(bytes);
        self.at = end;
    }

    // The tag and the length of a field.
    pub fn head(&mut self, tag: u8, size: usize)
        requires { (self.old.at + 3 ≤ length self.old.out.now) × (size < 65536) }
        ensures { PutIn self.old (tag ∷ (size / 256) ∷ (size % 256) ∷ []) self.new }
    {
        let [high, low] = (size as u16).to_be_bytes();
        self.put(&[tag, high, low]);
    }

    // Two bytes for each atom.
    pub fn atoms(&mut self, t: &Table)
        requires { TidyTable t.now × (self.old.at + 2 * t.now.n ≤ length self.old.out.now) }
        ensures { PutIn self.old (flatten (each t.now.n (atom_piece t.now.kinds t.now.hydrogens))) self.new }
    {
        for a in 0..t.n {
            self.put(&[t.kinds[a].atomic_number(), t.hydrogens[a]]);
        }
    }

    // Three bytes for a bond, unless its other atom comes first and has written it.
    fn bond(&mut self, a: AtomNo, b: AtomNo, code: u8)
        requires { self.old.at + length (bond_piece a.0 b.0 code) ≤ length self.old.out.now }
        ensures { PutIn self.old (bond_piece a.0 b.0 code) self.new }
    {
        if a < b {
            self.put(&[a.0, b.0, code]);
        }
    }

    // The bonds of a to higher atoms, ascending.
    fn row(&mut self, rows: &Rows, a: AtomNo)
        requires { HasRow rows.now.degrees rows.now.near a.0 × (self.old.at + length (row_bytes rows.now.degrees rows.now.near rows.now.codes a.0) ≤ length self.old.out.now) }
        ensures { PutIn self.old (row_bytes rows.now.degrees rows.now.near rows.now.codes a.0) self.new }
    {
        let first = Table::MAX_BONDS_ON * a.0 as usize;
        for p in 0..rows.degrees[a.0 as usize] as usize {
            self.bond(a, AtomNo(rows.near[first + p]), rows.codes[first + p]);
        }
    }

    // The bonds of all atoms, ascending by first then second atom.
    pub fn bonds(&mut self, t: &Table)
        requires { TidyTable t.now × (self.old.at + length (flatten (each t.now.n (row_bytes t.now.rows.degrees t.now.rows.near t.now.rows.codes))) ≤ length self.old.out.now) }
        ensures { PutIn self.old (flatten (each t.now.n (row_bytes t.now.rows.degrees t.now.rows.near t.now.rows.codes))) self.new }
    {
        for a in 0..t.n {
            self.row(&t.rows, AtomNo(a as u8));
        }
    }
}

// Three bytes for each neighbour that comes after the atom.
fn row_length(rows: &Rows, a: AtomNo) -> usize
    requires { HasRow rows.now.degrees rows.now.near a.0 }
    ensures { result ≡ row_length rows.now.degrees rows.now.near a.0 }
{
    let first = Table::MAX_BONDS_ON * a.0 as usize;
    let end = first + rows.degrees[a.0 as usize] as usize;
    3 * rows.near[first..end].iter().filter(|b| a.0 < **b).count()
}

// How many bytes all bonds take.
pub fn bonds_length(t: &Table) -> usize
    requires { TidyTable t.now }
    ensures { result ≡ sum (each t.now.n (row_length t.now.rows.degrees t.now.rows.near)) }
{
    // A loop: the sum of a chain got no proof, since its closure does not know that the row of its atom is there.
    let mut bytes: usize = 0;
    for a in 0..t.n {
        bytes += row_length(&t.rows, AtomNo(a as u8));
    }
    bytes
}
