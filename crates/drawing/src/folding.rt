// The atoms and bonds of a drawing put into a table: an H is a hydrogen of the atom that it is bonded to.
ghost use Rattle.std.specs.Prelude.{◌≡◌, ◌<◌, ◌≤◌, get_or, set};
ghost use Rattle.refusal.specs.Numbers.{refusal_in};
ghost use Rattle.kinds.specs.Known.{kind_in};
ghost use Rattle.table.specs.Changes.{bond_of};
ghost use Rattle.drawing.specs.View.{kinds_in, numbers_of, bond_in, drawing_in, Fits};
ghost use Rattle.drawing.specs.Tests.{heavy_in, unknown_tested, h_tested, ends_tested, one_more};
ghost use Rattle.drawing.specs.Folding.{empty_folding, KindPut, AtomsPut, Linkable, Linked, Foldable, BondFolded, Bares, BondsFolded};

use super::{Bond, Drawing};
use kinds::Kind;
use refusal::Refusal;
use table::rows::Rows;
use table::{AtomNo, Table};

// The table so far, by place in the file the number that an atom there has in it, and by place whether an atom has a bond.
// Memory is fixed: room for each place of a drawing. Two arrays and not one of pairs, since every clause speaks of one of them alone.
#[derive(Clone, Copy, Drop)]
pub struct Folding {
    pub table: Table,
    pub numbers: [u8; Drawing::MAX_ATOMS],
    pub used: [bool; Drawing::MAX_ATOMS],
}

// 7 for an H that is bonded to an H, by a code other than 1, or has a bond already.
fn h_fault(other: Option<Kind>, used: bool, code: u16) -> Result<(), Refusal>
    ensures { refusal_in result ≡ h_tested (kind_in other) used code }
{
    if other == Some(Kind::H) || code != 1 || used {
        return Err(Refusal::WrongHydrogen);
    }
    Ok(())
}

impl Folding {
    pub fn empty() -> Folding
        ensures { result ≡ empty_folding }
    {
        Folding {
            table: Table {
                n: 0,
                kinds: [Kind::H; Table::MAX_ATOMS],
                hydrogens: [0u8; Table::MAX_ATOMS],
                rows: Rows::empty(),
            },
            numbers: [0u8; Drawing::MAX_ATOMS],
            used: [false; Drawing::MAX_ATOMS],
        }
    }

    // An H is no atom of a table.
    fn put_kind(&mut self, kind: Kind)
        requires { (kind ≡ 0 → ⊥) → self.old.table.n < 64 }
        ensures { KindPut kind self.old self.new }
    {
        if kind != Kind::H {
            self.table.kinds[self.table.n] = kind;
            self.table.n += 1;
        }
    }

    // The atoms that are no H, without bonds; 3 for an atom with no symbol of the table.
    pub fn put_atoms(&mut self, drawing: &Drawing) -> Result<(), Refusal>
        requires { (self.old ≡ empty_folding) × Fits drawing.now × (heavy_in (kinds_in drawing.now) ≤ 64) }
        ensures { AtomsPut (kinds_in drawing.now) self.new result }
    {
        for p in 0..drawing.counts.atoms {
            self.numbers[p] = self.table.n as u8;
            let kind = Kind::known(drawing.kinds[p]).ok_or(Refusal::UnknownKind)?;
            self.put_kind(kind);
        }
        Ok(())
    }

    // 5 for an atom that is not there, then 7.
    fn ends_fault(&self, drawing: &Drawing, i: usize, j: usize, code: u16) -> Result<(), Refusal>
        requires { Fits drawing.now }
        ensures { refusal_in result ≡ ends_tested (numbers_of drawing.now) self.now.used drawing.now.counts.atoms (bond_of i j code) }
    {
        if drawing.counts.atoms <= i || drawing.counts.atoms <= j {
            return Err(Refusal::NotThere);
        }
        if drawing.kinds[i] == Some(Kind::H) {
            return h_fault(drawing.kinds[j], self.used[i], code);
        }
        if drawing.kinds[j] == Some(Kind::H) {
            return h_fault(drawing.kinds[i], self.used[j], code);
        }
        Ok(())
    }

    // One hydrogen more. What is over the limit need not be counted on.
    fn count_hydrogen(&mut self, a: AtomNo)
        requires { a.0 < 64 }
        ensures { self.new ≡ record self.old { table = record self.old.table { hydrogens = set self.old.table.hydrogens a.0 (one_more (get_or self.old.table.hydrogens a.0 0)) } } }
    {
        let i = a.0 as usize;
        if self.table.hydrogens[i] as usize <= Table::MAX_HYDROGENS_ON {
            self.table.hydrogens[i] += 1;
        }
    }

    // Judges a bond between atoms by 6, then 4, and puts it into the rows, where neither is an H; counts a hydrogen where one is.
    fn put_link(
        &mut self,
        kind: Option<Kind>,
        other: Option<Kind>,
        a: AtomNo,
        b: AtomNo,
        code: u16,
    ) -> Result<(), Refusal>
        requires { Linkable self.old.table (kind_in kind) (kind_in other) (bond_of a.0 b.0 code) }
        ensures { Linked (kind_in kind) (kind_in other) (bond_of a.0 b.0 code) self.old self.new (refusal_in result) }
    {
        if kind == Some(Kind::H) {
            self.count_hydrogen(b);
            return Ok(());
        }
        if other == Some(Kind::H) {
            self.count_hydrogen(a);
            return Ok(());
        }
        // A code as a card has it in one byte: all above 4 are alike.
        let byte = code.min(5) as u8;
        card::bonds::bond_fault(self.table.n, &self.table.rows, a, b, byte)?;
        self.table.rows.put_bond(a, b, byte);
        Ok(())
    }

    // Judges a bond by 5, 7, 6 and 4, folds it and marks its two atoms as bonded.
    fn put(&mut self, drawing: &Drawing, bond: Bond) -> Result<(), Refusal>
        requires { Foldable drawing.now self.old (bond_in bond) }
        ensures { BondFolded drawing.now (bond_in bond) self.old self.new (refusal_in result) }
    {
        let i = bond.one as usize;
        let j = bond.two as usize;
        self.ends_fault(drawing, i, j, bond.code)?;
        let a = AtomNo(self.numbers[i]);
        let b = AtomNo(self.numbers[j]);
        self.put_link(drawing.kinds[i], drawing.kinds[j], a, b, bond.code)?;
        self.used[i] = true;
        self.used[j] = true;
        Ok(())
    }

    // The bonds in order.
    pub fn put_bonds(&mut self, drawing: &Drawing) -> Result<(), Refusal>
        requires { Fits drawing.now × Bares (kinds_in drawing.now) self.old }
        ensures { BondsFolded (drawing_in drawing.now) self.new (refusal_in result) }
    {
        for bond in &drawing.bonds[..drawing.counts.bonds] {
            self.put(drawing, *bond)?;
        }
        Ok(())
    }
}
