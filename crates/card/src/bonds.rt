// The bonds of a card.
ghost use Rattle.std.specs.Prelude.{◌≡◌, true, ℕ, ◌<◌};
ghost use Rattle.molecule.specs.Layout.{in_layout, atom_count, bond_count};
ghost use Rattle.refusal.specs.Numbers.{refusal_in};
ghost use Rattle.table.specs.Arrays.{HasRow};
ghost use Rattle.table.specs.Changes.{bond_of};
ghost use Rattle.card.specs.Tests.{bond_tested};
ghost use Rattle.card.specs.Reading.{Holds, BondsRead};

use refusal::Refusal;
use table::rows::Rows;
use table::{AtomNo, Table};

// 5 for an atom that is not there; 6 for a bond to itself, a second one on the pair, a code not 1 to 4; 4 for a seventh on an atom.
// A table is lent as its number of atoms and its rows, since nothing else of it is judged by.
// a, b and code come one by one, as they stand in the rows and as `put_bond` takes them: a struct would only be taken apart again.
#[tactic(auto, unfolding(crate::specs::Tests::bond_tested))]
pub fn bond_fault(n: usize, rows: &Rows, a: AtomNo, b: AtomNo, code: u8) -> Result<(), Refusal>
    requires { (x : ℕ) → x < n → HasRow rows.now.degrees rows.now.near x }
    ensures { refusal_in result ≡ bond_tested n rows.now.degrees rows.now.near rows.now.codes (bond_of a.0 b.0 code) }
{
    let i = a.0 as usize;
    let j = b.0 as usize;
    if n <= i || n <= j {
        return Err(Refusal::NotThere);
    }
    if i == j || rows.code_of(a, b) != 0 {
        return Err(Refusal::WrongBond);
    }
    if code == 0 || 4 < code {
        return Err(Refusal::WrongBond);
    }
    let full = Table::MAX_BONDS_ON;
    if full <= rows.degrees[i] as usize || full <= rows.degrees[j] as usize {
        return Err(Refusal::OverLimit);
    }
    Ok(())
}

// The bonds in order, each put into the rows of the table. The table comes by value, so that a refusal leaves the caller's as it was.
#[tactic(auto, using(crate::proofs::Layouts::laid_long))]
pub fn read_bonds(card: &[u8], bare: Table, m: usize) -> Result<Table, Refusal>
    requires { (in_layout card.now ≡ true) × (m ≡ bond_count card.now) × Holds card.now (atom_count card.now) 0 bare }
    ensures { BondsRead card.now result }
{
    let mut table = bare;
    let n = table.n;
    let first = 2 * n + 6;
    for k in 0..m {
        let at = first + 3 * k;
        let a = AtomNo(card[at]);
        let b = AtomNo(card[at + 1]);
        let code = card[at + 2];
        bond_fault(n, &table.rows, a, b, code)?;
        table.rows.put_bond(a, b, code);
    }
    Ok(table)
}
