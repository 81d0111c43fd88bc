// The atoms of a card.
ghost use Rattle.std.specs.Prelude.{◌≡◌, true, ◌≤◌};
ghost use Rattle.molecule.specs.Layout.{in_layout, atom_count};
ghost use Rattle.card.specs.Tests.{IsAtom};
ghost use Rattle.card.specs.Reading.{AtomsRead};

use kinds::Kind;
use refusal::Refusal;
use table::Table;

// The kind of an atomic number, H being listed on no card: 3 for it, then 4 for the atom's hydrogens.
fn read_atom(number: u8, hydrogens: u8) -> Result<Kind, Refusal>
    ensures { IsAtom number hydrogens result }
{
    let kind = Kind::of_number(number).ok_or(Refusal::UnknownKind)?;
    if kind == Kind::H {
        return Err(Refusal::UnknownKind);
    }
    if Table::MAX_HYDROGENS_ON < hydrogens as usize {
        return Err(Refusal::OverLimit);
    }
    Ok(kind)
}

// The atoms in order, then the total of their hydrogens.
#[tactic(auto, using(crate::proofs::Layouts::laid_long))]
pub fn read_atoms(card: &[u8], n: usize) -> Result<Table, Refusal>
    requires { (in_layout card.now ≡ true) × (n ≡ atom_count card.now) × (n ≤ 64) }
    ensures { AtomsRead card.now result }
{
    let mut table = Table::empty();
    let mut total: usize = 0;
    // An index, since each turn reads two bytes and fills a place in three arrays.
    for a in 0..n {
        let hydrogens = card[2 * a + 4];
        let kind = read_atom(card[2 * a + 3], hydrogens)?;
        table.kinds[a] = kind;
        table.hydrogens[a] = hydrogens;
        table.rows.degrees[a] = 0;
        table.n = a + 1;
        total += hydrogens as usize;
    }
    if Table::MAX_HYDROGENS < total {
        return Err(Refusal::OverLimit);
    }
    Ok(table)
}
