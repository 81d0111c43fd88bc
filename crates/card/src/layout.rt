// Where a card's parts stand, and how many there are.
ghost use Rattle.std.specs.Prelude.{◌≡◌, cond, ◌||◌, ◌+◌, ◌<◌, eqb, ltb, length};
ghost use Rattle.refusal.specs.Numbers.{refusal_in};
ghost use Rattle.molecule.specs.Layout.{length_at};
ghost use Rattle.card.specs.Tests.{fields_of};

use refusal::Refusal;
use table::Table;

// How many atoms and bonds a card lists.
#[derive(Clone, Copy, Debug, PartialEq, Eq, Drop)]
pub struct Fields {
    pub atoms: usize,
    pub bonds: usize,
}

// Two bytes of length, high byte first.
fn length_at(card: &[u8], i: usize) -> u16
    requires { i + 1 < length card.now }
    ensures { result ≡ length_at card.now i }
{
    u16::from_be_bytes([card[i], card[i + 1]])
}

pub fn find_fields(card: &[u8]) -> Option<Fields>
    ensures { result ≡ fields_of card.now }
{
    if card.len() < 6 || card[0] != 1 {
        return None;
    }
    let a = length_at(card, 1) as usize;
    if a % 2 != 0 || card.len() < a + 6 || card[a + 3] != 2 {
        return None;
    }
    let b = length_at(card, a + 4) as usize;
    if b % 3 != 0 || card.len() != a + b + 6 {
        return None;
    }
    Some(Fields {
        atoms: a / 2,
        bonds: b / 3,
    })
}

// 1 for no atoms, 4 for too many atoms or bonds.
pub fn counts_fault(atoms: usize, bonds: usize) -> Result<(), Refusal>
    ensures { refusal_in result ≡ cond (eqb atoms 0) 1 (cond (ltb 64 atoms || ltb 80 bonds) 4 0) }
{
    if atoms == 0 {
        return Err(Refusal::NoAtoms);
    }
    if Table::MAX_ATOMS < atoms || Table::MAX_BONDS < bonds {
        return Err(Refusal::OverLimit);
    }
    Ok(())
}
