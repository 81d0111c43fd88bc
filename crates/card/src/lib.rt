// Cards: any bytes to a table or a refusal, and a table to the bytes of its card.
#![tactic(auto)]

ghost use Rattle.lent.specs.Written.{Written};
ghost use Rattle.molecule.specs.Written.{card_bytes};
ghost use Rattle.table.specs.View.{view_of, TidyTable};
ghost use Rattle.card.specs.Reading.{IsRead};

use refusal::Refusal;
use table::Table;
use writing::Writer;

mod atoms;
pub mod bonds;
pub mod layout;
#[cfg(test)]
mod tests;
mod writing;

// Reads a card by the order of document 01: 2 for the whole layout; 1; 4; atoms 3, 4; total 4; bonds 5, 6, 4; 8.
pub fn read(card: &[u8]) -> Result<Table, Refusal>
    ensures { IsRead card.now result }
{
    let Some(fields) = layout::find_fields(card) else {
        return Err(Refusal::Malformed);
    };
    layout::counts_fault(fields.atoms, fields.bonds)?;
    let bare = atoms::read_atoms(card, fields.atoms)?;
    let table = bonds::read_bonds(card, bare, fields.bonds)?;
    if !table.connected() {
        return Err(Refusal::NotConnected);
    }
    Ok(table)
}

// Writes the card of a table: each bond with its lower atom first, bonds ascending. Its length is known before a byte is written.
pub fn write(t: &Table, out: &mut [u8]) -> Result<usize, Refusal>
    requires { TidyTable t.now }
    ensures { Written (card_bytes (view_of t.now)) out.old out.new result }
{
    let bonds = writing::bonds_length(t);
    let length = 2 * t.n + bonds + 6;
    if out.len() < length {
        return Err(Refusal::NoRoom);
    }
    let mut card = Writer { out, at: 0 };
    card.head(1, 2 * t.n);
    card.atoms(t);
    card.head(2, bonds);
    card.bonds(t);
    Ok(length)
}
