// Names of one atom: of a kind whose symbol has one letter, of one whose symbol has two, and of a number that no kind has.
ghost use Rattle.writing.specs.Nameable.{Nameable};

use crate::write;
use kinds::Kind;
use table::Table;
use table::rows::Rows;

// One atom without hydrogens.
fn lone(number: u8) -> Table
    ensures { Nameable result }
{
    Table {
        n: 1,
        kinds: [Kind { number }; Table::MAX_ATOMS],
        hydrogens: [0; Table::MAX_ATOMS],
        rows: Rows::empty(),
    }
}

#[test]
fn one_atom_is_named(rt: HostRuntime) {
    for (number, name) in [
        (1u8, "C"),
        (16, "(Cl)"),
        (24, "(Mg)"),
        (25, "()"),
        (255, "()"),
    ] {
        let mut out = [0u8; 4];
        assert!(rt; write(&lone(number), &mut out) == Ok(name.len()));
        assert!(rt; &out[..name.len()] == name.as_bytes(), "{number}");
    }
}
