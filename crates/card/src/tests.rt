// The card of document 01's example, written with each bond's lower atom first; and one atom of a number that no kind has.
ghost use Rattle.table.specs.View.{TidyTable};

use crate::{read, write};
use kinds::Kind;
use table::Table;
use table::rows::Rows;

// One atom with four hydrogens.
fn lone(number: u8) -> Table
    ensures { TidyTable result }
{
    Table {
        n: 1,
        kinds: [Kind { number }; Table::MAX_ATOMS],
        hydrogens: [4; Table::MAX_ATOMS],
        rows: Rows::empty(),
    }
}

#[test]
fn the_example_is_written(rt: HostRuntime) {
    let card = [
        1u8, 0, 6, 6, 2, 6, 2, 6, 2, 2, 0, 9, 0, 1, 1, 1, 2, 1, 2, 0, 1,
    ];
    let mut out = [0u8; 21];
    let Ok(table) = read(&card) else {
        assert!(rt; false, "not read");
        return;
    };
    assert!(rt; write(&table, &mut out) == Ok(21));
    assert!(rt;
        out == [
            1u8, 0, 6, 6, 2, 6, 2, 6, 2, 2, 0, 9, 0, 1, 1, 0, 2, 1, 1, 2, 1
        ]
    );
}

#[test]
fn any_kind_is_written(rt: HostRuntime) {
    for (number, atomic) in [(24u8, 12u8), (25, 0), (255, 0)] {
        let mut out = [9u8; 8];
        assert!(rt; write(&lone(number), &mut out) == Ok(8));
        assert!(rt; out == [1u8, 0, 2, atomic, 4, 2, 0, 0], "{number}");
    }
}
