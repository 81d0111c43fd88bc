// Rows of document 01's table of kinds, H before them, and numbers that no kind has.
use crate::Kind;

#[test]
fn the_table_of_kinds(rt: HostRuntime) {
    for (number, atomic, capital, small) in [
        (0, 1, b'H', None),
        (1, 6, b'C', None),
        (2, 14, b'S', Some(b'i')),
        (12, 16, b'S', None),
        (16, 17, b'C', Some(b'l')),
        (24, 12, b'M', Some(b'g')),
        (25, 0, 0, None),
        (255, 0, 0, None),
    ] {
        let kind = Kind { number };
        assert_eq!(rt; kind.atomic_number(), atomic, "{number}");
        assert_eq!(rt; kind.capital(), capital, "{number}");
        assert_eq!(rt; kind.small(), small, "{number}");
    }
}
