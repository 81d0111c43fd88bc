// The lines behind the bonds.
ghost use Rattle.std.specs.Prelude.{◌≡◌, ◌&&◌, ◌+◌, ◌*◌, ◌≤◌, ◌<◌, ltb, leb, length};
ghost use Rattle.lists.specs.Upto.{each};
ghost use Rattle.lists.specs.Tests.{every};
ghost use Rattle.ctfile.specs.Forms.{number_at, is_entry, lists_entries, is_property_line, is_end_line};

use crate::field::{BLANK, are_blank, column, number_at, size_at};

fn lists_entries(line: &[u8]) -> bool
    ensures { result ≡ lists_entries line.now }
{
    line.starts_with(b"M  CHG") || line.starts_with(b"M  RAD") || line.starts_with(b"M  ISO")
}

// Whether three columns behind the first k name an atom of so many.
fn names_atom(line: &[u8], k: usize, atoms: usize) -> bool
    requires { (k < 1000) × (atoms ≤ 999) }
    ensures { result ≡ (ltb 0 (number_at k line.now) && leb (number_at k line.now) atoms) }
{
    match number_at(line, k) {
        Some(atom) => 0 < atom && atom as usize <= atoms,
        None => false,
    }
}

fn is_entry(line: &[u8], atoms: usize, e: usize) -> bool
    requires { (e < 8) × (17 + 8 * e ≤ length line.now) × (atoms ≤ 999) }
    ensures { result ≡ is_entry atoms line.now e }
{
    // A slice of its own, so that its columns are there by its length.
    let k = 9 + 8 * e;
    let entry = &line[k..k + 8];
    column(entry, 0) == BLANK
        && column(entry, 4) == BLANK
        && names_atom(entry, 1, atoms)
        && size_at::<3>(entry, 5) == Some(0)
}

fn are_entries(line: &[u8], atoms: usize, entries: usize) -> bool
    requires { (entries ≤ 8) × (9 + 8 * entries ≤ length line.now) × (atoms ≤ 999) }
    ensures { result ≡ every (each entries (is_entry atoms line.now)) }
{
    for e in 0..entries {
        if !is_entry(line, atoms, e) {
            return false;
        }
    }
    true
}

pub fn is_property_line(line: &[u8], atoms: usize) -> bool
    requires { atoms ≤ 999 }
    ensures { result ≡ is_property_line atoms line.now }
{
    if !lists_entries(line) {
        return false;
    }
    let Some(entries) = number_at(line, 6) else {
        return false;
    };
    if entries == 0 {
        return false;
    }
    if 8 < entries {
        return false;
    }
    let end = 9 + 8 * entries as usize;
    if line.len() < end {
        return false;
    }
    are_entries(line, atoms, entries as usize) && are_blank(&line[end..])
}

pub fn is_end_line(line: &[u8]) -> bool
    ensures { result ≡ is_end_line line.now }
{
    line.starts_with(b"M  END") && are_blank(&line[6..])
}
