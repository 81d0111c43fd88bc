// Scanning the item at an offset of a text. Each function is lent the text with the offset, and no slice of what is left: a refusal names the
// offset.
ghost use Rattle.std.specs.Prelude.{◌≡◌, ◌+◌, ◌≤◌, ◌<◌, ◌&&◌, not, eqb, get_or, length, drop};
ghost use Rattle.sling.specs.Scanned.{is_capital, is_small, small_first};
ghost use Rattle.text.specs.Scanning.{Marks, starts_target, reference_of, ring_of, Brackets, Bodies, Scans};

use crate::item::{Item, Scanned};
use crate::target::{Aim, place_at, target_at};
use kinds::Kind;

// Whether a small letter stands at an offset.
fn small_at(text: &[u8], at: usize) -> bool
    ensures { result ≡ small_first (drop at text.now) }
{
    at < text.len() && text[at].is_ascii_lowercase()
}

// The code of the bond that a mark stands for, 1 for a byte that is no mark.
fn mark_of(b: u8) -> u8
    ensures { Marks b result }
{
    match b {
        b'=' => 2,
        b'*' => 3,
        b'<' => 4,
        _ => 1,
    }
}

// Whether a byte that is no `+` begins a reference.
fn starts_target(b: u8) -> bool
    ensures { result ≡ starts_target b }
{
    b == b'-' || b.is_ascii_digit()
}

// An aim as an item: two functions, since they make different items and share no line.
fn as_reference(aim: Aim) -> Scanned
    ensures { result ≡ reference_of aim }
{
    Scanned {
        item: Item::Reference(aim.target),
        next: aim.next,
    }
}

fn as_ring(aim: Aim, code: u8) -> Scanned
    ensures { result ≡ ring_of code aim }
{
    Scanned {
        item: Item::Ring {
            code,
            target: aim.target,
        },
        next: aim.next,
    }
}

// Whether two letters and what stands behind them are a symbol and the `)` of its parentheses.
fn is_symbol(capital: u8, small: u8, end: u8) -> bool
    ensures { result ≡ (is_capital capital && is_small small && eqb end 41) }
{
    capital.is_ascii_uppercase() && small.is_ascii_lowercase() && end == b')'
}

// Whether a capital stands at an offset, and no small letter behind it.
fn lone_capital(text: &[u8], at: usize) -> bool
    requires { at < length text.now }
    ensures { result ≡ (is_capital (get_or text.now at 0) && not (small_first (drop (at + 1) text.now))) }
{
    text[at].is_ascii_uppercase() && !small_at(text, at + 1)
}

// A two-letter symbol, whose `(` stands at the offset.
fn bracketed_at(text: &[u8], at: usize, code: u8) -> Option<Scanned>
    requires { (at < length text.now) × (0 < code) × (code ≤ 4) }
    ensures { Brackets text.now at code result }
{
    if text.len() - at <= 3 {
        return None;
    }
    let capital = text[at + 1];
    let small = text[at + 2];
    if !is_symbol(capital, small, text[at + 3]) {
        return None;
    }
    let kind = Kind::of_letters(capital, small);
    Some(Scanned {
        item: Item::Atom { code, kind },
        next: at + 4,
    })
}

// An atom or a ring bond behind its mark.
fn body_at(text: &[u8], at: usize, code: u8) -> Option<Scanned>
    requires { (at ≤ length text.now) × (0 < code) × (code ≤ 4) }
    ensures { Bodies text.now at code result }
{
    if text.len() <= at {
        return None;
    }
    let b = text[at];
    if b == b'/' {
        let aim = target_at(text, at + 1)?;
        return Some(as_ring(aim, code));
    }
    if b == b'(' {
        return bracketed_at(text, at, code);
    }
    if !lone_capital(text, at) {
        return None;
    }
    let kind = Kind::of_capital(b);
    Some(Scanned {
        item: Item::Atom { code, kind },
        next: at + 1,
    })
}

// The item at an offset, or none where it is broken.
pub fn scan(text: &[u8], at: usize) -> Option<Scanned>
    requires { at < length text.now }
    ensures { Scans text.now at result }
{
    let b = text[at];
    let code = mark_of(b);
    if 1 < code {
        return body_at(text, at + 1, code);
    }
    if b == b'+' {
        let aim = place_at(text, at + 1)?;
        return Some(as_reference(aim));
    }
    if starts_target(b) {
        let aim = target_at(text, at)?;
        return Some(as_reference(aim));
    }
    body_at(text, at, 1)
}
