// The bytes of a name, put one item behind the other.
ghost use Rattle.std.specs.Prelude.{[], ◌∷◌, ◌++◌, ◌≡◌, ◌+◌, ◌<◌};
ghost use Rattle.sling.specs.Items.{at, reference};
ghost use Rattle.sling.specs.Printed.{decimal, mark_bytes, symbol_bytes, item_bytes};
ghost use Rattle.writing.specs.Room.{Room};

use crate::place::Place;
use kinds::Kind;
use std::marker::Model;

// The bytes that are written, at the head of an array, since there is no heap.
#[derive(Drop)]
pub struct Name {
    buffer: [u8; Name::ROOM],
    length: usize,
}

impl Model for Name {
    ghost use Rattle.std.specs.Prelude.{List, ℕ, ◌≤◌, take};

    ghost Value = { List ℕ };

    ghost view = { λ n. take n.length n.buffer };

    ghost invariant = { λ n. n.length ≤ 2048 };
}

fn digit(n: u16) -> u8
    requires { n < 208 }
    ensures { result ≡ 48 + n }
{
    (48 + n) as u8
}

impl Name {
    // "2,048 bytes hold any name."
    pub const ROOM: usize = 2048;

    pub fn empty() -> Name
        ensures { result ≡ [] }
    {
        Name {
            buffer: [0u8; Name::ROOM],
            length: 0,
        }
    }

    pub fn bytes(&self) -> &[u8]
        ensures { result.now ≡ self.now }
    {
        &self.buffer[..self.length]
    }

    fn put(&mut self, bytes: &[u8])
        requires { Room self.old bytes.now }
        ensures { self.new ≡ self.old ++ bytes.now }
    {
        let end = self.length + bytes.len();
        self.buffer[self.length..end].copy_from_slice(bytes);
        self.length = end;
    }

    #[tactic(auto, unfolding(sling::specs::Printed::decimal))]
    fn put_place(&mut self, place: Place)
        requires { Room self.old (decimal place) }
        ensures { self.new ≡ self.old ++ decimal place }
    {
        let n = place.number();
        if n < 10 {
            self.put(&[digit(n)]);
            return;
        }
        if n < 100 {
            self.put(&[digit(n / 10), digit(n % 10)]);
            return;
        }
        self.put(&[digit(n / 100), digit(n / 10 % 10), digit(n % 10)]);
    }

    // A bond's code is the byte that the table's rows and the rules have for it.
    fn put_mark(&mut self, code: u8)
        requires { Room self.old (mark_bytes code) }
        ensures { self.new ≡ self.old ++ mark_bytes code }
    {
        match code {
            2 => self.put(b"="),
            3 => self.put(b"*"),
            4 => self.put(b"<"),
            _ => {}
        }
    }

    #[tactic(auto, using(kinds::proofs::Known::known_some, crate::proofs::Symbols::symbol_none, crate::proofs::Symbols::symbol_one, crate::proofs::Symbols::symbol_two))]
    pub fn put_symbol(&mut self, kind: Kind)
        requires { Room self.old (symbol_bytes kind) }
        ensures { self.new ≡ self.old ++ symbol_bytes kind }
    {
        // A number that is no kind's has no letters. The brackets stand in an array of their own: a slice of constants costs a copy of the name.
        let Some(known) = Kind::known(Some(kind)) else {
            let brackets = [b'(', b')'];
            self.put(&brackets);
            return;
        };
        let capital = known.capital();
        match known.small() {
            Some(small) => self.put(&[b'(', capital, small, b')']),
            None => self.put(&[capital]),
        }
    }

    pub fn put_atom(&mut self, code: u8, kind: Kind)
        requires { Room self.old (mark_bytes code ++ symbol_bytes kind) }
        ensures { self.new ≡ self.old ++ (mark_bytes code ++ symbol_bytes kind) }
    {
        self.put_mark(code);
        self.put_symbol(kind);
    }

    // The place of an atom that is gone to, with `+` where a digit stands before.
    #[tactic(auto, unfolding(sling::specs::Printed::item_bytes))]
    pub fn put_reference(&mut self, digit: bool, place: Place)
        requires { Room self.old (item_bytes digit (reference (at place))) }
        ensures { self.new ≡ self.old ++ item_bytes digit (reference (at place)) }
    {
        if digit {
            self.put(b"+");
        }
        self.put_place(place);
    }

    pub fn put_ring(&mut self, code: u8, place: Place)
        requires { Room self.old (mark_bytes code ++ 47 ∷ decimal place) }
        ensures { self.new ≡ self.old ++ (mark_bytes code ++ 47 ∷ decimal place) }
    {
        self.put_mark(code);
        self.put(b"/");
        self.put_place(place);
    }
}
