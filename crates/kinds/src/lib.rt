// The 24 kinds of document 01 in constant arrays: kind, symbol and atomic number looked up from each other.
#![tactic(auto)]

ghost use Rattle.std.specs.Prelude.{◌≡◌, [], ◌∷◌, ℕ, ◌≤◌, get_or, IfSome};
ghost use Rattle.molecule.specs.Kinds.{symbol_of, number_of, kind_of_symbol, kind_of_number};
ghost use Rattle.kinds.specs.Known.{kind_in, known_in, letter_of};

use std::marker::Model;

#[cfg(test)]
mod tests;

/// A kind by its number: from 1 on one of the 24, and 0 is H, which occurs only in text and in a molfile. A number above
/// 24 is no kind's; who judges asks `known`.
#[derive(Clone, Copy, PartialEq, Eq, PartialOrd, Ord, Drop)]
pub struct Kind {
    pub number: u8,
}

impl Model for Kind {
    ghost Value = { ℕ };

    ghost view = { λ k. k.number };

    ghost inverse = { λ n. record { number = n } };
}

const COUNT: usize = 25;

// In the arrays that are looked up by a number or a letter, what no kind has.
const NONE: u8 = 25;

// By kind: H C Si Ge Sn Pb N P As Sb Bi O S Se Te F Cl Br I B Al Li Na K Mg.
const NUMBERS: [u8; COUNT] = [
    1, 6, 14, 32, 50, 82, 7, 15, 33, 51, 83, 8, 16, 34, 52, 9, 17, 35, 53, 5, 13, 3, 11, 19, 12,
];

const CAPITALS: [u8; COUNT] = [
    b'H', b'C', b'S', b'G', b'S', b'P', b'N', b'P', b'A', b'S', b'B', b'O', b'S', b'S', b'T', b'F',
    b'C', b'B', b'I', b'B', b'A', b'L', b'N', b'K', b'M',
];

// 0 where the symbol has one letter.
const SMALLS: [u8; COUNT] = [
    0, 0, b'i', b'e', b'n', b'b', 0, 0, b's', b'b', b'i', 0, 0, b'e', b'e', 0, b'l', b'r', 0, 0,
    b'l', b'i', b'a', 0, b'g',
];

// By atomic number: the largest is Bi's, 83.
const BY_NUMBER: [u8; 84] = [
    25, 0, 25, 21, 25, 19, 1, 6, 11, 15, 25, 22, 24, 20, 2, 7, 12, 16, 25, 23, 25, 25, 25, 25, 25,
    25, 25, 25, 25, 25, 25, 25, 3, 8, 13, 17, 25, 25, 25, 25, 25, 25, 25, 25, 25, 25, 25, 25, 25,
    25, 4, 9, 14, 18, 25, 25, 25, 25, 25, 25, 25, 25, 25, 25, 25, 25, 25, 25, 25, 25, 25, 25, 25,
    25, 25, 25, 25, 25, 25, 25, 25, 25, 5, 10,
];

// By capital, for the symbols of one letter, from A.
const BY_CAPITAL: [u8; 26] = [
    25, 19, 1, 25, 25, 15, 25, 0, 18, 25, 23, 25, 25, 6, 11, 7, 25, 25, 12, 25, 25, 25, 25, 25, 25,
    25,
];

impl Kind {
    pub const H: Kind = Kind { number: 0 };

    // The kind that an entry of these arrays names.
    fn of_entry(number: u8) -> Option<Kind>
        requires { number ≤ 25 }
        ensures is { kind_in result ≡ number }
        ensures low { IfSome result (λ k. k ≤ 24) }
    {
        if number == NONE {
            return None;
        }
        Some(Kind { number })
    }

    pub fn of_number(number: u8) -> Option<Kind>
        ensures is { kind_in result ≡ kind_of_number number }
        ensures low { IfSome result (λ k. k ≤ 24) }
    {
        if 83 < number {
            return None;
        }
        let kind = BY_NUMBER[number as usize];
        Kind::of_entry(kind)
    }

    // The kind whose symbol is this letter alone.
    pub fn of_capital(letter: u8) -> Option<Kind>
        ensures is { kind_in result ≡ kind_of_symbol (letter ∷ []) }
        ensures low { IfSome result (λ k. k ≤ 24) }
    {
        if letter < b'A' || b'Z' < letter {
            return None;
        }
        let kind = BY_CAPITAL[(letter - b'A') as usize];
        Kind::of_entry(kind)
    }

    // The kind whose symbol is these two letters.
    pub fn of_letters(capital: u8, small: u8) -> Option<Kind>
        ensures is { kind_in result ≡ kind_of_symbol (capital ∷ small ∷ []) }
        ensures low { IfSome result (λ k. k ≤ 24) }
    {
        // 0 stands in the array where there is no second letter.
        if small == 0 {
            return None;
        }
        for k in 0..COUNT {
            if CAPITALS[k] == capital && SMALLS[k] == small {
                return Some(Kind { number: k as u8 });
            }
        }
        None
    }

    // What was looked up, none where its number is no kind's.
    pub fn known(found: Option<Kind>) -> Option<Kind>
        ensures { result ≡ known_in found }
    {
        let kind = found?;
        if kind.number < NONE { Some(kind) } else { None }
    }

    /// Its number among the kinds, by which keys compare it.
    pub fn number(self) -> u8
        ensures { result ≡ self }
    {
        self.number
    }

    // An array's entry at its number, and 0 where that is no kind's.
    fn entry(self, array: &[u8; COUNT]) -> u8
        ensures { result ≡ get_or array.now self 0 }
    {
        if NONE <= self.number {
            return 0;
        }
        array[self.number as usize]
    }

    // 0 where the number is no kind's.
    pub fn atomic_number(self) -> u8
        ensures { result ≡ number_of self }
    {
        self.entry(&NUMBERS)
    }

    // The symbol's first letter, 0 where the number is no kind's.
    pub fn capital(self) -> u8
        ensures { result ≡ get_or (symbol_of self) 0 0 }
    {
        self.entry(&CAPITALS)
    }

    // The symbol's second letter, where it has two.
    pub fn small(self) -> Option<u8>
        ensures { result ≡ letter_of (get_or (symbol_of self) 1 0) }
    {
        let letter = self.entry(&SMALLS);
        if letter == 0 { None } else { Some(letter) }
    }
}
