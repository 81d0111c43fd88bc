// The refusals that documents 01 and 02 number.
#![tactic(auto)]

ghost use Rattle.std.specs.Prelude.{◌≡◌};
ghost use Rattle.refusal.specs.Numbers.{number_of, at_start};

/// Why a card, a text or a molfile gets no answer.
#[derive(Clone, Copy, Debug, PartialEq, Eq, Hash, Drop)]
pub enum Refusal {
    NoAtoms,
    Malformed,
    UnknownKind,
    OverLimit,
    NotThere,
    WrongBond,
    WrongHydrogen,
    NotConnected,
    OverAllowance,
    NoRoom,
    BrokenLine,
}

impl Refusal {
    /// The number by which a caller is told.
    pub fn number(self) -> u8
        ensures { result ≡ number_of self }
    {
        match self {
            Refusal::NoAtoms => 1,
            Refusal::Malformed => 2,
            Refusal::UnknownKind => 3,
            Refusal::OverLimit => 4,
            Refusal::NotThere => 5,
            Refusal::WrongBond => 6,
            Refusal::WrongHydrogen => 7,
            Refusal::NotConnected => 8,
            Refusal::OverAllowance => 9,
            Refusal::NoRoom => 10,
            Refusal::BrokenLine => 11,
        }
    }
}

/// A refusal with its place, an offset in what was read.
#[derive(Clone, Copy, Debug, PartialEq, Eq, Hash, Drop)]
pub struct Refused {
    pub refusal: Refusal,
    pub place: usize,
}

// "This place is 0 except in text" and, by document 02, in a molfile's lines.
impl From<Refusal> for Refused {
    ghost from_gives = { λ r p. p ≡ at_start r };

    fn from(refusal: Refusal) -> Refused {
        Refused { refusal, place: 0 }
    }
}
