// An atom's place in a text.
ghost use Rattle.std.specs.Prelude.{◌≡◌, ◌+◌, ◌<◌, ◌≤◌};

use std::marker::Model;

// From 0, hydrogens counted: each place takes a byte of the name at least.
#[derive(Clone, Copy, PartialEq, Eq, Drop)]
pub struct Place(u16);

impl Model for Place {
    ghost use Rattle.std.specs.Prelude.{ℕ, ◌≤◌};

    ghost Value = { ℕ };

    ghost view = { λ p. p.0 };

    ghost invariant = { λ p. p.0 ≤ 2048 };

    ghost inverse = { λ n. record { 0 = n } };
}

impl Place {
    pub const FIRST: Place = Place(0);

    pub fn next(self) -> Place
        requires { self < 2048 }
        ensures { result ≡ self + 1 }
    {
        Place(self.0 + 1)
    }

    pub fn number(self) -> u16
        ensures is { result ≡ self }
        ensures low { self ≤ 2048 }
    {
        self.0
    }
}
