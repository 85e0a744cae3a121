ghost use Rattle.std.specs.Prelude.{◌≡◌, ◌≤◌};
ghost use Rattle.token_places.specs.Places.{stretch};

use std::marker::Model;

/// A stretch of the bytes of a text, from the byte at `from` up to but not including the byte at `to`.
#[derive(Clone, Copy, Debug, PartialEq, Eq)]
pub struct Place {
    pub from: usize,
    pub to: usize,
}

impl Model for Place {
    ghost use Rattle.std.specs.Prelude.{◌≤◌};
    ghost use Rattle.token_places.specs.Places as places;

    ghost Value = { places.Place };

    ghost view = { λ p. places.stretch p.from p.to };

    ghost invariant = { λ p. p.from ≤ p.to };

    ghost inverse = { λ p. record { from = p.from; to = p.to } };
}

impl Place {
    /// From `from` up to but not including `to`.
    pub fn new(from: usize, to: usize) -> Self
        requires { from ≤ to }
        ensures { result ≡ stretch from to }
    {
        Place { from, to }
    }
}
