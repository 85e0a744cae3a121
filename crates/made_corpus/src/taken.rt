ghost use Rattle.std.specs.Prelude.{◌≡◌, [], ◌∷◌, ◌++◌};

use std::marker::Model;
use std::snapshot::Snapshot;

/// Bytes that only clauses read: all that were taken so far, in the space of a flag that says whether there is one.
#[cycle(taken)]
#[derive(Drop)]
pub struct Taken {
    last: Last,
}

#[cycle(taken)]
#[derive(Drop)]
enum Last {
    None,
    Byte(Snapshot<Taken>, Snapshot<u8>),
}

impl Model for Taken {
    ghost use Rattle.std.specs.Prelude.{List, ℕ, length};

    ghost Value = { List ℕ };

    ghost use Rattle.made_corpus.specs.Taken.{bytes_of};

    ghost view = { λ t. bytes_of t.last };

    ghost size = { length };

    ghost use Rattle.std.proofs.Common.{arith, length-append};

    ghost size_decreases = { λ t h. Prim.grind (arith, length-append) };
}

impl Taken {
    /// No bytes.
    pub(crate) fn none() -> Taken
        ensures { result ≡ [] }
    {
        Taken { last: Last::None }
    }

    /// These bytes, and one after them.
    pub(crate) fn with(&self, byte: u8) -> Taken
        ensures { result ≡ self.now ++ byte ∷ [] }
    {
        Taken {
            last: Last::Byte(Snapshot::of(self), Snapshot::of(&byte)),
        }
    }

    /// These bytes, and a piece after them.
    pub(crate) fn with_all(self, piece: &[u8]) -> Taken
        ensures { result ≡ self ++ piece.now }
    {
        let mut all = self;
        for byte in piece {
            all = all.with(*byte);
        }
        all
    }
}
