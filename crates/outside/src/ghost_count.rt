ghost use Rattle.std.specs.Prelude.{◌≡◌, ◌+◌};

use std::marker::Model;
use std::snapshot::Snapshot;

/// A count that only clauses read: it has no end, and takes a byte.
#[cycle(ghost_count)]
#[derive(Drop)]
pub struct GhostCount {
    last: Last,
}

#[cycle(ghost_count)]
#[derive(Drop)]
enum Last {
    None,
    After(Snapshot<GhostCount>),
}

impl Model for GhostCount {
    ghost use Rattle.std.specs.Prelude.{ℕ};

    ghost Value = { ℕ };

    ghost use Rattle.outside.specs.GhostCounts.{count_of};

    ghost view = { λ t. count_of t.last };

    ghost size = { λ n. n };

    ghost use Rattle.std.proofs.Common.{arith};

    ghost size_decreases = { λ t h. Prim.grind arith };
}

impl GhostCount {
    /// Nothing is counted yet.
    pub fn none() -> GhostCount
        ensures { result ≡ 0 }
    {
        GhostCount { last: Last::None }
    }

    /// Counts one more.
    pub fn add_one(&mut self)
        ensures { self.new ≡ self.old + 1 }
    {
        let last = Last::After(Snapshot::of(self));
        *self = GhostCount { last };
    }
}
