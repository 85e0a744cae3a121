ghost use Rattle.std.specs.Prelude.{◌≡◌, ◌+◌};
ghost use Rattle.index_shard.specs.Searched.{nearest};
ghost use Rattle.index_shard.specs.Tables.{IsShard, postings_of};

use gcl_model::{Ledger, Steps};
use index_shard::{Direction, Shard};
use std::marker::PhantomData;

/// One term, as it is looked up in the indexes of a version's slots. Code that is generic over this trait can make no counter of its
/// own, so each of its look-ups is counted on the one that it was lent.
pub trait LookUp {
    ghost use Rattle.std.specs.Prelude.{ℕ, List};
    ghost use Rattle.index_shard.specs.Tables.{ShardContent};

    /// What look-ups are counted on.
    type Counter;

    /// The term.
    ghost term: { Self → List ℕ };

    /// Which index it may be looked up in as that of the slot with a number: a term that was found there before knows only this one.
    ghost knows: { Self → ℕ → ShardContent → Type 0 };

    /// How many look-ups were counted.
    ghost count: { Self.Counter → ℕ };

    /// The posting of the term that is nearest to `k` on one side, in the index of the slot with this number. It is one look-up.
    fn nearest(
        &self,
        number: usize,
        shard: &Shard,
        k: u64,
        direction: Direction,
        counter: &mut Self::Counter,
    ) -> Option<u64>
        requires { knows self.now number shard.now }
        ensures answer { result ≡ nearest direction (postings_of shard.now.table (term self.now)) k }
        ensures step { count counter.new ≡ count counter.old + 1 }
        ensures shard { IsShard shard.now };
}

/// A term that is looked up by its bytes, in any index.
#[derive(Drop)]
pub(crate) struct ByBytes<'a, L: Ledger> {
    bytes: &'a [u8],
    ledger: PhantomData<L>,
}

impl<'a, L: Ledger> ByBytes<'a, L> {
    pub(crate) fn new(bytes: &'a [u8]) -> Self
        ensures { result.bytes.now ≡ bytes.now }
    {
        ByBytes {
            bytes,
            ledger: PhantomData,
        }
    }
}

impl<L: Ledger> LookUp for ByBytes<'_, L> {
    type Counter = Steps<L>;

    ghost term = { λ t. t.bytes.now };

    ghost knows = { λ t number shard. Unit {0} };

    ghost count = { λ steps. steps };

    fn nearest(
        &self,
        _number: usize,
        shard: &Shard,
        k: u64,
        direction: Direction,
        steps: &mut Steps<L>,
    ) -> Option<u64> {
        shard.look_up(self.bytes, k, direction, steps)
    }
}
