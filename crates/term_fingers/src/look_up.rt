ghost use Rattle.std.specs.Prelude.{◌≡◌};

use crate::naming::Naming;
use crate::term::Term;
use gcl_model::{Direction, Ledger, Steps};
use index_shard::Shard;
use live_version::LookUp;
use std::marker::PhantomData;

/// A term that is looked up by its finger, in the slots where it was found.
#[derive(Drop)]
pub(crate) struct ByFinger<'b, 'a, J: Naming, L: Ledger> {
    term: &'b Term<'a, J>,
    ledger: PhantomData<L>,
}

impl<'b, 'a, J: Naming, L: Ledger> ByFinger<'b, 'a, J, L> {
    pub(crate) fn new(term: &'b Term<'a, J>) -> Self
        ensures { result.term.now.bytes.now ≡ term.now.bytes.now }
    {
        ByFinger {
            term,
            ledger: PhantomData,
        }
    }
}

impl<J: Naming, L: Ledger> LookUp for ByFinger<'_, '_, J, L> {
    ghost use Rattle.std.specs.Prelude.{◌≡◌, Some};
    ghost use Rattle.term_fingers.specs.Lists.{shard_at};

    type Counter = Steps<L>;

    ghost term = { λ t. t.term.now.bytes.now };

    ghost knows = { λ t number shard. shard_at J.version.slots number ≡ Some shard };

    ghost count = { λ steps. steps };

    fn nearest(
        &self,
        number: usize,
        shard: &Shard,
        k: u64,
        direction: Direction,
        steps: &mut Steps<L>,
    ) -> Option<u64> {
        steps.tick();
        // any call of the shard ensures `IsShard`
        let _terms = shard.term_count();
        self.term.nearest(number, shard, k, direction)
    }
}
