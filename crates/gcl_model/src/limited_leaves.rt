ghost use Rattle.std.specs.Prelude.{◌≡◌, ◌+◌, ◌*◌, ◌<◌, ◌≤◌, IfOk, OnErr};
ghost use Rattle.gcl_model.specs.Texts.{IsText};

use crate::counted_leaves::CountedLeaves;
use crate::interval::Interval;
use crate::leaves::Leaves;
use crate::pair::Pair;
use crate::span::Span;
use crate::steps::{Steps, Tally};
use std::marker::PhantomData;
use std::sync::ledger::Ledger;

/// Why a look-up was refused: as many as were allowed had been made.
#[derive(Clone, Copy)]
pub struct Spent;

/// Leaves that refuse a look-up once the caller's counter has reached a limit. The last one may exceed it, as that of an element does.
#[derive(Drop)]
pub struct LimitedLeaves<'a, L: Leaves, B> {
    leaves: &'a L,
    limit: u64,
    of: PhantomData<B>,
}

impl<'a, L: Leaves, B> LimitedLeaves<'a, L, B> {
    /// The leaves, up to this count of look-ups.
    pub fn new(leaves: &'a L, limit: u64) -> Self
        ensures leaves { result.leaves.now ≡ leaves.now }
        ensures limit { result.limit ≡ limit }
    {
        LimitedLeaves {
            leaves,
            limit,
            of: PhantomData,
        }
    }
}

impl<L: Leaves, B: Ledger> LimitedLeaves<'_, L, B> {
    /// Whether one more look-up is allowed.
    #[inline(always)]
    fn allow(&self, steps: &Steps<Tally<B>>) -> Result<(), Spent>
        ensures below { IfOk result (λ _. steps.now < self.now.limit) }
        ensures sound { OnErr result (IsText (L.text self.now.leaves.now)) }
    {
        if steps.count() < self.limit {
            return Ok(());
        }
        // the contract of `span` gives that the words rise
        let _span = self.leaves.span();
        Err(Spent)
    }
}

impl<L: Leaves, B: Ledger> CountedLeaves for LimitedLeaves<'_, L, B> {
    type Counter = Steps<Tally<B>>;

    type Stop = Spent;

    ghost use Rattle.std.specs.Prelude.{◌+◌, ◌*◌, ◌≤◌};

    ghost text = { λ lent. L.text lent.leaves.now };

    ghost most = { λ lent. L.most lent.leaves.now };

    ghost count = { λ steps. steps };

    ghost Caps = { λ lent cap. lent.limit + 3 * L.most lent.leaves.now ≤ cap };

    fn next(&self, term: &[u8], k: u64, steps: &mut Steps<Tally<B>>) -> Result<Option<u64>, Spent> {
        self.allow(steps)?;
        Ok(self.leaves.next(term, k, steps))
    }

    fn prev(&self, term: &[u8], k: u64, steps: &mut Steps<Tally<B>>) -> Result<Option<u64>, Spent> {
        self.allow(steps)?;
        Ok(self.leaves.prev(term, k, steps))
    }

    fn earliest_pair(&self, first: &[u8], second: &[u8], k: u64) -> Pair {
        self.leaves.earliest_pair(first, second, k)
    }

    fn element_from(
        &self,
        first: &[u8],
        second: &[u8],
        k: u64,
        steps: &mut Steps<Tally<B>>,
    ) -> Result<Option<Interval>, Spent> {
        self.allow(steps)?;
        Ok(self.leaves.element_from(first, second, k, steps))
    }

    fn element_up_to(
        &self,
        first: &[u8],
        second: &[u8],
        k: u64,
        steps: &mut Steps<Tally<B>>,
    ) -> Result<Option<Interval>, Spent> {
        self.allow(steps)?;
        Ok(self.leaves.element_up_to(first, second, k, steps))
    }

    fn span(&self) -> Span {
        self.leaves.span()
    }
}
