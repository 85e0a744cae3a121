ghost use Rattle.std.specs.Prelude.{◌≡◌, ℕ, ◌+◌, ◌*◌, ◌≤◌, true, false, IsTrue, IfSome, IsNone, IfOk};
ghost use Rattle.gcl_model.specs.Texts.{holds, next_place, previous_place, any_pair};
ghost use Rattle.gcl_model.specs.Elements.{IsElementFrom, IsElementUpTo};

use crate::interval::Interval;
use crate::leaves::Leaves;
use crate::pair::Pair;
use crate::span::Span;
use crate::steps::{Ledger, Steps};
use std::convert::Infallible;
use std::marker::PhantomData;

/// Leaves whose counter only the caller has. Code generic over this trait cannot make a counter of its own, so each of its look-ups is
/// counted on the one that it was lent. An evaluator is written over this trait, and its public calls go through `LentLeaves`.
pub trait CountedLeaves {
    ghost use Rattle.std.specs.Prelude.{ℕ};
    ghost use Rattle.gcl_model.specs.Texts.{Text, IsText};

    /// What look-ups are counted on.
    type Counter;

    /// Why a look-up is refused: `Infallible` if none is.
    type Stop;

    /// The addresses and the words at them, in rising address.
    ghost text: { Self → Text };

    /// How many look-ups a call may make.
    ghost most: { Self → ℕ };

    /// How many look-ups were counted.
    ghost count: { Self.Counter → ℕ };

    /// No call takes the count above this number, if it is not above it before the call.
    ghost Caps: { Self → ℕ → Type 0 };

    /// The least address at or after `k` that holds the term.
    fn next(
        &self,
        term: &[u8],
        k: u64,
        counter: &mut Self::Counter,
    ) -> Result<Option<u64>, Self::Stop>
        ensures answer { IfOk result (λ place. place ≡ next_place (text self.now).words term.now k) }
        ensures sound { IsText (text self.now) }
        ensures counted { count counter.old ≤ count counter.new }
        ensures cost { count counter.new ≤ count counter.old + most self.now }
        ensures capped { (cap : ℕ) → Caps self.now cap → count counter.old ≤ cap → count counter.new ≤ cap };

    /// The greatest address up to `k` that holds the term.
    fn prev(
        &self,
        term: &[u8],
        k: u64,
        counter: &mut Self::Counter,
    ) -> Result<Option<u64>, Self::Stop>
        ensures answer { IfOk result (λ place. place ≡ previous_place (text self.now).words term.now k) }
        ensures sound { IsText (text self.now) }
        ensures counted { count counter.old ≤ count counter.new }
        ensures cost { count counter.new ≤ count counter.old + most self.now }
        ensures capped { (cap : ℕ) → Caps self.now cap → count counter.old ≤ cap → count counter.new ≤ cap };

    /// An address at or after `k` such that no pair, `first` with `second` right after it, starts from `k` up to before that address, and
    /// whether a pair is known to start at it. No look-up is made.
    fn earliest_pair(&self, first: &[u8], second: &[u8], k: u64) -> Pair
        ensures from { k ≤ result.at }
        ensures none { any_pair (text self.now).words first.now second.now k result.at ≡ false }
        ensures found { IsTrue result.found → (holds (text self.now).words first.now result.at ≡ true) ×
            (holds (text self.now).words second.now (result.at + 1) ≡ true) };

    /// The first interval from a `first` to the next `second`, with neither between, that starts at or after `k`, if it is available: its
    /// three look-ups are counted then, and none otherwise.
    fn element_from(
        &self,
        first: &[u8],
        second: &[u8],
        k: u64,
        counter: &mut Self::Counter,
    ) -> Result<Option<Interval>, Self::Stop>
        ensures answer { IfOk result (λ found. IfSome found (IsElementFrom (text self.now).words first.now second.now k)) }
        ensures counted { count counter.old ≤ count counter.new }
        ensures cost { count counter.new ≤ count counter.old + 3 * most self.now }
        ensures none { IfOk result (λ found. IsNone found → count counter.new ≡ count counter.old) }
        ensures capped { (cap : ℕ) → Caps self.now cap → count counter.old ≤ cap → count counter.new ≤ cap };

    /// The first such interval that ends at or after `k`, if it is available and the last `first` before the next `second` at or after `k`
    /// leads to it. It is counted in the same way.
    fn element_up_to(
        &self,
        first: &[u8],
        second: &[u8],
        k: u64,
        counter: &mut Self::Counter,
    ) -> Result<Option<Interval>, Self::Stop>
        ensures answer { IfOk result (λ found. IfSome found (IsElementUpTo (text self.now).words first.now second.now k)) }
        ensures counted { count counter.old ≤ count counter.new }
        ensures cost { count counter.new ≤ count counter.old + 3 * most self.now }
        ensures none { IfOk result (λ found. IsNone found → count counter.new ≡ count counter.old) }
        ensures capped { (cap : ℕ) → Caps self.now cap → count counter.old ≤ cap → count counter.new ≤ cap };

    /// The addresses. The contract also states what holds of the words.
    fn span(&self) -> Span
        ensures first { result.first ≡ (text self.now).first }
        ensures next { result.next ≡ (text self.now).next }
        ensures sound { IsText (text self.now) };
}

/// Any leaves, with the counters of one kind of ledger.
#[derive(Drop)]
pub struct LentLeaves<'a, L: Leaves, S: Ledger> {
    leaves: &'a L,
    ledger: PhantomData<S>,
}

impl<'a, L: Leaves, S: Ledger> LentLeaves<'a, L, S> {
    /// The leaves, each look-up on the caller's counter.
    pub fn new(leaves: &'a L) -> Self
        ensures { result.leaves.now ≡ leaves.now }
    {
        LentLeaves {
            leaves,
            ledger: PhantomData,
        }
    }
}

impl<L: Leaves, S: Ledger> CountedLeaves for LentLeaves<'_, L, S> {
    type Counter = Steps<S>;

    type Stop = Infallible;

    ghost text = { λ lent. L.text lent.leaves.now };

    ghost most = { λ lent. L.most lent.leaves.now };

    ghost count = { λ steps. steps };

    ghost Caps = { λ _ _. ⊥ };

    fn next(&self, term: &[u8], k: u64, steps: &mut Steps<S>) -> Result<Option<u64>, Infallible> {
        Ok(self.leaves.next(term, k, steps))
    }

    fn prev(&self, term: &[u8], k: u64, steps: &mut Steps<S>) -> Result<Option<u64>, Infallible> {
        Ok(self.leaves.prev(term, k, steps))
    }

    fn earliest_pair(&self, first: &[u8], second: &[u8], k: u64) -> Pair {
        self.leaves.earliest_pair(first, second, k)
    }

    fn element_from(
        &self,
        first: &[u8],
        second: &[u8],
        k: u64,
        steps: &mut Steps<S>,
    ) -> Result<Option<Interval>, Infallible> {
        Ok(self.leaves.element_from(first, second, k, steps))
    }

    fn element_up_to(
        &self,
        first: &[u8],
        second: &[u8],
        k: u64,
        steps: &mut Steps<S>,
    ) -> Result<Option<Interval>, Infallible> {
        Ok(self.leaves.element_up_to(first, second, k, steps))
    }

    fn span(&self) -> Span {
        self.leaves.span()
    }
}
