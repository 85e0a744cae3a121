ghost use Rattle.std.specs.Prelude.{◌≡◌, ◌+◌};
ghost use Rattle.prefix_leaves.specs.Prefixes.{AreOver, HavePlaces, tokens_of};
ghost use Rattle.prefix_leaves.specs.Renaming.{renamed};

use crate::meant::{find_prefix, is_meant_by_one};
use gcl_model::{Interval, Leaves, Ledger, Pair, Span, Steps};
use prefix_places::PrefixPlaces;

/// Leaves, and the places of some prefix terms over them. Each of their words has the prefix term that means it as its token, so a prefix
/// term is looked up like a single word, and no word has two tokens.
#[derive(Drop)]
pub struct PrefixLeaves<'a, L: Leaves> {
    inner: &'a L,
    prefixes: &'a [PrefixPlaces],
    ghost exact: { HavePlaces (L.text inner.now) prefixes.now },
}

impl<'a, L: Leaves> PrefixLeaves<'a, L> {
    /// These leaves with these prefix terms.
    pub fn new(inner: &'a L, prefixes: &'a [PrefixPlaces]) -> Self
        requires { AreOver (L.text inner.now) prefixes.now }
        ensures inner { result.inner.now ≡ inner.now }
        ensures prefixes { result.prefixes.now ≡ prefixes.now }
    {
        PrefixLeaves { inner, prefixes }
    }
}

impl<L: Leaves> Leaves for PrefixLeaves<'_, L> {
    ghost use Rattle.std.specs.Prelude.{◌+◌};
    ghost use Rattle.prefix_leaves.specs.Prefixes.{tokens_of};
    ghost use Rattle.prefix_leaves.specs.Renaming.{renamed};

    ghost text = { λ l. renamed (tokens_of l.prefixes.now) (L.text l.inner.now) };

    ghost most = { λ l. L.most l.inner.now + 1 };

    #[inline]
    fn next<S: Ledger>(&self, term: &[u8], k: u64, steps: &mut Steps<S>) -> Option<u64> {
        // the span shows that the words rise
        let _span = self.inner.span();
        if !is_meant_by_one(self.prefixes, term) {
            return self.inner.next(term, k, steps);
        }
        steps.tick();
        let prefix = find_prefix(self.prefixes, term)?;
        prefix.next(k)
    }

    #[inline]
    fn prev<S: Ledger>(&self, term: &[u8], k: u64, steps: &mut Steps<S>) -> Option<u64> {
        // the span shows that the words rise
        let _span = self.inner.span();
        if !is_meant_by_one(self.prefixes, term) {
            return self.inner.prev(term, k, steps);
        }
        steps.tick();
        let prefix = find_prefix(self.prefixes, term)?;
        prefix.prev(k)
    }

    #[inline]
    fn earliest_pair(&self, first: &[u8], second: &[u8], k: u64) -> Pair {
        if is_meant_by_one(self.prefixes, first) || is_meant_by_one(self.prefixes, second) {
            return Pair {
                at: k,
                found: false,
            };
        }
        self.inner.earliest_pair(first, second, k)
    }

    #[inline]
    fn element_from<S: Ledger>(
        &self,
        first: &[u8],
        second: &[u8],
        k: u64,
        steps: &mut Steps<S>,
    ) -> Option<Interval> {
        if is_meant_by_one(self.prefixes, first) || is_meant_by_one(self.prefixes, second) {
            return None;
        }
        self.inner.element_from(first, second, k, steps)
    }

    #[inline]
    fn element_up_to<S: Ledger>(
        &self,
        first: &[u8],
        second: &[u8],
        k: u64,
        steps: &mut Steps<S>,
    ) -> Option<Interval> {
        if is_meant_by_one(self.prefixes, first) || is_meant_by_one(self.prefixes, second) {
            return None;
        }
        self.inner.element_up_to(first, second, k, steps)
    }

    #[inline]
    fn span(&self) -> Span {
        self.inner.span()
    }
}
