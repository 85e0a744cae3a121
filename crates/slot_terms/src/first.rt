ghost use Rattle.std.specs.Prelude.{◌≡◌, bytes_eq};
ghost use Rattle.std.specs.Ordering.{nat_cmp};
ghost use Rattle.std.specs.Cmp.Lexicographic.{slice_cmp};
ghost use Rattle.index_shard.specs.Kept.{AreBytes, leading};
ghost use Rattle.slot_terms.specs.Firsts.{IsFirst};

use std::cmp::Ordering;

/// A term, and its first bytes as a number.
// Most comparisons end with the number and the length, and touch no other memory.
#[derive(Clone, Copy)]
pub(crate) struct First<'a> {
    pub(crate) head: u64,
    pub(crate) term: &'a [u8],
}

impl<'a> First<'a> {
    /// Its order to another one.
    #[inline]
    pub(crate) fn order_to(&self, other: &First<'_>) -> Ordering
        requires own { IsFirst self.now }
        requires other { IsFirst other.now }
        ensures { result ≡ slice_cmp nat_cmp self.now.term.now other.now.term.now }
    {
        match self.head.cmp(&other.head) {
            Ordering::Less => Ordering::Less,
            Ordering::Equal => order_alike(self.term, other.term),
            Ordering::Greater => Ordering::Greater,
        }
    }

    /// Whether both are one term.
    #[inline]
    pub(crate) fn is(&self, other: &First<'_>) -> bool
        requires own { IsFirst self.now }
        requires other { IsFirst other.now }
        ensures { result ≡ bytes_eq self.now.term.now other.now.term.now }
    {
        self.order_to(other).is_eq()
    }
}

/// The order of two terms whose first bytes make the same number. If these are all bytes of one of them, the shorter comes first.
#[inline]
fn order_alike(first: &[u8], second: &[u8]) -> Ordering
    requires head { leading 8 0 first.now ≡ leading 8 0 second.now }
    requires first { AreBytes first.now }
    requires second { AreBytes second.now }
    ensures { result ≡ slice_cmp nat_cmp first.now second.now }
{
    if first.len() <= 8 {
        return first.len().cmp(&second.len());
    }
    order_long(first, second)
}

/// The order by all bytes.
// It is a function of its own, so that what is inlined stays small.
#[inline(never)]
fn order_long(first: &[u8], second: &[u8]) -> Ordering
    ensures { result ≡ slice_cmp nat_cmp first.now second.now }
{
    first.cmp(second)
}
