ghost use Rattle.std.specs.Prelude.{◌≡◌};
ghost use Rattle.text_window.specs.Within.{from_low, up_to_high};

use gcl_model::{Leaves, Ledger, Span, Steps};

/// The words of some leaves from address `low` to address `high` alone. If `high` is below `low`, there are none.
#[derive(Drop)]
pub struct Window<'a, L: Leaves> {
    leaves: &'a L,
    low: u64,
    high: u64,
}

impl<'a, L: Leaves> Window<'a, L> {
    /// The words of these leaves from `low` to `high`.
    pub fn new(leaves: &'a L, low: u64, high: u64) -> Self
        ensures leaves { result.leaves.now ≡ leaves.now }
        ensures low { result.low ≡ low }
        ensures high { result.high ≡ high }
    {
        Window { leaves, low, high }
    }
}

impl<L: Leaves> Leaves for Window<'_, L> {
    ghost use Rattle.text_window.specs.Within.{within};

    ghost text = { λ w. within (L.text w.leaves.now) w.low w.high };

    ghost most = { λ w. L.most w.leaves.now };

    #[inline]
    fn next<S: Ledger>(&self, term: &[u8], k: u64, steps: &mut Steps<S>) -> Option<u64> {
        // the contract of `span` gives that the words rise
        let _span = self.leaves.span();
        if k > self.high {
            return None;
        }
        up_to_high(self.leaves.next(term, k.max(self.low), steps), self.high)
    }

    #[inline]
    fn prev<S: Ledger>(&self, term: &[u8], k: u64, steps: &mut Steps<S>) -> Option<u64> {
        // the contract of `span` gives that the words rise
        let _span = self.leaves.span();
        if k < self.low {
            return None;
        }
        from_low(self.leaves.prev(term, k.min(self.high), steps), self.low)
    }

    #[inline]
    fn span(&self) -> Span {
        let span = self.leaves.span();
        let first = span.first.max(self.low).min(span.next);
        Span {
            first,
            next: span.next.min(self.high.saturating_add(1)).max(first),
        }
    }
}

/// The place, if it is no greater than `high`.
#[inline]
fn up_to_high(found: Option<u64>, high: u64) -> Option<u64>
    ensures { result ≡ up_to_high found high }
{
    match found {
        Some(place) if place <= high => Some(place),
        _ => None,
    }
}

/// The place, if it is no less than `low`.
#[inline]
fn from_low(found: Option<u64>, low: u64) -> Option<u64>
    ensures { result ≡ from_low found low }
{
    match found {
        Some(place) if place >= low => Some(place),
        _ => None,
    }
}
