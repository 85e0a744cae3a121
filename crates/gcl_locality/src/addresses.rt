ghost use Rattle.std.specs.Prelude.{◌≡◌, min, max};
ghost use Rattle.gcl_locality.specs.Changed.{earlier_start, later_end, touches};
ghost use Rattle.gcl_locality.specs.Windows.{start_or, end_or};

use gcl_model::Interval;

/// The lesser of an address and of the start of an interval, if there is one.
pub fn earlier_start(p: u64, found: Option<Interval>) -> u64
    ensures { result ≡ earlier_start p found }
{
    match found {
        None => p,
        Some(interval) => p.min(interval.start),
    }
}

/// The greater of an address and of the end of an interval, if there is one.
pub fn later_end(p: u64, found: Option<Interval>) -> u64
    ensures { result ≡ later_end p found }
{
    match found {
        None => p,
        Some(interval) => p.max(interval.end),
    }
}

/// Where a window that reaches x begins: where the last interval that ends before x starts, or else at the first address.
pub fn start_before(first: u64, x: u64, found: Option<Interval>) -> u64
    ensures { result ≡ min x (start_or first found) }
{
    match found {
        None => x.min(first),
        Some(interval) => x.min(interval.start),
    }
}

/// Up to where it reaches after y: where the first interval that starts after y ends, or else the end of the addresses.
pub fn end_behind(next: u64, y: u64, found: Option<Interval>) -> u64
    ensures { result ≡ max y (end_or next found) }
{
    match found {
        None => y.max(next),
        Some(interval) => y.max(interval.end),
    }
}

/// Whether an interval ends at `low` or later, and starts at `high` or before.
pub fn touches(low: u64, high: u64, interval: Interval) -> bool
    ensures { result ≡ touches low high interval }
{
    low <= interval.end && interval.start <= high
}
