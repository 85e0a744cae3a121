ghost use Rattle.std.specs.Prelude.{◌≡◌};
ghost use Rattle.gcl_model.specs.Extents.{same_extent};
ghost use Rattle.standing_query.specs.Changes.{comes_before};

use gcl_model::Interval;

/// Whether an interval starts before another one, or starts there and ends before it.
pub fn comes_before(a: Interval, b: Interval) -> bool
    ensures { result ≡ comes_before a b }
{
    a.start < b.start || (a.start == b.start && a.end < b.end)
}

/// Whether two intervals have the same start and the same end.
pub fn is_same(a: Interval, b: Interval) -> bool
    ensures { result ≡ same_extent a b }
{
    a.start == b.start && a.end == b.end
}
