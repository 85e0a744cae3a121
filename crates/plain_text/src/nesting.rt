ghost use Rattle.std.specs.Prelude.{◌≡◌, ◌&&◌, ◌||◌};
ghost use Rattle.gcl_model.specs.Extents.{is_nested, same_extent, covers, is_inside, contains_extent, is_least};
ghost use Rattle.gcl_model.specs.Meaning.{all_cover, any_contains, is_width};

use gcl_model::{Interval, IntervalList};

/// Whether `inner` lies within `outer`.
pub(crate) fn is_nested(inner: Interval, outer: Interval) -> bool
    ensures { result ≡ is_nested inner outer }
{
    outer.start <= inner.start && inner.end <= outer.end
}

pub(crate) fn is_same(a: Interval, b: Interval) -> bool
    ensures { result ≡ same_extent a b }
{
    a.start == b.start && a.end == b.end
}

/// Whether it has this many addresses.
pub(crate) fn has_width(pair: Interval, n: u64) -> bool
    ensures { result ≡ is_width n pair }
{
    n > 0 && pair.end - pair.start == n - 1
}

/// Whether a member is nested in the pair.
pub(crate) fn covers(list: &[Interval], pair: Interval) -> bool
    ensures { result ≡ covers list.now pair }
{
    list.iter().any(|member| is_nested(*member, pair))
}

/// Whether the pair is nested in a member.
pub(crate) fn is_inside(list: &[Interval], pair: Interval) -> bool
    ensures { result ≡ is_inside list.now pair }
{
    list.iter().any(|member| is_nested(pair, *member))
}

pub(crate) fn contains(list: &[Interval], pair: Interval) -> bool
    ensures { result ≡ contains_extent list.now pair }
{
    list.iter().any(|member| is_same(*member, pair))
}

/// Whether no member other than the pair itself is nested in it.
pub(crate) fn is_least(list: &[Interval], pair: Interval) -> bool
    ensures { result ≡ is_least list.now pair }
{
    list.iter().all(|member| !is_nested(*member, pair) || is_same(*member, pair))
}

pub(crate) fn all_cover(lists: &[IntervalList], pair: Interval) -> bool
    ensures { result ≡ all_cover lists.now pair }
{
    lists.iter().all(|list| covers(list.as_slice(), pair))
}

pub(crate) fn any_contains(lists: &[IntervalList], pair: Interval) -> bool
    ensures { result ≡ any_contains lists.now pair }
{
    lists.iter().any(|list| contains(list.as_slice(), pair))
}
