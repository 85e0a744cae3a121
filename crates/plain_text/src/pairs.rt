ghost use Rattle.std.specs.Prelude.{◌≡◌, ◌-◌, ◌++◌, map, filter, IfOk, OnOk};
ghost use Rattle.std.specs.List.{range_with_len};
ghost use Rattle.gcl_model.specs.Extents.{extent, all_extents};

use gcl_model::{Interval, IntervalList, Span};
use std::alloc::{AllocError, Global};

/// A test on pairs of addresses.
pub(crate) trait PairTest {
    ghost use Rattle.std.specs.Prelude.{◌≡◌, Bool};
    ghost use Rattle.gcl_model.specs.Extents.{Extent};

    ghost test: { Self → Extent → Bool };

    fn passes(&self, pair: Interval) -> bool
        ensures { result ≡ test self.now pair };
}

/// All pairs of addresses of the span that pass the test, in rising start and then rising end.
pub(crate) fn pairs_where<T: PairTest>(
    alloc: Global,
    span: Span,
    test: &T,
) -> Result<IntervalList, AllocError>
    ensures { IfOk result (λ list. list ≡ filter (T.test test.now) (all_extents span.first span.next)) }
{
    let mut list = IntervalList::new(alloc);
    for start in span.first..span.next {
        push_from(&mut list, start, span.next, test)?;
    }
    Ok(list)
}

/// Adds the pairs that begin at `start`.
fn push_from<T: PairTest>(
    list: &mut IntervalList,
    start: u64,
    next: u64,
    test: &T,
) -> Result<(), AllocError>
    ensures { OnOk result (list.new ≡ list.old ++
        filter (T.test test.now) (map (λ q. extent start q) (range_with_len start (next - start)))) }
{
    for end in start..next {
        let pair = Interval::new(start, end);
        if test.passes(pair) {
            list.push(pair)?;
        }
    }
    Ok(())
}

/// The members that pass the test.
pub(crate) fn members_where<T: PairTest>(
    alloc: Global,
    members: &[Interval],
    test: &T,
) -> Result<IntervalList, AllocError>
    ensures { IfOk result (λ list. list ≡ filter (T.test test.now) members.now) }
{
    let mut list = IntervalList::new(alloc);
    for member in members {
        if test.passes(*member) {
            list.push(*member)?;
        }
    }
    Ok(list)
}
