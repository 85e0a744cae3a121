ghost use Rattle.std.specs.Prelude.{◌≡◌, ◌+◌};
ghost use Rattle.gcl_model.specs.Meaning.{ends_in_order, runs_in_order};

use gcl_model::{Interval, IntervalList};

/// Whether the pair runs from the start of a member of the first list to the end of a member of the last,
/// with members of the others in order between.
pub(crate) fn runs_in_order(lists: &[IntervalList], pair: Interval) -> bool
    ensures { result ≡ runs_in_order lists.now pair }
{
    let Some((list, rest)) = lists.split_first() else {
        return false;
    };
    for member in list.as_slice() {
        let member = *member;
        if member.start == pair.start && ends_in_order(rest, member.end, pair.end) {
            return true;
        }
    }
    false
}

/// Whether members of the lists follow in order, the first after `last`, the last of them ending at `end`.
fn ends_in_order(lists: &[IntervalList], last: u64, end: u64) -> bool
    ensures { result ≡ ends_in_order lists.now (last + 1) end }
{
    let Some((list, rest)) = lists.split_first() else {
        return last == end;
    };
    for member in list.as_slice() {
        let member = *member;
        if last < member.start && ends_in_order(rest, member.end, end) {
            return true;
        }
    }
    false
}
