ghost use Rattle.std.specs.Prelude.{◌≡◌, ◌+◌, ◌*◌, ◌-◌, ◌<◌, ◌≤◌, IfSome, IsTrue, slice_index, length};
ghost use Rattle.posting_code.specs.Postings.{ArePostings};
ghost use Rattle.posting_access.specs.Search.{least_from, greatest_to};
ghost use Rattle.index_shard.specs.Searched.{nearest};
ghost use Rattle.term_fingers.specs.Lists.{AreBelow, EndBetween, one_below, size_below};

use crate::gallop::border_near;
use gcl_model::Direction;
use posting_access::Test;
use posting_code::BLOCK;

/// The members before `k`.
#[derive(Drop)]
struct Below<'a> {
    members: &'a [u64],
    k: u64,
}

impl<'a> Test for Below<'a> {
    ghost use Rattle.std.specs.Prelude.{nat_lt, slice_index, length};

    ghost places = { λ t. length t.members.now };

    ghost passes = { λ t i. nat_lt (slice_index t.members.now i) t.k };

    fn passes_at(&self, i: usize) -> bool {
        self.members[i] < self.k
    }
}

/// Whether `k` lies between the first member and the last one.
#[inline(always)]
pub(crate) fn reach_around(members: &[u64], k: u64) -> bool
    ensures { IsTrue result → (0 < length members.now) × (slice_index members.now 0 ≤ k) ×
        (k ≤ slice_index members.now (length members.now - 1)) }
{
    let count = members.len();
    if count == 0 || k < members[0] || members[count - 1] < k {
        return false;
    }
    true
}

/// How many members are below `k`: they are the first ones. The search starts at the place `hint`, and any hint is right.
#[inline(always)]
fn count_below(members: &[u64], hint: usize, k: u64) -> usize
    requires { ArePostings members.now }
    ensures { AreBelow members.now k result }
{
    if let Some(at) = soon(members, hint, k) {
        return at;
    }
    count_far_below(members, hint, k)
}

/// The same if they may end anywhere.
// Where they end cannot be predicted, so a whole block is searched without a branch. Fewer members are searched from the hint: halving all
// of them, as `partition_point` does, takes more tests.
#[inline(never)]
fn count_far_below(members: &[u64], hint: usize, k: u64) -> usize
    requires { ArePostings members.now }
    ensures { AreBelow members.now k result }
{
    if members.len() == BLOCK {
        return below_in_block(members, k);
    }
    border_near(&Below { members, k }, members.len(), hint)
}

/// The same if the last of them is right before the place `hint`, or at it or one of the two places after it. Most look-ups go on that far.
#[inline(always)]
fn soon(members: &[u64], hint: usize, k: u64) -> Option<usize>
    requires { ArePostings members.now }
    ensures { IfSome result (AreBelow members.now k) }
{
    let before = hint.checked_sub(1)?;
    let room = members.len().checked_sub(4)?;
    if room < hint || k <= members[before] || members[hint + 3] < k {
        return None;
    }
    Some(below_in_four(members, hint, k))
}

/// The same in a whole block.
#[inline]
fn below_in_block(members: &[u64], k: u64) -> usize
    requires rising { ArePostings members.now }
    requires whole { length members.now ≡ 64 }
    ensures { AreBelow members.now k result }
{
    let at = quarter(members, 0, 16, k);
    let at = quarter(members, at, 4, k);
    below_in_four(members, at, k)
}

/// The same if the last of them is right before the place `from`, or one of the four that start there.
#[inline(always)]
fn below_in_four(members: &[u64], from: usize, k: u64) -> usize
    requires rising { ArePostings members.now }
    requires within { from + 4 ≤ length members.now }
    requires ends { EndBetween members.now k from (from + 4) }
    ensures { AreBelow members.now k result }
{
    let at = quarter(members, from, 1, k);
    at + one_below(members[at], k)
}

/// Of four parts with `size` members each, the one in which those below `k` end, by the place where it begins.
#[inline(always)]
fn quarter(members: &[u64], from: usize, size: usize, k: u64) -> usize
    requires rising { ArePostings members.now }
    requires some { 0 < size }
    requires within { from + 4 * size ≤ length members.now }
    requires ends { EndBetween members.now k from (from + 4 * size) }
    ensures within { result + size ≤ length members.now }
    ensures ends { EndBetween members.now k result (result + size) }
{
    from + size_below(members[from + size - 1], k, size)
        + size_below(members[from + 2 * size - 1], k, size)
        + size_below(members[from + 3 * size - 1], k, size)
}

/// The size of a part whose last member is below `k`, else 0.
#[inline(always)]
fn size_below(last: u64, k: u64, size: usize) -> usize
    ensures { result ≡ size_below last k size }
{
    if last < k { size } else { 0 }
}

/// 1 for a member below `k`, else 0.
#[inline(always)]
pub(crate) fn one_below(member: u64, k: u64) -> usize
    ensures { result ≡ one_below member k }
{
    if member < k { 1 } else { 0 }
}

/// The least member at or after `k`, and its place. The search starts at the place `hint`.
#[inline(always)]
pub(crate) fn least_in(members: &[u64], hint: usize, k: u64) -> (Option<u64>, usize)
    requires { ArePostings members.now }
    ensures { result.0 ≡ least_from members.now k }
{
    let at = count_below(members, hint, k);
    if at == members.len() {
        return (None, at);
    }
    (Some(members[at]), at)
}

/// The greatest member at or before `k`, and the place after it. The search starts at the place `hint`.
#[inline(always)]
pub(crate) fn greatest_in(members: &[u64], hint: usize, k: u64) -> (Option<u64>, usize)
    requires { ArePostings members.now }
    ensures { result.0 ≡ greatest_to members.now k }
{
    let behind = count_below(members, hint, k.saturating_add(1));
    let Some(at) = behind.checked_sub(1) else {
        return (None, behind);
    };
    (Some(members[at]), behind)
}

/// The member that is nearest to `k` on one side, and its place or the next one. The search starts at the place `hint`.
#[inline(always)]
pub(crate) fn nearest_in(
    members: &[u64],
    hint: usize,
    k: u64,
    direction: Direction,
) -> (Option<u64>, usize)
    requires { ArePostings members.now }
    ensures { result.0 ≡ nearest direction members.now k }
{
    match direction {
        Direction::Forward => least_in(members, hint, k),
        Direction::Backward => greatest_in(members, hint, k),
    }
}
