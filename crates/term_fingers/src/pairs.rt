ghost use Rattle.std.specs.Prelude.{◌≡◌, ℕ, ◌+◌, ◌-◌, ◌<◌, ◌≤◌, IsTrue, slice_index, length};
ghost use Rattle.posting_code.specs.Postings.{ArePostings};
ghost use Rattle.term_fingers.specs.Lists.{ArePassed, IsAt};

use crate::members::one_below;
use gcl_model::Pair;

/// An address at or after `k` before which no member of the first list has one of the second right after it, whether the member there does,
/// and the place in each list that the walk reached. The places where the walk starts are only hints.
// It is a function of its own, so that the walk has the registers for itself.
#[inline(never)]
pub(crate) fn earliest_pair_in(
    first: &[u64],
    second: &[u64],
    hints: (usize, usize),
    k: u64,
) -> (Pair, usize, usize)
    requires first { ArePostings first.now }
    requires second { ArePostings second.now }
    requires some { 0 < length second.now }
    requires within { 0 < length first.now }
    requires reach { k ≤ slice_index first.now (length first.now - 1) }
    ensures none { (p : ℕ) → k ≤ p → p < result.0.at → IsAt first.now p → IsAt second.now (p + 1) → ⊥ }
    ensures first { result.0.at ≤ slice_index first.now (length first.now - 1) + 1 }
    ensures second { result.0.at ≤ slice_index second.now (length second.now - 1) }
    ensures found { IsTrue result.0.found → IsAt first.now result.0.at × IsAt second.now (result.0.at + 1) }
{
    let at = place_from(first, hints.0, k);
    let behind = place_from(second, hints.1, k + 1);
    let (at, behind) = by_twos(first, second, at, behind, k);
    let (at, behind) = side_by_side(first, second, at, behind, k);
    if at < first.len() && behind < second.len() {
        let met = Pair {
            at: first[at],
            found: true,
        };
        return (met, at, behind);
    }
    let upto = Pair {
        at: address_at(first, at).min(second[second.len() - 1]),
        found: false,
    };
    (upto, at, behind)
}

/// A place before which all members are below `k`: that of the first member that is not, if the hint is right.
fn place_from(members: &[u64], hint: usize, k: u64) -> usize
    ensures within { result ≤ length members.now }
    ensures before { 0 < result → slice_index members.now (result - 1) < k }
{
    // a hint right after a member that is not below `k` is of no use
    let mut at = if 0 < hint && hint <= members.len() && members[hint - 1] < k {
        hint
    } else {
        0
    };
    while at < members.len() && members[at] < k {
        at += 1;
    }
    at
}

/// Walks through both lists together, starting at these places, by two members of the one or the other at a time, while none of the next
/// two of the second list comes right after one of the next two of the first.
// Each turn waits for the last one's, so fewer turns take less time, though each of them compares more.
fn by_twos(first: &[u64], second: &[u64], from: usize, from_behind: usize, k: u64) -> (usize, usize)
    requires first { ArePostings first.now }
    requires second { ArePostings second.now }
    requires within { from ≤ length first.now }
    requires within_behind { from_behind ≤ length second.now }
    requires passed { ArePassed first.now second.now k from from_behind }
    ensures within { result.0 ≤ length first.now }
    ensures within_behind { result.1 ≤ length second.now }
    ensures passed { ArePassed first.now second.now k result.0 result.1 }
{
    let mut at = from;
    let mut behind = from_behind;
    while at + 1 < first.len() && behind + 1 < second.len() && apart(first, second, at, behind) {
        let wanted = first[at + 1] + 1;
        let met = second[behind + 1];
        at += 2 * one_below(wanted, met);
        behind += 2 * one_below(met, wanted);
    }
    (at, behind)
}

/// Whether none of two members of the second list, starting at its place, comes right after one of two of the first.
#[inline(always)]
fn apart(first: &[u64], second: &[u64], at: usize, behind: usize) -> bool
    requires rising { ArePostings first.now }
    requires within { at + 1 < length first.now }
    requires within_behind { behind + 1 < length second.now }
    ensures near { IsTrue result → slice_index first.now at + 1 ≡ slice_index second.now behind → ⊥ }
    ensures near_last { IsTrue result → slice_index first.now at + 1 ≡ slice_index second.now (behind + 1) → ⊥ }
    ensures far { IsTrue result → slice_index first.now (at + 1) + 1 ≡ slice_index second.now behind → ⊥ }
    ensures far_last { IsTrue result → slice_index first.now (at + 1) + 1 ≡ slice_index second.now (behind + 1) → ⊥ }
{
    let near = first[at] + 1;
    let far = first[at + 1] + 1;
    let met = second[behind];
    let last = second[behind + 1];
    if near == met || near == last || far == met || far == last {
        return false;
    }
    true
}

/// Walks through both lists together, starting at these places, up to the first member of the first list that has a member of the second
/// right after it, or to the end of one list.
fn side_by_side(
    first: &[u64],
    second: &[u64],
    from: usize,
    from_behind: usize,
    k: u64,
) -> (usize, usize)
    requires first { ArePostings first.now }
    requires second { ArePostings second.now }
    requires within { from ≤ length first.now }
    requires within_behind { from_behind ≤ length second.now }
    requires passed { ArePassed first.now second.now k from from_behind }
    ensures within { result.0 ≤ length first.now }
    ensures passed { ArePassed first.now second.now k result.0 result.1 }
    ensures met { result.0 < length first.now → result.1 < length second.now →
        slice_index first.now result.0 + 1 ≡ slice_index second.now result.1 }
{
    let mut at = from;
    let mut behind = from_behind;
    while at < first.len() && behind < second.len() && first[at] + 1 != second[behind] {
        // which of the two moves on cannot be predicted, so it is counted without a branch
        let wanted = first[at] + 1;
        let met = second[behind];
        at += one_below(wanted, met);
        behind += one_below(met, wanted);
    }
    (at, behind)
}

/// The member at a place, or the address after the last one.
fn address_at(members: &[u64], at: usize) -> u64
    requires rising { ArePostings members.now }
    requires some { 0 < length members.now }
    requires within { at ≤ length members.now }
    ensures before { (x : ℕ) → x < length members.now → slice_index members.now x < result → x < at }
    ensures upto { result ≤ slice_index members.now (length members.now - 1) + 1 }
{
    if at == members.len() {
        members[at - 1] + 1
    } else {
        members[at]
    }
}
