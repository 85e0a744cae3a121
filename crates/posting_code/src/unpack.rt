ghost use Rattle.std.specs.Prelude.{ℕ, ◌≡◌, ◌+◌, ◌<◌, ◌≤◌, ◌∷◌, ◌++◌, length, get_or};
ghost use Rattle.std.specs.Prelude.{take, drop, reverse, find, nat_lt, nat_le, IfSome, IsNone, IsTrue};
ghost use Rattle.posting_code.specs.Ends.{IsStep};
ghost use Rattle.posting_code.specs.Packed.{CanUnpack, StandsAt, last_of, members_behind};
ghost use Rattle.posting_code.specs.Cuts.{IsCut};

use crate::head::Head;
use crate::number::{Number, get_number};

/// The byte at a place, or 0 if there is none.
#[inline(always)]
fn byte_at(packed: &[u8], at: usize) -> u8
    ensures { result ≡ get_or packed.now at 0 }
{
    packed.get(at).copied().unwrap_or(0)
}

/// The member after another one, and the place after its difference.
#[inline(always)]
fn next_member(packed: &[u8], before: u64, at: usize) -> Number
    requires can { CanUnpack packed.now before at }
    requires some { 0 < length (members_behind packed.now before at) }
    ensures next { members_behind packed.now before at ≡ result.value ∷ members_behind packed.now result.value result.after }
    ensures above { before < result.value }
    ensures within { at ≤ length packed.now → result.after ≤ length packed.now }
    ensures can { CanUnpack packed.now result.value result.after }
{
    match get_number(packed, at) {
        Some(number) => Number {
            value: before + number.value,
            after: number.after,
        },
        None => unreachable!(),
    }
}

/// The same, for differences of one byte and of two mixed in no order.
// A branch between them would often be mispredicted. So both are read the same way, and only longer ones by a branch.
#[inline(always)]
fn mixed_member(packed: &[u8], before: u64, at: usize) -> Number
    requires can { CanUnpack packed.now before at }
    requires some { 0 < length (members_behind packed.now before at) }
    ensures next { members_behind packed.now before at ≡ result.value ∷ members_behind packed.now result.value result.after }
    ensures above { before < result.value }
    ensures within { at ≤ length packed.now → result.after ≤ length packed.now }
    ensures can { CanUnpack packed.now result.value result.after }
{
    let first = packed[at];
    let second = byte_at(packed, at + 1);
    let more = first / 128;
    if more + second / 128 < 2 {
        let value = (first % 128) as u64 + more as u64 * (128 * second as u64);
        return Number {
            value: before + value,
            after: at + 1 + more as usize,
        };
    }
    next_member(packed, before, at)
}

/// How many differences of one byte are taken in one go.
// In long lists nearly all differences have one byte, and the 63 of a full block are nine such runs.
const RUN: usize = 7;

/// Whether the next differences have one byte each. Each byte is looked at, so that no branch depends on one alone.
#[inline(always)]
fn are_short(packed: &[u8], at: usize) -> bool
    requires within { at + 7 ≤ length packed.now }
    ensures { IsTrue result → (i : ℕ) → i < 7 → get_or packed.now (at + i) 0 < 128 }
{
    let mut all = 0u8;
    for i in 0..RUN {
        all |= packed[at + i];
    }
    all < 128
}

/// Writes the next seven members, whose differences have one byte each, starting at a place, and returns the last of them.
#[inline(always)]
fn put_run(packed: &[u8], before: u64, at: usize, into: &mut [u64], place: usize) -> u64
    requires can { CanUnpack packed.now before at }
    requires enough { 7 ≤ length (members_behind packed.now before at) }
    requires short { (i : ℕ) → i < 7 → get_or packed.now (at + i) 0 < 128 }
    requires room { place + 7 ≤ length into.old }
    ensures long { length into.new ≡ length into.old }
    ensures members { take (place + 7) into.new ≡ take place into.old ++ take 7 (members_behind packed.now before at) }
    ensures rest { drop 7 (members_behind packed.now before at) ≡ members_behind packed.now result (at + 7) }
    ensures can { CanUnpack packed.now result (at + 7) }
{
    let mut member = before;
    for i in 0..RUN {
        member += packed[at + i] as u64;
        into[place + i] = member;
    }
    member
}

/// Writes the next `count` members starting at a place, and returns the last of them and the place after its difference.
fn put_each(packed: &[u8], before: Number, into: &mut [u64], place: usize, count: usize) -> Number
    requires can { CanUnpack packed.now before.value before.after }
    requires enough { count ≤ length (members_behind packed.now before.value before.after) }
    requires room { place + count ≤ length into.old }
    ensures long { length into.new ≡ length into.old }
    ensures members { take (place + count) into.new ≡ take place into.old ++
        take count (members_behind packed.now before.value before.after) }
    ensures rest { drop count (members_behind packed.now before.value before.after) ≡ members_behind packed.now result.value result.after }
    ensures can { CanUnpack packed.now result.value result.after }
{
    let mut member = before;
    for i in 0..count {
        member = mixed_member(packed, member.value, member.after);
        into[place + i] = member.value;
    }
    member
}

/// Writes the next seven members starting at a place, whatever their differences, and returns the last of them and the place after its
/// difference.
#[inline(always)]
fn put_seven(packed: &[u8], before: Number, into: &mut [u64], place: usize) -> Number
    requires can { CanUnpack packed.now before.value before.after }
    requires enough { 7 ≤ length (members_behind packed.now before.value before.after) }
    requires room { place + 7 ≤ length into.old }
    ensures long { length into.new ≡ length into.old }
    ensures members { take (place + 7) into.new ≡ take place into.old ++ take 7 (members_behind packed.now before.value before.after) }
    ensures rest { drop 7 (members_behind packed.now before.value before.after) ≡ members_behind packed.now result.value result.after }
    ensures can { CanUnpack packed.now result.value result.after }
{
    if are_short(packed, before.after) {
        let value = put_run(packed, before.value, before.after, into, place);
        return Number {
            value,
            after: before.after + RUN,
        };
    }
    put_each(packed, before, into, place, RUN)
}

/// Fills `into` with the first member and those after it.
pub(crate) fn unpack(packed: &[u8], first: u64, at: usize, into: &mut [u64])
    requires can { CanUnpack packed.now first at }
    requires some { 0 < length into.old }
    requires enough { length into.old ≤ length (members_behind packed.now first at) + 1 }
    ensures { into.new ≡ take (length into.old) (first ∷ members_behind packed.now first at) }
{
    into[0] = first;
    let mut member = Number {
        value: first,
        after: at,
    };
    let mut place = 1;
    while RUN <= into.len() - place {
        member = put_seven(packed, member, into, place);
        place += RUN;
    }
    let left = into.len() - place;
    put_each(packed, member, into, place, left);
}

/// The last member of a run after a member, if each difference is one byte.
#[inline(always)]
fn pass_run(packed: &[u8], before: u64, at: usize) -> u64
    requires can { CanUnpack packed.now before at }
    requires enough { 7 ≤ length (members_behind packed.now before at) }
    requires short { (i : ℕ) → i < 7 → get_or packed.now (at + i) 0 < 128 }
    ensures rest { drop 7 (before ∷ members_behind packed.now before at) ≡ result ∷ members_behind packed.now result (at + 7) }
    ensures can { CanUnpack packed.now result (at + 7) }
{
    let mut member = before;
    for i in 0..RUN {
        member += packed[at + i] as u64;
    }
    member
}

/// The place of the member that comes `steps` after another one, by a look at each.
fn pass_each(packed: &[u8], head: Head, steps: usize) -> Head
    requires can { CanUnpack packed.now head.first head.at }
    requires enough { steps ≤ length (members_behind packed.now head.first head.at) }
    ensures rest { drop steps (head.first ∷ members_behind packed.now head.first head.at)
        ≡ result.first ∷ members_behind packed.now result.first result.at }
    ensures can { CanUnpack packed.now result.first result.at }
    ensures within { head.at ≤ length packed.now → result.at ≤ length packed.now }
{
    let mut member = head;
    for step in 0..steps {
        let _ = step;
        let next = mixed_member(packed, member.first, member.at);
        member = Head {
            first: next.value,
            at: next.after,
        };
    }
    member
}

/// The place of the member that comes seven after another one.
#[inline(always)]
fn pass_seven(packed: &[u8], head: Head) -> Head
    requires can { CanUnpack packed.now head.first head.at }
    requires enough { 7 ≤ length (members_behind packed.now head.first head.at) }
    ensures rest { drop 7 (head.first ∷ members_behind packed.now head.first head.at)
        ≡ result.first ∷ members_behind packed.now result.first result.at }
    ensures can { CanUnpack packed.now result.first result.at }
    ensures within { head.at ≤ length packed.now → result.at ≤ length packed.now }
{
    if are_short(packed, head.at) {
        let first = pass_run(packed, head.first, head.at);
        return Head {
            first,
            at: head.at + RUN,
        };
    }
    pass_each(packed, head, RUN)
}

/// The place of the member that comes `steps` after another one.
pub(crate) fn walk(packed: &[u8], head: Head, steps: usize) -> Head
    requires can { CanUnpack packed.now head.first head.at }
    requires within { head.at ≤ length packed.now }
    requires enough { steps ≤ length (members_behind packed.now head.first head.at) }
    ensures rest { drop steps (head.first ∷ members_behind packed.now head.first head.at)
        ≡ result.first ∷ members_behind packed.now result.first result.at }
    ensures can { CanUnpack packed.now result.first result.at }
    ensures within { result.at ≤ length packed.now }
{
    let mut member = head;
    let mut left = steps;
    while RUN <= left {
        member = pass_seven(packed, member);
        left -= RUN;
    }
    pass_each(packed, member, left)
}

/// Where the spelling that ends before a place begins, at `from` or later: the byte in front of it ends another one.
#[inline(always)]
fn start_of(packed: &[u8], from: usize, end: usize) -> usize
    requires within { end ≤ length packed.now }
    requires step { (at : ℕ) × IsStep packed.now from at end }
    ensures { (at : ℕ) → IsStep packed.now from at end → result ≡ at }
{
    let mut at = end - 1;
    while from < at && 128 <= packed[at - 1] {
        at -= 1;
    }
    at
}

/// The member before another one, by the difference between them.
pub(crate) fn member_before(packed: &[u8], first: Head, next: Head) -> Head
    requires can { CanUnpack packed.now first.first first.at }
    requires within { first.at ≤ length packed.now }
    requires next { (steps : ℕ) × StandsAt (first.first ∷ members_behind packed.now first.first first.at) packed.now (steps + 1) next }
    ensures { (steps : ℕ) → StandsAt (first.first ∷ members_behind packed.now first.first first.at) packed.now (steps + 1) next →
        StandsAt (first.first ∷ members_behind packed.now first.first first.at) packed.now steps result }
{
    let at = start_of(packed, first.at, next.at);
    match get_number(packed, at) {
        Some(number) => Head {
            first: next.first - number.value,
            at,
        },
        None => unreachable!(),
    }
}

/// A member, and how many steps it is after the first.
#[derive(Clone, Copy)]
struct Stop {
    steps: usize,
    member: Head,
}

/// The first member, or a later one below `k`, at most `behind` steps after it. It goes by runs while they end below `k`.
#[inline(always)]
fn leap_below(packed: &[u8], first: Head, behind: usize, k: u64) -> Stop
    requires can { CanUnpack packed.now first.first first.at }
    requires enough { behind ≤ length (members_behind packed.now first.first first.at) }
    ensures rest { drop result.steps (first.first ∷ members_behind packed.now first.first first.at)
        ≡ result.member.first ∷ members_behind packed.now result.member.first result.member.at }
    ensures can { CanUnpack packed.now result.member.first result.member.at }
    ensures within { first.at ≤ length packed.now → result.member.at ≤ length packed.now }
    ensures few { result.steps ≤ behind }
    ensures below { 0 < result.steps → result.member.first < k }
{
    let mut stop = Stop {
        steps: 0,
        member: first,
    };
    while RUN <= behind - stop.steps {
        let member = pass_seven(packed, stop.member);
        if k <= member.first {
            return stop;
        }
        stop = Stop {
            steps: stop.steps + RUN,
            member,
        };
    }
    stop
}

/// A place between two members: the steps from the first to the last before it, and where that one and the one after it are.
#[derive(Clone, Copy)]
pub(crate) struct Cut {
    pub(crate) steps: usize,
    pub(crate) before: Head,
    pub(crate) behind: Head,
}

/// Where the members at or after `k` begin among the first, which is below it, and `behind` after it. None if all are below.
pub(crate) fn cut_before(packed: &[u8], first: Head, behind: usize, k: u64) -> Option<Cut>
    requires can { CanUnpack packed.now first.first first.at }
    requires within { first.at ≤ length packed.now }
    requires enough { behind ≤ length (members_behind packed.now first.first first.at) }
    requires below { first.first < k }
    ensures cut { IfSome result (IsCut (first.first ∷ members_behind packed.now first.first first.at) packed.now) }
    ensures below { IfSome result (λ cut. cut.before.first < k) }
    ensures from { IfSome result (λ cut. k ≤ cut.behind.first) }
    ensures none { IsNone result → last_of (first.first ∷ take behind (members_behind packed.now first.first first.at)) < k }
{
    let stop = leap_below(packed, first, behind, k);
    let mut before = stop.member;
    for steps in stop.steps..behind {
        let next = mixed_member(packed, before.first, before.at);
        let next = Head {
            first: next.value,
            at: next.after,
        };
        if k <= next.first {
            return Some(Cut {
                steps,
                before,
                behind: next,
            });
        }
        before = next;
    }
    None
}

/// The greatest before `k` and the least at or after `k`, of the first member and `behind` after it.
pub(crate) fn around_in(
    packed: &[u8],
    first: u64,
    at: usize,
    behind: usize,
    k: u64,
) -> (Option<u64>, Option<u64>)
    requires can { CanUnpack packed.now first at }
    requires enough { behind ≤ length (members_behind packed.now first at) }
    ensures below { result.0 ≡ find (λ p. nat_lt p k) (reverse (first ∷ take behind (members_behind packed.now first at))) }
    ensures from { result.1 ≡ find (λ p. nat_le k p) (first ∷ take behind (members_behind packed.now first at)) }
{
    let stop = leap_below(packed, Head { first, at }, behind, k);
    let mut member = Number {
        value: stop.member.first,
        after: stop.member.at,
    };
    let mut left = behind - stop.steps;
    let mut below = None;
    while member.value < k {
        below = Some(member.value);
        if left == 0 {
            return (below, None);
        }
        member = next_member(packed, member.value, member.after);
        left -= 1;
    }
    (below, Some(member.value))
}
