ghost use Rattle.std.specs.Prelude.{◌≡◌, ◌<◌, IfOk};
ghost use Rattle.posting_code.specs.Postings.{ArePostings};

use gcl_model::{Ledger, Question, Steps, uncounted};
use posting_access::at_or_after;
use posting_code::{ADDRESS_END, Postings, encode};
use std::alloc::{AllocError, Global};
use std::rt::Clock;
use std::time::Instant;

/// A step of a generator of numbers in no order.
fn drawn(state: u64) -> u64 {
    state
        .wrapping_mul(6364136223846793005)
        .wrapping_add(1442695040888963407)
}

/// The given number of addresses, with gaps from 1 to 16.
fn rising(alloc: Global, count: u64) -> Result<Vec<u64>, AllocError>
    ensures { IfOk result (λ numbers. ArePostings numbers.items) }
{
    let mut numbers = Vec::new(alloc);
    let mut next = 3u64;
    let mut state = 7u64;
    for i in 0..count {
        let _ = i;
        if ADDRESS_END <= next {
            return Ok(numbers);
        }
        numbers.push(next)?;
        state = drawn(state);
        next += 1 + (state >> 33) % 16;
    }
    Ok(numbers)
}

/// The least address of a list at or after `k`.
#[derive(Drop)]
struct LeastFrom<'a> {
    list: &'a Postings<'a>,
    k: u64,
}

impl Question for LeastFrom<'_> {
    ghost use Rattle.std.specs.Prelude.{◌≡◌, ◌+◌, ◌*◌, ⊤, length};
    ghost use Rattle.posting_access.specs.Search.{least_from};

    type Answer = Option<u64>;

    ghost can_ask = { λ _. ⊤ };

    ghost answers = { λ asked answer. answer ≡ least_from asked.list.now asked.k };

    ghost most = { λ asked _. 2 * length asked.list.now + 1 };

    fn ask<L: Ledger>(&self, probes: &mut Steps<L>) -> Option<u64> {
        at_or_after(self.list, self.k, probes)
    }
}

/// The nanoseconds of a million look-ups at random places, and the sum of what they found.
fn looked_up<R: Clock>(rt: &R, list: &Postings<'_>, end: u64) -> Option<(u64, u64)>
    requires { 0 < end }
{
    let start = Instant::now(rt).ok()?;
    let mut state = 5u64;
    let mut sum = 0u64;
    for i in 0..1_000_000u64 {
        let _ = i;
        state = drawn(state);
        let k = (state >> 20) % end;
        let found = uncounted(&LeastFrom { list, k });
        sum = sum.wrapping_add(found.unwrap_or(0));
    }
    let took = start.elapsed(rt).ok()?.as_nanos();
    Some((u64::try_from(took).ok()?, sum))
}

/// The same by halving over plain numbers.
fn halved<R: Clock>(rt: &R, members: &[u64], end: u64) -> Option<(u64, u64)>
    requires end { 0 < end }
{
    let start = Instant::now(rt).ok()?;
    let mut state = 5u64;
    let mut sum = 0u64;
    for i in 0..1_000_000u64 {
        let _ = i;
        state = drawn(state);
        let k = (state >> 20) % end;
        let at = members.partition_point(|p| *p < k);
        sum = sum.wrapping_add(members.get(at).copied().unwrap_or(0));
    }
    let took = start.elapsed(rt).ok()?.as_nanos();
    Some((u64::try_from(took).ok()?, sum))
}

/// The nanoseconds of a walk over all members, and their sum.
fn walked<R: Clock>(rt: &R, list: &Postings<'_>) -> Option<(u64, u64)> {
    let start = Instant::now(rt).ok()?;
    let mut sum = 0u64;
    let mut members = [0; 64];
    for block in 0..list.block_count() {
        let count = list.read_block(block, &mut members);
        for p in members.iter().take(count) {
            sum = sum.wrapping_add(*p);
        }
    }
    let took = start.elapsed(rt).ok()?.as_nanos();
    Some((u64::try_from(took).ok()?, sum))
}

fn summed<R: Clock>(rt: &R, members: &[u64]) -> Option<(u64, u64)> {
    let start = Instant::now(rt).ok()?;
    let mut sum = 0u64;
    for p in members {
        sum = sum.wrapping_add(*p);
    }
    let took = start.elapsed(rt).ok()?.as_nanos();
    Some((u64::try_from(took).ok()?, sum))
}

/// Prints the times of look-ups in a list of a million addresses with gaps from 1 to 16 and of a walk over it, each next to
/// the same over plain numbers.
pub(crate) fn measure_lists<R: Clock + Print + AllocGlobal>(rt: &R) -> Option<()> {
    let members = rising(rt.alloc(), 1_000_000).ok()?;
    let end = members.last().copied().unwrap_or(0).saturating_add(1);
    let list = encode(rt.alloc(), &members).ok()?;
    let list = list.as_postings();
    let (ours, found) = looked_up(rt, &list, end)?;
    let (plain, same) = halved(rt, &members, end)?;
    println!(rt;
        "1000000 look-ups {ours} ns, by partition_point {plain} ns, sums {found} {same}"
    ).ok()?;
    let (ours, found) = walked(rt, &list)?;
    let (plain, same) = summed(rt, &members)?;
    println!(rt; "walk of 1000000 {ours} ns, sum {plain} ns, sums {found} {same}").ok()
}
