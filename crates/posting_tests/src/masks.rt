ghost use Rattle.std.specs.Prelude.{◌<◌};

use crate::checks::{holds, same};
use address_space::Range;
use delete_mask::{Mask, SharedMask};
use gcl_model::ADDRESS_END;
use std::alloc::{AllocError, Global};
use std::process::Abort;
use std::test::Fail;

fn range(first: u64, last: u64) -> Option<Range> {
    if first <= last && last < ADDRESS_END {
        Some(Range { first, last })
    } else {
        None
    }
}

/// The range of the table that has the address.
fn among(ranges: &[(u64, u64)], p: u64) -> Option<Range> {
    let (first, last) = *ranges.iter().find(|r| r.0 <= p && p <= r.1)?;
    range(first, last)
}

/// The mask with one more range, which was apart from the others.
fn with_range<R: Abort>(rt: &R, mask: &Mask, first: u64, last: u64) -> Result<Mask, AllocError> {
    let added = range(first, last).expect(rt, "a range of the table");
    assert!(rt; mask.is_apart(added), "{first} to {last}");
    let mask = mask.with(added)?;
    holds(rt, &(first, last), !mask.is_apart(added));
    Ok(mask)
}

/// The mask that was given these ranges.
fn given_ranges<R: Abort>(rt: &R, alloc: Global, given: &[(u64, u64)]) -> Result<Mask, AllocError> {
    let mut mask = Mask::new(alloc);
    for (first, last) in given {
        mask = with_range(rt, &mask, *first, *last)?;
    }
    Ok(mask)
}

/// The mask has these ranges.
fn has_ranges<R: Abort>(rt: &R, mask: &Mask, want: &[(u64, u64)]) {
    same(rt, &want, &mask.range_count(), &want.len());
    for (dead, ends) in mask.ranges().iter().zip(want) {
        same(rt, &want, &(dead.first, dead.last), ends);
    }
}

/// The addresses in these ranges are dead, and no others.
fn has_dead<R: Abort>(rt: &R, mask: &Mask, want: &[(u64, u64)]) {
    for p in 0..15u64 {
        same(rt, &(p, want), &mask.dead(p), &among(want, p));
    }
}

/// The mask has these ranges, and their addresses are dead.
fn is_joined<R: Abort>(rt: &R, mask: &Mask, want: &[(u64, u64)]) {
    has_ranges(rt, mask, want);
    has_dead(rt, mask, want);
}

// The ranges that a mask is given, and those that it has then.
const MASKS: [(&[(u64, u64)], &[(u64, u64)]); 7] = [
    (&[], &[]),
    (&[(2, 4)], &[(2, 4)]),
    (&[(2, 4), (7, 9)], &[(2, 4), (7, 9)]),
    (&[(7, 9), (2, 4)], &[(2, 4), (7, 9)]),
    (&[(7, 9), (2, 4), (5, 6)], &[(2, 9)]),
    (
        &[(0, 0), (6, 6), (2, 2), (4, 4), (3, 3)],
        &[(0, 0), (2, 4), (6, 6)],
    ),
    (
        &[(11, 11), (0, 1), (5, 8), (2, 4), (12, 12)],
        &[(0, 8), (11, 12)],
    ),
];

#[test]
fn a_mask_has_the_ranges_that_it_was_given_joined_where_they_touch(
    rt: HostRuntime,
) -> Result<(), Fail> {
    for (given, want) in &MASKS {
        is_joined(&rt, &given_ranges(&rt, rt.alloc(), given)?, want);
    }
    Ok(())
}

/// The mask with two more addresses, starting at `first`, which were apart from the others.
fn with_two<R: Abort>(
    rt: &R,
    alloc: Global,
    shared: &SharedMask,
    first: u64,
) -> Result<SharedMask, AllocError> {
    let added = range(first, first.wrapping_add(1)).expect(rt, "a range of the table");
    let flat = shared.flat(alloc)?;
    assert!(rt; flat.is_apart(added), "{first}");
    shared.with(added)
}

/// The mask with, in addition, the first two of each four addresses, or the other two.
fn with_every_second<R: Abort>(
    rt: &R,
    alloc: Global,
    mask: SharedMask,
    between: u64,
) -> Result<SharedMask, AllocError>
    requires { between < 2 }
{
    let mut shared = mask;
    for i in 0..700u64 {
        shared = with_two(rt, alloc, &shared, i * 331 % 700 * 4 + 2 * between)?;
    }
    Ok(shared)
}

/// The mask has `count` ranges, and the first two of each four addresses are dead, or all.
fn has_every_second<R: Abort>(rt: &R, shared: &SharedMask, between: u64, count: usize) {
    same(rt, &between, &shared.range_count(), &count);
    for p in 0..2802u64 {
        let dead = p < 2800 && (between == 1 || p % 4 < 2);
        same(rt, &p, &shared.dead(p).is_some(), &dead);
    }
}

/// Every second range of many is given, in steps that come round to each, and then those between: parts are cut, and joined again.
#[test]
fn a_shared_mask_has_the_ranges_of_a_mask(rt: HostRuntime) -> Result<(), Fail> {
    let alloc = rt.alloc();
    let shared = with_every_second(&rt, alloc, SharedMask::new(alloc), 0)?;
    has_every_second(&rt, &shared, 0, 700);
    let shared = with_every_second(&rt, alloc, shared, 1)?;
    has_every_second(&rt, &shared, 1, 1);
    Ok(())
}
