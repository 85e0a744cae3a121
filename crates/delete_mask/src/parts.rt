ghost use Rattle.std.specs.Prelude.{◌≡◌, ◌-◌, ◌+◌, ◌≤◌, ◌<◌, ◌++◌, nat_le, nat_lt, length, IfOk, OnOk};
ghost use Rattle.std.specs.List.{AllByRecursion, prefix_len};
ghost use Rattle.gcl_model.specs.Limits.{address_end};
ghost use Rattle.gcl_model.specs.Slots.{AreRangesWithin};
ghost use Rattle.delete_mask.specs.Masks.{dead_range, IsApart, with_range};
ghost use Rattle.delete_mask.specs.Parts.{AreParts, IsInhabited, first_dead, last_dead, ranges_in};

use crate::mask::Mask;
use crate::shared_part::SharedPart;
use address_space::Range;
use std::alloc::{AllocError, Global};

/// Adding a range copies two parts of at most this many ranges, most often one, and the places of all parts.
const PART_MOST: usize = 256;

/// How many ranges the parts have together.
pub(crate) fn count_of(parts: &[SharedPart]) -> usize
    requires { AreRangesWithin 0 address_end (ranges_in parts.now) }
    ensures { result ≡ length (ranges_in parts.now) }
{
    let mut count = 0;
    for part in parts {
        count += part.mask().range_count();
    }
    count
}

/// The ranges of the parts, copied.
pub(crate) fn flat(alloc: Global, parts: &[SharedPart]) -> Result<Mask, AllocError>
    requires { AreRangesWithin 0 address_end (ranges_in parts.now) }
    ensures { IfOk result (λ mask. mask ≡ ranges_in parts.now) }
{
    let mut ranges = Vec::new(alloc);
    for part in parts {
        ranges.extend_from_slice(part.mask().ranges())?;
    }
    Ok(Mask::of(ranges))
}

/// The range of the parts that has the address.
pub(crate) fn dead_among(parts: &[SharedPart], p: u64) -> Option<Range>
    requires { AreParts parts.now }
    ensures { result ≡ dead_range (ranges_in parts.now) p }
{
    match parts.get(count_before(parts, p)) {
        Some(part) => part.mask().dead(p),
        None => None,
    }
}

/// How many of the parts end before the address.
fn count_before(parts: &[SharedPart], p: u64) -> usize
    requires { AreParts parts.now }
    ensures count { result ≡ prefix_len (λ ranges. nat_lt (last_dead ranges) p) parts.now }
    ensures within { result ≤ length parts.now }
{
    parts.partition_point(
        |part: &SharedPart| -> bool
            ensures { result ≡ nat_lt (last_dead part.now) p }
        { part.last() < p },
    )
}

/// How many of the parts begin at the address or before it.
fn count_begun(parts: &[SharedPart], p: u64) -> usize
    requires { AreParts parts.now }
    ensures count { result ≡ prefix_len (λ ranges. nat_le (first_dead ranges) p) parts.now }
    ensures within { result ≤ length parts.now }
{
    parts.partition_point(
        |part: &SharedPart| -> bool
            ensures { result ≡ nat_le (first_dead part.now) p }
        { part.first() <= p },
    )
}

/// The parts with one range more. Those near it are made anew, and the others shared.
pub(crate) fn parts_with(
    alloc: Global,
    parts: &[SharedPart],
    range: Range,
) -> Result<Vec<SharedPart>, AllocError>
    requires parts { AreParts parts.now }
    requires apart { IsApart range (ranges_in parts.now) }
    ensures value { IfOk result (λ made. ranges_in made.items ≡ with_range range (ranges_in parts.now)) }
    ensures parts { IfOk result (λ made. AreParts made.items) }
    ensures some { range.first ≤ range.last }
    ensures in_range { range.last < address_end }
{
    let (at, upto) = around(parts, range);
    let (front, behind) = parts.split_at(upto);
    let (before, near) = front.split_at(at);
    let joined = flat(alloc, near)?.with(range)?;
    let made = in_parts(alloc, before, joined.ranges(), behind)?;
    Ok(made)
}

/// The ranges in parts of their own, between others that are shared.
// Room for all of them is reserved at the start: each part that is cut except the last has half of `PART_MOST` ranges or more.
fn in_parts(
    alloc: Global,
    before: &[SharedPart],
    ranges: &[Range],
    behind: &[SharedPart],
) -> Result<Vec<SharedPart>, AllocError>
    requires { AreRangesWithin 0 address_end ranges.now }
    ensures value { IfOk result (λ made. ranges_in made.items ≡ ranges_in before.now ++ (ranges.now ++ ranges_in behind.now)) }
    ensures inhabited { IfOk result (λ made.
        AllByRecursion IsInhabited before.now → AllByRecursion IsInhabited behind.now → AllByRecursion IsInhabited made.items) }
{
    let most = ranges.len() / (PART_MOST / 2) + 1;
    let mut made = Vec::with_capacity(alloc, before.len() + most + behind.len())?;
    put_shares(&mut made, before)?;
    put_cut(alloc, &mut made, ranges)?;
    put_shares(&mut made, behind)?;
    Ok(made)
}

/// The first part near the range, and the end of those near it: those that it touches, or else one next to it, if there is one.
fn around(parts: &[SharedPart], range: Range) -> (usize, usize)
    requires { AreParts parts.now }
    ensures clear { result.0 ≤ prefix_len (λ ranges. nat_lt (last_dead ranges) (range.first - 1)) parts.now }
    ensures begun { prefix_len (λ ranges. nat_le (first_dead ranges) (range.last + 1)) parts.now ≤ result.1 }
    ensures ordered { result.0 ≤ result.1 }
    ensures within { result.1 ≤ length parts.now }
    ensures some { range.first ≤ range.last }
    ensures in_range { range.last < address_end }
{
    let at = count_before(parts, range.first.saturating_sub(1));
    let upto = count_begun(parts, range.last + 1).max(at);
    if at < upto {
        (at, upto)
    } else if at > 0 {
        (at - 1, upto)
    } else {
        (at, parts.len().min(1))
    }
}

/// Appends the parts. They are shared.
fn put_shares(into: &mut Vec<SharedPart>, parts: &[SharedPart]) -> Result<(), AllocError>
    ensures { OnOk result (into.new.items ≡ into.old.items ++ parts.now) }
{
    for part in parts {
        into.push(part.share()?)?;
    }
    Ok(())
}

/// Appends the ranges, in parts of at most `PART_MOST`. If there are more, none of the parts is short.
fn put_cut(alloc: Global, into: &mut Vec<SharedPart>, ranges: &[Range]) -> Result<(), AllocError>
    requires { AreRangesWithin 0 address_end ranges.now }
    ensures value { OnOk result (ranges_in into.new.items ≡ ranges_in into.old.items ++ ranges.now) }
    ensures inhabited { OnOk result (AllByRecursion IsInhabited into.old.items → AllByRecursion IsInhabited into.new.items) }
{
    let mut rest = ranges;
    while rest.len() > 0 {
        let (front, behind) = rest.split_at(cut(rest.len()));
        into.push(part_of(alloc, front)?)?;
        rest = behind;
    }
    Ok(())
}

/// How many of this many ranges the next part has.
fn cut(count: usize) -> usize
    requires { 0 < count }
    ensures some { 0 < result }
    ensures within { result ≤ count }
{
    if count <= PART_MOST {
        count
    } else {
        (count / 2).min(PART_MOST)
    }
}

fn part_of(alloc: Global, ranges: &[Range]) -> Result<SharedPart, AllocError>
    requires some { 0 < length ranges.now }
    requires apart { AreRangesWithin 0 address_end ranges.now }
    ensures { IfOk result (λ part. part ≡ ranges.now) }
{
    let mut copied = Vec::with_capacity(alloc, ranges.len())?;
    copied.extend_from_slice(ranges)?;
    SharedPart::new(alloc, Mask::of(copied))
}
