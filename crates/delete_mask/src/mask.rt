ghost use Rattle.std.specs.Prelude.{◌≡◌, ℕ, ◌+◌, ◌<◌, ◌≤◌, ◌↔◌, ◌||◌, nat_lt, IsTrue, List, [], ◌∷◌, ◌++◌, length, IfOk};
ghost use Rattle.std.specs.List.{prefix_len, slice_get};
ghost use Rattle.gcl_model.specs.Slots.{SlotRange, AreRangesWithin};
ghost use Rattle.delete_mask.specs.Masks.{is_within, is_dead, dead_range, IsApart, with_range};
ghost use Rattle.gcl_model.specs.Limits.{address_end};

use address_space::Range;
use std::alloc::{AllocError, Global};
use std::marker::Model;

/// Dead ranges of addresses, in order. An added range is joined with those that it touches.
#[derive(Drop)]
pub struct Mask {
    ranges: Vec<Range>,
}

impl Model for Mask {
    ghost use Rattle.gcl_model.specs.Limits.{address_end};
    ghost use Rattle.std.specs.Prelude.{List};
    ghost use Rattle.gcl_model.specs.Slots.{SlotRange, AreRangesWithin};

    ghost Value = { List SlotRange };

    ghost view = { λ m. m.ranges.items };

    ghost invariant = { λ m. AreRangesWithin 0 address_end m.ranges.items };
}

impl Mask {
    /// Nothing is dead. It takes no memory.
    pub fn new(alloc: Global) -> Self
        ensures { result ≡ [] }
    {
        Mask {
            ranges: Vec::new(alloc),
        }
    }

    pub(crate) fn of(ranges: Vec<Range>) -> Self
        requires { AreRangesWithin 0 address_end ranges.items }
        ensures { result ≡ ranges.items }
    {
        Mask { ranges }
    }

    /// The number of dead ranges.
    pub fn range_count(&self) -> usize
        ensures { result ≡ length self.now }
    {
        self.ranges.len()
    }

    /// The dead ranges, in rising address.
    pub fn ranges(&self) -> &[Range]
        ensures value { result.now ≡ self.now }
        ensures apart { AreRangesWithin 0 address_end self.now }
    {
        self.ranges.as_slice()
    }

    /// The dead range that has the address. It takes no memory.
    pub fn dead(&self, p: u64) -> Option<Range>
        ensures value { result ≡ dead_range self.now p }
        ensures apart { AreRangesWithin 0 address_end self.now }
    {
        let range = self.range_at(self.count_before(p))?;
        if range.first <= p { Some(range) } else { None }
    }

    /// Whether no address of the range is dead. It takes no memory.
    pub fn is_apart(&self, range: Range) -> bool
        ensures { IsTrue result ↔ IsApart range self.now }
    {
        match self.range_at(self.count_before(range.first)) {
            Some(dead) => range.last < dead.first,
            None => true,
        }
    }

    /// The mask whose dead addresses are these and those of the range. It takes one allocation of the right size.
    pub fn with(&self, range: Range) -> Result<Mask, AllocError>
        requires { IsApart range self.now }
        ensures value { IfOk result (λ mask. mask ≡ with_range range self.now) }
        ensures dead { IfOk result (λ mask. (p : ℕ) → is_dead mask p ≡ (is_within range p || is_dead self.now p)) }
        ensures count { IfOk result (λ mask. length mask ≤ length self.now + 1) }
        ensures within { IfOk result (λ mask. (low end : ℕ) → AreRangesWithin low end self.now → low ≤ range.first → range.last < end →
            AreRangesWithin low end mask) }
    {
        let ranges = self.ranges_with(range)?;
        Ok(Mask { ranges })
    }

    fn ranges_with(&self, range: Range) -> Result<Vec<Range>, AllocError>
        requires { IsApart range self.now }
        ensures value { IfOk result (λ ranges. ranges.items ≡ with_range range self.now) }
        ensures apart { AreRangesWithin 0 address_end self.now }
        ensures ordered { range.first ≤ range.last }
        ensures in_range { range.last < address_end }
    {
        let (before, after) = self.split_around(range);
        let (before, range) = joined_before(before, range);
        let (range, after) = joined_after(range, after);
        in_order(*self.ranges.allocator(), before, range, after)
    }

    /// The ranges before this one, and those after it.
    fn split_around(&self, range: Range) -> (&[Range], &[Range])
        requires { IsApart range self.now }
        ensures whole { self.now ≡ result.0.now ++ result.1.now }
        ensures before { AreRangesWithin 0 range.first result.0.now }
        ensures after { AreRangesWithin (range.last + 1) address_end result.1.now }
        ensures apart { AreRangesWithin 0 address_end self.now }
    {
        let at = self.count_before(range.first);
        self.ranges.as_slice().split_at(at)
    }

    fn range_at(&self, at: usize) -> Option<Range>
        ensures { result ≡ slice_get self.now at }
    {
        self.ranges.as_slice().get(at).copied()
    }

    /// How many of the ranges end before the address.
    fn count_before(&self, p: u64) -> usize
        ensures count { result ≡ prefix_len (λ range. nat_lt range.last p) self.now }
        ensures apart { AreRangesWithin 0 address_end self.now }
    {
        self.ranges.as_slice().partition_point(
            |range: &Range| -> bool
                ensures { result ≡ nat_lt range.now.last p }
            { range.last < p },
        )
    }
}

/// The ranges left before the range, and the range, joined with the last one before it if they touch.
fn joined_before(before: &[Range], range: Range) -> (&[Range], Range)
    requires { AreRangesWithin 0 range.first before.now }
    ensures joined { (after : List SlotRange) → with_range range (before.now ++ after) ≡ result.0.now ++ with_range result.1 after }
    ensures end { result.1.last ≡ range.last }
{
    let [rest @ .., last] = before else {
        return (before, range);
    };
    if last.last + 1 != range.first {
        return (before, range);
    }
    let joined = Range {
        first: last.first,
        last: range.last,
    };
    (rest, joined)
}

/// The range, joined with the first one after it if they touch, and the ranges left after it.
fn joined_after(range: Range, after: &[Range]) -> (Range, &[Range])
    requires { AreRangesWithin (range.last + 1) address_end after.now }
    ensures { with_range range after.now ≡ result.0 ∷ result.1.now }
{
    match after {
        [first, rest @ ..] if range.last + 1 == first.first => (
            Range {
                first: range.first,
                last: first.last,
            },
            rest,
        ),
        _ => (range, after),
    }
}

fn in_order(
    alloc: Global,
    before: &[Range],
    range: Range,
    after: &[Range],
) -> Result<Vec<Range>, AllocError>
    ensures { IfOk result (λ ranges. ranges.items ≡ before.now ++ range ∷ after.now) }
{
    let mut ranges = Vec::with_capacity(alloc, before.len() + 1 + after.len())?;
    ranges.extend_from_slice(before)?;
    ranges.push(range)?;
    ranges.extend_from_slice(after)?;
    Ok(ranges)
}
