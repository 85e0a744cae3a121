ghost use Rattle.std.specs.Prelude.{◌≡◌, ℕ, ◌+◌, ◌<◌, ◌≤◌, ◌||◌, [], length, IfOk};
ghost use Rattle.gcl_model.specs.Limits.{address_end};
ghost use Rattle.gcl_model.specs.Slots.{AreRangesWithin};
ghost use Rattle.delete_mask.specs.Masks.{is_within, is_dead, dead_range, IsApart, with_range};
ghost use Rattle.delete_mask.specs.Parts.{AreParts, ranges_in};

use crate::mask::Mask;
use crate::parts::{count_of, dead_among, flat, parts_with};
use crate::shared_part::SharedPart;
use address_space::Range;
use std::alloc::{AllocError, Global};
use std::marker::Model;

/// Dead ranges of addresses, in order, as a `Mask` has them. Adding a range copies those near it, and shares the others.
#[derive(Drop)]
pub struct SharedMask {
    parts: Vec<SharedPart>,
    count: usize,
}

impl Model for SharedMask {
    ghost use Rattle.std.specs.Prelude.{◌≡◌, List, length};
    ghost use Rattle.gcl_model.specs.Slots.{SlotRange};
    ghost use Rattle.delete_mask.specs.Parts.{AreParts, ranges_in};

    ghost Value = { List SlotRange };

    ghost view = { λ m. ranges_in m.parts.items };

    ghost invariant = { λ m. AreParts m.parts.items × (m.count ≡ length (ranges_in m.parts.items)) };
}

impl SharedMask {
    /// Nothing is dead. It takes no memory.
    pub fn new(alloc: Global) -> Self
        ensures { result ≡ [] }
    {
        SharedMask {
            parts: Vec::new(alloc),
            count: 0,
        }
    }

    /// The number of dead ranges. It takes one step.
    pub fn range_count(&self) -> usize
        ensures { result ≡ length self.now }
    {
        self.count
    }

    /// The dead ranges in rising address, in parts.
    pub fn parts(&self) -> &[SharedPart]
        ensures value { ranges_in result.now ≡ self.now }
        ensures apart { AreRangesWithin 0 address_end self.now }
    {
        self.parts.as_slice()
    }

    /// All dead ranges by themselves, copied.
    pub fn flat(&self, alloc: Global) -> Result<Mask, AllocError>
        ensures { IfOk result (λ mask. mask ≡ self.now) }
    {
        flat(alloc, self.parts.as_slice())
    }

    /// The dead range that has the address. It takes no memory.
    pub fn dead(&self, p: u64) -> Option<Range>
        ensures value { result ≡ dead_range self.now p }
        ensures apart { AreRangesWithin 0 address_end self.now }
    {
        dead_among(self.parts.as_slice(), p)
    }

    /// The mask whose dead addresses are these and those of the range.
    pub fn with(&self, range: Range) -> Result<SharedMask, AllocError>
        requires { IsApart range self.now }
        ensures value { IfOk result (λ mask. mask ≡ with_range range self.now) }
        ensures dead { IfOk result (λ mask. (p : ℕ) → is_dead mask p ≡ (is_within range p || is_dead self.now p)) }
        ensures count { IfOk result (λ mask. length mask ≤ length self.now + 1) }
        ensures within { IfOk result (λ mask. (low end : ℕ) → AreRangesWithin low end self.now → low ≤ range.first → range.last < end →
            AreRangesWithin low end mask) }
    {
        let alloc = *self.parts.allocator();
        let parts = parts_with(alloc, self.parts.as_slice(), range)?;
        let count = count_of(&parts);
        Ok(SharedMask { parts, count })
    }
}
