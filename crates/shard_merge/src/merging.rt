ghost use Rattle.std.specs.Prelude.{◌≡◌, ℕ, ◌+◌, ◌≤◌, [], ◌∷◌, length, IfOk, Some};
ghost use Rattle.std.specs.List.{AllByRecursion};
ghost use Rattle.gcl_model.specs.Slots.{AreRangesWithin};
ghost use Rattle.index_shard.specs.Tables.{IsShard, words_of};
ghost use Rattle.live_version.specs.Contents.{IsSlot, ranges_of, files_of, live_of};
ghost use Rattle.live_version.specs.Changes.{IsSameLive, LiesInside, slots_at, whole_range};

use crate::merged::merge_terms;
use crate::records::records_of;
use address_space::Range;
use index_shard::Shard;
use live_version::{Slot, Version};
use slot_terms::SlotTerms;
use std::alloc::{AllocError, Global};

/// One slot in place of `count` slots starting at place `at`. Live postings are copied as they are packed, and records are shared.
pub fn merge(alloc: Global, version: &Version, at: usize, count: usize) -> Result<Slot, AllocError>
    requires some { 1 ≤ count }
    requires within { at + count ≤ length version.now.slots }
    ensures range { IfOk result (λ slot. whole_range (ranges_of (slots_at at count version.now.slots)) ≡ Some slot.range) }
    ensures words { IfOk result (λ slot. words_of slot.shard ≡ live_of (slots_at at count version.now.slots)) }
    ensures files { IfOk result (λ slot. slot.files ≡ files_of (slots_at at count version.now.slots)) }
    ensures mask { IfOk result (λ slot. slot.mask ≡ []) }
    ensures inside { IfOk result (λ slot. LiesInside slot.range (whole_range (ranges_of (slots_at at count version.now.slots)))) }
    ensures same { IfOk result (λ slot. IsSameLive (slots_at at count version.now.slots) (slot ∷ [])) }
{
    let slots = &version.slots()[at..at + count];
    let range = range_of_slots(slots);
    let files = records_of(alloc, slots)?;
    let shard = merged_shard(alloc, range, slots)?;
    Slot::of_records(alloc, range, shard, files)
}

/// The index of the live words of some slots, which lie in the range.
fn merged_shard(alloc: Global, range: Range, slots: &[Slot]) -> Result<Shard, AllocError>
    requires slots { AllByRecursion IsSlot slots.now }
    requires apart { AreRangesWithin range.first (range.last + 1) (ranges_of slots.now) }
    ensures words { IfOk result (λ shard. words_of shard ≡ live_of slots.now) }
    ensures range { IfOk result (λ shard. shard.range ≡ range) }
    ensures shard { IfOk result IsShard }
{
    let mut terms = SlotTerms::new(alloc, slots)?;
    let shard = merge_terms(alloc, range, &mut terms)?;
    Ok(shard)
}

/// From the first address of the first slot to the last address of the last one.
fn range_of_slots(slots: &[Slot]) -> Range
    requires some { 1 ≤ length slots.now }
    requires apart { (low : ℕ) × (end : ℕ) × AreRangesWithin low end (ranges_of slots.now) }
    ensures { whole_range (ranges_of slots.now) ≡ Some result }
{
    Range {
        first: slots[0].range().first,
        last: slots[slots.len() - 1].range().last,
    }
}
