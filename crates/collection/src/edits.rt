ghost use Rattle.std.specs.Prelude.{◌≡◌, ◌↔◌, ◌<◌, ◌≤◌, ℕ, [], ◌∷◌, length, None, Some, IfOk, IsErrOf, IsSome, IsTrue, OnErr};
ghost use Rattle.address_space.specs.declared.file_id.FileId.{FileId};
ghost use Rattle.gcl_model.specs.Limits.{merge_end, version_end};
ghost use Rattle.live_version.specs.Changes.{file_with_id, IsSameLive, slots_at, whole_range};
ghost use Rattle.live_version.specs.Contents.{dead_of, files_of, ranges_of};
ghost use Rattle.collection.specs.Changes.{DeletesFileFrom, IsAdoption, IsDelete, IsFrontMerge};
ghost use Rattle.collection.specs.Changes.{IsMerge, IsOpened, MergesSlotsOf, PutsSlotFirst};
ghost use Rattle.collection.specs.declared.faults.AdoptFault.TheVariants.{NotEmpty};
ghost use Rattle.collection.specs.declared.faults.DeleteFault.TheVariants.{NotLive};

use crate::engine::Engine;
use crate::faults::{AdoptFault, DeleteFault};
use address_space::FileId;
use live_version::{Slot, Version};
use manifest_publish::Receipt;
use outside::Gate;
use shard_merge::merge;
use std::alloc::{AllocError, Global};
use std::sync::Wait;

impl Engine {
    /// Deletes the file with this id, and publishes once. On `Err` nothing was published.
    pub fn delete<R: Wait>(&mut self, rt: &R, id: FileId) -> Result<Receipt, DeleteFault>
        ensures ok { IfOk result (IsDelete self.old self.new id.0) }
        ensures not_live { (other : FileId) → IsErrOf result (NotLive other) ↔
            ((other ≡ id) × (file_with_id id.0 (files_of self.old.version.slots) ≡ None)) }
        ensures err { OnErr result (self.new ≡ self.old) }
    {
        if self.version().find_file(id).is_none() {
            return Err(DeleteFault::NotLive(id));
        }
        let version = without_file(self.version(), id)?;
        let receipt = self.publish(rt, version)?;
        Ok(receipt)
    }

    /// Merges all slots into one, or into none if no file survives, and publishes once, even if nothing changes. The gate gets the
    /// new number before and after. On `Err` nothing was published.
    pub fn merge_all<R: Wait, G: Gate>(&mut self, rt: &R, gate: &G) -> Result<Receipt, AllocError>
        requires { self.old.version.number < merge_end }
        ensures ok { IfOk result (IsMerge self.old self.new) }
        ensures err { OnErr result (self.new ≡ self.old) }
    {
        let version = merged(self.allocator(), self.version())?;
        let number = version.number();
        gate.before_publish(number);
        let receipt = self.publish(rt, version)?;
        gate.after_publish(number);
        Ok(receipt)
    }

    /// Puts a slot that was made elsewhere in place of the first `count` ones, whose live words and files it has, and publishes once.
    /// On `Err` nothing was published.
    pub fn put_merged<R: Wait>(
        &mut self,
        rt: &R,
        count: usize,
        slot: Slot,
    ) -> Result<Receipt, AllocError>
        requires two { 2 ≤ count }
        requires within { count ≤ length self.old.version.slots }
        requires alive { slot.mask ≡ [] }
        requires same { IsSameLive (slots_at 0 count self.old.version.slots) (slot ∷ []) }
        requires range { whole_range (ranges_of (slots_at 0 count self.old.version.slots)) ≡ Some slot.range }
        requires number { self.old.version.number < merge_end }
        ensures ok { IfOk result (IsFrontMerge self.old self.new count slot) }
        ensures err { OnErr result (self.new ≡ self.old) }
    {
        let version = with_first(self.version(), count, slot)?;
        let receipt = self.publish(rt, version)?;
        Ok(receipt)
    }

    /// Puts an opened version in place of one that never had a file, and publishes once. On `Err` nothing was published.
    pub fn adopt<R: Wait>(&mut self, rt: &R, version: Version) -> Result<Receipt, AdoptFault>
        requires opened { IsOpened version }
        requires number { self.old.version.number < merge_end }
        ensures ok { IfOk result (IsAdoption self.old version self.new) }
        ensures not_empty { (n : ℕ) → IsErrOf result (NotEmpty n) ↔ ((n ≡ self.old.version.next_id) × (0 < self.old.version.next_id)) }
        ensures err { OnErr result (self.new ≡ self.old) }
    {
        let given = self.version().next_id();
        if given > 0 {
            return Err(AdoptFault::NotEmpty(given));
        }
        let next = version.after(self.version());
        let receipt = self.publish(rt, next)?;
        Ok(receipt)
    }
}

/// The version without the file of this id.
fn without_file(last: &Version, id: FileId) -> Result<Version, AllocError>
    requires survives { IsSome (file_with_id id.0 (files_of last.now.slots)) }
    requires number { last.now.number < version_end }
    ensures { IfOk result (λ version. DeletesFileFrom last.now version id.0) }
{
    let version = last.without_file(id)?;
    Ok(version)
}

/// The version with all slots merged into one, or with none if no file survives. A single slot without dead addresses stays.
fn merged(alloc: Global, last: &Version) -> Result<Version, AllocError>
    requires { last.now.number < version_end }
    ensures { IfOk result (MergesSlotsOf last.now) }
{
    let count = last.slot_count();
    if last.file_count() == 0 {
        let empty = last.with_slot(0, count, None)?;
        return Ok(empty);
    }
    if is_one_slot(last.slots()) {
        let kept = last.with_slot(0, 0, None)?;
        return Ok(kept);
    }
    let slot = merge(alloc, last, 0, count)?;
    let version = last.with_slot(0, count, Some(slot))?;
    Ok(version)
}

/// The version with the slot in place of the first `count` ones.
fn with_first(last: &Version, count: usize, slot: Slot) -> Result<Version, AllocError>
    requires within { count ≤ length last.now.slots }
    requires alive { slot.mask ≡ [] }
    requires same { IsSameLive (slots_at 0 count last.now.slots) (slot ∷ []) }
    requires range { whole_range (ranges_of (slots_at 0 count last.now.slots)) ≡ Some slot.range }
    requires number { last.now.number < version_end }
    ensures { IfOk result (λ version. PutsSlotFirst last.now version count slot) }
{
    let version = last.with_slot(0, count, Some(slot))?;
    Ok(version)
}

/// Whether there is one slot, and no dead address.
fn is_one_slot(slots: &[Slot]) -> bool
    ensures one { IsTrue result → length slots.now ≡ 1 }
    ensures alive { IsTrue result → dead_of slots.now ≡ [] }
{
    match slots {
        [slot] => slot.mask().range_count() == 0,
        _ => false,
    }
}
