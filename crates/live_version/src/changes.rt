ghost use Rattle.std.specs.Prelude.{◌≡◌, ◌+◌, ◌++◌, ◌∷◌, ◌≤◌, ◌<◌, [], length, Option, IfOk, IfSome, IsSome};
ghost use Rattle.std.specs.List.{AllByRecursion};
ghost use Rattle.std.specs.Option.{option_to_list};
ghost use Rattle.gcl_model.specs.Limits.{address_end, most_slots, version_end};
ghost use Rattle.live_version.specs.Contents.{files_of, ranges_of};
ghost use Rattle.live_version.specs.Changes.{empty_version, opened, version_with_file, file_with_id, version_without_file, slots_at};
ghost use Rattle.live_version.specs.Changes.{version_with_slot, whole_range, LiesInside, IsSameLive, AreSettledAlone, JoinsTail, KillsFile};
ghost use Rattle.address_space.specs.Runs.{range_of};
ghost use Rattle.live_version.specs.StandsFor.{AddsFile, DeletesFile, Keeps, Opens};

use crate::deletion::slot_without;
use crate::slot::Slot;
use crate::slot_list::{file_slot, push_option, with_between, with_last};
use crate::version::{Numbers, Version};
use address_space::{FileId, FileRecord};
use index_shard::Shard;
use std::alloc::{AllocError, Global};

impl Version {
    /// The version to which no file was added yet. It takes no memory.
    pub fn empty(alloc: Global, first: u64) -> Version
        requires { first ≤ address_end }
        ensures { result ≡ empty_version first }
    {
        Version::of(opening(first, first, 0), Vec::new(alloc))
    }

    /// A version that was just opened: with this slot alone, or with none.
    pub fn of_slot(
        alloc: Global,
        first: u64,
        next: u64,
        next_id: u64,
        slot: Option<Slot>,
    ) -> Result<Version, AllocError>
        requires ordered { first ≤ next }
        requires in_range { next ≤ address_end }
        requires low { IfSome slot (λ s. first ≤ s.range.first) }
        requires high { IfSome slot (λ s. s.range.last < next) }
        requires ids { IfSome slot (λ s. AllByRecursion (λ file. file.id < next_id) s.files) }
        requires alive { IfSome slot (λ s. s.mask ≡ []) }
        ensures value { IfOk result (λ version. version ≡ opened first next next_id slot) }
        ensures stands { IfOk result (λ version. Opens (option_to_list slot) version) }
    {
        let mut slots = Vec::new(alloc);
        push_option(&mut slots, slot)?;
        Ok(Version::of(opening(first, next, next_id), slots))
    }

    /// The version with one file more, in a slot of its own after the others.
    pub fn with_file(&self, file: FileRecord, shard: Shard) -> Result<Version, AllocError>
        requires few { length self.now.slots < most_slots }
        requires id { file.id ≡ self.now.next_id }
        requires base { file.base ≡ self.now.next }
        requires range { shard.range ≡ range_of file }
        requires ids { self.now.next_id < version_end }
        requires number { self.now.number < version_end }
        ensures value { IfOk result (λ version. version ≡ version_with_file self.now file shard) }
        ensures stands { IfOk result (λ version. AddsFile self.now file shard version) }
        ensures ranges { IfOk result (λ version. ranges_of version.slots ≡ ranges_of self.now.slots ++ range_of file ∷ []) }
        ensures settled { IfOk result (λ version. AreSettledAlone (ranges_of self.now.slots) (range_of file) (ranges_of version.slots)) }
    {
        let old = self.numbers();
        let next = old.next + file.len;
        let slot = file_slot(self.allocator(), file, shard)?;
        let slots = with_last(self.allocator(), self.slots(), slot)?;
        let numbers = Numbers {
            number: old.number + 1,
            edition: old.edition + 1,
            next,
            next_id: old.next_id + 1,
            ..old
        };
        Ok(Version::of(numbers, slots))
    }

    /// The version without the file of this id. Each slot keeps its addresses and its index.
    pub fn without_file(&self, id: FileId) -> Result<Version, AllocError>
        requires survives { IsSome (file_with_id id.0 (files_of self.now.slots)) }
        requires number { self.now.number < version_end }
        ensures value { IfOk result (λ version. version ≡ version_without_file self.now id.0) }
        ensures stands { IfOk result (λ version. DeletesFile self.now id.0 version) }
        ensures ranges { IfOk result (λ version. ranges_of version.slots ≡ ranges_of self.now.slots) }
        ensures dead { IfOk result (λ version. KillsFile self.now.slots id.0 version.slots) }
    {
        let slots = self.slots_without(id)?;
        let old = self.numbers();
        let numbers = Numbers {
            number: old.number + 1,
            edition: old.edition + 1,
            dels: old.dels + 1,
            ..old
        };
        Ok(Version::of(numbers, slots))
    }

    fn slots_without(&self, id: FileId) -> Result<Vec<Slot>, AllocError>
        ensures { IfOk result (λ slots. slots.items ≡ (version_without_file self.now id.0).slots) }
    {
        let alloc = self.allocator();
        let mut slots = Vec::with_capacity(alloc, self.slot_count())?;
        for slot in self.slots() {
            slots.push(slot_without(alloc, slot, id)?)?;
        }
        Ok(slots)
    }

    /// The version with one slot, or none, in place of `count` slots starting at place `at`.
    pub fn with_slot(
        &self,
        at: usize,
        count: usize,
        slot: Option<Slot>,
    ) -> Result<Version, AllocError>
        requires within { at + count ≤ length self.now.slots }
        requires range { IfSome slot (λ s. LiesInside s.range (whole_range (ranges_of (slots_at at count self.now.slots)))) }
        requires alive { IfSome slot (λ s. s.mask ≡ []) }
        requires same { IsSameLive (slots_at at count self.now.slots) (option_to_list slot) }
        requires number { self.now.number < version_end }
        ensures value { IfOk result (λ version. version ≡ version_with_slot self.now at count slot) }
        ensures live { IfOk result (λ version. IsSameLive self.now.slots version.slots) }
        ensures stands { IfOk result (λ version. Keeps self.now version) }
        ensures joined { IfOk result (λ version. JoinsTail self.now.slots at count slot version.slots) }
    {
        let before = self.slots().split_at(at).0;
        let after = self.slots().split_at(at + count).1;
        let slots = with_between(self.allocator(), before, slot, after)?;
        let old = self.numbers();
        let numbers = Numbers {
            number: old.number + 1,
            ..old
        };
        Ok(Version::of(numbers, slots))
    }
}

/// Nothing was published before, and nothing was deleted.
fn opening(first: u64, next: u64, next_id: u64) -> Numbers
    ensures { result ≡ record { number = 0; edition = 0; first = first; next = next; next_id = next_id; dels = 0 } }
{
    Numbers {
        number: 0,
        edition: 0,
        first,
        next,
        next_id,
        dels: 0,
    }
}
