ghost use Rattle.std.specs.Prelude.{◌≡◌, [], true, length, IfOk};
ghost use Rattle.std.specs.List.{AllByRecursion};
ghost use Rattle.index_shard.specs.Tables.{IsShard, words_of};
ghost use Rattle.live_version.specs.Contents.{IsSlot, LiesIn, is_of_files, slot_content};

use address_space::{FileRun, Range};
use delete_mask::SharedMask;
use file_runs::Records;
use index_shard::Shard;
use std::alloc::{AllocError, Global};
use std::marker::Model;
use std::sync::Arc;

/// A stretch of addresses with its index, its dead ranges and the records of its surviving files. The versions that have it share it.
#[derive(Drop)]
pub struct Slot {
    range: Range,
    parts: Arc<SlotParts>,
}

/// A deletion changes all except the index, which stays shared.
#[derive(Drop)]
pub(crate) struct SlotParts {
    shard: Arc<Shard>,
    mask: SharedMask,
    files: Records,
}

impl Model for Slot {
    ghost use Rattle.live_version.specs.Contents.{SlotContent, IsSlot, slot_content};

    ghost Value = { SlotContent };

    ghost view = { λ s. slot_content s.range s.parts.value.shard.value s.parts.value.mask s.parts.value.files };

    ghost invariant = { λ s. IsSlot (slot_content s.range s.parts.value.shard.value s.parts.value.mask s.parts.value.files) };
}

impl Slot {
    /// A slot without dead addresses.
    pub fn new(
        alloc: Global,
        range: Range,
        shard: Shard,
        files: FileRun,
    ) -> Result<Slot, AllocError>
        requires indexed { shard.range ≡ range }
        requires files { AllByRecursion (LiesIn range) files }
        requires owned { AllByRecursion (λ w. is_of_files files w.address ≡ true) (words_of shard) }
        ensures value { IfOk result (λ slot. slot ≡ slot_content range shard [] files) }
        ensures slot { IfOk result (λ slot. IsSlot slot) }
    {
        let files = Records::of(alloc, files)?;
        let slot = Slot::of_records(alloc, range, shard, files)?;
        Ok(slot)
    }

    /// A slot without dead addresses, of records that are shared.
    pub fn of_records(
        alloc: Global,
        range: Range,
        shard: Shard,
        files: Records,
    ) -> Result<Slot, AllocError>
        requires indexed { shard.range ≡ range }
        requires files { AllByRecursion (LiesIn range) files }
        requires owned { AllByRecursion (λ w. is_of_files files w.address ≡ true) (words_of shard) }
        ensures value { IfOk result (λ slot. slot ≡ slot_content range shard [] files) }
        ensures slot { IfOk result (λ slot. IsSlot slot) }
    {
        known(&shard);
        let shard = Arc::new(alloc, shard)?;
        let mask = SharedMask::new(alloc);
        let parts = Arc::new(alloc, SlotParts { shard, mask, files })?;
        Ok(Slot { range, parts })
    }

    /// The addresses that the slot covers.
    pub fn range(&self) -> Range
        ensures value { result ≡ self.now.range }
        ensures slot { IsSlot self.now }
    {
        self.range
    }

    /// The index, also of dead addresses.
    pub fn shard(&self) -> &Shard
        ensures value { result.now ≡ self.now.shard }
        ensures slot { IsSlot self.now }
    {
        &self.parts.shard
    }

    /// The dead ranges.
    pub fn mask(&self) -> &SharedMask
        ensures value { result.now ≡ self.now.mask }
        ensures slot { IsSlot self.now }
    {
        &self.parts.mask
    }

    /// The records of the surviving files.
    pub fn records(&self) -> &Records
        ensures value { result.now ≡ self.now.files }
        ensures slot { IsSlot self.now }
    {
        &self.parts.files
    }

    /// How many files survive. It takes no memory.
    pub fn files(&self) -> u64
        ensures value { result ≡ length self.now.files }
        ensures slot { IsSlot self.now }
    {
        self.records().len() as u64
    }

    /// The same slot, shared and not copied.
    pub(crate) fn copy(&self) -> Result<Slot, AllocError>
        ensures { IfOk result (λ slot. slot ≡ self.now) }
    {
        Ok(Slot {
            range: self.range,
            parts: Arc::try_clone(&self.parts)?,
        })
    }

    /// The same range and index, with other dead ranges and files.
    pub(crate) fn changed(
        &self,
        alloc: Global,
        mask: SharedMask,
        files: Records,
    ) -> Result<Slot, AllocError>
        requires { IsSlot (record self.now { mask = mask; files = files }) }
        ensures { IfOk result (λ slot. slot ≡ record self.now { mask = mask; files = files }) }
    {
        let shard = Arc::try_clone(&self.parts.shard)?;
        let parts = Arc::new(alloc, SlotParts { shard, mask, files })?;
        Ok(Slot {
            range: self.range,
            parts,
        })
    }
}

/// Any call on an index shows that it is one.
pub(crate) fn known(shard: &Shard)
    ensures { IsShard shard.now }
{
    let _ = shard.term_count();
}
