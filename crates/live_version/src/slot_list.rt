ghost use Rattle.std.specs.Prelude.{◌≡◌, ◌++◌, ◌∷◌, [], IfOk, IfSome, OnOk};
ghost use Rattle.std.specs.Option.{option_to_list};
ghost use Rattle.address_space.specs.Runs.{IsFileRun, IsPlaced, range_of};
ghost use Rattle.index_shard.specs.Tables.{IsShard};
ghost use Rattle.live_version.specs.Contents.{IsSlot};
ghost use Rattle.live_version.specs.Changes.{slot_of_file};

use crate::slot::{Slot, known};
use address_space::{FileRecord, FileRun};
use index_shard::Shard;
use std::alloc::{AllocError, Global};

/// Appends the slots. Their parts are shared.
pub(crate) fn push_copies(into: &mut Vec<Slot>, slots: &[Slot]) -> Result<(), AllocError>
    ensures { OnOk result (into.new.items ≡ into.old.items ++ slots.now) }
{
    for slot in slots {
        into.push(slot.copy()?)?;
    }
    Ok(())
}

/// Appends the slot, if there is one.
pub(crate) fn push_option(into: &mut Vec<Slot>, slot: Option<Slot>) -> Result<(), AllocError>
    ensures ok { OnOk result (into.new.items ≡ into.old.items ++ option_to_list slot) }
    ensures slot { IfSome slot IsSlot }
    ensures run { IfSome slot (λ s. IsFileRun s.files) }
{
    if let Some(slot) = slot {
        // any call on the records shows that they are a run
        let _count = slot.records().len();
        into.push(slot)?;
    }
    Ok(())
}

/// The slots, and this one after them.
pub(crate) fn with_last(alloc: Global, slots: &[Slot], slot: Slot) -> Result<Vec<Slot>, AllocError>
    ensures { IfOk result (λ list. list.items ≡ slots.now ++ slot ∷ []) }
{
    let mut list = Vec::with_capacity(alloc, slots.len() + 1)?;
    push_copies(&mut list, slots)?;
    list.push(slot)?;
    Ok(list)
}

/// The slot, if there is one, between these.
pub(crate) fn with_between(
    alloc: Global,
    before: &[Slot],
    slot: Option<Slot>,
    after: &[Slot],
) -> Result<Vec<Slot>, AllocError>
    ensures items { IfOk result (λ list. list.items ≡ before.now ++ option_to_list slot ++ after.now) }
    ensures slot { OnOk result (IfSome slot IsSlot) }
{
    let mut list = Vec::with_capacity(alloc, before.len() + 1 + after.len())?;
    push_copies(&mut list, before)?;
    push_option(&mut list, slot)?;
    push_copies(&mut list, after)?;
    Ok(list)
}

/// The slot of one file.
pub(crate) fn file_slot(alloc: Global, file: FileRecord, shard: Shard) -> Result<Slot, AllocError>
    requires { shard.range ≡ range_of file }
    ensures value { IfOk result (λ slot. slot ≡ slot_of_file file shard) }
    ensures shard { IsShard shard }
    ensures placed { IsPlaced file }
{
    known(&shard);
    let range = file.range();
    let mut files = FileRun::new(alloc);
    files.push(file)?;
    Slot::new(alloc, range, shard, files)
}
