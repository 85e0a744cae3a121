ghost use Rattle.std.specs.Prelude.{◌≡◌, IfOk};
ghost use Rattle.live_version.specs.Changes.{file_with_id, slot_without};

use crate::slot::Slot;
use address_space::FileId;
use std::alloc::{AllocError, Global};

/// The slot without the file of this id: the same one if it has no such file, and otherwise one that shares its index.
pub(crate) fn slot_without(alloc: Global, slot: &Slot, id: FileId) -> Result<Slot, AllocError>
    ensures { IfOk result (λ left. left ≡ slot_without slot.now (file_with_id id.0 slot.now.files)) }
{
    let Some(file) = slot.records().find(id) else {
        return slot.copy();
    };
    let range = file.range();
    let mask = slot.mask().with(range)?;
    let files = slot.records().without(file.id)?;
    slot.changed(alloc, mask, files)
}
