ghost use Rattle.std.specs.Prelude.{◌≡◌, IfOk};
ghost use Rattle.address_space.specs.Runs.{IsFileRun};
ghost use Rattle.live_version.specs.Contents.{files_of};

use file_runs::Records;
use live_version::Slot;
use std::alloc::{AllocError, Global};

/// The records of the surviving files of all slots. Those in long runs are shared, and none is copied.
pub(crate) fn records_of(alloc: Global, slots: &[Slot]) -> Result<Records, AllocError>
    requires { IsFileRun (files_of slots.now) }
    ensures { IfOk result (λ files. files ≡ files_of slots.now) }
{
    let mut files = Records::new(alloc);
    for slot in slots {
        files = files.and(slot.records())?;
    }
    Ok(files)
}
