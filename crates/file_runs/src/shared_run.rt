ghost use Rattle.std.specs.Prelude.{◌≡◌, ◌<◌, length, IfOk};
ghost use Rattle.address_space.specs.Runs.{IsFileRun};
ghost use Rattle.file_runs.specs.Records.{last_id};

use address_space::{FileRun, SharedRecord};
use std::alloc::{AllocError, Global};
use std::marker::Model;
use std::sync::Arc;

/// Some files of a slot in a row, at least one. All versions that have them share them.
#[derive(Drop)]
pub struct SharedRun {
    files: Arc<FileRun>,
}

impl Model for SharedRun {
    ghost use Rattle.std.specs.Prelude.{List, ◌<◌, length};
    ghost use Rattle.address_space.specs.Runs.{FileEntry};

    ghost Value = { List FileEntry };

    ghost view = { λ r. r.files.value };

    ghost invariant = { λ r. 0 < length r.files.value };
}

impl SharedRun {
    pub(crate) fn new(alloc: Global, files: FileRun) -> Result<Self, AllocError>
        requires { 0 < length files }
        ensures { IfOk result (λ run. run ≡ files) }
    {
        let files = Arc::new(alloc, files)?;
        Ok(SharedRun { files })
    }

    /// The files, in order.
    pub fn as_slice(&self) -> &[SharedRecord]
        ensures value { result.now ≡ self.now }
        ensures some { 0 < length self.now }
        ensures run { IsFileRun self.now }
    {
        let _ = &self.files;
        self.files.as_slice()
    }

    /// The same files, with one more owner and not copied. Err means that no more owners can be counted.
    pub(crate) fn share(&self) -> Result<Self, AllocError>
        ensures { IfOk result (λ shared. shared ≡ self.now) }
    {
        let files = Arc::try_clone(&self.files)?;
        Ok(SharedRun { files })
    }

    pub(crate) fn last_id(&self) -> u64
        ensures { result ≡ last_id self.now }
    {
        let files = self.as_slice();
        files[files.len() - 1].record().id.0
    }
}
