ghost use Rattle.std.specs.Prelude.{◌≡◌, IfOk};
ghost use Rattle.address_space.specs.Runs.{IsPlaced};

use crate::file_record::FileRecord;
use std::alloc::{AllocError, Global};
use std::marker::Model;
use std::sync::Arc;

/// A record that has several owners: every version that holds the file has the same one.
#[derive(Drop)]
pub struct SharedRecord {
    record: Arc<FileRecord>,
}

impl Model for SharedRecord {
    ghost use Rattle.address_space.specs.Runs.{FileEntry, IsPlaced};

    ghost Value = { FileEntry };

    ghost view = { λ r. r.record.value };

    ghost invariant = { λ r. IsPlaced r.record.value };
}

impl SharedRecord {
    /// The record, with one owner.
    pub fn new(alloc: Global, file: FileRecord) -> Result<Self, AllocError>
        ensures { IfOk result (λ shared. shared ≡ file) }
    {
        // any call on a record shows where it lies
        let _ = file.range();
        let record = Arc::new(alloc, file)?;
        Ok(SharedRecord { record })
    }

    /// The record itself.
    pub fn record(&self) -> &FileRecord
        ensures value { result.now ≡ self.now }
        ensures placed { IsPlaced self.now }
    {
        &self.record
    }

    /// The same record, with one more owner and not copied. Err means that no more owners can be counted.
    pub fn share(&self) -> Result<Self, AllocError>
        ensures { IfOk result (λ shared. shared ≡ self.now) }
    {
        let record = Arc::try_clone(&self.record)?;
        Ok(SharedRecord { record })
    }
}
