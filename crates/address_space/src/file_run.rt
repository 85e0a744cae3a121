ghost use Rattle.std.specs.Prelude.{◌≡◌, ◌<◌, [], ◌∷◌, ◌++◌, length, slice_index_or, OnOk, OnErr, IfSome};
ghost use Rattle.address_space.specs.Runs.{IsFileRun, Precedes, last_file};

use crate::file_record::FileRecord;
use crate::shared_record::SharedRecord;
use std::alloc::{AllocError, Global};
use std::marker::Model;

/// Files in rising ids, at rising addresses that none of them shares.
#[derive(Drop)]
pub struct FileRun {
    files: Vec<SharedRecord>,
}

impl Model for FileRun {
    ghost use Rattle.std.specs.Prelude.{List};
    ghost use Rattle.address_space.specs.Runs.{FileEntry, IsFileRun};

    ghost Value = { List FileEntry };

    ghost view = { λ r. r.files.items };

    ghost invariant = { λ r. IsFileRun r.files.items };
}

impl FileRun {
    /// No files. It takes no memory.
    pub fn new(alloc: Global) -> Self
        ensures { result ≡ [] }
    {
        FileRun {
            files: Vec::new(alloc),
        }
    }

    /// The number of files.
    pub fn len(&self) -> usize
        ensures value { result ≡ length self.now }
        ensures run { IsFileRun self.now }
    {
        self.files.len()
    }

    /// The file at place `i`, counted from 0.
    pub fn get(&self, i: usize) -> &FileRecord
        requires { i < length self.now }
        ensures value { result.now ≡ slice_index_or self.now i result.now }
        ensures run { IsFileRun self.now }
    {
        self.files[i].record()
    }

    /// The files, in order.
    pub fn as_slice(&self) -> &[SharedRecord]
        ensures value { result.now ≡ self.now }
        ensures run { IsFileRun self.now }
    {
        self.files.as_slice()
    }

    /// Appends a file.
    pub fn push(&mut self, file: FileRecord) -> Result<(), AllocError>
        requires { IfSome (last_file self.old) (λ last. Precedes last file) }
        ensures ok { OnOk result (self.new ≡ self.old ++ file ∷ []) }
        ensures err { OnErr result (self.new ≡ self.old) }
    {
        let file = SharedRecord::new(*self.files.allocator(), file)?;
        self.push_shared(file)
    }

    /// Appends a file. Its record is shared with the other holders.
    pub fn push_shared(&mut self, file: SharedRecord) -> Result<(), AllocError>
        requires { IfSome (last_file self.old) (λ last. Precedes last file) }
        ensures ok { OnOk result (self.new ≡ self.old ++ file ∷ []) }
        ensures err { OnErr result (self.new ≡ self.old) }
    {
        // any call on a record shows where it lies
        let _ = file.record();
        self.files.push(file)?;
        Ok(())
    }
}
