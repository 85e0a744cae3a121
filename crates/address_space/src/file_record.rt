ghost use Rattle.std.specs.Prelude.{◌≡◌};

use crate::file_id::FileId;
use crate::range::Range;
use gcl_model::Bytes;
use std::marker::Model;

/// What is kept of a file: its `len` addresses begin at `base`, those of its two boundary tokens included.
#[derive(Drop)]
pub struct FileRecord {
    pub id: FileId,
    pub base: u64,
    pub len: u64,
    pub name: Bytes,
}

impl Model for FileRecord {
    ghost use Rattle.address_space.specs.Runs.{FileEntry, IsPlaced};

    ghost Value = { FileEntry };

    ghost view = { λ f. record { id = f.id.0; base = f.base; len = f.len; name = f.name } };

    ghost invariant = { λ f. IsPlaced (record { id = f.id.0; base = f.base; len = f.len; name = f.name }) };
}

impl FileRecord {
    ghost use Rattle.address_space.specs.Runs.{IsPlaced, range_of};

    /// Its addresses, from the first to the last: of `len` 3 starting at 7 they are 7 to 9.
    pub fn range(&self) -> Range
        ensures value { result ≡ range_of self.now }
        ensures placed { IsPlaced self.now }
    {
        Range {
            first: self.base,
            last: self.base + self.len - 1,
        }
    }
}
