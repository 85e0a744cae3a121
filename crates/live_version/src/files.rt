ghost use Rattle.std.specs.Prelude.{◌≡◌, ◌<◌, length, MatchOption, None, Some, slice_get};
ghost use Rattle.live_version.specs.Contents.{IsVersion, files_of};
ghost use Rattle.live_version.specs.Changes.{file_with_id};

use crate::version::Version;
use address_space::{FileId, FileRecord};

impl Version {
    /// The number of surviving files.
    pub fn file_count(&self) -> u64
        ensures value { result ≡ length (files_of self.now.slots) }
        ensures version { IsVersion self.now }
    {
        // there are no more files than ids, so the sum fits
        let _ids = self.next_id();
        let slots = self.slots();
        let mut count = 0;
        for slot in slots {
            count += slot.records().len() as u64;
        }
        count
    }

    /// The surviving file at place `i`, counted from 0, in rising ids.
    pub fn file_at(&self, i: u64) -> &FileRecord
        requires { i < length (files_of self.now.slots) }
        ensures value { slice_get (files_of self.now.slots) i ≡ Some result.now }
        ensures version { IsVersion self.now }
    {
        let slots = self.slots();
        let mut left = i;
        for slot in slots {
            let files = slot.records();
            let count = files.len() as u64;
            if left < count {
                return files.get(left as usize);
            }
            left -= count;
        }
        unreachable!()
    }

    /// The surviving file with this id. In each slot it is looked for by halving.
    pub fn find_file(&self, id: FileId) -> Option<&FileRecord>
        ensures value { MatchOption result (file_with_id id.0 (files_of self.now.slots) ≡ None)
            (λ file. file_with_id id.0 (files_of self.now.slots) ≡ Some file.now) }
        ensures version { IsVersion self.now }
    {
        let slots = self.slots();
        for slot in slots {
            if let Some(file) = slot.records().find(id) {
                return Some(file);
            }
        }
        None
    }
}
