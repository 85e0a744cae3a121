ghost use Rattle.std.specs.Prelude.{◌≡◌, ◌≤◌, ◌∷◌, Some, OnOk, OnErr};
ghost use Rattle.std.specs.Option.{option_copied};
ghost use Rattle.outside.specs.Causes.{HasFileCause, CountsFileFault, CountsKeep};
ghost use Rattle.outside.specs.Contents.{IsKept, content_of};
ghost use Rattle.gcl_model.specs.Limits.{most_made};
ghost use Rattle.made_corpus.specs.MadeFiles.{made_files, kept_over};

use crate::items::put_content;
use crate::names::file_named;
use gcl_model::Bytes;
use outside::{FileError, Files, GhostCount, Loaded};
use std::alloc::{AllocError, Global};

/// Puts what was made under a name into a buffer.
fn put_made(out: &mut Vec<u8>, start: u64, count: u64, name: &[u8]) -> Result<(), AllocError>
    ensures { OnOk result (made_files start count name.now ≡ Some out.new.items) }
{
    out.clear();
    match file_named(name, count) {
        Some(i) => {
            put_content(out, start.wrapping_add(i))?;
            Ok(())
        }
        None => Ok(()),
    }
}

/// The bytes of the first entry of that name.
fn find_kept<'a>(kept: &'a [(Bytes, Bytes)], name: &[u8]) -> Option<&'a [u8]>
    ensures { option_copied result ≡ content_of kept.now name.now }
{
    kept.iter()
        .find(|entry| entry.0.as_slice() == name)
        .map(|entry| entry.1.as_slice())
}

/// Puts an entry before all others, so that it is the one that counts.
fn put_entry(kept: &mut Vec<(Bytes, Bytes)>, name: &[u8], bytes: &[u8]) -> Result<(), AllocError>
    ensures ok { OnOk result (kept.new.items ≡ (name.now, bytes.now) ∷ kept.old.items) }
    ensures err { OnErr result (kept.new.items ≡ kept.old.items) }
{
    let alloc = *kept.allocator();
    let entry = (Bytes::copy_of(alloc, name)?, Bytes::copy_of(alloc, bytes)?);
    kept.insert(0, entry)?;
    Ok(())
}

/// Made files. They never fail, and a name that is neither made nor kept has no bytes.
#[derive(Drop)]
pub struct MadeFiles {
    start: u64,
    count: u64,
    kept: Vec<(Bytes, Bytes)>,
    unkept: GhostCount,
}

impl MadeFiles {
    /// `count` files, made from the number `start`. It allocates nothing.
    pub fn new(alloc: Global, start: u64, count: u64) -> Self
        requires { count ≤ most_made }
        ensures held { ⟦<MadeFiles as Files>⟧.held result ≡ Some (made_files start count) }
    {
        MadeFiles {
            start,
            count,
            kept: Vec::new(alloc),
            unkept: GhostCount::none(),
        }
    }

    /// Puts what is under a name into a buffer.
    fn put_file(&self, name: &[u8], out: &mut Vec<u8>) -> Result<(), AllocError>
        ensures { OnOk result (kept_over self.now.kept.items (made_files self.now.start self.now.count) name.now ≡ Some out.new.items) }
    {
        match find_kept(self.kept.as_slice(), name) {
            Some(content) => {
                out.clear();
                out.extend_from_slice(content)?;
                Ok(())
            }
            None => {
                put_made(out, self.start, self.count, name)?;
                Ok(())
            }
        }
    }
}

impl Files for MadeFiles {
    ghost held = { λ f. Some (kept_over f.kept.items (made_files f.start f.count)) };

    ghost faults = { λ _. 0 };

    ghost unkept = { λ f. f.unkept };

    fn load(&mut self, name: &[u8], most: u64, out: &mut Vec<u8>) -> Result<Loaded, FileError> {
        self.put_file(name, out)?;
        if out.len() as u64 <= most {
            return Ok(Loaded::Whole);
        }
        out.truncate(most as usize + 1);
        Ok(Loaded::Long)
    }

    fn keep(&mut self, name: &[u8], bytes: &[u8]) -> Result<(), FileError>
        ensures kept { IsKept (⟦<MadeFiles as Files>⟧.held self.old) (⟦<MadeFiles as Files>⟧.held self.new) name.now bytes.now result }
        ensures unchanged { OnErr result (⟦<MadeFiles as Files>⟧.held self.new ≡ ⟦<MadeFiles as Files>⟧.held self.old) }
        ensures cause { HasFileCause 0 0 result }
        ensures counts { CountsFileFault 0 0 result }
        ensures unkept { CountsKeep (⟦<MadeFiles as Files>⟧.unkept self.old) (⟦<MadeFiles as Files>⟧.unkept self.new) result }
    {
        match put_entry(&mut self.kept, name, bytes) {
            Ok(()) => Ok(()),
            Err(AllocError) => {
                self.unkept.add_one();
                Err(FileError::NoMemory)
            }
        }
    }
}
