ghost use Rattle.std.specs.Prelude.{◌≡◌, ℕ, List, [], ◌∷◌, ◌++◌, Option, None, Some, IfSome, OnOk, OnErr, IsErrOf, ◌⊎◌, ◌↔◌};
ghost use Rattle.std.specs.Option.{option_copied};
ghost use Rattle.outside.specs.Causes.{HasFileCause, CountsFileFault, CountsKeep};
ghost use Rattle.outside.specs.Contents.{Contents, Loads, IsKept, content_of, sure_content_of};

use crate::{FailList, FileError, GhostCount};
use gcl_model::Bytes;
use std::alloc::{AllocError, Global};

/// What a load put into the buffer: the whole content, or its first bytes and one more than was asked for.
#[derive(Clone, Copy, Debug, PartialEq, Eq)]
pub enum Loaded {
    /// The whole content, at most as many bytes as were asked for.
    Whole,
    /// The content has more bytes than were asked for.
    Long,
}

/// Contents by name.
pub trait Files {
    /// The content under each name, or None if that is not known.
    ghost held: { Self → Option Contents };

    /// How often the files have failed.
    ghost faults: { Self → ℕ };

    /// How often a keep has answered an error.
    ghost unkept: { Self → ℕ };

    /// Empties `out` and puts the content of a name there, or its first `most + 1` bytes.
    /// A name that isn't held is a fault.
    fn load(&mut self, name: &[u8], most: u64, out: &mut Vec<u8>) -> Result<Loaded, FileError>
        ensures loaded { Loads (held self.old) name.now most result out.new.items }
        ensures same { held self.new ≡ held self.old }
        ensures cause { HasFileCause (faults self.old) (faults self.new) result }
        ensures counts { CountsFileFault (faults self.old) (faults self.new) result }
        ensures unkept { unkept self.new ≡ unkept self.old };

    /// Makes these bytes the content under a name. Every other name is as before, whatever the answer.
    fn keep(&mut self, name: &[u8], bytes: &[u8]) -> Result<(), FileError>
        ensures kept { IsKept (held self.old) (held self.new) name.now bytes.now result }
        ensures cause { HasFileCause (faults self.old) (faults self.new) result }
        ensures counts { CountsFileFault (faults self.old) (faults self.new) result }
        ensures unkept { CountsKeep (unkept self.old) (unkept self.new) result };
}

/// The content of the first entry of that name.
fn find_content<'a>(held: &'a [(Bytes, Bytes)], name: &[u8]) -> Option<&'a [u8]>
    ensures { option_copied result ≡ content_of held.now name.now }
{
    held.iter()
        .find(|entry| entry.0.as_slice() == name)
        .map(|entry| entry.1.as_slice())
}

/// Puts the content, or its first `most + 1` bytes, into an empty buffer.
fn put_content(content: &[u8], most: u64, out: &mut Vec<u8>) -> Result<Loaded, AllocError>
    ensures { (contents : Contents) (name : List ℕ) → contents name ≡ Some content.now →
        Loads (Some contents) name most result out.new.items }
{
    out.clear();
    if content.len() as u64 <= most {
        out.extend_from_slice(content)?;
        return Ok(Loaded::Whole);
    }
    out.extend_from_slice(&content[..most as usize + 1])?;
    Ok(Loaded::Long)
}

/// Puts an entry before all others, so that it is the one that counts.
fn put_entry(held: &mut Vec<(Bytes, Bytes)>, name: &[u8], bytes: &[u8]) -> Result<(), AllocError>
    ensures ok { OnOk result (held.new.items ≡ (name.now, bytes.now) ∷ held.old.items) }
    ensures err { OnErr result (held.new.items ≡ held.old.items) }
{
    let alloc = *held.allocator();
    let entry = (Bytes::copy_of(alloc, name)?, Bytes::copy_of(alloc, bytes)?);
    held.insert(0, entry)?;
    Ok(())
}

/// Files in memory. They fail at the calls with these numbers, counted from 1, and at each name that they don't hold.
#[derive(Drop)]
pub struct MemFiles {
    held: Vec<(Bytes, Bytes)>,
    calls: FailList,
    unkept: GhostCount,
}

impl MemFiles {
    ghost use Rattle.outside.specs.Plans.{files_plan, IsDue, IsOneCallLater};

    /// Names and their contents; of two members of one name the first counts. It takes no memory.
    pub fn new(_alloc: Global, held: Vec<(Bytes, Bytes)>, fails: Vec<u64>) -> Self
        ensures held { ⟦<MemFiles as Files>⟧.held result ≡ Some (content_of held.items) }
        ensures plan { files_plan result ≡ record { fails = fails; calls = 0; faults = 0 } }
    {
        MemFiles {
            held,
            calls: FailList::new(fails),
            unkept: GhostCount::none(),
        }
    }

    /// The content under a name, or None exactly if it isn't held.
    pub fn content(&self, name: &[u8]) -> Option<&[u8]>
        ensures { IfSome (⟦<MemFiles as Files>⟧.held self.now) (λ contents. option_copied result ≡ contents name.now) }
    {
        find_content(self.held.as_slice(), name)
    }

    /// Makes the call and puts the entry, and counts no keep.
    fn put(&mut self, name: &[u8], bytes: &[u8]) -> Result<(), FileError>
        ensures ok { OnOk result (self.new.held.items ≡ (name.now, bytes.now) ∷ self.old.held.items) }
        ensures err { OnErr result (self.new.held.items ≡ self.old.held.items) }
        ensures cause { HasFileCause self.old.calls.faults self.new.calls.faults result }
        ensures counts { CountsFileFault self.old.calls.faults self.new.calls.faults result }
        ensures planned { IsErrOf result FileError.Failed ↔ IsDue (files_plan self.old) }
        ensures called { IsOneCallLater (files_plan self.old) (files_plan self.new) }
        ensures unkept { self.new.unkept ≡ self.old.unkept }
    {
        self.calls.call()?;
        put_entry(&mut self.held, name, bytes)?;
        Ok(())
    }
}

impl Files for MemFiles {
    ghost use Rattle.outside.specs.Plans.{files_plan, IsDue, IsOneCallLater};

    ghost held = { λ f. Some (content_of f.held.items) };

    ghost faults = { λ f. f.calls.faults };

    ghost unkept = { λ f. f.unkept };

    fn load(&mut self, name: &[u8], most: u64, out: &mut Vec<u8>) -> Result<Loaded, FileError>
        ensures loaded { Loads (⟦<MemFiles as Files>⟧.held self.old) name.now most result out.new.items }
        ensures same { ⟦<MemFiles as Files>⟧.held self.new ≡ ⟦<MemFiles as Files>⟧.held self.old }
        ensures cause { HasFileCause (⟦<MemFiles as Files>⟧.faults self.old) (⟦<MemFiles as Files>⟧.faults self.new) result }
        ensures counts { CountsFileFault (⟦<MemFiles as Files>⟧.faults self.old) (⟦<MemFiles as Files>⟧.faults self.new) result }
        ensures unkept { ⟦<MemFiles as Files>⟧.unkept self.new ≡ ⟦<MemFiles as Files>⟧.unkept self.old }
        ensures planned { IsErrOf result FileError.Failed → IsDue (files_plan self.old) ⊎
            IfSome (⟦<MemFiles as Files>⟧.held self.old) (λ contents. contents name.now ≡ None) }
        ensures due { IsDue (files_plan self.old) → IsErrOf result FileError.Failed }
        ensures missing { IfSome (⟦<MemFiles as Files>⟧.held self.old)
            (λ contents. contents name.now ≡ None → IsErrOf result FileError.Failed) }
        ensures called { IsOneCallLater (files_plan self.old) (files_plan self.new) }
    {
        out.clear();
        self.calls.call()?;
        match find_content(self.held.as_slice(), name) {
            None => {
                self.calls.fault();
                Err(FileError::Failed)
            }
            Some(content) => Ok(put_content(content, most, out)?),
        }
    }

    fn keep(&mut self, name: &[u8], bytes: &[u8]) -> Result<(), FileError>
        ensures kept { IsKept (⟦<MemFiles as Files>⟧.held self.old) (⟦<MemFiles as Files>⟧.held self.new) name.now bytes.now result }
        ensures unchanged { OnErr result (⟦<MemFiles as Files>⟧.held self.new ≡ ⟦<MemFiles as Files>⟧.held self.old) }
        ensures cause { HasFileCause (⟦<MemFiles as Files>⟧.faults self.old) (⟦<MemFiles as Files>⟧.faults self.new) result }
        ensures counts { CountsFileFault (⟦<MemFiles as Files>⟧.faults self.old) (⟦<MemFiles as Files>⟧.faults self.new) result }
        ensures unkept { CountsKeep (⟦<MemFiles as Files>⟧.unkept self.old) (⟦<MemFiles as Files>⟧.unkept self.new) result }
        ensures planned { IsErrOf result FileError.Failed ↔ IsDue (files_plan self.old) }
        ensures called { IsOneCallLater (files_plan self.old) (files_plan self.new) }
    {
        match self.put(name, bytes) {
            Ok(()) => Ok(()),
            Err(fault) => {
                self.unkept.add_one();
                Err(fault)
            }
        }
    }
}

/// Files in memory. It never fails, and a name that it doesn't hold has no bytes.
#[derive(Drop)]
pub struct SureFiles {
    held: Vec<(Bytes, Bytes)>,
    unkept: GhostCount,
}

impl SureFiles {
    ghost use Rattle.outside.specs.Plans.{sure_entries};

    /// Names and their contents; of two members of one name the first counts. It takes no memory.
    pub fn new(_alloc: Global, held: Vec<(Bytes, Bytes)>) -> Self
        ensures held { ⟦<SureFiles as Files>⟧.held result ≡ Some (sure_content_of held.items) }
        ensures entries { sure_entries result ≡ held.items }
    {
        SureFiles {
            held,
            unkept: GhostCount::none(),
        }
    }

    /// The content under a name, or None exactly if it isn't held.
    pub fn content(&self, name: &[u8]) -> Option<&[u8]>
        ensures { option_copied result ≡ content_of (sure_entries self.now) name.now }
    {
        find_content(self.held.as_slice(), name)
    }
}

impl Files for SureFiles {
    ghost use Rattle.outside.specs.Plans.{sure_entries};

    ghost held = { λ f. Some (sure_content_of f.held.items) };

    ghost faults = { λ _. 0 };

    ghost unkept = { λ f. f.unkept };

    fn load(&mut self, name: &[u8], most: u64, out: &mut Vec<u8>) -> Result<Loaded, FileError> {
        out.clear();
        let content = find_content(self.held.as_slice(), name).unwrap_or(&[]);
        Ok(put_content(content, most, out)?)
    }

    fn keep(&mut self, name: &[u8], bytes: &[u8]) -> Result<(), FileError>
        ensures kept { IsKept (⟦<SureFiles as Files>⟧.held self.old) (⟦<SureFiles as Files>⟧.held self.new) name.now bytes.now result }
        ensures unchanged { OnErr result (⟦<SureFiles as Files>⟧.held self.new ≡ ⟦<SureFiles as Files>⟧.held self.old) }
        ensures cause { HasFileCause 0 0 result }
        ensures counts { CountsFileFault 0 0 result }
        ensures unkept { CountsKeep (⟦<SureFiles as Files>⟧.unkept self.old) (⟦<SureFiles as Files>⟧.unkept self.new) result }
        ensures entries { OnOk result (sure_entries self.new ≡ (name.now, bytes.now) ∷ sure_entries self.old) }
    {
        match put_entry(&mut self.held, name, bytes) {
            Ok(()) => Ok(()),
            Err(AllocError) => {
                self.unkept.add_one();
                Err(FileError::NoMemory)
            }
        }
    }
}
