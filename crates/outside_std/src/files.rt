ghost use Rattle.std.specs.Prelude.{◌≡◌, ◌<◌, ◌≤◌, [], None, OnOk, length};
ghost use Rattle.outside.specs.Contents.{Loads};
ghost use Rattle.outside.specs.Causes.{HasFileCause, CountsFileFault, Rose};
ghost use Rattle.outside_std.specs.Loading.{content_left};

use crate::cause::{FileCause, FileFault};
use crate::disk::Disk;
use crate::place::{followed, mode_at};
use crate::replace::replace;
use crate::source::read_again;
use crate::system_disk::SystemDisk;
use gcl_model::Bytes;
use outside::{FileError, Files, GhostCount, Loaded};
use std::alloc::AllocError;
use std::io::Read;
use std::rt;

/// How many bytes are read at a time.
const PIECE: usize = 65_536;

/// A call of the files.
#[derive(Clone, Copy, Debug, PartialEq, Eq)]
pub enum FileCall {
    /// A file is read.
    Load,
    /// A file is saved.
    Keep,
}

/// A call that failed.
#[derive(Drop)]
struct Fault {
    call: FileCall,
    name: Option<Bytes>,
    cause: FileCause,
}

/// The file system. A name is a path, relative to where the program runs.
#[derive(Drop)]
pub struct StdFiles<'a, R> {
    rt: &'a R,
    faults: u64,
    unkept: GhostCount,
    last: Option<Fault>,
    piece: Vec<u8>,
}

impl<'a, R: rt::Files + AllocGlobal> StdFiles<'a, R> {
    /// The files that `rt` reaches. It takes no memory.
    pub fn new(rt: &'a R) -> Self
        ensures faults { ⟦<StdFiles<'a, R> as Files>⟧.faults result ≡ 0 }
    {
        StdFiles {
            rt,
            faults: 0,
            unkept: GhostCount::none(),
            last: None,
            piece: Vec::new(rt.alloc()),
        }
    }

    /// The name at which the files failed last, for a message; nothing if they never did.
    pub fn last_fault(&self) -> &[u8] {
        match &self.last {
            Some(
                Fault {
                    name: Some(name),
                    ..
                },
            ) => name.as_slice(),
            _ => b"",
        }
    }

    /// The call that failed last, for a message; None if none did.
    pub fn last_call(&self) -> Option<FileCall> {
        match &self.last {
            Some(fault) => Some(fault.call),
            None => None,
        }
    }

    /// Why that call failed, for a message; None if none did.
    pub fn last_cause(&self) -> Option<FileCause> {
        match &self.last {
            Some(fault) => Some(fault.cause),
            None => None,
        }
    }

    /// Counts a fault, and keeps the call, the name and the cause.
    fn fault(&mut self, call: FileCall, name: &[u8], cause: FileCause)
        ensures later { self.old.faults ≤ self.new.faults }
        ensures rose { Rose self.old.faults self.new.faults }
        ensures unkept { self.new.unkept ≡ self.old.unkept }
    {
        self.faults = self.faults.saturating_add(1);
        let name = Bytes::copy_of(self.rt.alloc(), name).ok();
        self.last = Some(Fault { call, name, cause });
    }

    /// Puts the bytes under a name, and counts no keep.
    fn put(&mut self, name: &[u8], bytes: &[u8]) -> Result<(), FileError>
        ensures cause { HasFileCause self.old.faults self.new.faults result }
        ensures counts { CountsFileFault self.old.faults self.new.faults result }
        ensures unkept { self.new.unkept ≡ self.old.unkept }
    {
        match save(self.rt, name, bytes) {
            Ok(()) => Ok(()),
            Err(FileFault::NoMemory) => Err(FileError::NoMemory),
            Err(FileFault::Failed(cause)) => {
                self.fault(FileCall::Keep, name, cause);
                Err(FileError::Failed)
            }
        }
    }

    /// Room for what is read at a time, which is allocated once.
    fn take_piece(&mut self) -> Result<(), AllocError>
        ensures room { OnOk result (0 < length self.new.piece.items) }
        ensures faults { self.new.faults ≡ self.old.faults }
        ensures unkept { self.new.unkept ≡ self.old.unkept }
    {
        if self.piece.is_empty() {
            self.piece.resize(PIECE, 0)?;
        }
        Ok(())
    }

    /// Puts the content of a name into a buffer, and counts no fault.
    fn get(&mut self, name: &[u8], most: u64, out: &mut Vec<u8>) -> Result<Loaded, FileFault>
        ensures size { Loads None [] most result out.new.items }
        ensures faults { self.new.faults ≡ self.old.faults }
        ensures unkept { self.new.unkept ≡ self.old.unkept }
    {
        self.take_piece()?;
        load_named(self.rt, name, &mut self.piece, most, out)
    }
}

/// The same from the system's disk, by way of a piece that has room.
fn load_named<R: rt::Files>(
    rt: &R,
    name: &[u8],
    piece: &mut [u8],
    most: u64,
    out: &mut Vec<u8>,
) -> Result<Loaded, FileFault>
    requires { 0 < length piece.old }
    ensures { Loads None name.now most result out.new.items }
{
    load_from(&SystemDisk::new(rt), name, piece, most, out)
}

/// Empties a buffer and puts the content of a name there, or its first `most + 1` bytes, by way of a piece that has room.
fn load_from<D: Disk>(
    disk: &D,
    name: &[u8],
    piece: &mut [u8],
    most: u64,
    out: &mut Vec<u8>,
) -> Result<Loaded, FileFault>
    requires { 0 < length piece.old }
    ensures { Loads (D.held disk.now) name.now most result out.new.items }
{
    out.clear();
    let Ok(path) = str::from_utf8(name) else {
        return Err(FileFault::Failed(FileCause::NotText));
    };
    match disk.open(path) {
        Ok(mut file) => read_up_to(&mut file, piece, most, out),
        Err(cause) => Err(FileFault::Failed(cause)),
    }
}

/// Puts the bytes in the place of what is under a name, or in a new file, through symbolic links.
fn save<R: rt::Files + AllocGlobal>(rt: &R, name: &[u8], bytes: &[u8]) -> Result<(), FileFault> {
    let Ok(path) = str::from_utf8(name) else {
        return Err(FileFault::Failed(FileCause::NotText));
    };
    let place = followed(rt, path)?;
    save_at(rt, place.as_str(), bytes)
}

/// The same at a path that is no link.
fn save_at<R: rt::Files + AllocGlobal>(rt: &R, place: &str, bytes: &[u8]) -> Result<(), FileFault> {
    let mode = mode_at(rt, place)?;
    replace(rt.alloc(), &mut SystemDisk::new(rt), place, mode, bytes)
}

/// Reads up to `most + 1` bytes into an empty buffer, by way of a piece that has room.
fn read_up_to<R: Read>(
    file: &mut R,
    piece: &mut [u8],
    most: u64,
    out: &mut Vec<u8>,
) -> Result<Loaded, FileFault>
    requires { 0 < length piece.old }
    ensures size { Loads None [] most result out.new.items }
    ensures bytes { Loads (content_left (R.remaining file.old)) [] most result out.new.items }
{
    out.clear();
    'pieces: for _ in 0..u64::MAX {
        let count = match read_again(file, piece) {
            Ok(count) => count,
            Err(fault) => return Err(FileFault::Failed(FileCause::from(fault))),
        };
        if count == 0 {
            return Ok(Loaded::Whole);
        }
        let room = most - out.len() as u64;
        if count as u64 > room {
            out.extend_from_slice(&piece[..room as usize + 1])?;
            return Ok(Loaded::Long);
        }
        out.extend_from_slice(&piece[..count])?;
    }
    Err(FileFault::Failed(FileCause::Other))
}

impl<'a, R: rt::Files + AllocGlobal> Files for StdFiles<'a, R> {
    ghost held = { λ _. None };

    ghost faults = { λ f. f.faults };

    ghost unkept = { λ f. f.unkept };

    fn load(&mut self, name: &[u8], most: u64, out: &mut Vec<u8>) -> Result<Loaded, FileError> {
        match self.get(name, most, out) {
            Ok(loaded) => Ok(loaded),
            Err(FileFault::NoMemory) => Err(FileError::NoMemory),
            Err(FileFault::Failed(cause)) => {
                self.fault(FileCall::Load, name, cause);
                Err(FileError::Failed)
            }
        }
    }

    fn keep(&mut self, name: &[u8], bytes: &[u8]) -> Result<(), FileError> {
        match self.put(name, bytes) {
            Ok(()) => Ok(()),
            Err(fault) => {
                self.unkept.add_one();
                Err(fault)
            }
        }
    }
}
