ghost use Rattle.std.specs.Prelude.{◌≡◌, ◌+◌, ◌≤◌, length, IfOk};
ghost use Rattle.outside.specs.Causes.{CountsFileFault, HasFileCause};

use grep_run::SharedFiles;
use outside::{FileError, Files, Loaded, Source};
use outside_std::StdFiles;
use std::rt;

/// How many bytes the source is asked for in one call.
const PIECE: usize = 65_536;

/// Opens the files once more, for one more thread.
pub trait Opener {
    type Opened: Files + Send + Drop;

    /// Returns None if only one thread is to load.
    fn open(&self) -> Option<Self::Opened>;
}

/// Opens the file system.
#[derive(Drop)]
pub struct SystemOpener<'a, R> {
    rt: &'a R,
}

impl<'a, R: rt::Files + AllocGlobal + Sync> SystemOpener<'a, R> {
    /// The files that `rt` reaches.
    pub fn new(rt: &'a R) -> Self {
        SystemOpener { rt }
    }
}

impl<'a, R: rt::Files + AllocGlobal + Sync> Opener for SystemOpener<'a, R> {
    type Opened = StdFiles<'a, R>;

    fn open(&self) -> Option<StdFiles<'a, R>> {
        Some(StdFiles::new(self.rt))
    }
}

/// Files, with a source under the name `-`. Contracts do not say what they hold.
#[derive(Drop)]
pub struct WithInput<F, S, O> {
    files: F,
    source: S,
    opener: O,
}

impl<F: Files, S: Source, O: Opener> WithInput<F, S, O> {
    /// The source is read when `-` is loaded, to its end: a second load of it has no bytes.
    pub fn new(files: F, source: S, opener: O) -> Self {
        WithInput {
            files,
            source,
            opener,
        }
    }
}

/// Files except `-`, which only their owner loads. Contracts do not say what they hold.
#[derive(Drop)]
pub struct WithoutInput<F> {
    files: F,
    refused: u64,
}

impl<F: Files> Files for WithoutInput<F> {
    ghost use Rattle.std.specs.Prelude.{None, ◌+◌};

    ghost held = { λ _. None };

    ghost faults = { λ w. F.faults w.files + w.refused };

    ghost unkept = { λ w. F.unkept w.files };

    fn load(&mut self, name: &[u8], most: u64, out: &mut Vec<u8>) -> Result<Loaded, FileError> {
        if name == b"-".as_slice() {
            self.refused = self.refused.saturating_add(1);
            return Err(FileError::Failed);
        }
        self.files.load(name, most, out)
    }

    fn keep(&mut self, name: &[u8], bytes: &[u8]) -> Result<(), FileError> {
        self.files.keep(name, bytes)
    }
}

impl<F: Files, S: Source, O: Opener> SharedFiles for WithInput<F, S, O> {
    type Handle = WithoutInput<O::Opened>;

    fn handle(&self) -> Option<WithoutInput<O::Opened>> {
        let files = self.opener.open()?;
        Some(WithoutInput { files, refused: 0 })
    }
}

/// Reads a source to its end, or `most` + 1 bytes of it.
fn read_all<S: Source>(source: &mut S, most: u64, out: &mut Vec<u8>) -> Result<Loaded, FileError>
    ensures whole { IfOk result (λ loaded. loaded ≡ Loaded.Whole → length out.new.items ≤ most) }
    ensures long { IfOk result (λ loaded. loaded ≡ Loaded.Long → length out.new.items ≡ most + 1) }
    ensures cause { HasFileCause (S.faults source.old) (S.faults source.new) result }
    ensures counts { CountsFileFault (S.faults source.old) (S.faults source.new) result }
{
    out.clear();
    let mut piece = [0u8; PIECE];
    while out.len() as u64 <= most {
        let left = most - out.len() as u64;
        let room = left.min(PIECE as u64 - 1) as usize + 1;
        let count = source.read(&mut piece[..room])?;
        if count == 0 {
            return Ok(Loaded::Whole);
        }
        out.extend_from_slice(&piece[..count])?;
    }
    Ok(Loaded::Long)
}

impl<F: Files, S: Source, O: Opener> Files for WithInput<F, S, O> {
    ghost use Rattle.std.specs.Prelude.{None, ◌+◌};

    ghost held = { λ _. None };

    ghost faults = { λ w. F.faults w.files + S.faults w.source };

    ghost unkept = { λ w. F.unkept w.files };

    fn load(&mut self, name: &[u8], most: u64, out: &mut Vec<u8>) -> Result<Loaded, FileError> {
        if name == b"-".as_slice() {
            return read_all(&mut self.source, most, out);
        }
        self.files.load(name, most, out)
    }

    fn keep(&mut self, name: &[u8], bytes: &[u8]) -> Result<(), FileError> {
        self.files.keep(name, bytes)
    }
}
