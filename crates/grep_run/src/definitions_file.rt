ghost use Rattle.std.specs.Prelude.{◌≡◌, IfErr, IfOk, None, OnOk, Some};
ghost use Rattle.grep_run.specs.Definitions.{AreOfFile, HasFileStopCause, definitions_in, says_something};
ghost use Rattle.grep_run.specs.declared.definitions_file.FileStop.TheVariants.{NoMemory};

use crate::one_file::MOST_FILE;
use gcl_model::Bytes;
use grep_words::WordList;
use outside::{FileError, Files, Loaded};
use script_lang::line_at;
use std::alloc::{AllocError, Global};

/// The most bytes that a line may have: as many as a query.
const MOST_LINE: usize = 65_536;

/// The most definitions that a file may have.
const MOST_DEFINITIONS: usize = 256;

/// Why a file gave no definitions.
#[derive(Clone, Copy, Debug, PartialEq, Eq)]
pub enum FileStop {
    /// It cannot be loaded.
    Failed,
    /// It has more bytes than a file may have.
    TooLong,
    /// A line has more than 65,536 bytes, or there are more than 256 definitions.
    NoLines,
    /// There was no memory to go on.
    NoMemory,
}

impl From<AllocError> for FileStop {
    ghost from_gives = { λ _ stop. stop ≡ NoMemory };

    fn from(_: AllocError) -> Self {
        FileStop::NoMemory
    }
}

/// Whether a line is a definition: it is not empty, and does not begin with `#`.
fn says_something(line: &[u8]) -> bool
    ensures { result ≡ says_something line.now }
{
    match line {
        [] => false,
        [first, ..] => *first != b'#',
    }
}

/// The definitions of a file with these bytes. Returns None if a line is too long or there are too many definitions.
fn definitions_in(alloc: Global, bytes: &[u8]) -> Result<Option<WordList>, AllocError>
    ensures { IfOk result (λ texts. texts ≡ definitions_in bytes.now) }
{
    let mut texts = WordList::new(alloc);
    let mut at = 0;
    while let Some(cut) = line_at(bytes, at, MOST_LINE) {
        if cut.long {
            return Ok(None);
        }
        let line = &bytes[cut.from..cut.to];
        if says_something(line) {
            texts.push(Bytes::copy_of(alloc, line)?)?;
        }
        at = cut.after;
    }
    if texts.len() > MOST_DEFINITIONS {
        return Ok(None);
    }
    Ok(Some(texts))
}

/// The definitions of the file of this name, or no definitions if no file is named.
pub(crate) fn file_definitions<F: Files>(
    alloc: Global,
    files: &mut F,
    name: &Option<Bytes>,
) -> Result<WordList, FileStop>
    ensures texts { IfOk result (AreOfFile (F.held files.old) name.now) }
    ensures cause { IfErr result (HasFileStopCause (F.held files.old) name.now (F.faults files.old) (F.faults files.new)) }
    ensures held { F.held files.new ≡ F.held files.old }
    ensures calm { OnOk result (F.faults files.new ≡ F.faults files.old) }
{
    let Some(name) = name else {
        return Ok(WordList::new(alloc));
    };
    let mut bytes = Vec::new(alloc);
    match files.load(name.as_slice(), MOST_FILE, &mut bytes) {
        Ok(Loaded::Whole) => match definitions_in(alloc, bytes.as_slice())? {
            Some(texts) => Ok(texts),
            None => Err(FileStop::NoLines),
        },
        Ok(Loaded::Long) => Err(FileStop::TooLong),
        Err(FileError::Failed) => Err(FileStop::Failed),
        Err(FileError::NoMemory) => Err(FileStop::NoMemory),
    }
}
