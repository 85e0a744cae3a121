ghost use Rattle.std.specs.Prelude.{◌≡◌, IfOk, map, drop, string_bytes};

use gcl_model::Bytes;
use std::alloc::{AllocError, Global};
use std::env;
use std::env::Env;
use std::io::ErrorKind;

/// Why the words of the command line were not read.
#[derive(Clone, Copy, Debug, PartialEq, Eq)]
pub enum WordFault {
    /// A word is not UTF-8.
    NotText,
    /// There was no memory for the words.
    NoMemory,
}

impl From<AllocError> for WordFault {
    fn from(_: AllocError) -> Self {
        WordFault::NoMemory
    }
}

/// The words of the command line, without the program's name.
pub fn words<R: Env + AllocGlobal>(rt: &R) -> Result<Vec<Bytes>, WordFault> {
    let args = match env::args(rt) {
        Ok(args) => args,
        Err(fault) if fault.kind() == ErrorKind::OutOfMemory => return Err(WordFault::NoMemory),
        Err(_) => return Err(WordFault::NotText),
    };
    let args: Vec<String> = args.collect(rt.alloc())?;
    Ok(copied(rt.alloc(), after_name(args.as_slice()))?)
}

/// The words after the program's name, if there is one.
fn after_name(args: &[String]) -> &[String]
    ensures { result.now ≡ drop 1 args.now }
{
    match args.split_at_checked(1) {
        Some((_, words)) => words,
        None => &[],
    }
}

/// Copies of these words.
pub fn copied(alloc: Global, words: &[String]) -> Result<Vec<Bytes>, AllocError>
    ensures { IfOk result (λ copies. copies.items ≡ map string_bytes words.now) }
{
    let mut copies = Vec::new(alloc);
    for word in words {
        copies.push(Bytes::copy_of(alloc, word.as_bytes())?)?;
    }
    Ok(copies)
}
