ghost use Rattle.std.specs.Prelude.{◌≡◌};
ghost use Rattle.outside.specs.declared.faults.WriteError.TheVariants.{Failed as WriteFailed, NoMemory as WriteNoMemory};
ghost use Rattle.outside.specs.declared.faults.FileError.TheVariants.{Failed as FileFailed, NoMemory as FileNoMemory};

use std::alloc::AllocError;

/// The object failed, and its count of faults rose.
#[derive(Clone, Copy, Debug, PartialEq, Eq)]
pub struct Failed;

/// Why nothing was taken by a `Sink`.
#[derive(Clone, Copy, Debug, PartialEq, Eq)]
pub enum WriteError {
    /// The sink failed, and its count of faults rose.
    Failed,
    /// There was no memory for the bytes.
    NoMemory,
}

/// Why a file was not loaded.
#[derive(Clone, Copy, Debug, PartialEq, Eq)]
pub enum FileError {
    /// The files failed, or hold nothing under the name, and their count of faults rose.
    Failed,
    /// There was no memory for the content.
    NoMemory,
}

impl From<Failed> for WriteError {
    ghost from_gives = { λ _ e. e ≡ WriteFailed };

    fn from(_: Failed) -> Self {
        WriteError::Failed
    }
}

impl From<AllocError> for WriteError {
    ghost from_gives = { λ _ e. e ≡ WriteNoMemory };

    fn from(_: AllocError) -> Self {
        WriteError::NoMemory
    }
}

impl From<Failed> for FileError {
    ghost from_gives = { λ _ e. e ≡ FileFailed };

    fn from(_: Failed) -> Self {
        FileError::Failed
    }
}

impl From<AllocError> for FileError {
    ghost from_gives = { λ _ e. e ≡ FileNoMemory };

    fn from(_: AllocError) -> Self {
        FileError::NoMemory
    }
}
