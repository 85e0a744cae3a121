ghost use Rattle.std.specs.Prelude.{◌≡◌};
ghost use Rattle.outside_std.specs.declared.cause.FileFault.TheVariants.{NoMemory as FaultNoMemory};

use std::alloc::AllocError;
use std::io::{Error, ErrorKind};

/// Why a file was not read or saved.
#[derive(Clone, Copy, Debug, PartialEq, Eq)]
pub enum FileCause {
    /// The name is not UTF-8.
    NotText,
    /// There is no such file, or no such folder.
    NotThere,
    /// The system gives no permission.
    NotAllowed,
    /// It is a folder.
    Folder,
    /// It is not a file but, say, a device or a pipe: nothing can be saved there.
    NotAFile,
    /// Symbolic links lead on without end.
    Links,
    /// The disk has no room left.
    Full,
    /// The name, or one next to it, is longer than the system accepts.
    LongName,
    /// Each name that was tried next to it is taken by what a killed save left.
    Leftovers,
    /// Anything else.
    Other,
}

impl From<Error> for FileCause {
    fn from(fault: Error) -> Self {
        match fault.kind() {
            ErrorKind::NotFound | ErrorKind::NotADirectory => FileCause::NotThere,
            ErrorKind::PermissionDenied | ErrorKind::ReadOnlyFilesystem => FileCause::NotAllowed,
            ErrorKind::IsADirectory => FileCause::Folder,
            ErrorKind::FilesystemLoop => FileCause::Links,
            ErrorKind::StorageFull | ErrorKind::QuotaExceeded | ErrorKind::FileTooLarge => {
                FileCause::Full
            }
            ErrorKind::InvalidFilename => FileCause::LongName,
            _ => FileCause::Other,
        }
    }
}

/// Why a file was not read or saved, with its cause.
#[derive(Clone, Copy, Debug, PartialEq, Eq)]
pub enum FileFault {
    /// There was no memory for a name.
    NoMemory,
    /// The disk failed with this cause.
    Failed(FileCause),
}

impl From<AllocError> for FileFault {
    ghost from_gives = { λ _ e. e ≡ FaultNoMemory };

    fn from(_: AllocError) -> Self {
        FileFault::NoMemory
    }
}

impl From<FileCause> for FileFault {
    fn from(cause: FileCause) -> Self {
        FileFault::Failed(cause)
    }
}
