ghost use Rattle.std.specs.Prelude.{◌≡◌};
ghost use Rattle.script_answers.specs.Faults.{of_write, of_files};
ghost use Rattle.script_answers.specs.declared.run_fault.RunFault.TheVariants.{NoMemory};

use outside::{FileError, WriteError};
use std::alloc::AllocError;

/// What ends a run before its end.
#[derive(Clone, Copy, Debug, PartialEq, Eq)]
pub enum RunFault {
    /// The sink failed.
    Write,
    /// The files failed.
    Files,
    /// There was no memory to go on.
    NoMemory,
}

impl From<WriteError> for RunFault {
    ghost from_gives = { λ fault e. e ≡ of_write fault };

    fn from(fault: WriteError) -> Self {
        match fault {
            WriteError::Failed => RunFault::Write,
            WriteError::NoMemory => RunFault::NoMemory,
        }
    }
}

impl From<FileError> for RunFault {
    ghost from_gives = { λ fault e. e ≡ of_files fault };

    fn from(fault: FileError) -> Self {
        match fault {
            FileError::Failed => RunFault::Files,
            FileError::NoMemory => RunFault::NoMemory,
        }
    }
}

impl From<AllocError> for RunFault {
    ghost from_gives = { λ _ e. e ≡ NoMemory };

    fn from(_: AllocError) -> Self {
        RunFault::NoMemory
    }
}
