ghost use Rattle.std.specs.Prelude.{◌≡◌};
ghost use Rattle.query_run.specs.Faults.{of_read, of_run};
ghost use Rattle.query_run.specs.declared.stream_fault.StreamFault.TheVariants.{NoMemory};

use crate::read::ReadFault;
use script_answers::RunFault;
use std::alloc::AllocError;

/// What ends a run over a source before the script's end.
#[derive(Clone, Copy, Debug, PartialEq, Eq)]
pub enum StreamFault {
    /// The source failed.
    Read,
    /// The script has more bytes than it may have.
    TooLong,
    /// The sink failed.
    Write,
    /// The files failed.
    Files,
    /// There was no memory to go on.
    NoMemory,
}

impl From<ReadFault> for StreamFault {
    ghost from_gives = { λ fault e. e ≡ of_read fault };

    fn from(fault: ReadFault) -> Self {
        match fault {
            ReadFault::Failed => StreamFault::Read,
            ReadFault::TooLong => StreamFault::TooLong,
            ReadFault::NoMemory => StreamFault::NoMemory,
        }
    }
}

impl From<RunFault> for StreamFault {
    ghost from_gives = { λ fault e. e ≡ of_run fault };

    fn from(fault: RunFault) -> Self {
        match fault {
            RunFault::Write => StreamFault::Write,
            RunFault::Files => StreamFault::Files,
            RunFault::NoMemory => StreamFault::NoMemory,
        }
    }
}

impl From<AllocError> for StreamFault {
    ghost from_gives = { λ _ e. e ≡ NoMemory };

    fn from(_: AllocError) -> Self {
        StreamFault::NoMemory
    }
}
