ghost use Rattle.std.specs.Prelude.{◌≡◌};
ghost use Rattle.grep_run.specs.Faults.{of_write};
ghost use Rattle.grep_run.specs.declared.fault.SearchFault.TheVariants.{NoMemory};

use outside::WriteError;
use std::alloc::AllocError;

/// What ends a search early.
#[derive(Clone, Copy, Debug, PartialEq, Eq)]
pub enum SearchFault {
    /// The sink failed.
    Write,
    /// There was no memory to go on.
    NoMemory,
}

impl From<WriteError> for SearchFault {
    ghost from_gives = { λ fault e. e ≡ of_write fault };

    fn from(fault: WriteError) -> Self {
        match fault {
            WriteError::Failed => SearchFault::Write,
            WriteError::NoMemory => SearchFault::NoMemory,
        }
    }
}

impl From<AllocError> for SearchFault {
    ghost from_gives = { λ _ e. e ≡ NoMemory };

    fn from(_: AllocError) -> Self {
        SearchFault::NoMemory
    }
}
