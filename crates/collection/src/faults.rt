ghost use Rattle.std.specs.Prelude.{◌≡◌};
ghost use Rattle.collection.specs.declared.faults.OpenFault.TheVariants.{NoMemory as OpenNoMemory};
ghost use Rattle.collection.specs.declared.faults.AddFault.TheVariants.{AddressesSpent as Spent, NoMemory as AddNoMemory};
ghost use Rattle.collection.specs.declared.faults.DeleteFault.TheVariants.{NoMemory as DeleteNoMemory};
ghost use Rattle.collection.specs.declared.faults.AdoptFault.TheVariants.{NoMemory as AdoptNoMemory};

use address_space::{AddressesSpent, FileId};
use std::alloc::AllocError;
use thiserror::Error;

/// Why no engine was opened.
#[derive(Clone, Copy, Debug, PartialEq, Eq, Error)]
pub enum OpenFault {
    /// This first address is above 2^56.
    #[error("first address {0} is above 2^56")]
    BadFirst(u64),
    /// There was not enough memory.
    #[error("out of memory")]
    NoMemory,
}

impl From<AllocError> for OpenFault {
    ghost from_gives = { λ _ fault. fault ≡ OpenNoMemory };

    fn from(_error: AllocError) -> Self {
        OpenFault::NoMemory
    }
}

/// Why a file was not added.
#[derive(Clone, Copy, Debug, PartialEq, Eq, Error)]
pub enum AddFault {
    /// It needs `need` addresses starting at `next`, and there are not that many below 2^56.
    #[error("{need} addresses are needed from {next} on")]
    AddressesSpent { next: u64, need: u64 },
    /// There was not enough memory.
    #[error("out of memory")]
    NoMemory,
}

impl From<AllocError> for AddFault {
    ghost from_gives = { λ _ fault. fault ≡ AddNoMemory };

    fn from(_error: AllocError) -> Self {
        AddFault::NoMemory
    }
}

impl From<AddressesSpent> for AddFault {
    ghost from_gives = { λ spent fault. fault ≡ Spent spent.next spent.need };

    fn from(spent: AddressesSpent) -> Self {
        AddFault::AddressesSpent {
            next: spent.next,
            need: spent.need,
        }
    }
}

/// Why a file was not deleted.
#[derive(Clone, Copy, Debug, PartialEq, Eq)]
pub enum DeleteFault {
    /// No surviving file has this id.
    NotLive(FileId),
    /// There was not enough memory.
    NoMemory,
}

impl From<AllocError> for DeleteFault {
    ghost from_gives = { λ _ fault. fault ≡ DeleteNoMemory };

    fn from(_error: AllocError) -> Self {
        DeleteFault::NoMemory
    }
}

/// Why a version was not adopted.
#[derive(Clone, Copy, Debug, PartialEq, Eq, Error)]
pub enum AdoptFault {
    /// This many ids were given already.
    #[error("{0} files were added before")]
    NotEmpty(u64),
    /// There was not enough memory.
    #[error("out of memory")]
    NoMemory,
}

impl From<AllocError> for AdoptFault {
    ghost from_gives = { λ _ fault. fault ≡ AdoptNoMemory };

    fn from(_error: AllocError) -> Self {
        AdoptFault::NoMemory
    }
}
