ghost use Rattle.std.specs.Prelude.{◌≡◌};
ghost use Rattle.shared_edit.specs.declared.faults.FiledAddFault.TheVariants.{NoMemory as AddNoMemory};
ghost use Rattle.shared_edit.specs.declared.faults.SettleFault.TheVariants.{NoMemory as SettleNoMemory};
ghost use Rattle.shared_edit.specs.declared.faults.FiledDeleteFault.TheVariants.{NoMemory as DeleteNoMemory};

use crate::plan::SlotName;
use address_space::FileId;
use manifest_publish::Pass;
use std::alloc::AllocError;

/// Why a file was not added.
#[derive(Drop)]
pub enum FiledAddFault {
    /// The file needs this many addresses, and after the version of the pass fewer are left.
    AddressesSpent { need: u64, seen: Pass },
    /// There was not enough memory.
    NoMemory,
}

impl From<AllocError> for FiledAddFault {
    ghost from_gives = { λ _ fault. fault ≡ AddNoMemory };

    fn from(_error: AllocError) -> Self {
        FiledAddFault::NoMemory
    }
}

/// Why a file was not deleted.
#[derive(Drop)]
pub enum FiledDeleteFault {
    /// No surviving file of the version of the pass has this id.
    NotLive { id: FileId, seen: Pass },
    /// There was not enough memory.
    NoMemory,
}

impl From<AllocError> for FiledDeleteFault {
    ghost from_gives = { λ _ fault. fault ≡ DeleteNoMemory };

    fn from(_error: AllocError) -> Self {
        FiledDeleteFault::NoMemory
    }
}

/// A slot that a plan names and that is no longer in its place, as the pass shows.
#[derive(Drop)]
pub struct StaleSlot {
    pub at: usize,
    pub name: SlotName,
    pub seen: Pass,
}

/// Why a plan was not settled.
#[derive(Drop)]
pub enum SettleFault {
    /// A slot that the plan names is no longer in its place.
    Stale(StaleSlot),
    /// There was not enough memory.
    NoMemory,
}

impl From<AllocError> for SettleFault {
    ghost from_gives = { λ _ fault. fault ≡ SettleNoMemory };

    fn from(_error: AllocError) -> Self {
        SettleFault::NoMemory
    }
}
