ghost use Rattle.std.specs.Prelude.{◌≡◌, ◌<◌, length, IfOk};
ghost use Rattle.delete_mask.specs.Parts.{first_dead, last_dead};

use crate::mask::Mask;
use std::alloc::{AllocError, Global};
use std::marker::Model;
use std::sync::Arc;

/// Some dead ranges of a slot in a row, at least one. All versions that have them share them.
#[derive(Drop)]
pub struct SharedPart {
    mask: Arc<Mask>,
}

impl Model for SharedPart {
    ghost use Rattle.std.specs.Prelude.{List, ◌<◌, length};
    ghost use Rattle.gcl_model.specs.Slots.{SlotRange};

    ghost Value = { List SlotRange };

    ghost view = { λ p. p.mask.value };

    ghost invariant = { λ p. 0 < length p.mask.value };
}

impl SharedPart {
    pub(crate) fn new(alloc: Global, mask: Mask) -> Result<Self, AllocError>
        requires { 0 < length mask }
        ensures { IfOk result (λ part. part ≡ mask) }
    {
        let mask = Arc::new(alloc, mask)?;
        Ok(SharedPart { mask })
    }

    /// The ranges, by themselves.
    pub fn mask(&self) -> &Mask
        ensures value { result.now ≡ self.now }
        ensures some { 0 < length self.now }
    {
        let _ = &self.mask;
        &self.mask
    }

    /// The same ranges, with one more owner and not copied. Err means that no more owners can be counted.
    pub(crate) fn share(&self) -> Result<Self, AllocError>
        ensures { IfOk result (λ shared. shared ≡ self.now) }
    {
        let mask = Arc::try_clone(&self.mask)?;
        Ok(SharedPart { mask })
    }

    pub(crate) fn first(&self) -> u64
        ensures { result ≡ first_dead self.now }
    {
        let ranges = self.mask().ranges();
        let range = ranges[0];
        range.first
    }

    pub(crate) fn last(&self) -> u64
        ensures { result ≡ last_dead self.now }
    {
        let ranges = self.mask().ranges();
        let range = ranges[ranges.len() - 1];
        range.last
    }
}
