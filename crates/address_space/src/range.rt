use std::marker::Model;

/// The addresses from `first` to `last`, both included.
#[derive(Clone, Copy, Debug, PartialEq, Eq)]
pub struct Range {
    pub first: u64,
    pub last: u64,
}

impl Model for Range {
    ghost use Rattle.std.specs.Prelude.{◌≤◌, ◌<◌};
    ghost use Rattle.gcl_model.specs.Limits.{address_end};
    ghost use Rattle.gcl_model.specs.Slots.{SlotRange, slot_range};

    ghost Value = { SlotRange };

    ghost view = { λ r. slot_range r.first r.last };

    ghost invariant = { λ r. (r.first ≤ r.last) × (r.last < address_end) };

    ghost inverse = { λ r. record { first = r.first; last = r.last } };
}
