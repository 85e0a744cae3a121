//! The dead addresses of a stretch, as ranges.
//!
//! Contracts see a `Mask` as a list of ranges that lie one after the other, below the end of addresses. An address is
//! dead if one of the ranges has it. They see a `SharedMask` as such a list too: its ranges are in parts, which masks
//! made one from another share.
//!
//! The layer above uses `dead`, which gives the dead range that an address is in, so that a look-up leaps over it as a
//! whole, `ranges` and `parts`, to subtract what they hold, and `with`, whose dead addresses are those of the mask and of
//! the range that is added, in at most one range more. With 5 to 6 the mask of 2 to 4 and 7 to 9 is that of 2 to 9.
#![tactic(auto)]

mod mask;
mod parts;
mod shared_mask;
mod shared_part;

pub use mask::Mask;
pub use shared_mask::SharedMask;
pub use shared_part::SharedPart;
