//! How "followed by" goes from the answer of one operand to the next.
//!
//! Contracts see an answer as a pair of numbers. Going forward, the next operand is asked `after` the answer; going
//! backward, the one before is asked `before` it; `seq_join` runs from the first operand's answer to the last's. In
//! this way the layer above walks over the operands, forward and then back without the last: what it joins is the
//! access of the node's concordance list (`followed_by_accesses`). After (4, 5) comes what starts at 6 or later, and
//! before it what ends by 3.
#![tactic(auto)]

mod laws;
mod walk;

pub use laws::followed_by_accesses;
pub use walk::{after, before, seq_join};
