//! How "both of" and "one of" combine the answers of their operands.
//!
//! Contracts see an answer as a pair of numbers. "Both of" goes forward to the greatest end of its operands' answers
//! and back to the least start; "one of" keeps the better of two answers. The layer above folds these over the
//! operands: what the folds give is the access of the node's concordance list (`both_of_accesses`, `one_of_accesses`).
//! Of the answers (1, 4) and (2, 4), "one of" takes (2, 4) going forward.
#![tactic(auto)]

mod backward;
mod forward;
mod laws;

pub use backward::{both_backward_end, both_backward_start, one_backward};
pub use forward::{both_forward_end, both_forward_start, one_forward};
pub use laws::{both_of_accesses, one_of_accesses};
