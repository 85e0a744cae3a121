//! Look-ups in one posting list: the least address at or after `k`, the greatest up to `k`, and how many are below `k`.
//!
//! Contracts see a plain list of addresses, and a counter of probes, which each reading of a block's first address
//! raises by one. A look-up halves over the first addresses, so it probes no more often than the list's length has
//! binary digits; then it goes through at most one block, no further than the answer, and takes no memory. In the list
//! `2, 5, 9` the least address at or after 3 is 5, there is no greatest up to 1, and 2 are below 6.
//!
//! The one search is `border`: between two places it finds one that fails a test after one that passes it. The layer
//! above may narrow the places first, if it knows roughly where the border lies.
#![tactic(auto)]

mod halving;
mod search;

pub use halving::{Test, border};
pub use search::{BlocksUpTo, at_or_after, at_or_before, rank};
