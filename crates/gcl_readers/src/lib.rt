//! Whole expressions, read forward: each node keeps its place in its own list, and no list is ever made.
//!
//! Contracts see readers by the place of each node. Crates above use `Readers::new`, which takes all memory, and then
//! `next`, `read_list_from` and `read_count`: each answer is that of the concordance list, among the members that are
//! left (`left_to`). Pages go on where the page before ended, by the same readers. A look-up is made only for a member
//! that was not looked for before. So all answers of the same readers together make at most `merge_cost` look-ups:
//! those of a merge of the whole lists of all nodes. For `"to" ^ "be"` in `to be or to be` at 1 to 5 these are 22, and
//! `read_count` gives 3.
#![tactic(auto)]

mod chains;
mod containments;
mod front;
mod listing;
mod look_ups;
mod places;
mod readers;
mod reading;

pub use listing::{read_count, read_list_from};
pub use readers::Readers;
