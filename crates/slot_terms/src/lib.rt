//! The terms of several slots, in rising byte order, each with its live postings.
//!
//! Contracts see, of each slot, its dead ranges and the entries of its index that are still to come. `SlotTerms::next`
//! takes the least first term of all: it gives the term, and its live postings in the slots, one slot after the other.
//! `next_lists` lends them as they are packed, in the pieces between the dead ranges. So merging, saving and finding the
//! terms with a prefix are one loop each, and none of them needs a counter.
//!
//! Of the files `to be or not to be` at 0 to 7 and `be` at 8 to 10, the first deleted, the term `be` comes after the
//! two of the files' boundaries, with 9 alone, and then `not`, `or` and `to` without a posting.
#![tactic(auto)]

mod first;
mod least;
mod part;
mod terms;

pub use terms::SlotTerms;
