//! Prefix terms over a version: the words that begin with a prefix, and expressions in which these words replace it.
//!
//! Contracts see the words of the version (`live_of`) that begin with the prefix, in rising byte order and each once
//! (`matching_words`). The terms of a slot's index that begin with it are consecutive: this run is found once in each
//! slot and scanned, and the runs of several slots are merged. Whether a term has a posting that is not dead is asked
//! only if the slot has a dead range, by at most one look-up for each dead range and one more.
//!
//! The layer above expands a query once, when it gets its version. Of the files `to be or not to be` and `be`, with the
//! first deleted, the words that begin with `b` are `be` alone, and none begins with `n`.
#![tactic(auto)]

mod expanding;
mod live;
mod merging;
mod rows;
mod words;

pub use expanding::{VersionWords, expand};
pub use rows::{Run, run_of};
pub use words::matching;
