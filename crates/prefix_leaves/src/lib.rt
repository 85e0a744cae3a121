//! Leaves over which a prefix term is looked up like a single word.
//!
//! Contracts see a text in which each word that a prefix term stands for has that term as its token (`renamed`): over `to be or not to be`
//! and `t*` it is `t* be or not t* be`. Over it an expression has its wide list as its concordance list, if no word is meant by two of its
//! names (`is_apart`). So the evaluators answer it as it is, and none of the many words of a prefix is looked up by itself.
//!
//! The layer above asks once whether an expression is apart (`PrefixTerms::of`), and if it is, gathers the places of its prefix terms once
//! (`PrefixTable::of`). A cursor then finds its members page by page (`wide_page`), or how many are to come (`wide_number`): it leaps
//! while it has look-ups left, and reads on after that. `t* ^ or` is apart: its first member at or after 0 is (1, 3). `t* ^ to` is not,
//! since `to` is meant by both.
#![tactic(auto)]

mod apart;
mod asking;
mod laws;
mod leaves;
mod meant;
mod table;
mod terms;

pub use asking::{wide_number, wide_page};
pub use laws::names_that_are_apart_decide;
pub use leaves::PrefixLeaves;
pub use table::PrefixTable;
pub use terms::PrefixTerms;
