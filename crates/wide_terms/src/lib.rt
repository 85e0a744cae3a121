//! Expressions with prefix terms: each such term becomes one of the words that begin with its prefix.
//!
//! Contracts see the expression as a form, and what is made of it as its `expansion` over a text: a function of the two,
//! whose concordance list is the wide list of the expression. The words of a text come in rising byte order, each once.
//!
//! The layer above has a `WordTable`, which finds the words that begin with a prefix, and calls `expand`;
//! `has_prefix_terms` says whether there is anything to expand. Over `to be or not to be` the prefix term `t*` becomes
//! `to`, and `o* ^ n*` becomes `or ^ not`. More than 8 words become a tree: one of two halves, each built the same way.
//! So for a reader that goes forward, and asks again where its own answer was passed, the number of steps depends on the
//! height of the tree, not on the number of words.
#![tactic(auto)]

mod asking;
mod expanding;
mod laws;
mod table;

pub use asking::{has_prefix_terms, is_prefix_term};
pub use expanding::expand;
pub use laws::{
    expansions_are_well_formed, expansions_are_wide, matching_words_are_exact, one_of_flattens,
    others_stay, trees_flatten,
};
pub use table::WordTable;
