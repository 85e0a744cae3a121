//! The index of one file.
//!
//! Contracts see the tokens of a file between its two boundary tokens, at consecutive addresses. The words of the shard
//! that `build` makes are these, and its range is these addresses.
//!
//! The layer above gives the next free address and a file's tokens. Starting at address 0, the shard of `to be or not to
//! be` has `to` at 1 and 5, and `</file!>` at 7. Any `Tokens` will do: a list of tokens, or a text that was cut. Of an
//! uncut text `build_text` takes one token after the other, so that nothing is kept except the index and `Names`. No
//! contract sees what these have, and it changes no shard: a caller that builds many lends the same ones to each call.
//!
//! If the address is not known yet, `index_text` makes a `TextIndex`, which `placed` turns into the shard at any
//! address: so an index can be made concurrently with others, and only be placed in turn.
#![tactic(auto)]

mod ahead;
mod building;
mod group;
mod hint;
mod lists;
mod name;
mod names;
mod numbers;
mod order;
mod seeded;
mod seen;
mod source;

pub use ahead::{TextIndex, can_index, index_text};
pub use building::{build, build_from, build_text};
pub use names::Names;
pub use source::Tokens;
