//! Batches of queries, answered in lanes concurrently with a merge: each reader has a lane of its own, and no byte of
//! an answer depends on it.
//!
//! Contracts see the collection that the engine's version stands for before the batch. Each answer is what its query
//! asks of the concordance list of its expression over the words of that collection, whichever version a lane entered,
//! and in whatever order the threads ran. So the layer above writes the answers of `answer_batch` in the order of the
//! queries, and may let a merge run concurrently with each batch. A list is answered by a `Listing`, of which the lane
//! found the first page.
//!
//! Over the file `to be or not to be` at address 0, with two readers, the batch `find "to"`, `count "be"`, `top 1 "to"` is
//! answered by the listing 1 to 1, 5 to 5, the total 2 and the listing 1 to 1. If there are two lanes, the first and the third
//! query are those of the first reader's lane, and while it answers, another thread may answer the second one, and a third one
//! merge.
//!
//! A lane's answers count because of what its reader learns. Before the batch it learns the receipt of the engine's
//! last version, so it enters none before that one. After it, it learns the receipt of the engine's version once more
//! and enters: the history that it has seen by then goes on from each that it entered, and from the engine's. Of two
//! prefixes of one history the shorter is a prefix of the longer, so a version that it entered is one of the engine's
//! if its number is not above the engine's. Each other answer is made again.
#![tactic(auto)]

mod asks;
mod batch;
mod context;
mod find;
mod gather;
mod lane;
mod lanes;
mod merging;
mod settle;

pub use asks::{Ask, Asked, Found};
pub use batch::answer_batch;
pub use context::Context;
