//! The engine that a program embeds: files are added and deleted, slots merged and images opened, each in one
//! publication.
//!
//! Contracts see an `Engine` as its publisher, all versions that it published, and the last of these, `version`. Each
//! call is a relation between the engine before and after it (`specs/Changes.antt`): of the collection which the
//! version stands for, of the ranges of its slots, and of what stays of slots. So for any list of calls the collection
//! is the one that its adds, deletions and openings give, whatever merges came between.
//!
//! The layers above call it, write what it answers, and read the last version. After `to be or not to be` was added
//! starting at address 0, and then a file without words, the slots 0 to 7 and 8 to 9 are merged into one, 0 to 9: an add
//! merges the last slots while four times the width of the last is at least that of the one before it. If the first
//! file is deleted, the slot stays, and 0 to 7 are dead in it; a merge leaves one slot without dead addresses.
#![tactic(auto)]

mod add;
mod edits;
mod engine;
mod faults;
mod laws;

pub use engine::{Added, Engine, Opened};
pub use faults::{AddFault, AdoptFault, DeleteFault, OpenFault};
pub use laws::calls_reach;
pub use shard_build::{Names, TextIndex, can_index, index_text};
