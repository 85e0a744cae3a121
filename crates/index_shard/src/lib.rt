//! The index of a range of addresses: its terms in rising byte order, each with its postings.
//!
//! Contracts see a `Shard` as a range and a table from terms to lists of addresses inside the range. No list is empty,
//! and no address is listed under two terms.
//!
//! The layer above looks terms up, one step each, and walks over the postings of one term after the other. By the laws
//! here that is the same as searching the words of the shard (`words_of`). In the shard of `to be or not to be` at the
//! addresses starting at 1, `to` looked up forward at 2 gives 5.
#![tactic(auto)]

mod entry;
mod find;
mod laws;
mod maker;
mod parts;
mod room;
mod shard;
mod table;
mod walk;

pub use entry::head_of;
pub use gcl_model::Direction;
pub use laws::{postings_are_places, words_rise};
pub use maker::ShardMaker;
pub use room::Room;
pub use shard::Shard;
pub use walk::Walk;
