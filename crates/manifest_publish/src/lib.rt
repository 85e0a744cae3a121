//! Publishing versions to readers that run independently: none waits, and none goes back.
//!
//! Contracts see of a `Publisher` its history, the list of all versions that it has published; of a `Pass` and a `Receipt`
//! the history up to some version; and of each which publisher it is of. A history is lawful: it begins with an empty version, and each
//! further one has the next number, and stands for the collection before it after one step, or for that same collection.
//!
//! `Reader::enter` takes no handle, so it cannot wait. Its pass has the version that was published last. The contract says that the history
//! of the pass begins with all that this reader has seen, and with that of each receipt that it learnt. So the layers above give a
//! receipt to the readers it concerns: one that learns it sees that version or a later one. They publish a next version of the last,
//! and know that of two passes or receipts of one publisher the shorter history begins the longer. A slot of a later version with the
//! range and the number of files of an earlier one is that slot, except for its index (`slots_of_one_name_are_the_same`).
//!
//! After the opening version, one added file makes version 1. A reader that learns its receipt and enters gets version
//! 1, and if two more files came meanwhile it may get version 3; its next pass has no lower number.
//!
//! The history is the log of a `logbook`. What anyone knows of it is a token of that log, which takes no memory and
//! outlives all. The versions themselves pass through a `left_right`, whose rule says whose version it shows. Its writer
//! learns this only by a publication, so `Publisher::new` makes one, and takes `rt` for it; but there is no reader yet to
//! wait for.
#![tactic(auto)]

mod found;
mod laws;
mod log;
mod pass;
mod press;
mod publisher;
mod reader;
mod shown;
mod told;

pub use laws::{
    a_next_version_may_be_added, each_version_stands_for_a_collection, numbers_are_places,
    slots_of_one_name_are_the_same, versions_are_shared,
};
pub use pass::{Pass, Receipt};
pub use publisher::Publisher;
pub use reader::{EnterFault, Reader};
