//! Versions: the words and files of a collection in at most 32 slots, under deletions and merges.
//!
//! Contracts see a `Slot` as a range of addresses, an index, dead ranges and surviving files, and a `Version` as its
//! numbers and its slots by rising address. The words of a version (`live_of`) are those of its slots' indexes that are
//! at no dead address.
//!
//! The layers above make each version from the one before it, by adding or deleting a file or by putting one slot in
//! place of several: it then stands for the collection after that step. They use a version as `Leaves`: a look-up is one
//! among its words, passes a dead range as a whole, and makes at most 32 posting look-ups and one for each deletion. They
//! read slots and files, and ask how many slots at the end are merged into one. If the file at 0 to 7 is deleted, the
//! next `</file!>` at or after 0 is that of the file at 8 to 9.
//!
//! The search itself is generic over `LookUp`: one term, in whatever way it is found in the slots' indexes, and a counter
//! that only the caller can make.
#![tactic(auto)]

mod alive;
mod changes;
mod counts;
mod deletion;
mod files;
mod laws;
mod leaves;
mod look_up;
mod slot;
mod slot_list;
mod tail;
mod terms;
mod version;

pub use laws::{
    a_version_has_the_files, a_version_has_the_text, a_version_stands_for_one, slots_are_parts,
    words_are_of_files, words_are_of_terms,
};
pub use look_up::LookUp;
pub use slot::Slot;
pub use terms::earlier_term;
pub use version::Version;
