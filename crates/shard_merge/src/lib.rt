//! One slot in place of several neighbouring ones.
//!
//! Contracts see the live words and the records of the slots: those of the slot that `merge` makes are the same, its
//! mask is empty, and its range runs from the first address of the first slot to the last address of the last one.
//!
//! The layer above puts the slot in place of the others (`Version::with_slot`), which changes no answer. Of the files
//! `to be or not to be` at 0 to 7 and one without words at 8 and 9, the first deleted, the slots become one from 0 to 9
//! whose words are `<file!>` at 8 and `</file!>` at 9: no word moves to another address.
#![tactic(auto)]

mod merged;
mod merging;
mod records;

pub use merging::merge;
