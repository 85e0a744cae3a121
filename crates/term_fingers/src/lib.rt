//! The terms of a query, each found once in each slot of a version, with a finger on the postings that it was last
//! looked for in.
//!
//! Contracts see `Fingers` as the version that they are over: as `Leaves` they have its text, its span and its bound of
//! look-ups. No contract sees which terms were found, or where a finger is, so no answer depends on it.
//!
//! The layer above makes them of an expression and then evaluates it. A look-up starts at the place where the last one of its
//! term ended, and a block of postings is unpacked once while the look-ups stay in it. A term that was not added is looked up by
//! the version. If an address lies between the ends of the list that a term's finger is on, and nothing in that list's slot is dead,
//! the list gives the nearest address of the whole version, and no slot is looked for. For two terms whose blocks are both unpacked
//! `earliest_pair` says, without a look-up, up to where the one nowhere comes right after the other, and, if nothing in the blocks' slot
//! is dead, whether it does there: so a walk over a phrase of two frequent words looks up little more than the ends of their blocks.
//! For two such terms an interval from the one to the other, such as a line between its tags, takes three steps in their blocks.
//! Nothing takes memory: 16 terms have fingers, and whatever is added after them has none.
//!
//! In one file `to be or not to be` that starts at address 0, and whose first word is at 1, the next `to` at or after 2 is at 5.
#![tactic(auto)]

mod elements;
mod finger;
mod fingers;
mod gallop;
mod look_up;
mod members;
mod naming;
mod pairs;
mod term;
mod undeleted;
mod words;

pub use fingers::Fingers;
pub use naming::Naming;
