//! Posting lists: the addresses at which one term occurs; and the packed numbers in which they are stored.
//!
//! Contracts see a `PostingList` as a strictly rising list of addresses below 2^56. It is lent as `Postings`, and read
//! in blocks of 64: block `b` has the members starting at place `64 b`. No contract sees that only a block's first
//! address is a number of fixed size, and each other member the packed difference from the one before. `PostingRows` is
//! seen as a list of such lists: those joined from others share their memory.
//!
//! The layer above asks for the first address of a block, reads a block if that one decides, or goes through it up to
//! the answer. Of the 70 addresses `0, 2, .. 138` block 1 begins with 128 and has 6 members.
//!
//! A packed number has 7 bits a byte, the lowest first: 300 is `ac 02`. It has only one spelling, and what begins with
//! the spelling of one number begins with that of no other.
//!
//! The plain program is the slice that a list was made from, cut by `chunks`: the tests run every reader alongside it.
#![tactic(auto)]

mod blocks;
mod head;
mod laws;
mod maker;
mod moving;
mod number;
mod packed_maker;
mod posting_list;
mod room;
mod row;
mod rows;
mod unpack;

pub use laws::{each_number_has_one_spelling, no_spelling_begins_another};
pub use maker::{PostingMaker, encode};
pub use number::{NUMBER_END, Number, get_number, put_number};
pub use packed_maker::PackedMaker;
pub use posting_list::{ADDRESS_END, BLOCK, PostingList, Postings};
pub use room::RowsRoom;
pub use row::put_joined;
pub use rows::PostingRows;
