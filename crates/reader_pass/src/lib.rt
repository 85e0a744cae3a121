//! Queries on a pass.
//!
//! Contracts see the members of an expression's concordance list over the version of the pass, the last one of its
//! history, and so over the collection that this version stands for. No call takes a handle, so none waits, and
//! whatever is published meanwhile changes no answer.
//!
//! The layer above asks for the first members, from the first one or starting at an address, or for their number. Each query makes at most
//! as many look-ups as the expression's cost for each member, and once more: it leaps, and never lists an operand. Each word is found in
//! the version once, and has a finger. The number of a term's members, of one of a few terms, and of the words that a prefix stands for,
//! takes no look-up: `pass_listed_count` gives it without an evaluation. Over one file `to be or not to be` starting at address 0,
//! `"to be"` has the members (1, 2) and (5, 6), and two of them are found by at most three times its cost.
//!
//! A caller that asks for page after page keeps a cursor. `pass_page` finds its next page, and `pass_number` says how many members are to
//! come: both leap while the cursor has look-ups left, and read on after that. A cursor with none finds (1, 2) and (5, 6) by readers.
#![tactic(auto)]

mod answers;
mod counted;
mod cursors;
mod fingered;
mod reading;

pub use answers::{pass_count, pass_list, pass_list_from, pass_listed_count};
pub use cursors::{pass_number, pass_page};
pub use reading::pass_read_from;
