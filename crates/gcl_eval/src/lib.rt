//! Whole expressions, evaluated by leaping from answer to answer, with no list of an operand ever made.
//!
//! Contracts see an expression by its form and its concordance list over the text of the leaves. Crates above use the
//! four accesses of that list (`first_start`, `first_end`, `last_end`, `last_start`), which take no memory and make no
//! more look-ups than the cost of the expression, and `count`, `list` and `list_from`, within that cost for each member
//! and once more. `count_within` and `list_within` stop at a given number of look-ups: a refused one ends the access.
//! Readers use `element_at_hand` and `element_onward`, for "followed by" of two terms. Each look-up is counted on the
//! caller's counter: the code has no other. The first member of `("to"^"not")+"be"` that ends at 3 or later in
//! `<file!> to be or not to be </file!>` is (4, 5).
#![tactic(auto)]

mod access;
mod accesses;
mod apart;
mod chains;
mod containment;
mod containments;
mod direction;
mod elements;
mod known;
mod members;
mod onward;
mod phrase;
mod term;
mod two_widths;
mod width;

pub use accesses::{first_end, first_start, last_end, last_start};
pub use elements::{element_at_hand, element_onward};
pub use members::{Page, count, count_within, list, list_from, list_within};
