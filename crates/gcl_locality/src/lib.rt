//! Locality: what an expression denotes changes only near the words that change.
//!
//! Contracts see two texts that are the same at all addresses except those of a range, as before and after a file is
//! added or deleted, and two addresses of each expression: what is in one of its two lists and not in the other ends at
//! the first of them or later, and starts at the second or before. They are those of the range, except for `<` and `/<`:
//! there a member may change far from the words that do, since what contains it ends there. With `to be or not to be` at
//! 0 to 7 and then `x` at 8 to 10, the `be` at 6 leaves `"be" /< ("to".."x")`, and the first address is 5.
//!
//! The layer above finds the two addresses by a few accesses of the second operands, with `earlier_start` and `later_end`.
//!
//! A window of an expression at two addresses is the part of a text that determines its members there, as far as members reach that touch
//! these addresses, and for `<` and `/<` on to what contains these: a text with the same words in the window, and no address that the
//! first text lacks, has the same members that touch the two addresses. The `be` at 6 alone does not show that it lies in (5, 9). The layer
//! above finds by accesses, too, how far the members of "both of", "followed by" and widths reach: from the member before the addresses to
//! the one after them, with `start_before` and `end_behind`.
#![tactic(auto)]

mod addresses;
mod laws;

pub use addresses::{earlier_start, end_behind, later_end, start_before, touches};
pub use laws::{changes_are_local, contained_are_local_around, members_are_local, windows_tell};
