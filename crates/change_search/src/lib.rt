//! One query on two versions: what an edit changed of its list, as two searches find it.
//!
//! Contracts see the changes that are still to come: at first those between the wide lists of an expression over the words of a version
//! before an edit and of one after it, which are what `standing_query` defines. So the layer above takes one change after the other, and
//! needs neither of the two lists.
//!
//! A `CountedListing` goes through both lists side by side, a page of each at a time, and leaves out what is in both. `of` goes through
//! whole lists. `between` gets the addresses of an edit, outside of which nothing changed, and goes through only the members near them:
//! it gives the same changes, and its clause states the cost (`change_cost`), that of what lies there, however long the lists are: if
//! readers find the members instead of accesses, they read only the window of the expression, not whole lists. A `ChangeListing` is the
//! same for a caller without a counter. `edits_agree` says that these are the addresses of the file that was added, or deleted.
//!
//! Between no file at all and the file `to be or not to be` at address 0, `"to".."be"` has two changes: 1 to 2 came, and 5 to 6 came. With
//! a file `x` after it, at 8 to 10, `"be" /< ("to".."x")` has one: 6 to 6 went, since 5 to 9 came to contain it.
#![tactic(auto)]

mod change_listing;
mod counted_listing;
mod laws;
mod opening;
mod side;
mod step;

pub use change_listing::ChangeListing;
pub use counted_listing::CountedListing;
pub use laws::edits_agree;
