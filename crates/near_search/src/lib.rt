//! The members of an expression near two addresses, page by page, at the cost of what lies there.
//!
//! What determines them is a part of the text, the window of the expression (`window_of`): as far as members reach that touch the two
//! addresses, and around that what `<` and `/<` look at. Evaluated over the window, the expression has the same members that touch the two
//! addresses (`gcl_locality::windows_tell`). So one access over the window finds the first of them, and readers merge the lists over the
//! window to find the others: no word further away is looked at.
//!
//! Contracts see the members that are to come (`NearPages`). Over `to be or not to be` from address 0, no member of `"to"` touches 3
//! to 4, since 1 to 1 ends before them and 5 to 5 starts after them.
#![tactic(auto)]

mod around;
mod near_pages;
mod window_pages;

pub use around::window_of;
pub use near_pages::NearPages;
