//! One query on one version: a search, and its members page by page.
//!
//! Contracts see the members that are still to come: at first those of the wide list of the expression over the words of
//! the version. A page takes the next ones, and a count leaves them as they are. So the layer above never needs a whole
//! list.
//!
//! A `Search` expands prefix terms once. It finds members by leaping while that takes few look-ups, and then by readers, which
//! make no more than a merge of whole lists does; if leaping may be slow, readers begin at once. So the look-ups of each query
//! are in proportion to the text: its pages and its number together make at most `query_cost` of them, which is a clause of
//! the pages that it asks. If many words stand for a prefix term, it switches to their places, which it gathers once. A
//! `Listing` hands out the first members of a search, `PAGE` at a time at most; its first page is found when it is made, so
//! that a thread may do so for another one. `look_ups_of` says about how much work that is.
//!
//! `Pages` are for what changes between two versions: they begin at any address, and leap or read to their end.
//!
//! Over the file `to be or not to be` at address 0, a search for `"to"` has the members 1 to 1 and 5 to 5, and its
//! count is 2. After a page of one member it has 5 to 5 alone, and a listing of its first three has one page.
#![tactic(auto)]

mod expansion;
mod listing;
mod look_ups;
mod merging;
mod pages;
mod query;
mod query_pages;
mod rarest;
mod reading;
mod search;
mod shapes;

pub use expansion::expansion_of;
pub use listing::{Listing, PAGE};
pub use look_ups::look_ups_of;
pub use pages::Pages;
pub use search::Search;
pub use shapes::may_multiply;
