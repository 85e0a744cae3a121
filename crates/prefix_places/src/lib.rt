//! The places of a prefix term over a version, merged once into one rising list.
//!
//! Contracts see a `PrefixPlaces` as the term and its places (`wide_places`): the addresses of all live words that begin with the prefix.
//! It is built by reading the posting lists of those words once, and takes memory in proportion to their places. After that the place
//! nearest to an address is found as in the list of one word, starting at the last answer, and nothing is allocated.
//!
//! The layer above makes one for a prefix term of many words, and asks it as it would ask the version for one word. Over
//! `to be or not to be` at address 0, whose words are at 1 to 6, the places of `t*` are 1 and 5: the next at or after 2 is 5.
#![tactic(auto)]

mod gathering;
mod near;
mod prefix_places;

pub use prefix_places::PrefixPlaces;
