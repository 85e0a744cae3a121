//! Where each token of a text comes from.
//!
//! A word comes from its run of bytes, a tag's token from the bytes from `<` to `>`, and both tokens of a self-closing tag
//! from the same bytes. Contracts see a `Place` as the numbers of its first byte and of the one after its last, a
//! `PlaceCursor` as the tokens that are still to come with their places, and a `PlaceWalk` as its text.
//!
//! The layers above use `PlaceCursor`, which gives the tokens of a text one at a time, `PlaceWalk`, which gives the places
//! of rising addresses, and the laws. In `To <B/>` the tokens `to`, `<b>` and `</b>` come from 0 to 2, 3 to 7 and 3 to 7.
#![tactic(auto)]

mod cursor;
mod laws;
mod place;
mod placed_token;
mod walk;

pub use cursor::PlaceCursor;
pub use laws::{
    file_places_rise, nothing_else, places_are_in_order, places_give_their_tokens,
    tokens_have_places,
};
pub use place::Place;
pub use placed_token::PlacedToken;
pub use walk::PlaceWalk;
