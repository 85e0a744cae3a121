//! The accesses of a phrase: tokens in a row.
//!
//! Contracts see the answer as the access of the phrase's concordance list over the text of the leaves. The layer above
//! uses the four accesses and their bounds on look-ups. A walk asks the tokens in a ring for their places in the row
//! from one start: a token that is not there leads on to the next start that it allows, and as soon as all agree on a
//! start, it is the answer. In `0 to, 1 be, 2 or, 3 not, 4 to, 5 be` the first "to be" at or after 1 is (4, 5).
#![tactic(auto)]

mod accesses;
mod counted;
mod runs;
mod walks;

pub use accesses::{phrase_first_end, phrase_first_start, phrase_last_end, phrase_last_start};
pub use counted::{counted_first_end, counted_first_start, counted_last_end, counted_last_start};
pub use runs::{counted_next_row, has_one_word};
