//! Intervals of one width: the accesses of their list and its length, by arithmetic on the span.
//!
//! Contracts see the answer as the access of the concordance list of the width over any text with this span. The layer
//! above uses the four accesses, for every address. With width 7 over the addresses 0 to 7, the first interval that
//! starts at or after 1 is (1, 7), and at or after 2 there is none.
#![tactic(auto)]

mod accesses;

pub use accesses::{
    width_count, width_first_end, width_first_start, width_last_end, width_last_start,
};
