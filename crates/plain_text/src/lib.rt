//! Words at addresses in a plain list, and the lists of expressions by looking at every pair of addresses.
//!
//! Contracts see a `PlainText` as a `Text`: its first and next address, and its words in rising address. It is made
//! by `new` and `put`, or by `of_tokens`, and answers the look-ups of `Leaves` with one step each. The layer above
//! uses the look-ups. In `0 to, 1 be, 2 to` the next `to` at or after 1 is at 2, and the previous one up to 1 at 0.
#![tactic(auto)]

mod entry;
mod filters;
mod holding;
mod kinds;
mod leaves;
mod nesting;
mod order;
mod pairs;
mod slow;
mod text;
mod tokens;

pub use slow::slow_list;
pub use text::PlainText;
pub use tokens::of_tokens;
