//! Intervals, expressions and what they denote.
//!
//! This crate holds what a reader must believe: the definitions in `specs/`, from the tokens of bytes up to the
//! concordance list of an expression over a text, each computed on worked examples, and every limit by its name. The
//! code has the types that every crate shares. Contracts see an `Interval` as a pair of numbers, an `Expr` as a plain
//! tree, the three lists as lists, and `Steps` as one number.
//!
//! The layers above use the definitions, the laws (`concordances_rise`, `chains_group`), and `Leaves`: words at
//! addresses that are looked up one at a time. In `1 to, 2 be, 5 to` the next `to` at or after 2 is at 5. An
//! evaluator is written over `CountedLeaves`, where it cannot make a counter of its own, and where a look-up may be
//! refused, as `LimitedLeaves` do once a limit is reached. A caller without a counter asks a `Question`.
#![tactic(auto)]

mod blanks;
mod boundaries;
mod bytes;
mod containment;
mod counted_leaves;
mod direction;
mod expr;
mod interval;
mod interval_list;
mod laws;
mod leaves;
mod limited_leaves;
mod pair;
mod questions;
mod span;
mod steps;
mod token_list;

pub use blanks::is_blank;
pub use boundaries::{file_end, file_start};
pub use bytes::Bytes;
pub use containment::Containment;
pub use counted_leaves::{CountedLeaves, LentLeaves};
pub use direction::Direction;
pub use expr::Expr;
pub use interval::Interval;
pub use interval_list::IntervalList;
pub use laws::{chains_group, concordances_rise};
pub use leaves::Leaves;
pub use limited_leaves::{LimitedLeaves, Spent};
pub use pair::Pair;
pub use questions::{Question, counted, uncounted};
pub use span::{ADDRESS_END, Span};
pub use steps::{Ledger, NoLedger, Steps, Tally};
pub use token_list::TokenList;
