//! Names that stand for parts of a query.
//!
//! In a query, outside quotes, `$` and a name stand for the text of that name's definition in brackets. Contracts see
//! `Definitions` as pairs of a name and its text, the latest first; each text is itself a query, with all names put in.
//!
//! The layers above define names one after another with `define`, and put names into a query with `put_in`; a refusal
//! gives its place. With `line` for `"<line>".."</line>"`, `$line > "king"` is `("<line>".."</line>") > "king"`.
#![tactic(auto)]

mod definitions;
mod fault;
mod names;
mod putting;

pub use definitions::Definitions;
pub use fault::{DefineFault, NameFault};
pub use names::is_name;
pub use putting::put_in;
