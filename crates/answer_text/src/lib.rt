//! Answers as text: the lines of each, put after what is held back, and handed to the sink in pieces.
//!
//! An `Action` is what a line that is not a query asks for, and an `Answer` what came of it. A batch of queries is answered page by page,
//! so no whole list is ever text at once; and what an edit changed of the list of a watch is a line for each change, found one by one.
//!
//! Contracts see the sink by the bytes that it got, and a call by the text that it puts: what was held back and this text are what the sink
//! got and what is held back then (`Puts`); at a fault the sink got the beginning of both (`GetsPart`). The layer above does what an action
//! asks for, and puts its answer: it takes a pass of the version before (`pass_before`), and after the answer it puts what changed since
//! then (`put_changes`).
//!
//! If `"to"` is watched as number 0, and the file `to be` is added at address 0 as file 0, its answer is the line `file 0 0 3`, followed
//! by `+ 0 1 1`.
#![tactic(auto)]

mod action;
mod answer;
mod pages;
mod telling;
mod write;

pub use action::Action;
pub use answer::{Answer, put_answer};
pub use pages::write_answers;
pub use telling::{pass_before, put_changes, since};
pub use write::{PIECE, write_all};
