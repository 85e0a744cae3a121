//! The language of scripts: lines, commands, and the text of each answer.
//!
//! Contracts see a `Command` by its variants, with bytes as lists and numbers as numbers. The definitions in `specs/`
//! say what the lines of a text are, what command a line is, and what the line of each answer says.
//!
//! The layers above cut a script by `line_at`, or by a `LineFeed` as it comes, which lends the whole lines that are there
//! as one slice; they read each line by `command`, and append answers by the `put_` calls. No answer except a refusal
//! begins with an exclamation mark, and each refusal does (`refusals_are_marked`). Of `"  del 007\r\nfiles"` the first
//! line is `del 007`, the command is `Del(7)`, and its answer may be `gone 7`.
#![tactic(auto)]

mod blanks;
mod commands;
mod feed;
mod grammar;
mod laws;
mod line_cut;
mod lines;
mod numbers;
mod put;
mod refusals;
mod taken;

pub use commands::Command;
pub use feed::LineFeed;
pub use grammar::command;
pub use laws::refusals_are_marked;
pub use line_cut::LineCut;
pub use lines::line_at;
pub use numbers::number_of;
pub use put::{
    put_change, put_file, put_gone, put_interval, put_merging, put_opened, put_record, put_refusal,
    put_saved, put_shards, put_total, put_unwatched, put_watch,
};
pub use refusals::Refusal;
pub use taken::Taken;
