//! A corpus that is made from a number: files, and a script over them.
//!
//! `MadeFiles` holds the files `m0`, `m1` and so on, some words and tags each; every other name has no bytes, and what
//! is kept under a name is there from then on. `made_script` adds the files one after the other, deletes some, and
//! asks queries. Both draw their numbers from one generator, so two runs from the same number are the same, byte for
//! byte. Contracts see the files by `made_files`, with `kept_over` if something was kept, and the script by
//! `made_text`; `summary` is what is printed of a run in place of its answers.
//!
//! Example: from 0 the first number below 100 is 7.
#![tactic(auto)]

mod counts;
mod draws;
mod files;
mod items;
mod lines;
mod names;
mod put;
mod script;
mod summary;
mod taken;

pub use draws::Draws;
pub use files::MadeFiles;
pub use script::{MadeScript, made_script};
pub use summary::SummarySink;
