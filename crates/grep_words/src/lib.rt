//! The words of `gclgrep`'s command line, and what they ask for.
//!
//! The words are options in any order, a query and files; `--` ends the options. The library `clap` parses them, and what it reads for a
//! command with these options is a definition that contracts can name: `specs/Program.antt` has the options, and `task_of` in
//! `specs/Grammar.antt` what the words ask for, or nothing if they are outside the grammar.
//!
//! The layer above uses `task_of`. `-c "to" a` asks for the number of answers to `"to"` in the file `a`.
#![tactic(auto)]

mod command;
mod reader;
mod task;
mod word_list;

pub use reader::task_of;
pub use task::{SearchWords, Task};
pub use word_list::WordList;
