//! The options of the program, read from the words of its command line.
//!
//! The words are `--first A`, `--readers N`, `--made X` and `--count C` in any order, each at most once, with the
//! value as the next word or joined by `=`. Contracts see the words as lists of bytes and what they write as
//! `options_of` of `specs/Grammar.antt`; words outside that grammar write nothing.
//!
//! The layer above uses `options_of`: for every list of words it returns exactly what the grammar says. The library
//! `clap` splits the words, and the numbers, their bounds and the pair of `--made` and `--count` are tested here.
//! `--first=7 --readers 2` gives the first address 7 and two readers. `wrong_word` is for a message and promises nothing.
#![tactic(auto)]

mod command;
mod options;
mod reader;
mod wrong;

pub use options::{MOST_MADE, MOST_READERS, Made, Options};
pub use reader::options_of;
pub use wrong::wrong_word;
