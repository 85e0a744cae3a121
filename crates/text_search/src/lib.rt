//! One query over one text, which is searched by itself.
//!
//! A `QueryText` keeps the addresses of the tokens that an expression names in a file, from one pass over its bytes, and is
//! the `Leaves` of an evaluator or of readers. Contracts see it as the file's text with only these words (`query_text`).
//! `answers` is a page of the concordance list over the whole file, by leaping, and `answer_count` the length of that list;
//! the laws say that the list, its cost and that of a merge depend only on the named words. Over `to be or not to be` the
//! list of `"to".."be"` is (1, 2), (5, 6).
//!
//! A query with prefix terms is first `expanded` over the file: each such term becomes "one of" the file's words that begin with its
//! prefix.
#![tactic(auto)]

mod bucket;
mod expansion;
mod file_words;
mod laws;
mod leaves;
mod listing;
mod matching;
mod names;
mod search;
mod table;
mod term_places;
mod text;

pub use expansion::expanded;
pub use file_words::FileWords;
pub use laws::names_decide;
pub use listing::{answer_count, answers, answers_on, count_on};
pub use text::QueryText;
