//! The expression of a query, or the first place at which a text is no query.
//!
//! A query has quoted texts, prefix terms (a quoted word with a `*` right after it), widths, operators and brackets. `..` binds tightest,
//! then `^`, then `+`; the containments `>`, `<`, `/>` and `/<` bind loosest and group from the left. Contracts see the grammar as the
//! trees of `specs/Grammar.antt`: a tree spells query tokens and stands for one form (`IsQueryWithin`). A text that no tree within the
//! limits spells has its first fault, a place and a kind, by `refused` of `specs/Refusal.antt`.
//!
//! The form of a text is also computed, by `query_form` of `specs/QueryForm.antt`.
//!
//! The layers above use `parse` and the laws: a text is not refused if and only if a tree within the limits spells
//! it, it stands for one form at most, and `query_form` gives that form. `"to".."be" ^ [3]` is both of `to` followed
//! by `be`, and 3 words.
#![tactic(auto)]

mod fault;
mod laws;
mod node;
mod parsed;
mod parser;
mod read;
mod refusal;
mod scan;
mod state;
mod token;
mod width;
mod word;

pub use fault::{ParseFault, QueryFault, QueryKind};
pub use laws::{queries_are_not_refused, query_forms_are_of_queries};
pub use parser::parse;
