//! Tests of the public calls of the crates that read scripts and words, make a corpus, answer batches and watch queries.
//!
//! They are apart from those crates, since a crate that has tests is proved twice. `script` is for `script_lang`,
//! `corpus` for `made_corpus`, `options` for `command_words`, `batches` and `batch_pages` for `query_lanes`, `readers`
//! and `prefixes` for `query_search`, and `watches` for `standing_query`.
//!
//! Besides these there are `fixtures`: what several tests begin with. If an engine of no file has four readers, each
//! reader is of that engine.
#![tactic(auto)]

#[cfg(test)]
mod batch_pages;
#[cfg(test)]
mod batches;
#[cfg(test)]
mod corpus;
pub mod fixtures;
#[cfg(test)]
mod options;
#[cfg(test)]
mod prefixes;
#[cfg(test)]
mod readers;
#[cfg(test)]
mod script;
#[cfg(test)]
mod watches;
