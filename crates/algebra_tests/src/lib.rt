//! Tests of the public calls of the crates that define the algebra, cut texts into tokens, parse queries and evaluate them.
//!
//! They are apart from those crates, since a crate that has tests is proved twice. `model` is for `gcl_model`, `addresses` for
//! `address_space`, `tokens` for `word_tokens`, `places` for `token_places`, `queries` for `gcl_parser`, `order`, `combine` and `contain`
//! for the operators, `widths` for `fixed_width`, `phrases` for `phrase_walk`, `readers` for `gcl_readers`, `cursors` for `gcl_cursor`
//! and `texts` for `text_search`.
//! `fixtures` is what several begin with. Over `to be or not to be` the query `"to be"` has two members.
#![tactic(auto)]

#[cfg(test)]
mod addresses;
#[cfg(test)]
mod combine;
#[cfg(test)]
mod compared;
#[cfg(test)]
mod contain;
#[cfg(test)]
mod cursors;
pub mod fixtures;
#[cfg(test)]
mod model;
#[cfg(test)]
mod order;
#[cfg(test)]
mod phrases;
#[cfg(test)]
mod places;
#[cfg(test)]
mod queries;
#[cfg(test)]
mod readers;
#[cfg(test)]
mod texts;
#[cfg(test)]
mod tokens;
#[cfg(test)]
mod widths;
