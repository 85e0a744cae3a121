//! Tests of the public calls of the crates with which several editors share one engine.
//!
//! They are apart from those crates, since a crate that has tests is proved twice. Of nine made files and three editors each adds
//! three and deletes the third again. `fixtures` has the words of a command line.
#![tactic(auto)]

pub mod fixtures;
#[cfg(test)]
mod flags;
#[cfg(test)]
mod settling;
#[cfg(test)]
mod shares;
