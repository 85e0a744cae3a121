//! Tests of the public calls of `outside_std`, over real files and over stand-ins for a writer and a disk.
//!
//! They are apart from that crate, since a crate that has tests is proved twice. `streams` is for its source and its sink, and
//! `files` for its files. `lacking` is a disk that fills up, or is left by a killed program.
//!
//! Besides these there are `fixtures`: a writer with one preset answer for each write. If the only answer is to take two bytes, it takes
//! the first two of `to be`, and fails at the next write.
#![tactic(auto)]

#[cfg(test)]
mod compared;
#[cfg(test)]
mod files;
pub mod fixtures;
#[cfg(test)]
mod lacking;
#[cfg(test)]
mod streams;
