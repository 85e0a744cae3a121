//! Tests of whole runs: of the calls `serve` and `run` of `query_run`, over scripts, words, files and faults.
//!
//! They are apart from that crate, since a crate that has tests is proved twice. `scripts` has scripts with their outputs,
//! `plain_answers` queries that are compared with the plain program, `mixed` scripts whose lines mix edits and queries,
//! `streams` scripts that come in pieces and answers that go out in pieces, `faults` what is left if something outside
//! fails, and `made` runs over a made corpus. `trials` is what these share.
//!
//! Besides these there are `fixtures`: what each script is served on. An engine of no file with four readers has
//! completed no line, and each reader is of that engine.
#![tactic(auto)]

#[cfg(test)]
mod faults;
pub mod fixtures;
#[cfg(test)]
mod made;
#[cfg(test)]
mod mixed;
#[cfg(test)]
mod plain_answers;
#[cfg(test)]
mod scripts;
#[cfg(test)]
mod streams;
#[cfg(test)]
mod trials;
