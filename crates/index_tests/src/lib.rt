//! Tests of the public calls of the crates that make, publish and read an index, and of the plain list that answers
//! are compared with.
//!
//! They are apart from those crates, since a crate that has tests is proved twice. `shards` is for `shard_build`,
//! `versions` and `version_changes` are for `live_version`, `live_postings` is for `slot_terms` and for what is
//! counted and merged, `publications` for `manifest_publish`, `passes` for `reader_pass`, `engine` and `call_scripts`
//! for `collection`, `images` for `image_read`, `plain_lists` for `plain_text`, `evaluation` for `gcl_eval`, and `fingers`
//! for `term_fingers`.
//!
//! Besides these there are `checks`, which all compare with, and `fixtures`: what several tests begin with. If an engine was
//! just opened at 5, with two readers, both have seen the empty version that begins at 5.
#![tactic(auto)]

#[cfg(test)]
mod call_scripts;
#[cfg(test)]
mod checks;
#[cfg(test)]
mod engine;
#[cfg(test)]
mod evaluation;
#[cfg(test)]
mod fingers;
pub mod fixtures;
#[cfg(test)]
mod images;
#[cfg(test)]
mod live_postings;
#[cfg(test)]
mod passes;
#[cfg(test)]
mod plain_lists;
#[cfg(test)]
mod publications;
#[cfg(test)]
mod shards;
#[cfg(test)]
mod version_changes;
#[cfg(test)]
mod versions;
