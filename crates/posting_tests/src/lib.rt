//! Tests of the public calls of the crates that pack postings, index texts, merge indexes and spell images, and of outside objects that
//! are in memory.
//!
//! They are apart from those crates, since a crate that has tests is proved twice. `packed` is for `posting_code`, `nearest` for
//! `posting_access`, `shards` for `index_shard`, `masks` for `delete_mask`, `merged` for `shard_merge`, `images` for `image_file` and
//! `outsides` for `outside`. `checks` is what all compare with, and
//! `fixtures` what several begin with. The number 300 is packed as the bytes `ac 02`.
#![tactic(auto)]

#[cfg(test)]
mod checks;
pub mod fixtures;
#[cfg(test)]
mod images;
#[cfg(test)]
mod masks;
#[cfg(test)]
mod merged;
#[cfg(test)]
mod nearest;
#[cfg(test)]
mod outsides;
#[cfg(test)]
mod packed;
#[cfg(test)]
mod shards;
