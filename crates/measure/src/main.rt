//! What the scripts of `bench/` run to measure single layers. It serves no command of `gclq`, and promises nothing except to be safe.
//!
//! Its words are one of these:
//!
//! - `tokens FILE` cuts the file into tokens.
//! - `shards FILE TIMES` builds its shard too, TIMES times, and keeps them all: memory grows by one shard for each.
//! - `packed FILE TIMES` counts the postings in lists of 64 or more, and keeps TIMES more copies of these lists.
//! - `count FILE QUERY` counts the intervals of a query over the file's tokens, and the look-ups that this took.
//! - `slots FILE TIMES QUERY` puts the file TIMES times into one version, each time in a slot of its own, and counts the same, by bytes and
//!   by fingers.
//! - `lists` takes the times of look-ups in and walks over a posting list of a million addresses, next to plain numbers.
#![tactic(auto)]

mod files;
mod lists;
mod packed;
mod queries;

use crate::files::{measure_shards, measure_tokens};
use crate::lists::measure_lists;
use crate::packed::measure_packed;
use crate::queries::{measure_count, measure_slots};
use std::process::ExitCode;
use std::rt::{Clock, Files};
use std::{env, str};

/// A decimal number.
fn number_of(word: Option<&[u8]>) -> Option<u64> {
    str::from_utf8(word?).ok()?.parse().ok()
}

/// Measures what the words say, and prints it.
fn measured<R: Files + Clock + Print + AllocGlobal>(rt: &R, words: &[&[u8]]) -> Option<()> {
    let mode = *words.first()?;
    if mode == b"lists".as_slice() {
        return measure_lists(rt);
    }
    let name = *words.get(1)?;
    match mode {
        b"tokens" => measure_tokens(rt, name),
        b"shards" => measure_shards(rt, name, number_of(words.get(2).copied())?),
        b"packed" => measure_packed(rt, name, number_of(words.get(2).copied())?),
        b"count" => measure_count(rt, name, words.get(2)?),
        b"slots" => measure_slots(rt, name, number_of(words.get(2).copied())?, words.get(3)?),
        _ => None,
    }
}

fn main(rt: HostRuntime) -> ExitCode {
    let Ok(args) = env::args(&rt) else {
        return ExitCode::from(2);
    };
    let mut kept = Vec::new(rt.alloc());
    for word in args.skip(1) {
        if kept.push(word).is_err() {
            return ExitCode::from(2);
        }
    }
    let mut words = Vec::new(rt.alloc());
    for word in &kept {
        if words.push(word.as_bytes()).is_err() {
            return ExitCode::from(2);
        }
    }
    match measured(&rt, &words) {
        Some(()) => ExitCode::from(0),
        None => ExitCode::from(1),
    }
}
