use index_shard::Shard;
use outside::Files;
use outside_std::StdFiles;
use shard_build::build_from;
use std::alloc::{AllocError, Global};
use std::rt;
use std::rt::Clock;
use std::time::Instant;
use word_tokens::{TokenText, token_text};

/// Of a longer file only this many bytes and one more are read.
const FILE_MOST: u64 = 1 << 26;

/// The bytes of a file, or None if something failed.
pub(crate) fn content_of<R: rt::Files + AllocGlobal>(rt: &R, name: &[u8]) -> Option<Vec<u8>> {
    let mut content = Vec::new(rt.alloc());
    StdFiles::new(rt).load(name, FILE_MOST, &mut content).ok()?;
    Some(content)
}

/// The tokens of a file.
pub(crate) fn text_of<R: rt::Files + AllocGlobal>(rt: &R, name: &[u8]) -> Option<TokenText> {
    token_text(rt.alloc(), &content_of(rt, name)?).ok()
}

/// Prints how many tokens a file has, and how long cutting it took.
pub(crate) fn measure_tokens<R: rt::Files + Clock + Print + AllocGlobal>(
    rt: &R,
    name: &[u8],
) -> Option<()> {
    cut(rt, &content_of(rt, name)?)
}

fn cut<R: Clock + Print + AllocGlobal>(rt: &R, content: &[u8]) -> Option<()> {
    let start = Instant::now(rt).ok()?;
    let words = token_text(rt.alloc(), content).ok()?.len();
    let took = start.elapsed(rt).ok()?.as_nanos();
    println!(rt; "{words} tokens cut in {took} ns").ok()
}

/// The given number of shards of a text.
fn shards_of(alloc: Global, text: &TokenText, times: u64) -> Result<Vec<Shard>, AllocError> {
    let mut shards = Vec::new(alloc);
    for i in 0..times {
        let _ = i;
        if text.len() < 1 << 40 {
            shards.push(build_from(alloc, 0, text)?)?;
        }
    }
    Ok(shards)
}

/// How many terms the shards have together.
fn terms_of(shards: &[Shard]) -> usize {
    let mut terms = 0usize;
    for shard in shards {
        terms = terms.saturating_add(shard.term_count());
    }
    terms
}

/// Prints how long building the shards of a file took, and how many terms they have together.
pub(crate) fn measure_shards<R: rt::Files + Clock + Print + AllocGlobal>(
    rt: &R,
    name: &[u8],
    times: u64,
) -> Option<()> {
    build(rt, &text_of(rt, name)?, times)
}

fn build<R: Clock + Print + AllocGlobal>(rt: &R, text: &TokenText, times: u64) -> Option<()> {
    let start = Instant::now(rt).ok()?;
    let shards = shards_of(rt.alloc(), text, times).ok()?;
    let took = start.elapsed(rt).ok()?.as_nanos();
    let terms = terms_of(&shards);
    let words = text.len();
    println!(rt; "{words} tokens, {terms} terms in {times} shards built in {took} ns").ok()
}
