ghost use Rattle.std.specs.Prelude.{◌≡◌};

use crate::files::{content_of, text_of};
use address_space::{FileId, FileRecord};
use gcl_eval::count;
use gcl_model::{ADDRESS_END, Bytes, Expr, Leaves, Ledger, Question, Steps, counted};
use gcl_parser::parse;
use live_version::Version;
use plain_text::of_tokens;
use shard_build::build_from;
use std::alloc::{AllocError, Global};
use std::marker::Brand;
use std::rt::{Clock, Files};
use std::time::Instant;
use term_fingers::{Fingers, Naming};
use word_tokens::{TokenText, tokens};

/// How many intervals has a concordance list?
#[derive(Drop)]
struct MemberCount<'a, L> {
    expr: &'a Expr,
    leaves: &'a L,
}

impl<L: Leaves> Question for MemberCount<'_, L> {
    ghost use Rattle.std.specs.Prelude.{◌≡◌, ◌+◌, ◌*◌, length};
    ghost use Rattle.gcl_model.specs.FormOf.{form_of};
    ghost use Rattle.gcl_model.specs.Meaning.{concordance};
    ghost use Rattle.gcl_model.specs.Cost.{cost};
    ghost use Rattle.gcl_model.specs.WellFormed.{IsWellFormed};

    type Answer = u64;

    ghost can_ask = { λ asked. IsWellFormed (form_of asked.expr.now) };

    ghost answers = { λ asked answer. answer ≡ length (concordance (L.text asked.leaves.now) (form_of asked.expr.now)) };

    ghost most = { λ asked answer. (answer + 1) * cost (L.text asked.leaves.now) (L.most asked.leaves.now) (form_of asked.expr.now) };

    fn ask<S: Ledger>(&self, steps: &mut Steps<S>) -> u64 {
        count(self.expr, self.leaves, steps)
    }
}

/// A version that has a text `times` times, each as a file in a slot of its own. It ends when a version is full.
fn version_of(alloc: Global, text: &TokenText, times: u64) -> Result<Version, AllocError> {
    let mut version = Version::empty(alloc, 0);
    for i in 0..times {
        let _ = i;
        match with_text(alloc, &version, text)? {
            Some(next) => version = next,
            None => return Ok(version),
        }
    }
    Ok(version)
}

fn with_text(
    alloc: Global,
    version: &Version,
    text: &TokenText,
) -> Result<Option<Version>, AllocError> {
    let base = version.next();
    let id = version.next_id();
    if text.len() >= 1 << 40
        || ADDRESS_END - (1 << 41) < base
        || 1 << 62 < id
        || 1 << 62 < version.number()
        || 32 <= version.slot_count()
    {
        return Ok(None);
    }
    let file = FileRecord {
        id: FileId(id),
        base,
        len: text.len() as u64 + 2,
        name: Bytes::copy_of(alloc, b"x")?,
    };
    let shard = build_from(alloc, base, text)?;
    Ok(Some(version.with_file(file, shard)?))
}

/// The number of intervals of a query over leaves, and the look-ups that counting took.
fn count_over<L: Leaves>(alloc: Global, leaves: &L, query: &[u8]) -> Option<(u64, u64)> {
    let expr = &parse(alloc, query).ok()?;
    Some(counted(&MemberCount { expr, leaves }))
}

/// The same over a version, by fingers.
fn count_by_fingers<J: Naming>(alloc: Global, version: &Version, query: &[u8]) -> Option<(u64, u64)>
    requires { version.now ≡ J.version }
{
    let expr = &parse(alloc, query).ok()?;
    let fingers = Fingers::<J>::of(version, expr);
    Some(counted(&MemberCount {
        expr,
        leaves: &fingers,
    }))
}

/// Counts a query over the tokens of a file.
pub(crate) fn measure_count<R: Files + Print + AllocGlobal>(
    rt: &R,
    name: &[u8],
    query: &[u8],
) -> Option<()> {
    let list = tokens(rt.alloc(), &content_of(rt, name)?).ok()?;
    if list.len() >= 1 << 40 {
        return None;
    }
    let text = of_tokens(rt.alloc(), 0, &list).ok()?;
    let (members, look_ups) = count_over(rt.alloc(), &text, query)?;
    println!(rt; "{members} intervals, {look_ups} look-ups").ok()
}

/// Counts a query over a version that has a file `times` times, by bytes and by fingers.
pub(crate) fn measure_slots<R: Files + Clock + Print + AllocGlobal>(
    rt: &R,
    name: &[u8],
    times: u64,
    query: &[u8],
) -> Option<()> {
    let version = version_of(rt.alloc(), &text_of(rt, name)?, times).ok()?;
    let start = Instant::now(rt).ok()?;
    let (members, look_ups) = count_over(rt.alloc(), &version, query)?;
    let took = start.elapsed(rt).ok()?.as_nanos();
    let start = Instant::now(rt).ok()?;
    let (same, fewer) = count_by_fingers::<Brand>(rt.alloc(), &version, query)?;
    let fingered = start.elapsed(rt).ok()?.as_nanos();
    // for a phrase, fingers know some of what the version has to look up
    if same != members {
        return None;
    }
    let slots = version.slot_count();
    println!(rt;
        "{slots} slots: {members} intervals, {look_ups} look-ups in {took} ns, by fingers {fingered} ns, {fewer} look-ups"
    ).ok()
}
