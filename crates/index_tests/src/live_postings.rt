use crate::checks::{holds, same};
use crate::fixtures::opened;
use crate::versions::{with_words, without};
use address_space::{FileId, is_name};
use collection::Engine;
use live_version::Version;
use outside::FreeGate;
use slot_terms::SlotTerms;
use std::alloc::{AllocError, Global};
use std::process::Abort;
use std::sync::Wait;
use std::test::Fail;

/// No test continues from a greater number.
const MOST: u64 = 1 << 61;

/// `to be or not to be`, which is deleted, `be to`, and `be`.
fn last_two_of_three<R: Abort>(rt: &R, alloc: Global) -> Result<Version, AllocError> {
    let mut version = Version::empty(alloc, 0);
    let files: [&[&str]; 3] = [
        &["to", "be", "or", "not", "to", "be"],
        &["be", "to"],
        &["be"],
    ];
    for words in files {
        version = with_words(alloc, &version, words)?.expect(rt, "a file may be added");
    }
    Ok(without(&version, 0)?.expect(rt, "the file survives"))
}

const PLACES: [(&str, &[u64]); 6] = [
    ("</file!>", &[11, 14]),
    ("<file!>", &[8, 12]),
    ("be", &[9, 13]),
    ("not", &[]),
    ("or", &[]),
    ("to", &[10]),
];

#[test]
fn terms_come_in_byte_order_with_their_live_postings(rt: HostRuntime) -> Result<(), Fail> {
    let version = last_two_of_three(&rt, rt.alloc())?;
    let mut terms = SlotTerms::new(rt.alloc(), version.slots())?;
    let mut places = Vec::new(rt.alloc());
    for (term, want) in &PLACES {
        let found = terms.next(&mut places)?;
        same(&rt, term, &found, &Some(term.as_bytes()));
        same(&rt, term, &places.as_slice(), want);
    }
    holds(&rt, &"no further term", terms.next(&mut places)?.is_none());
    Ok(())
}

/// `be`, `count` times.
fn text(alloc: Global, count: u16) -> Result<Vec<u8>, AllocError> {
    let mut text = Vec::new(alloc);
    for _ in 0..count {
        text.extend_from_slice(b"be ")?;
    }
    Ok(text)
}

/// Adds a file that has `be` `count` times, and returns whether it did.
fn added<R: Wait>(rt: &R, alloc: Global, engine: &mut Engine, count: u16) -> bool {
    match text(alloc, count) {
        Ok(bytes) => is_name(b"b") && engine.add(rt, b"b", &bytes).is_ok(),
        Err(_) => false,
    }
}

/// Makes all slots one, and returns whether it did.
fn merged<R: Wait>(rt: &R, engine: &mut Engine) -> bool {
    engine.version().number() < MOST && engine.merge_all(rt, &FreeGate).is_ok()
}

/// Adds a file for each of the counts, all in one slot, and returns whether it did.
fn added_in_one_slot<R: Wait>(rt: &R, alloc: Global, engine: &mut Engine, counts: &[u16]) -> bool {
    for count in counts {
        if !added(rt, alloc, engine, *count) {
            return false;
        }
    }
    merged(rt, engine) && engine.version().slot_count() == 1
}

/// Deletes the files with these ids, and returns whether all were there.
fn deleted<R: Wait>(rt: &R, engine: &mut Engine, ids: &[u64]) -> bool {
    for id in ids {
        if engine.delete(rt, FileId(*id)).is_err() {
            return false;
        }
    }
    true
}

fn push_range(places: &mut Vec<u64>, first: u64, last: u64) -> Result<(), AllocError> {
    for place in first..=last {
        places.push(place)?;
    }
    Ok(())
}

/// The places of `be` in files that have it this number of times each, without the files with these ids.
fn plain_places(alloc: Global, counts: &[u16], ids: &[u64]) -> Result<Vec<u64>, AllocError> {
    let mut places = Vec::new(alloc);
    let mut next = 0u64;
    for (id, count) in counts.iter().enumerate() {
        let last = next.wrapping_add(*count as u64);
        if !ids.contains(&(id as u64)) {
            push_range(&mut places, next.wrapping_add(1), last)?;
        }
        next = last.wrapping_add(2);
    }
    Ok(places)
}

/// The places of the third term, which is `be`, if there is one.
fn third_places(alloc: Global, version: &Version) -> Result<Vec<u64>, AllocError> {
    let mut terms = SlotTerms::new(alloc, version.slots())?;
    let mut places = Vec::new(alloc);
    let _ = terms.next(&mut places)?;
    let _ = terms.next(&mut places)?;
    if terms.next(&mut places)?.is_none() {
        places.clear();
    }
    Ok(places)
}

/// The places of `be` are these, and they are counted.
fn has_places<R: Abort>(
    rt: &R,
    alloc: Global,
    version: &Version,
    want: &[u64],
) -> Result<(), AllocError> {
    let places = third_places(alloc, version)?;
    same(rt, &"places", &places.as_slice(), &want);
    let count = version.count_of_term(b"be");
    same(rt, &"count", &count, &(want.len() as u64));
    Ok(())
}

/// Deletes these files, and merges what is left. Before and after the merge, `be` has its places in the other files.
fn keeps<R: Wait + Abort>(
    rt: &R,
    alloc: Global,
    engine: &mut Engine,
    ids: &[u64],
    want: &[u64],
) -> Result<(), AllocError> {
    holds(rt, &"deletions", deleted(rt, engine, ids));
    has_places(rt, alloc, engine.version(), want)?;
    holds(rt, &"merge", merged(rt, engine));
    has_places(rt, alloc, engine.version(), want)
}

/// The files in one slot that are not deleted have `be` `want` times together, and keep its places.
fn has_live<R: Wait + Abort>(
    rt: &R,
    alloc: Global,
    case: &str,
    (counts, ids): (&[u16], &[u64]),
    want: usize,
) -> Result<(), Fail> {
    let places = plain_places(alloc, counts, ids)?;
    same(rt, &case, &places.len(), &want);
    let (mut engine, _readers) = opened(rt, alloc, 0, 0)?;
    holds(rt, &case, added_in_one_slot(rt, alloc, &mut engine, counts));
    let kept = keeps(rt, alloc, &mut engine, ids, &places);
    engine.end(rt);
    kept?;
    Ok(())
}

// how often each file has `be`, which files are deleted, and how often the others have it; a block has 64 places
const LISTS: [(&str, &[u16], &[u64], usize); 22] = [
    ("one place", &[1], &[], 1),
    ("none of one", &[1], &[0], 0),
    ("no place in two files", &[0, 0], &[0], 0),
    ("the first and not a block", &[1, 63], &[0], 63),
    ("the last and not a block", &[64, 1], &[1], 64),
    ("all but the last", &[64, 1], &[0], 1),
    ("all but two blocks", &[1, 128], &[0], 128),
    ("nothing is dead", &[200], &[], 200),
    ("the first of a block", &[64, 1, 135], &[1], 199),
    ("the last of a block", &[63, 1, 136], &[1], 199),
    ("the ends of two blocks", &[63, 2, 135], &[1], 198),
    ("what lies between two blocks", &[64, 0, 136], &[1], 200),
    ("a whole block", &[64, 64, 72], &[1], 136),
    ("a block but its ends", &[65, 62, 73], &[1], 138),
    (
        "three parts of a block",
        &[70, 6, 5, 5, 14, 1, 99],
        &[1, 3, 5],
        188,
    ),
    (
        "nothing of a block between ranges",
        &[71, 0, 1, 0, 128],
        &[1, 3],
        200,
    ),
    ("the first", &[1, 199], &[0], 199),
    ("the last", &[199, 1], &[1], 199),
    ("all but the ends", &[1, 198, 1], &[1], 2),
    ("all", &[200], &[0], 0),
    ("all, by several ranges", &[71, 30, 99], &[0, 1, 2], 0),
    ("of many blocks all but the ends", &[64, 935, 1], &[1], 65),
];

#[test]
fn of_a_list_in_blocks_all_but_what_is_dead_is_counted_and_merged(
    rt: HostRuntime,
) -> Result<(), Fail> {
    for (case, counts, ids, want) in &LISTS {
        has_live(&rt, rt.alloc(), case, (*counts, *ids), *want)?;
    }
    Ok(())
}
