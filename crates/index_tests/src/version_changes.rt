use crate::checks::same;
use address_space::{FileId, FileRecord, Range};
use gcl_model::{ADDRESS_END, Bytes};
use index_shard::ShardMaker;
use live_version::Version;
use std::alloc::{AllocError, Global};
use std::process::Abort;
use std::test::Fail;

const MOST: u64 = 1 << 62;

#[derive(Clone, Copy, Debug)]
enum Step {
    Add(u64),
    Delete(u64),
    Leave,
    Follow,
}

/// The version with one more file, of `len` addresses and without words. Returns None if numbers, addresses or slots are spent.
pub(crate) fn added(
    alloc: Global,
    version: &Version,
    len: u64,
) -> Result<Option<Version>, AllocError> {
    let base = version.next();
    let id = version.next_id();
    if len < 2
        || ADDRESS_END < len
        || ADDRESS_END - len < base
        || MOST < id
        || MOST < version.number()
        || 32 <= version.slot_count()
    {
        return Ok(None);
    }
    let name = Bytes::copy_of(alloc, b"x")?;
    let range = Range {
        first: base,
        last: base + len - 1,
    };
    let file = FileRecord {
        id: FileId(id),
        base,
        len,
        name,
    };
    let version = version.with_file(file, ShardMaker::new(alloc, range).finish())?;
    Ok(Some(version))
}

fn deleted(version: &Version, id: u64) -> Result<Option<Version>, AllocError> {
    if MOST < version.number() || version.find_file(FileId(id)).is_none() {
        return Ok(None);
    }
    let version = version.without_file(FileId(id))?;
    Ok(Some(version))
}

fn left(version: &Version) -> Result<Option<Version>, AllocError> {
    if MOST < version.number() {
        return Ok(None);
    }
    let version = version.with_slot(0, 0, None)?;
    Ok(Some(version))
}

fn followed(alloc: Global, version: &Version) -> Result<Option<Version>, AllocError> {
    if MOST < version.number() {
        return Ok(None);
    }
    let opened = Version::of_slot(alloc, 5, 9, 2, None)?;
    Ok(Some(opened.after(version)))
}

fn stepped(alloc: Global, version: &Version, step: Step) -> Result<Option<Version>, AllocError> {
    match step {
        Step::Add(len) => added(alloc, version, len),
        Step::Delete(id) => deleted(version, id),
        Step::Leave => left(version),
        Step::Follow => followed(alloc, version),
    }
}

/// The number, the edition, the next address, the next id and the deletions.
fn numbers(version: &Version) -> [u64; 5] {
    [
        version.number(),
        version.edition(),
        version.next(),
        version.next_id(),
        version.dels(),
    ]
}

/// The version has these numbers, slots and files.
fn has<R: Abort>(rt: &R, step: Step, version: &Version, want: ([u64; 5], usize, u64)) {
    let found = (numbers(version), version.slot_count(), version.file_count());
    same(rt, &step, &found, &want);
    same(rt, &step, &version.first(), &5);
}

// The numbers after each step, the slots and the files.
const STEPS: [(Step, ([u64; 5], usize, u64)); 8] = [
    (Step::Add(4), ([1, 1, 9, 1, 0], 1, 1)),
    (Step::Add(2), ([2, 2, 11, 2, 0], 2, 2)),
    (Step::Delete(0), ([3, 3, 11, 2, 1], 2, 1)),
    (Step::Leave, ([4, 3, 11, 2, 1], 2, 1)),
    (Step::Add(3), ([5, 4, 14, 3, 1], 3, 2)),
    (Step::Delete(2), ([6, 5, 14, 3, 2], 3, 1)),
    (Step::Follow, ([7, 6, 9, 2, 0], 0, 0)),
    (Step::Add(2), ([8, 7, 11, 3, 0], 1, 1)),
];

#[test]
fn each_change_counts_what_it_changes(rt: HostRuntime) -> Result<(), Fail> {
    let mut version = Version::empty(rt.alloc(), 5);
    for (step, want) in &STEPS {
        version = stepped(rt.alloc(), &version, *step)?.expect(&rt, "a step that may be made");
        has(&rt, *step, &version, *want);
    }
    Ok(())
}

/// The version after these steps, if all may be made.
fn after_steps(alloc: Global, steps: &[Step]) -> Result<Option<Version>, AllocError> {
    let mut version = Version::empty(alloc, 5);
    for step in steps {
        match stepped(alloc, &version, *step)? {
            Some(next) => version = next,
            None => return Ok(None),
        }
    }
    Ok(Some(version))
}

/// The slot at this place has this range, and all of it is dead, or none of it.
fn has_slot<R: Abort>(rt: &R, version: &Version, i: usize, range: Range, is_dead: bool) {
    assert!(rt; i < version.slot_count());
    let slot = version.slot(i);
    same(rt, &i, &slot.range(), &range);
    for p in 4..13u64 {
        let dead = is_dead && range.first <= p && p <= range.last;
        same(rt, &(p, i), &slot.mask().dead(p).is_some(), &dead);
    }
}

#[test]
fn a_deletion_makes_exactly_the_addresses_of_the_file_dead(rt: HostRuntime) -> Result<(), Fail> {
    let steps = [Step::Add(4), Step::Add(3), Step::Delete(1)];
    let version = after_steps(rt.alloc(), &steps)?.expect(&rt, "steps that may be made");
    has_slot(&rt, &version, 0, Range { first: 5, last: 8 }, false);
    has_slot(&rt, &version, 1, Range { first: 9, last: 11 }, true);
    Ok(())
}
