ghost use Rattle.std.specs.Prelude.{◌≡◌, ◌+◌, ◌<◌, ◌≤◌, [], IfOk};
ghost use Rattle.std.specs.List.{AllByRecursion};
ghost use Rattle.gcl_model.specs.Slots.{slot_range};
ghost use Rattle.index_shard.specs.Tables.{IsShard};
ghost use Rattle.gcl_model.specs.Limits.{address_end};

use crate::checks::{holds, same};
use crate::version_changes::added;
use address_space::{FileId, FileRecord, FileRun, Range};
use gcl_model::{
    ADDRESS_END, Bytes, Leaves, Ledger, Question, Steps, TokenList, counted, uncounted,
};
use index_shard::{Shard, ShardMaker};
use live_version::{Slot, Version};
use shard_build::build;
use std::alloc::{AllocError, Global};
use std::process::Abort;
use std::test::Fail;
use std::thread::{Threads, join};

/// No test continues from a greater number.
const MOST: u64 = 1 << 62;

/// Where a term is next and where it was last, seen from an address.
#[derive(Drop)]
struct Nearest<'a> {
    version: &'a Version,
    term: &'a [u8],
    k: u64,
}

impl Question for Nearest<'_> {
    ghost use Rattle.std.specs.Prelude.{◌+◌, ◌*◌};
    ghost use Rattle.gcl_model.specs.Limits.{most_slots};

    type Answer = (Option<u64>, Option<u64>);

    ghost can_ask = { λ q. Unit {0} };

    ghost answers = { λ q answer. Unit {0} };

    ghost most = { λ q answer. 2 * (most_slots + q.version.now.dels) };

    fn ask<L: Ledger>(&self, steps: &mut Steps<L>) -> (Option<u64>, Option<u64>) {
        let next = Leaves::next(self.version, self.term, self.k, steps);
        let previous = Leaves::prev(self.version, self.term, self.k, steps);
        (next, previous)
    }
}

pub(crate) fn file(alloc: Global, id: u64, base: u64, len: u64) -> Result<FileRecord, AllocError>
    requires bounded { 2 ≤ len }
    requires in_range { base + len ≤ address_end }
    ensures id { IfOk result (λ file. file.id ≡ id) }
    ensures base { IfOk result (λ file. file.base ≡ base) }
    ensures len { IfOk result (λ file. file.len ≡ len) }
{
    let name = Bytes::copy_of(alloc, b"x")?;
    Ok(FileRecord {
        id: FileId(id),
        base,
        len,
        name,
    })
}

/// `to be to be or be to` at 1, 2, 4, 5, 6, 8 and 9.
fn first_index(alloc: Global) -> Result<Shard, AllocError>
    ensures range { IfOk result (λ shard. shard.range ≡ slot_range 0 9) }
    ensures shard { IfOk result IsShard }
{
    let mut maker = ShardMaker::new(alloc, Range { first: 0, last: 9 });
    maker.push_term(b"be", &[2, 5, 8])?;
    maker.push_term(b"or", &[6])?;
    maker.push_term(b"to", &[1, 4, 9])?;
    Ok(maker.finish())
}

/// Three files side by side: at 0 to 3, 4 to 6 and 7 to 9.
fn three_files(alloc: Global) -> Result<Slot, AllocError>
    ensures range { IfOk result (λ slot. slot.range ≡ slot_range 0 9) }
    ensures ids { IfOk result (λ slot. AllByRecursion (λ file. file.id < 3) slot.files) }
    ensures mask { IfOk result (λ slot. slot.mask ≡ []) }
{
    let mut files = FileRun::new(alloc);
    files.push(file(alloc, 0, 0, 4)?)?;
    files.push(file(alloc, 1, 4, 3)?)?;
    files.push(file(alloc, 2, 7, 3)?)?;
    let index = first_index(alloc)?;
    Slot::new(alloc, Range { first: 0, last: 9 }, index, files)
}

/// The version with one more file, which has these words. Returns None if numbers, addresses or slots are spent.
pub(crate) fn with_words(
    alloc: Global,
    version: &Version,
    words: &[&str],
) -> Result<Option<Version>, AllocError> {
    let tokens = TokenList::of(alloc, words)?;
    let base = version.next();
    let id = version.next_id();
    let len = tokens.len() as u64;
    if ADDRESS_END - 2 < len
        || ADDRESS_END - 2 - len < base
        || MOST < id
        || MOST < version.number()
        || 32 <= version.slot_count()
    {
        return Ok(None);
    }
    let shard = build(alloc, base, &tokens)?;
    let version = version.with_file(file(alloc, id, base, len + 2)?, shard)?;
    Ok(Some(version))
}

/// The version without this file. Returns None if there is no such file, or numbers are spent.
pub(crate) fn without(version: &Version, id: u64) -> Result<Option<Version>, AllocError> {
    if MOST < version.number() || version.find_file(FileId(id)).is_none() {
        return Ok(None);
    }
    let version = version.without_file(FileId(id))?;
    Ok(Some(version))
}

/// A version without files that begins at 0.
fn empty(alloc: Global) -> Version {
    Version::empty(alloc, 0)
}

/// `to be or not to be` at 0 to 7, and nothing at 8 and 9: the first file is deleted.
fn second_of_two<R: Abort>(rt: &R, alloc: Global) -> Result<Version, AllocError> {
    let mut version = empty(alloc);
    let files: [&[&str]; 2] = [&["to", "be", "or", "not", "to", "be"], &[]];
    for words in files {
        version = with_words(alloc, &version, words)?.expect(rt, "a file may be added");
    }
    Ok(without(&version, 0)?.expect(rt, "the file survives"))
}

/// A version that was just opened, of three files in one slot, which leaves the addresses 10 to 19 free.
fn three_in_one(alloc: Global) -> Result<Version, AllocError> {
    let slot = three_files(alloc)?;
    Version::of_slot(alloc, 0, 20, 9, Some(slot))
}

/// Three files in one slot, of which the middle one is deleted, and `to be not` in a slot of its own.
fn three_of_four<R: Abort>(rt: &R, alloc: Global) -> Result<Version, AllocError> {
    let version = three_in_one(alloc)?;
    let version = with_words(alloc, &version, &["to", "be", "not"])?.expect(
        rt,
        "a file may be added",
    );
    Ok(without(&version, 1)?.expect(rt, "the file survives"))
}

/// The words of `three_of_four` without the ends of the last file.
const LIVE: [(u64, &str); 7] = [
    (1, "to"),
    (2, "be"),
    (8, "be"),
    (9, "to"),
    (21, "to"),
    (22, "be"),
    (23, "not"),
];

/// The nearest places of the word at or after `k` and at or before `k`, by looking at each word.
fn plain_look_up(term: &str, k: u64) -> (Option<u64>, Option<u64>) {
    let mut next = None;
    let mut previous = None;
    for (address, word) in LIVE {
        if word == term && address <= k {
            previous = Some(address);
        }
        if word == term && k <= address && next.is_none() {
            next = Some(address);
        }
    }
    (next, previous)
}

/// Where a term is next and where it was last, and how many look-ups that took.
fn found_near(version: &Version, term: &str, k: u64) -> ((Option<u64>, Option<u64>), u64) {
    counted(&Nearest {
        version,
        term: term.as_bytes(),
        k,
    })
}

#[test]
fn a_look_up_is_one_among_the_live_words(rt: HostRuntime) -> Result<(), Fail> {
    let version = three_of_four(&rt, rt.alloc())?;
    same(&rt, &"deletions", &version.dels(), &1);
    for term in ["be", "not", "or", "to", "who"] {
        for k in 0..26u64 {
            let (found, _) = found_near(&version, term, k);
            same(&rt, &(term, k), &found, &plain_look_up(term, k));
        }
    }
    Ok(())
}

// A term, an address, the next and the previous word there, and how many look-ups they take.
const PASSED: [(&str, u64, ((Option<u64>, Option<u64>), u64)); 5] = [
    ("to", 0, ((None, None), 1)),
    ("to", 9, ((None, None), 2)),
    ("</file!>", 0, ((Some(9), None), 1)),
    ("</file!>", 8, ((Some(9), None), 2)),
    ("<file!>", 9, ((None, Some(8)), 2)),
];

#[test]
fn what_was_deleted_is_passed_as_a_whole(rt: HostRuntime) -> Result<(), Fail> {
    let version = second_of_two(&rt, rt.alloc())?;
    for (term, k, want) in &PASSED {
        same(&rt, term, &found_near(&version, term, *k), want);
    }
    Ok(())
}

#[test]
fn a_count_is_of_the_words_that_survive(rt: HostRuntime) -> Result<(), Fail> {
    let version = three_of_four(&rt, rt.alloc())?;
    for (term, want) in &[("be", 3), ("not", 1), ("or", 0), ("to", 3), ("who", 0)] {
        same(&rt, term, &version.count_of_term(term.as_bytes()), want);
    }
    Ok(())
}

/// The least term at or after a bound, or only after it, is this.
fn has_term_from<R: Abort>(rt: &R, version: &Version, low: &str, strict: bool, want: Option<&str>) {
    let want = want.map(|term: &str| term.as_bytes());
    same(rt, &low, &version.term_from(low.as_bytes(), strict), &want);
}

const BOUNDS: [(&str, bool, Option<&str>); 10] = [
    ("", false, Some("</file!>")),
    ("<file!>", true, Some("be")),
    ("be", false, Some("be")),
    ("be", true, Some("not")),
    ("bee", false, Some("not")),
    ("not", true, Some("or")),
    ("or", true, Some("to")),
    ("to", false, Some("to")),
    ("to", true, None),
    ("tom", false, None),
];

#[test]
fn the_least_term_from_a_bound_on_is_that_of_any_slot(rt: HostRuntime) -> Result<(), Fail> {
    let version = three_of_four(&rt, rt.alloc())?;
    for (low, strict, want) in &BOUNDS {
        has_term_from(&rt, &version, low, *strict, *want);
    }
    has_term_from(&rt, &empty(rt.alloc()), "", false, None);
    Ok(())
}

/// Where the terms are, each looked for in a thread of its own.
fn both_nearest<R: Threads>(
    rt: &R,
    version: &Version,
    first: &[u8],
    second: &[u8],
) -> ((Option<u64>, Option<u64>), (Option<u64>, Option<u64>)) {
    join(
        rt,
        || -> (Option<u64>, Option<u64>) {
            uncounted(&Nearest {
                version,
                term: first,
                k: 3,
            })
        },
        || -> (Option<u64>, Option<u64>) {
            uncounted(&Nearest {
                version,
                term: second,
                k: 3,
            })
        },
    )
}

/// A version and a slot go to another thread, which gives their numbers of files.
fn counted_apart<R: Threads>(rt: &R, version: Version, slot: Slot) -> (u64, u64) {
    let (counts, ()) = join(rt, move || (version.file_count(), slot.files()), || ());
    counts
}

#[test]
fn a_version_is_read_by_two_threads_and_goes_to_another_one(rt: HostRuntime) -> Result<(), Fail> {
    let version = three_of_four(&rt, rt.alloc())?;
    let found = both_nearest(&rt, &version, b"to", b"be");
    let want = ((Some(9), Some(1)), (Some(8), Some(2)));
    same(&rt, &"to and be", &found, &want);
    let counts = counted_apart(&rt, version, three_files(rt.alloc())?);
    same(&rt, &"files", &counts, &(3, 3));
    Ok(())
}

/// The file at this place has this id, and is found by it.
fn has_file<R: Abort>(rt: &R, version: &Version, i: u64, id: u64) {
    assert!(rt; i < version.file_count());
    let file = version.file_at(i);
    same(rt, &i, &file.id, &FileId(id));
    let found = version.find_file(FileId(id)).map(|found| found.base);
    same(rt, &i, &found, &Some(file.base));
}

#[test]
fn files_are_told_by_place_and_by_id(rt: HostRuntime) -> Result<(), Fail> {
    let version = three_of_four(&rt, rt.alloc())?;
    same(&rt, &"files", &version.file_count(), &3);
    for (i, id) in [(0, 0), (1, 2), (2, 9)] {
        has_file(&rt, &version, i, id);
    }
    for id in [1, 3, 10] {
        holds(&rt, &id, version.find_file(FileId(id)).is_none());
    }
    Ok(())
}

#[test]
fn a_version_that_is_opened_has_its_slot(rt: HostRuntime) -> Result<(), Fail> {
    let version = three_in_one(rt.alloc())?;
    let numbers = (version.next(), version.next_id(), version.number());
    same(&rt, &"numbers", &numbers, &(20, 9, 0));
    same(&rt, &"slots", &version.slot_count(), &1);
    Ok(())
}

/// A version with files of these widths and without words.
fn with_widths<R: Abort>(rt: &R, alloc: Global, widths: &[u64]) -> Result<Version, AllocError> {
    let mut version = Version::empty(alloc, 7);
    for width in widths {
        version = added(alloc, &version, *width)?.expect(rt, "a file may be added");
    }
    Ok(version)
}

/// The tail of a version with files of these widths has `want` slots.
fn has_tail<R: Abort>(
    rt: &R,
    alloc: Global,
    widths: &[u64],
    want: usize,
) -> Result<(), AllocError> {
    let version = with_widths(rt, alloc, widths)?;
    assert!(rt; 1 <= version.slot_count());
    same(rt, &widths, &version.tail(), &want);
    Ok(())
}

const TAILS: [(&[u64], usize); 8] = [
    (&[2], 1),
    (&[2, 2], 2),
    (&[8, 2], 2),
    (&[9, 2], 1),
    (&[44, 10, 2, 2], 4),
    (&[57, 10, 2, 2], 3),
    (&[90, 20, 2, 2], 2),
    (&[100, 5, 20, 2], 1),
];

#[test]
fn the_tail_is_as_long_as_four_times_its_width_reaches(rt: HostRuntime) -> Result<(), Fail> {
    for (widths, want) in &TAILS {
        has_tail(&rt, rt.alloc(), widths, *want)?;
    }
    Ok(())
}
