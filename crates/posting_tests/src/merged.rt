ghost use Rattle.std.specs.Prelude.{◌<◌};

use crate::checks::same;
use Step::{Add, Del, Merge};
use address_space::{FileId, FileRecord};
use gcl_model::{Bytes, Leaves, Ledger, Question, Steps, uncounted};
use live_version::Version;
use shard_build::build;
use shard_merge::merge;
use std::alloc::{AllocError, Global};
use std::process::Abort;
use std::test::Fail;
use word_tokens::tokens;

/// A step from a version to the next one.
#[derive(Clone, Copy)]
enum Step<'a> {
    Add(&'a str),
    /// The file with this id is deleted.
    Del(u64),
    /// One slot for a number of slots, starting at a place: the place, and the number.
    Merge(usize, usize),
}

/// Postings in two blocks, of which a file after it leaves one as it is.
const LONG: &str =
    "a a a a a a a a a a a a a a a a a a a a a a a a a a a a a a a a a a a a a a a a \
     a a a a a a a a a a a a a a a a a a a a a a a a a a a a a a a a a a a a a a a a";

/// Postings in one block, of which two such texts have more than one together.
const HALF: &str =
    "a b a b a b a b a b a b a b a b a b a b a b a b a b a b a b a b a b a b a b a b a b \
     a b a b a b a b a b a b a b a b a b a b a b a b a b a b a b a b a b";

const SCRIPTS: [&[Step<'static>]; 15] = [
    &[Add("to be or not to be")],
    &[Add("")],
    &[Add("to be or not to be"), Add(""), Del(0)],
    &[Add("to be"), Add("or not"), Add("to be")],
    &[Add("to be"), Add("or not"), Add("to be"), Del(1)],
    &[
        Add("to be"),
        Add("or not"),
        Add("to be"),
        Merge(0, 3),
        Del(1),
        Add("to"),
    ],
    &[
        Add("to be"),
        Add("not to"),
        Merge(0, 2),
        Del(0),
        Add("be or"),
        Merge(0, 2),
        Del(2),
    ],
    &[Add("rose"), Del(0), Add("rose"), Add("rose rose"), Del(1)],
    &[Add("to"), Del(0)],
    &[
        Add("to"),
        Add("be"),
        Del(1),
        Del(0),
        Merge(0, 2),
        Add("to be"),
    ],
    &[
        Add("a a"),
        Add(""),
        Add("a b a"),
        Merge(1, 2),
        Del(1),
        Merge(0, 2),
        Add("b"),
    ],
    &[
        Add("not"),
        Add("or"),
        Add("be"),
        Add("to"),
        Merge(1, 2),
        Del(2),
        Merge(0, 2),
        Merge(0, 2),
    ],
    &[
        Add("to be to be"),
        Add("to to"),
        Merge(0, 2),
        Del(0),
        Add("be be"),
        Del(1),
        Merge(0, 2),
        Add("to be"),
    ],
    &[
        Add(HALF),
        Add("to be or"),
        Add(HALF),
        Merge(0, 3),
        Add("not a"),
        Merge(0, 2),
        Del(2),
        Add("b"),
    ],
    &[
        Add(LONG),
        Add("to a"),
        Add(LONG),
        Merge(0, 3),
        Del(1),
        Merge(0, 1),
        Add("a"),
    ],
];

/// A word of a surviving file.
#[derive(Clone, Copy)]
struct PlainWord<'a> {
    file: u64,
    address: u64,
    token: &'a str,
}

const TERMS: [&str; 9] = [
    "<file!>", "</file!>", "to", "be", "or", "not", "rose", "a", "none",
];

/// Returns None if the step may not be made.
fn with_text(alloc: Global, version: &Version, text: &str) -> Result<Option<Version>, AllocError> {
    let tokens = tokens(alloc, text.as_bytes())?;
    if version.slot_count() == 32
        || version.number() > 999
        || version.next_id() > 999
        || version.next() > 9999
        || tokens.len() > 99
    {
        return Ok(None);
    }
    let base = version.next();
    let file = FileRecord {
        id: FileId(version.next_id()),
        base,
        len: tokens.len() as u64 + 2,
        name: Bytes::copy_of(alloc, b"name")?,
    };
    let shard = build(alloc, base, &tokens)?;
    Ok(Some(version.with_file(file, shard)?))
}

fn without(version: &Version, id: u64) -> Result<Option<Version>, AllocError> {
    if version.find_file(FileId(id)).is_none() || version.number() > 999 {
        return Ok(None);
    }
    Ok(Some(version.without_file(FileId(id))?))
}

fn merged(
    alloc: Global,
    version: &Version,
    at: usize,
    count: usize,
) -> Result<Option<Version>, AllocError> {
    let slots = version.slot_count();
    if count == 0 || count > slots || at > slots - count || version.number() > 999 {
        return Ok(None);
    }
    let slot = merge(alloc, version, at, count)?;
    Ok(Some(version.with_slot(at, count, Some(slot))?))
}

/// The version after a step.
fn stepped(
    alloc: Global,
    version: &Version,
    step: Step<'_>,
) -> Result<Option<Version>, AllocError> {
    match step {
        Step::Add(text) => with_text(alloc, version, text),
        Step::Del(id) => without(version, id),
        Step::Merge(at, count) => merged(alloc, version, at, count),
    }
}

/// The version after the steps, each of which may be made.
fn played<R: Abort>(rt: &R, alloc: Global, steps: &[Step<'_>]) -> Result<Version, AllocError> {
    let mut version = Version::empty(alloc, 0);
    for step in steps {
        version = stepped(alloc, &version, *step)?.expect(rt, "a step that may be made");
    }
    Ok(version)
}

/// The words of the files that survive the steps.
fn plain_words<'a>(alloc: Global, steps: &[Step<'a>]) -> Result<Vec<PlainWord<'a>>, AllocError> {
    let mut words = Vec::new(alloc);
    let mut file = 0u64;
    let mut address = 0u64;
    for step in steps {
        match *step {
            Step::Add(text) => {
                address = put_words(&mut words, file, address, text)?;
                file = file.wrapping_add(1);
            }
            Step::Del(id) => words.retain(|word: &PlainWord<'_>| word.file != id),
            Step::Merge(_, _) => {}
        }
    }
    Ok(words)
}

fn put_word<'a>(
    words: &mut Vec<PlainWord<'a>>,
    file: u64,
    address: u64,
    token: &'a str,
) -> Result<u64, AllocError> {
    words.push(PlainWord {
        file,
        address,
        token,
    })?;
    Ok(address.wrapping_add(1))
}

/// Puts the words of a file after the others, and returns the next address.
fn put_words<'a>(
    words: &mut Vec<PlainWord<'a>>,
    file: u64,
    base: u64,
    text: &'a str,
) -> Result<u64, AllocError> {
    let mut address = put_word(words, file, base, "<file!>")?;
    for token in text.split_whitespace() {
        address = put_word(words, file, address, token)?;
    }
    put_word(words, file, address, "</file!>")
}

fn plain_next(words: &[PlainWord<'_>], term: &str, k: u64) -> Option<u64> {
    for word in words {
        if k <= word.address && word.token == term {
            return Some(word.address);
        }
    }
    None
}

fn plain_prev(words: &[PlainWord<'_>], term: &str, k: u64) -> Option<u64> {
    let mut found = None;
    for word in words {
        if word.address <= k && word.token == term {
            found = Some(word.address);
        }
    }
    found
}

/// Where a term is next and where it was last, seen from an address.
#[derive(Drop)]
struct Nearest<'a> {
    version: &'a Version,
    term: &'a str,
    k: u64,
}

impl Question for Nearest<'_> {
    ghost use Rattle.std.specs.Prelude.{◌+◌, ◌*◌};
    ghost use Rattle.gcl_model.specs.Limits.{most_slots};

    type Answer = (Option<u64>, Option<u64>);

    ghost can_ask = { λ q. Unit {0} };

    ghost answers = { λ q answer. Unit {0} };

    ghost most = { λ q answer. 2 * (most_slots + q.version.now.dels) };

    fn ask<L: Ledger>(&self, steps: &mut Steps<L>) -> (Option<u64>, Option<u64>) {
        let term = self.term.as_bytes();
        let next = Leaves::next(self.version, term, self.k, steps);
        let previous = Leaves::prev(self.version, term, self.k, steps);
        (next, previous)
    }
}

/// The first term and address at which a look-up differs from the plain one.
fn difference(version: &Version, words: &[PlainWord<'_>]) -> Option<(&'static str, u64)> {
    for term in TERMS {
        for k in 0..version.next() + 2 {
            let found = uncounted(&Nearest { version, term, k });
            if found != (plain_next(words, term, k), plain_prev(words, term, k)) {
                return Some((term, k));
            }
        }
    }
    None
}

/// Whether a look-up differs from the plain one after the merge of this run of slots, or their number does.
fn differs_after(
    alloc: Global,
    version: &Version,
    words: &[PlainWord<'_>],
    at: usize,
    count: usize,
) -> Result<bool, AllocError> {
    let Some(after) = merged(alloc, version, at, count)? else {
        return Ok(true);
    };
    let left = after.slot_count().wrapping_add(count);
    let is_shorter = left == version.slot_count().wrapping_add(1);
    Ok(!is_shorter || difference(&after, words).is_some())
}

/// The first run of neighbouring slots after whose merge a look-up differs from the plain one.
fn differing_run(
    alloc: Global,
    version: &Version,
    words: &[PlainWord<'_>],
) -> Result<Option<(usize, usize)>, AllocError> {
    for at in 0..version.slot_count() {
        for count in 1..=version.slot_count() - at {
            if differs_after(alloc, version, words, at, count)? {
                return Ok(Some((at, count)));
            }
        }
    }
    Ok(None)
}

/// After the steps look-ups are the plain ones, and stay so whatever run of slots is merged.
fn keeps_answers<R: Abort>(
    rt: &R,
    alloc: Global,
    script: usize,
    steps: &[Step<'_>],
) -> Result<(), AllocError> {
    let version = played(rt, alloc, steps)?;
    let words = plain_words(alloc, steps)?;
    same(rt, &script, &difference(&version, &words), &None);
    let run = differing_run(alloc, &version, &words)?;
    same(rt, &script, &run, &None);
    Ok(())
}

#[test]
fn merging_any_run_of_slots_changes_no_answer(rt: HostRuntime) -> Result<(), Fail> {
    for (i, steps) in SCRIPTS.iter().enumerate() {
        keeps_answers(&rt, rt.alloc(), i, steps)?;
    }
    Ok(())
}

/// The version has one slot, of one file in ten addresses, two terms and nothing dead.
fn has_one_slot<R: Abort>(rt: &R, version: &Version) {
    same(rt, &"slots", &version.slot_count(), &1);
    assert!(rt; 0 < version.slot_count());
    let slot = version.slot(0);
    let range = slot.range();
    same(rt, &"range", &(range.first, range.last), &(0, 9));
    let counts = (slot.mask().range_count(), slot.shard().term_count());
    same(rt, &"dead ranges and terms", &counts, &(0, 2));
    same(rt, &"files", &slot.records().len(), &1);
}

const BESIDE: [Step<'static>; 4] = [Add("to be or not to be"), Add(""), Del(0), Merge(0, 2)];

/// The version has these words, which are those of a file's boundary at 8 and 9.
fn has_one_file<R: Abort>(rt: &R, version: &Version, words: &[PlainWord<'_>]) {
    same(rt, &"words", &difference(version, words), &None);
    let start = plain_next(words, "<file!>", 0);
    let end = plain_next(words, "</file!>", 0);
    same(rt, &"boundary", &(start, end), &(Some(8), Some(9)));
}

#[test]
fn words_keep_their_addresses_beside_a_deleted_file(rt: HostRuntime) -> Result<(), Fail> {
    let version = played(&rt, rt.alloc(), &BESIDE)?;
    has_one_slot(&rt, &version);
    has_one_file(&rt, &version, &plain_words(rt.alloc(), &BESIDE)?);
    Ok(())
}
