ghost use Rattle.std.specs.Prelude.{◌≡◌, ◌+◌, ◌<◌, ◌≤◌, [], IfOk};
ghost use Rattle.std.specs.List.{AllByRecursion};
ghost use Rattle.gcl_model.specs.Limits.{address_end};
ghost use Rattle.gcl_model.specs.Slots.{slot_range};
ghost use Rattle.index_shard.specs.Tables.{ArePostingsIn, IsShard};

use crate::checks::{holds, same};
use crate::versions::file;
use address_space::{FileId, FileRun, Range};
use gcl_model::{
    ADDRESS_END, Bytes, Direction, Interval, Leaves, Ledger, Pair, Question, Steps, TokenList,
    counted,
};
use index_shard::{Shard, ShardMaker};
use live_version::{Slot, Version};
use shard_build::build;
use std::alloc::{AllocError, Global};
use std::marker::Brand;
use std::process::Abort;
use std::test::Fail;
use term_fingers::{Fingers, Naming};

/// The address of a term that is nearest to `k` on one side.
#[derive(Drop)]
struct Nearest<'a, V: Leaves> {
    leaves: &'a V,
    term: &'a [u8],
    k: u64,
    direction: Direction,
}

impl<V: Leaves> Question for Nearest<'_, V> {
    ghost use Rattle.std.specs.Prelude.{⊤};

    type Answer = Option<u64>;

    ghost can_ask = { λ _. ⊤ };

    ghost answers = { λ _ _. ⊤ };

    ghost most = { λ asked _. V.most asked.leaves.now };

    fn ask<L: Ledger>(&self, steps: &mut Steps<L>) -> Option<u64> {
        match self.direction {
            Direction::Forward => self.leaves.next(self.term, self.k, steps),
            Direction::Backward => self.leaves.prev(self.term, self.k, steps),
        }
    }
}

/// The addresses from `first` to `last`, each `gap` above the one before.
fn every(alloc: Global, first: u64, last: u64, gap: u64) -> Result<Vec<u64>, AllocError>
    requires ordered { first ≤ last }
    requires in_range { last < address_end }
    ensures { IfOk result (λ addresses. ArePostingsIn (slot_range first last) addresses.items) }
{
    let mut addresses = Vec::new(alloc);
    addresses.push(first)?;
    let mut at = first;
    while gap > 0 && gap <= last - at {
        at += gap;
        addresses.push(at)?;
    }
    Ok(addresses)
}

/// An index of one term, at every `gap` addresses.
fn index(alloc: Global, range: Range, term: &[u8], gap: u64) -> Result<Shard, AllocError>
    requires ordered { range.first ≤ range.last }
    requires in_range { range.last < address_end }
    ensures range { IfOk result (λ shard. shard.range ≡ range) }
    ensures shard { IfOk result IsShard }
{
    let addresses = every(alloc, range.first, range.last, gap)?;
    let mut maker = ShardMaker::new(alloc, range);
    maker.push_term(term, &addresses)?;
    Ok(maker.finish())
}

/// Three files side by side, each of a thousand addresses.
fn three_files(alloc: Global, shard: Shard) -> Result<Slot, AllocError>
    requires { shard.range ≡ slot_range 0 2999 }
    ensures range { IfOk result (λ slot. slot.range ≡ slot_range 0 2999) }
    ensures ids { IfOk result (λ slot. AllByRecursion (λ file. file.id < 3) slot.files) }
    ensures mask { IfOk result (λ slot. slot.mask ≡ []) }
{
    let range = Range {
        first: 0,
        last: 2999,
    };
    let mut files = FileRun::new(alloc);
    files.push(file(alloc, 0, 0, 1000)?)?;
    files.push(file(alloc, 1, 1000, 1000)?)?;
    files.push(file(alloc, 2, 2000, 1000)?)?;
    // any call of the index shows that it is one
    let _terms = shard.term_count();
    Slot::new(alloc, range, shard, files)
}

/// The version with one more file, in which a term occurs `times` times, at every third address.
fn added(
    alloc: Global,
    version: &Version,
    term: &[u8],
    times: u64,
) -> Result<Option<Version>, AllocError> {
    let base = version.next();
    let id = version.next_id();
    if times < 1
        || 1000 < times
        || ADDRESS_END - 3000 < base
        || 1 << 40 < id
        || 1 << 40 < version.number()
        || 32 <= version.slot_count()
    {
        return Ok(None);
    }
    let len = 3 * times;
    let range = Range {
        first: base,
        last: base + len - 1,
    };
    let shard = index(alloc, range, term, 3)?;
    let version = version.with_file(file(alloc, id, base, len)?, shard)?;
    Ok(Some(version))
}

fn deleted<R: Abort>(rt: &R, version: &Version, id: u64) -> Result<Version, AllocError> {
    assert!(rt; version.find_file(FileId(id)).is_some());
    assert!(rt; version.number() < 1 << 40);
    version.without_file(FileId(id))
}

const LISTS: [(&str, u64); 10] = [
    ("a", 1),
    ("a", 63),
    ("b", 64),
    ("a", 64),
    ("z", 1000),
    ("a", 65),
    ("a", 1000),
    ("b", 128),
    ("a", 129),
    ("z", 1),
];

/// A slot with a dead middle, one without files, and lists whose lengths are about those of blocks.
fn slots<R: Abort>(rt: &R, alloc: Global) -> Result<Version, AllocError> {
    let range = Range {
        first: 0,
        last: 2999,
    };
    let slot = three_files(alloc, index(alloc, range, b"a", 1)?)?;
    let mut version = Version::of_slot(alloc, 0, 3000, 3, Some(slot))?;
    for (term, times) in &LISTS {
        version = added(alloc, &version, term.as_bytes(), *times)?.expect(
            rt,
            "a file may be added",
        );
    }
    deleted(rt, &deleted(rt, &version, 1)?, 6)
}

/// More terms than have fingers: the last ones have none.
const ADDED: &[u8] = b"abcdefghijklmnopqrstuvwxyz";

const ASKED: [(&str, Direction); 5] = [
    ("a", Direction::Forward),
    ("b", Direction::Backward),
    ("z", Direction::Forward),
    ("a", Direction::Backward),
    ("who", Direction::Forward),
];

/// What look-ups give, and how many look-ups in slots they take.
fn found<V: Leaves>(leaves: &V, term: &str, k: u64, direction: Direction) -> (Option<u64>, u64) {
    counted(&Nearest {
        leaves,
        term: term.as_bytes(),
        k,
        direction,
    })
}

/// The fingers and the version answer the same at an address.
fn both_answer<J: Naming, R: Abort>(rt: &R, version: &Version, fingers: &Fingers<'_, J>, k: u64) {
    for (term, direction) in &ASKED {
        let got = found(fingers, term, k, *direction);
        let want = found(version, term, k, *direction);
        same(rt, &(term, k, direction), &got, &want);
    }
}

/// Asks fingers and the version the same, at addresses in no order.
fn ask_both<J: Naming, R: Abort>(rt: &R, version: &Version)
    requires { version.now ≡ J.version }
{
    let mut fingers = Fingers::<J>::new(version);
    for term in ADDED.chunks(1) {
        fingers.add(term);
    }
    let mut state = 1u64;
    for _ in 0..5_000u32 {
        state = chance(state);
        both_answer(rt, version, &fingers, (state >> 33) % 8000);
    }
}

#[test]
fn look_ups_in_no_order_are_those_of_the_version(rt: HostRuntime) -> Result<(), Fail> {
    let version = slots(&rt, rt.alloc())?;
    same(&rt, &"deletions", &version.dels(), &2);
    ask_both::<Brand, _>(&rt, &version);
    Ok(())
}

/// The next pseudo-random number.
fn chance(state: u64) -> u64 {
    state
        .wrapping_mul(6364136223846793005)
        .wrapping_add(1442695040888963407)
}

/// Words of which two are in the phrase, so it comes about once in sixteen words.
const WORDS: [&str; 4] = ["of", "the", "a", "king"];

/// `count` of these words, chosen at random.
fn chance_words(alloc: Global, seed: u64, count: usize) -> Result<TokenList, AllocError> {
    let mut words = TokenList::new(alloc);
    let mut state = seed;
    for _ in 0..count {
        state = chance(state);
        let word = WORDS[((state >> 33) % 4) as usize];
        words.push(Bytes::copy_of(alloc, word.as_bytes())?)?;
    }
    Ok(words)
}

/// The version with one more file of such words, in a slot of its own.
fn with_words(
    alloc: Global,
    version: &Version,
    seed: u64,
    count: usize,
) -> Result<Option<Version>, AllocError> {
    let base = version.next();
    let id = version.next_id();
    let words = chance_words(alloc, seed, count)?;
    let len = words.len() as u64;
    if 1000 < len
        || ADDRESS_END - 3000 < base
        || 1 << 40 < id
        || 1 << 40 < version.number()
        || 32 <= version.slot_count()
    {
        return Ok(None);
    }
    let shard = build(alloc, base, &words)?;
    let version = version.with_file(file(alloc, id, base, len + 2)?, shard)?;
    Ok(Some(version))
}

/// One slot of three files.
fn of_chance<R: Abort>(rt: &R, alloc: Global) -> Result<Slot, AllocError>
    ensures range { IfOk result (λ slot. slot.range ≡ slot_range 0 2999) }
    ensures ids { IfOk result (λ slot. AllByRecursion (λ file. file.id < 3) slot.files) }
    ensures mask { IfOk result (λ slot. slot.mask ≡ []) }
{
    let words = chance_words(alloc, 1, 2998)?;
    assert!(rt; words.len() == 2998);
    three_files(alloc, build(alloc, 0, &words)?)
}

/// A slot with a dead middle, one without files, and others whose lists end within blocks and at their ends.
fn chance_slots<R: Abort>(rt: &R, alloc: Global) -> Result<Version, AllocError> {
    let slot = of_chance(rt, alloc)?;
    let mut version = Version::of_slot(alloc, 0, 3000, 3, Some(slot))?;
    for (seed, count) in [(2, 1), (3, 300), (4, 1000), (5, 600), (6, 1000)] {
        version = with_words(alloc, &version, seed, count)?.expect(rt, "a file may be added");
    }
    deleted(rt, &deleted(rt, &version, 1)?, 4)
}

/// Where, at or after `k`, the first word next occurs with the second one right after it, by look-ups in the version.
fn next_pair(version: &Version, first: &str, second: &str, k: u64) -> Option<u64> {
    let mut at = k;
    for _ in 0..10_000u32 {
        let p = found(version, first, at, Direction::Forward).0?;
        at = p.saturating_add(1);
        if found(version, second, at, Direction::Forward).0 == Some(at) {
            return Some(p);
        }
    }
    None
}

/// Where the two words may next occur at or after `start`, as the fingers report: no pair is skipped.
fn told_from<J: Naming, R: Abort>(
    rt: &R,
    version: &Version,
    fingers: &Fingers<'_, J>,
    (first, second): (&str, &str),
    start: u64,
) -> u64 {
    let told = fingers.earliest_pair(first.as_bytes(), second.as_bytes(), start);
    let next = next_pair(version, first, second, start);
    let case = (first, second, start);
    holds(rt, &case, start <= told.at);
    holds(rt, &case, next.is_none_or(|p| told.at <= p));
    holds(rt, &case, !told.found || next == Some(told.at));
    told.at
}

/// Where a phrase that is to look at or after `at` continues.
fn start_behind<J: Naming>(
    fingers: &Fingers<'_, J>,
    (first, second): (&str, &str),
    at: u64,
) -> Option<u64> {
    let p = found(fingers, first, at, Direction::Forward).0?;
    let start = p.saturating_add(1);
    let q = found(fingers, second, start, Direction::Forward).0?;
    Some(start.max(q.saturating_sub(1)))
}

/// Walks from `k` as a phrase does, and returns how many addresses it passed without a look-up.
fn went_over<J: Naming, R: Abort>(
    rt: &R,
    version: &Version,
    fingers: &Fingers<'_, J>,
    words: (&str, &str),
    k: u64,
) -> u64 {
    let mut start = k;
    let mut over = 0u64;
    for _ in 0..20u32 {
        let at = told_from(rt, version, fingers, words, start);
        over = over.saturating_add(at.saturating_sub(start));
        match start_behind(fingers, words, at) {
            Some(next) => start = next,
            None => return over,
        }
    }
    over
}

/// Two words with fingers in either order, one next to itself, and words of which one has no finger.
const ASIDE: [(&str, &str); 5] = [
    ("of", "the"),
    ("the", "of"),
    ("a", "a"),
    ("the", "king"),
    ("who", "of"),
];

/// How many addresses walks from `k` passed without a look-up.
fn went_over_all<J: Naming, R: Abort>(
    rt: &R,
    version: &Version,
    fingers: &Fingers<'_, J>,
    k: u64,
) -> u64 {
    let mut over = 0u64;
    for words in &ASIDE {
        over = over.saturating_add(went_over(rt, version, fingers, *words, k));
    }
    over
}

fn ask_aside<J: Naming, R: Abort>(rt: &R, version: &Version)
    requires { version.now ≡ J.version }
{
    let mut fingers = Fingers::<J>::new(version);
    for term in ["of", "the", "a"] {
        fingers.add(term.as_bytes());
    }
    let mut state = 1u64;
    let mut over = 0u64;
    for _ in 0..200u32 {
        state = chance(state);
        let k = (state >> 33) % 6000;
        over = over.saturating_add(went_over_all(rt, version, &fingers, k));
    }
    holds(rt, &over, over > 10_000);
}

#[test]
fn no_pair_is_passed_over(rt: HostRuntime) -> Result<(), Fail> {
    let version = chance_slots(&rt, rt.alloc())?;
    same(&rt, &"deletions", &version.dels(), &2);
    ask_aside::<Brand, _>(&rt, &version);
    Ok(())
}

/// The word occurs at or after `k`.
fn is_found<J: Naming, R: Abort>(rt: &R, fingers: &Fingers<'_, J>, term: &str, k: u64) {
    let (place, _) = found(fingers, term, k, Direction::Forward);
    holds(rt, &(term, k), place.is_some());
}

/// The next pair at or after `k` is reported, and believed or not.
fn is_told<J: Naming, R: Abort>(
    rt: &R,
    version: &Version,
    fingers: &Fingers<'_, J>,
    k: u64,
    believed: bool,
) {
    let at = next_pair(version, "of", "the", k).expect(rt, "a pair comes soon");
    let want = Pair {
        at,
        found: believed,
    };
    same(rt, &k, &fingers.earliest_pair(b"of", b"the", k), &want);
}

/// A block is unpacked as soon as it is looked into twice. A pair in it is believed if nothing in the slot is dead.
fn ask_unpacked<J: Naming, R: Abort>(rt: &R, version: &Version, believed: bool)
    requires { version.now ≡ J.version }
{
    let mut fingers = Fingers::<J>::new(version);
    for term in ["of", "the"] {
        fingers.add(term.as_bytes());
        is_found(rt, &fingers, term, 1);
        is_found(rt, &fingers, term, 2);
    }
    for k in 20..120u64 {
        is_told(rt, version, &fingers, k, believed);
    }
}

#[test]
fn of_two_unpacked_blocks_the_next_pair_is_told(rt: HostRuntime) -> Result<(), Fail> {
    let version = chance_slots(&rt, rt.alloc())?;
    ask_unpacked::<Brand, _>(&rt, &version, false);
    Ok(())
}

#[test]
fn a_pair_is_believed_where_nothing_is_dead(rt: HostRuntime) -> Result<(), Fail> {
    let slot = of_chance(&rt, rt.alloc())?;
    let version = Version::of_slot(rt.alloc(), 0, 3000, 3, Some(slot))?;
    ask_unpacked::<Brand, _>(&rt, &version, true);
    Ok(())
}

/// An interval between two words on one side of `k`, if the blocks around it are already unpacked.
#[derive(Drop)]
struct Element<'a, V: Leaves> {
    leaves: &'a V,
    k: u64,
    direction: Direction,
}

impl<V: Leaves> Question for Element<'_, V> {
    ghost use Rattle.std.specs.Prelude.{⊤, ◌*◌};

    type Answer = Option<Interval>;

    ghost can_ask = { λ _. ⊤ };

    ghost answers = { λ _ _. ⊤ };

    ghost most = { λ asked _. 3 * V.most asked.leaves.now };

    fn ask<L: Ledger>(&self, steps: &mut Steps<L>) -> Option<Interval> {
        match self.direction {
            Direction::Forward => self.leaves.element_from(b"of", b"the", self.k, steps),
            Direction::Backward => self.leaves.element_up_to(b"of", b"the", self.k, steps),
        }
    }
}

/// The same by three look-ups.
fn looked_up<V: Leaves>(leaves: &V, k: u64, direction: Direction) -> Option<(u64, u64)> {
    match direction {
        Direction::Forward => {
            let at = found(leaves, "of", k, Direction::Forward).0?;
            let end = found(leaves, "the", at.checked_add(1)?, Direction::Forward).0?;
            let start = found(leaves, "of", end.checked_sub(1)?, Direction::Backward).0?;
            Some((start, end))
        }
        Direction::Backward => {
            let at = found(leaves, "the", k, Direction::Forward).0?;
            let start = found(leaves, "of", at.checked_sub(1)?, Direction::Backward).0?;
            let end = found(leaves, "the", start.checked_add(1)?, Direction::Forward).0?;
            if end < k { None } else { Some((start, end)) }
        }
    }
}

/// Whether the interval is available after look-ups unpacked its blocks: then it is the one that they found, and counts as three look-ups.
fn is_at_hand<J: Naming, R: Abort>(
    rt: &R,
    fingers: &Fingers<'_, J>,
    k: u64,
    direction: Direction,
) -> bool {
    // the look-ups unpack the blocks around it, so they come first
    let want = looked_up(fingers, k, direction);
    let (got, count) = counted(&Element {
        leaves: fingers,
        k,
        direction,
    });
    let Some(element) = got else {
        return false;
    };
    let got = (Some((element.start, element.end)), count);
    same(rt, &(k, direction), &got, &(want, 3));
    true
}

/// For how many addresses the interval was available, after look-ups that unpacked the blocks around it.
fn times_at_hand<J: Naming, R: Abort>(rt: &R, version: &Version, direction: Direction) -> u64
    requires { version.now ≡ J.version }
{
    let mut fingers = Fingers::<J>::new(version);
    for term in ["of", "the"] {
        fingers.add(term.as_bytes());
    }
    let mut times = 0u64;
    for k in 0..3000u64 {
        if is_at_hand(rt, &fingers, k, direction) {
            times = times.saturating_add(1);
        }
    }
    times
}

#[test]
fn between_unpacked_words_is_at_hand_where_nothing_is_dead(rt: HostRuntime) -> Result<(), Fail> {
    let slot = of_chance(&rt, rt.alloc())?;
    let version = Version::of_slot(rt.alloc(), 0, 3000, 3, Some(slot))?;
    let rest = deleted(&rt, &version, 1)?;
    for direction in [Direction::Forward, Direction::Backward] {
        let times = times_at_hand::<Brand, _>(&rt, &version, direction);
        holds(&rt, &(times, direction), times > 2000);
        let times = times_at_hand::<Brand, _>(&rt, &rest, direction);
        same(&rt, &direction, &times, &0);
    }
    Ok(())
}
