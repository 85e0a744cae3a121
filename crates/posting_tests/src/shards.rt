ghost use Rattle.std.specs.Prelude.{◌≡◌, ◌<◌, ◌∷◌, []};
ghost use Rattle.std.specs.List.{concat};
ghost use Rattle.posting_code.specs.Postings.{ArePostings};
ghost use Rattle.index_shard.specs.Tables.{ArePostingsIn};

use crate::checks::same;
use address_space::Range;
use gcl_model::{Direction, Ledger, Question, Steps, counted};
use index_shard::{Shard, ShardMaker, head_of};
use posting_code::{PostingList, Postings, encode};
use std::alloc::{AllocError, Global};
use std::process::Abort;

/// The posting of a term that is nearest to an address on one side.
#[derive(Drop)]
struct Nearest<'s, 't> {
    shard: &'s Shard,
    term: &'t [u8],
    k: u64,
    direction: Direction,
}

impl Question for Nearest<'_, '_> {
    ghost use Rattle.std.specs.Prelude.{◌≡◌, ⊤};
    ghost use Rattle.index_shard.specs.Searched.{look_up};

    type Answer = Option<u64>;

    ghost can_ask = { λ _. ⊤ };

    ghost answers = { λ asked answer. answer ≡ look_up asked.shard.now.table asked.term.now asked.k asked.direction };

    ghost most = { λ _ _. 1 };

    fn ask<L: Ledger>(&self, steps: &mut Steps<L>) -> Option<u64> {
        self.shard.look_up(self.term, self.k, self.direction, steps)
    }
}

/// The first three postings of the term at a place.
#[derive(Drop)]
struct FirstThree<'a> {
    shard: &'a Shard,
    place: usize,
}

impl Question for FirstThree<'_> {
    ghost use Rattle.std.specs.Prelude.{◌<◌, ⊤, length};

    type Answer = [Option<u64>; 3];

    ghost can_ask = { λ asked. asked.place < length asked.shard.now.table };

    ghost answers = { λ _ _. ⊤ };

    ghost most = { λ _ _. 3 };

    fn ask<L: Ledger>(&self, steps: &mut Steps<L>) -> [Option<u64>; 3] {
        let mut walk = self.shard.walk(self.place);
        let first = walk.next(steps);
        let second = walk.next(steps);
        let third = walk.next(steps);
        [first, second, third]
    }
}

/// `to be or not to be`, starting at address 1.
fn hamlet(alloc: Global) -> Result<Shard, AllocError> {
    let mut maker = ShardMaker::new(alloc, Range { first: 1, last: 6 });
    maker.push_term(b"be", &[2, 6])?;
    maker.push_list(b"not", encode(alloc, &[4])?)?;
    maker.push_term(b"or", &[3])?;
    maker.push_term(b"to", &[1, 5])?;
    Ok(maker.finish())
}

/// Terms with the same first eight bytes, or with fewer.
fn chapters(alloc: Global) -> Result<Shard, AllocError> {
    let mut maker = ShardMaker::new(alloc, Range { first: 1, last: 6 });
    maker.push_term(b"chapter", &[6])?;
    maker.push_term(b"chapter\0", &[5])?;
    maker.push_term(b"chapter1", &[4])?;
    maker.push_term(b"chapter10", &[3])?;
    maker.push_term(b"chapter2", &[2])?;
    Ok(maker.finish())
}

/// Three lists, lent.
fn lent<'a>(
    front: &'a PostingList,
    middle: &'a PostingList,
    behind: &'a PostingList,
) -> [Postings<'a>; 3]
    ensures { result ≡ front.now ∷ middle.now ∷ behind.now ∷ [] }
{
    [
        front.as_postings(),
        middle.as_postings(),
        behind.as_postings(),
    ]
}

/// One term, whose postings are put as three lists.
fn of_three(
    alloc: Global,
    front: &[u64],
    middle: &[u64],
    behind: &[u64],
) -> Result<Shard, AllocError>
    requires front { ArePostings front.now }
    requires middle { ArePostings middle.now }
    requires behind { ArePostings behind.now }
    requires all { ArePostingsIn (record { first = 1; last = 6 }) (concat (front.now ∷ middle.now ∷ behind.now ∷ [])) }
{
    let front = encode(alloc, front)?;
    let middle = encode(alloc, middle)?;
    let behind = encode(alloc, behind)?;
    let parts = lent(&front, &middle, &behind);
    let mut maker = ShardMaker::new(alloc, Range { first: 1, last: 6 });
    maker.push_parts(head_of(b"be"), b"be", &parts)?;
    Ok(maker.finish())
}

/// The nearest posting on one side is this, and is found in one step.
fn finds<R: Abort>(
    rt: &R,
    shard: &Shard,
    word: &str,
    k: u64,
    direction: Direction,
    want: Option<u64>,
) {
    let found = counted(&Nearest {
        shard,
        term: word.as_bytes(),
        k,
        direction,
    });
    same(rt, &(word, k), &found, &(want, 1));
}

const LOOK_UPS: [(&str, u64, Direction, Option<u64>); 9] = [
    ("to", 2, Direction::Forward, Some(5)),
    ("to", 5, Direction::Forward, Some(5)),
    ("to", 6, Direction::Forward, None),
    ("to", 4, Direction::Backward, Some(1)),
    ("to", 0, Direction::Backward, None),
    ("be", 9, Direction::Backward, Some(6)),
    ("note", 0, Direction::Forward, None),
    ("no", 0, Direction::Forward, None),
    ("", 0, Direction::Forward, None),
];

fn finds_each<R: Abort>(rt: &R, shard: &Shard) {
    for (word, k, direction, want) in &LOOK_UPS {
        finds(rt, shard, word, *k, *direction, *want);
    }
}

#[test]
fn a_look_up_is_one_step_whatever_it_finds(rt: HostRuntime) -> Result<(), AllocError> {
    finds_each(&rt, &hamlet(rt.alloc())?);
    Ok(())
}

/// The first three postings of the term at a place are these, and take this number of steps.
fn walks<R: Abort>(rt: &R, shard: &Shard, place: usize, want: ([Option<u64>; 3], u64)) {
    assert!(rt; place < shard.term_count());
    same(rt, &place, &counted(&FirstThree { shard, place }), &want);
}

/// The term at a place is this, and has `len` postings.
fn has_term<R: Abort>(rt: &R, shard: &Shard, place: usize, term: &str, len: usize) {
    assert!(rt; place < shard.term_count());
    same(rt, &term, &shard.place(term.as_bytes()), &Some(place));
    let found = (shard.term(place), shard.postings(place).len());
    same(rt, &term, &found, &(term.as_bytes(), len));
}

// The terms by their places, their first three postings, and how many steps these take.
const TERMS: [(usize, &str, [Option<u64>; 3], u64); 4] = [
    (0, "be", [Some(2), Some(6), None], 2),
    (1, "not", [Some(4), None, None], 1),
    (2, "or", [Some(3), None, None], 1),
    (3, "to", [Some(1), Some(5), None], 2),
];

fn has_each_term<R: Abort>(rt: &R, shard: &Shard) {
    same(rt, &"terms", &shard.term_count(), &4);
    for (place, term, postings, steps) in &TERMS {
        has_term(rt, shard, *place, term, *steps as usize);
        walks(rt, shard, *place, (*postings, *steps));
    }
}

#[test]
fn terms_come_in_byte_order_and_a_walk_in_address_order(rt: HostRuntime) -> Result<(), AllocError> {
    has_each_term(&rt, &hamlet(rt.alloc())?);
    Ok(())
}

const PLACES: [(&str, Option<usize>); 8] = [
    ("chapter", Some(0)),
    ("chapter\0", Some(1)),
    ("chapter1", Some(2)),
    ("chapter10", Some(3)),
    ("chapter2", Some(4)),
    ("chapte", None),
    ("chapter\0\0", None),
    ("chapter100", None),
];

fn has_each_place<R: Abort>(rt: &R, shard: &Shard) {
    for (term, place) in &PLACES {
        same(rt, term, &shard.place(term.as_bytes()), place);
    }
}

#[test]
fn terms_that_are_alike_in_eight_bytes_are_told_apart(rt: HostRuntime) -> Result<(), AllocError> {
    has_each_place(&rt, &chapters(rt.alloc())?);
    Ok(())
}

/// A bound, whether the term is to come after it, and that term.
type Bound = (&'static str, bool, Option<&'static [u8]>);

/// The least term at or after each bound, or only after it, is this.
fn has_terms_from<R: Abort>(rt: &R, shard: &Shard, bounds: &[Bound]) {
    for (low, strict, want) in bounds {
        same(rt, low, &shard.term_from(low.as_bytes(), *strict), want);
    }
}

const OF_HAMLET: [Bound; 6] = [
    ("", false, Some(b"be")),
    ("be", false, Some(b"be")),
    ("be", true, Some(b"not")),
    ("bee", false, Some(b"not")),
    ("to", true, None),
    ("tz", false, None),
];

const OF_CHAPTERS: [Bound; 3] = [
    ("chapter", true, Some(b"chapter\0")),
    ("chapter1", true, Some(b"chapter10")),
    ("chapter11", false, Some(b"chapter2")),
];

#[test]
fn the_least_term_from_a_bound_is_the_next_in_byte_order(
    rt: HostRuntime,
) -> Result<(), AllocError> {
    has_terms_from(&rt, &hamlet(rt.alloc())?, &OF_HAMLET);
    has_terms_from(&rt, &chapters(rt.alloc())?, &OF_CHAPTERS);
    Ok(())
}

/// A shard has one term, at 1, 3 and 6.
fn has_one_term<R: Abort>(rt: &R, shard: &Shard) {
    same(rt, &"terms", &shard.term_count(), &1);
    walks(rt, shard, 0, ([Some(1), Some(3), Some(6)], 3));
}

#[test]
fn a_list_without_members_among_others_changes_nothing(rt: HostRuntime) -> Result<(), AllocError> {
    has_one_term(&rt, &of_three(rt.alloc(), &[], &[1, 3], &[6])?);
    has_one_term(&rt, &of_three(rt.alloc(), &[1], &[], &[3, 6])?);
    has_one_term(&rt, &of_three(rt.alloc(), &[1, 3, 6], &[], &[])?);
    Ok(())
}

/// The heads of a shard's terms are these.
fn has_heads<R: Abort>(rt: &R, shard: &Shard, heads: &[u64]) {
    for (place, want) in heads.iter().enumerate() {
        assert!(rt; place < shard.term_count());
        same(rt, &place, &shard.head(place), want);
    }
}

const HAMLET_HEADS: [u64; 2] = [0x6265_0000_0000_0000, 0x6e6f_7400_0000_0000];

const CHAPTER_HEADS: [u64; 5] = [
    0x6368_6170_7465_7200,
    0x6368_6170_7465_7200,
    0x6368_6170_7465_7231,
    0x6368_6170_7465_7231,
    0x6368_6170_7465_7232,
];

#[test]
fn the_head_of_a_term_is_its_first_eight_bytes(rt: HostRuntime) -> Result<(), AllocError> {
    has_heads(&rt, &hamlet(rt.alloc())?, &HAMLET_HEADS);
    has_heads(&rt, &chapters(rt.alloc())?, &CHAPTER_HEADS);
    Ok(())
}
