ghost use Rattle.std.specs.Prelude.{◌<◌};

use crate::checks::same;
use gcl_model::{Ledger, Question, Steps, TokenList, counted};
use index_shard::{Direction, Shard};
use shard_build::{Names, build, build_from, build_text};
use std::alloc::{AllocError, Global};
use std::process::Abort;
use std::test::Fail;
use word_tokens::{token_count, token_text};

/// The posting of a term that is nearest to an address on one side.
#[derive(Drop)]
struct Nearest<'s, 't> {
    shard: &'s Shard,
    term: &'t [u8],
    k: u64,
    direction: Direction,
}

impl Question for Nearest<'_, '_> {
    ghost use Rattle.std.specs.Prelude.{◌≡◌, ⊤};
    ghost use Rattle.index_shard.specs.Searched.{look_up};

    type Answer = Option<u64>;

    ghost can_ask = { λ _. ⊤ };

    ghost answers = { λ asked answer. answer ≡ look_up asked.shard.now.table asked.term.now asked.k asked.direction };

    ghost most = { λ _ _. 1 };

    fn ask<L: Ledger>(&self, steps: &mut Steps<L>) -> Option<u64> {
        self.shard.look_up(self.term, self.k, self.direction, steps)
    }
}

/// The first three postings of the term at a place.
#[derive(Drop)]
struct FirstThree<'a> {
    shard: &'a Shard,
    place: usize,
}

impl Question for FirstThree<'_> {
    ghost use Rattle.std.specs.Prelude.{◌<◌, ⊤, length};

    type Answer = [Option<u64>; 3];

    ghost can_ask = { λ asked. asked.place < length asked.shard.now.table };

    ghost answers = { λ _ _. ⊤ };

    ghost most = { λ _ _. 3 };

    fn ask<L: Ledger>(&self, steps: &mut Steps<L>) -> [Option<u64>; 3] {
        let mut walk = self.shard.walk(self.place);
        let first = walk.next(steps);
        let second = walk.next(steps);
        let third = walk.next(steps);
        [first, second, third]
    }
}

/// The first three postings of the term at a place, and the steps that they took. Returns None if there is no such place.
fn walked(shard: &Shard, place: usize) -> Option<([Option<u64>; 3], u64)> {
    if place < shard.term_count() {
        Some(counted(&FirstThree { shard, place }))
    } else {
        None
    }
}

/// The term at a place, if there is one.
fn term_at(shard: &Shard, place: usize) -> Option<&[u8]> {
    if place < shard.term_count() {
        Some(shard.term(place))
    } else {
        None
    }
}

// The terms, the first three postings of each, and how many steps these take.
const HAMLET: [(&str, ([Option<u64>; 3], u64)); 6] = [
    ("</file!>", ([Some(7), None, None], 1)),
    ("<file!>", ([Some(0), None, None], 1)),
    ("be", ([Some(2), Some(6), None], 2)),
    ("not", ([Some(4), None, None], 1)),
    ("or", ([Some(3), None, None], 1)),
    ("to", ([Some(1), Some(5), None], 2)),
];

/// The shard is that of `to be or not to be`, starting at address 0.
fn is_hamlet<R: Abort>(rt: &R, shard: &Shard) {
    same(rt, &"terms", &shard.term_count(), &HAMLET.len());
    for (place, (term, want)) in HAMLET.iter().enumerate() {
        same(rt, term, &term_at(shard, place), &Some(term.as_bytes()));
        same(rt, term, &walked(shard, place), &Some(*want));
    }
}

#[test]
fn a_file_is_indexed_with_its_boundaries(rt: HostRuntime) -> Result<(), Fail> {
    let tokens = TokenList::of(rt.alloc(), &["to", "be", "or", "not", "to", "be"])?;
    assert!(rt; tokens.len() == 6);
    is_hamlet(&rt, &build(rt.alloc(), 0, &tokens)?);
    Ok(())
}

const TEXT: &[u8] = b"To be, or NOT to be?";

/// With these names the shard of the text is that of its tokens.
fn is_built<R: Abort>(rt: &R, alloc: Global, names: &mut Names) -> Result<(), AllocError> {
    assert!(rt; token_count(TEXT) == 6);
    is_hamlet(rt, &build_text(alloc, names, 0, TEXT)?);
    Ok(())
}

#[test]
fn a_text_is_indexed_as_its_tokens_whether_it_was_cut_or_not(rt: HostRuntime) -> Result<(), Fail> {
    let text = token_text(rt.alloc(), TEXT)?;
    assert!(rt; text.len() == 6);
    is_hamlet(&rt, &build_from(rt.alloc(), 0, &text)?);
    is_built(&rt, rt.alloc(), &mut Names::new(rt.alloc()))?;
    Ok(())
}

const BEFORE: [&str; 4] = [
    "be that or this",
    "to to to to to to to to to to to to to to to to to to to to to to to to to to to to to to to to to to to to to to to to to to \
     be to to to to to to to to to to to to to to to to to to to to to to to to to to to to to to to to to to to to to to to to",
    "to be not to be",
    "",
];

/// The same after each of these texts was built.
fn is_built_after_each<R: Abort>(
    rt: &R,
    alloc: Global,
    names: &mut Names,
) -> Result<(), AllocError> {
    for before in &BEFORE {
        let _ = build_text(alloc, names, 7, before.as_bytes());
        is_built(rt, alloc, names)?;
    }
    Ok(())
}

#[test]
fn names_that_were_met_before_change_no_shard(rt: HostRuntime) -> Result<(), Fail> {
    let mut names = Names::new(rt.alloc());
    is_built_after_each(&rt, rt.alloc(), &mut names)?;
    Ok(())
}

/// One of 16 letters.
fn letter(n: u64) -> u8 {
    b'a'.wrapping_add((n % 16) as u8)
}

fn put_word(text: &mut Vec<u8>, round: u8, n: u64) -> Result<(), AllocError> {
    text.extend_from_slice(if n % 2 == 0 { b"longprefix" } else { b"w" })?;
    let letters = [letter(n), letter(n / 16), letter(round as u64), b' '];
    if n % 8 < 2 {
        text.extend_from_slice(&letters)
    } else {
        text.extend_from_slice(&[letters[0], letters[1], b' '])
    }
}

/// A text of `words` words out of 256. Every second one has its first eight bytes in common with the others, and every fourth is new in
/// each round.
fn mixed_words(
    alloc: Global,
    round: u8,
    first: u64,
    step: u64,
    words: usize,
) -> Result<Vec<u8>, AllocError> {
    let mut text = Vec::new(alloc);
    let mut n = first;
    for _ in 0..words {
        put_word(&mut text, round, n)?;
        n = n.wrapping_mul(5).wrapping_add(step) % 256;
    }
    Ok(text)
}

/// The two shards have the same terms with the same postings.
fn is_same<R: Abort>(rt: &R, one: &Shard, other: &Shard) {
    same(rt, &"terms", &one.term_count(), &other.term_count());
    for place in 0..one.term_count() {
        same(rt, &place, &term_at(one, place), &term_at(other, place));
        same(rt, &place, &walked(one, place), &walked(other, place));
    }
}

/// With these names the text gives the shard that it gives without any.
fn gives_the_same<R: Abort>(
    rt: &R,
    alloc: Global,
    names: &mut Names,
    text: &[u8],
) -> Result<(), AllocError> {
    assert!(rt; token_count(text) <= 300);
    let fresh = build_text(alloc, &mut Names::new(alloc), 40, text)?;
    is_same(rt, &build_text(alloc, names, 40, text)?, &fresh);
    Ok(())
}

// The first number of a text of mixed words, the step from each to the next, and how many words it has.
const MIXED: [(u64, u64, usize); 10] = [
    (3, 7, 90),
    (200, 7, 120),
    (9, 11, 3),
    (9, 11, 200),
    (17, 129, 300),
    (90, 7, 100),
    (0, 1, 70),
    (255, 3, 256),
    (4, 31, 2),
    (5, 77, 256),
];

/// The same for each text of a round.
fn each_gives_the_same<R: Abort>(
    rt: &R,
    alloc: Global,
    names: &mut Names,
    round: u8,
) -> Result<(), AllocError> {
    for (first, step, words) in &MIXED {
        let text = mixed_words(alloc, round, *first, *step, *words)?;
        gives_the_same(rt, alloc, names, &text)?;
    }
    Ok(())
}

#[test]
fn names_that_are_put_in_order_change_no_shard(rt: HostRuntime) -> Result<(), Fail> {
    let names = &mut Names::new(rt.alloc());
    for round in 0..8u8 {
        each_gives_the_same(&rt, rt.alloc(), names, round)?;
    }
    Ok(())
}

/// The posting of the term that is nearest to `k` on one side is this, and is found in one step.
fn finds<R: Abort>(
    rt: &R,
    shard: &Shard,
    term: &[u8],
    k: u64,
    direction: Direction,
    want: Option<u64>,
) {
    let found = counted(&Nearest {
        shard,
        term,
        k,
        direction,
    });
    same(rt, &(direction, k), &found, &(want, 1));
}

#[test]
fn a_file_without_tokens_has_its_boundaries(rt: HostRuntime) -> Result<(), Fail> {
    let shard = build(rt.alloc(), 5, &TokenList::new(rt.alloc()))?;
    same(&rt, &"terms", &shard.term_count(), &2);
    finds(&rt, &shard, b"<file!>", 0, Direction::Forward, Some(5));
    finds(&rt, &shard, b"</file!>", 0, Direction::Forward, Some(6));
    Ok(())
}

/// The address of the token that is nearest to `k` on one side, by looking at each. The first is at 100.
fn plain_look_up(tokens: &[&str], term: &[u8], k: u64, direction: Direction) -> Option<u64> {
    let mut found = None;
    let mut address = 100u64;
    for token in tokens {
        let is_nearer = match direction {
            Direction::Forward => k <= address && found.is_none(),
            Direction::Backward => address <= k,
        };
        if is_nearer && token.as_bytes() == term {
            found = Some(address);
        }
        address = address.wrapping_add(1);
    }
    found
}

/// Each look-up of the term in the shard agrees with looking at each token.
fn agrees<R: Abort>(rt: &R, shard: &Shard, tokens: &[&str], term: &[u8]) {
    for k in 98..115u64 {
        for direction in [Direction::Forward, Direction::Backward] {
            let plain = plain_look_up(tokens, term, k, direction);
            finds(rt, shard, term, k, direction, plain);
        }
    }
}

const WORDS: [&str; 11] = [
    "<b>", "to", "42", "</b>", "<a.b:c>", "to", "\u{e9}", "t", "toe", "to", "</a.b:c>",
];

// The same words between the tokens of a file's boundary.
const BETWEEN: [&str; 13] = [
    "<file!>", "<b>", "to", "42", "</b>", "<a.b:c>", "to", "\u{e9}", "t", "toe", "to", "</a.b:c>",
    "</file!>",
];

#[test]
fn look_ups_agree_with_a_look_at_each_token(rt: HostRuntime) -> Result<(), Fail> {
    let tokens = TokenList::of(rt.alloc(), &WORDS)?;
    assert!(rt; tokens.len() == 11);
    let shard = build(rt.alloc(), 100, &tokens)?;
    for term in &BETWEEN {
        agrees(&rt, &shard, &BETWEEN, term.as_bytes());
    }
    Ok(())
}
