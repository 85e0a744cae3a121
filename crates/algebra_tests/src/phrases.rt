ghost use Rattle.std.specs.Prelude.{◌<◌, ◌≤◌, length, IfOk};
ghost use Rattle.gcl_model.specs.FormOf.{form_of};
ghost use Rattle.gcl_model.specs.Limits.{far};
ghost use Rattle.gcl_model.specs.WellFormed.{IsWellFormed};

use crate::compared::same;
use gcl_model::{Expr, Interval, Ledger, Question, Steps, TokenList, counted, uncounted};
use phrase_walk::{phrase_first_end, phrase_first_start, phrase_last_end, phrase_last_start};
use plain_text::{PlainText, of_tokens, slow_list};
use std::alloc::{AllocError, Global};
use std::process::Abort;
use std::test::Fail;

/// The four accesses of a phrase at an address.
#[derive(Drop)]
struct AccessesAt<'a> {
    tokens: &'a TokenList,
    text: &'a PlainText,
    k: u64,
}

impl Question for AccessesAt<'_> {
    ghost use Rattle.std.specs.Prelude.{◌<◌, ◌≤◌, ◌*◌, length, ⊤};
    ghost use Rattle.gcl_model.specs.Limits.{far};
    ghost use Rattle.gcl_model.specs.Forms.{phrase};
    ghost use Rattle.gcl_model.specs.Cost.{cost};

    type Answer = [Option<Interval>; 4];

    ghost can_ask = { λ asked. (2 ≤ length asked.tokens.now) × (asked.k < far) };

    ghost answers = { λ _ _. ⊤ };

    ghost most = { λ asked _. 4 * cost asked.text.now 1 (phrase asked.tokens.now) };

    fn ask<L: Ledger>(&self, steps: &mut Steps<L>) -> [Option<Interval>; 4] {
        let starting = phrase_first_start(self.tokens, self.text, self.k, steps);
        let ending = phrase_first_end(self.tokens, self.text, self.k, steps);
        let ended = phrase_last_end(self.tokens, self.text, self.k, steps);
        let started = phrase_last_start(self.tokens, self.text, self.k, steps);
        [starting, ending, ended, started]
    }
}

fn phrase(tokens: &TokenList) -> Result<Expr, AllocError>
    requires { 2 ≤ length tokens.now }
    ensures { IfOk result (λ expr. IsWellFormed (form_of expr)) }
{
    Ok(Expr::Phrase(tokens.copy()?))
}

/// The text of these words, starting at `first`.
fn text_of<R: Abort>(
    rt: &R,
    alloc: Global,
    first: u64,
    words: &[&str],
) -> Result<PlainText, AllocError> {
    let tokens = TokenList::of(alloc, words)?;
    assert!(rt; tokens.len() <= 8 && first <= 8);
    of_tokens(alloc, first, &tokens)
}

/// The tokens of these words, two or more.
fn tokens_of<R: Abort>(rt: &R, alloc: Global, words: &[&str]) -> Result<TokenList, AllocError>
    ensures { IfOk result (λ tokens. 2 ≤ length tokens) }
{
    let tokens = TokenList::of(alloc, words)?;
    assert!(rt; tokens.len() >= 2);
    Ok(tokens)
}

/// The members start at these addresses.
fn are_starts<R: Abort>(rt: &R, members: &[Interval], want: &[u64]) {
    same(rt, &want, &members.len(), &want.len());
    for (member, start) in members.iter().zip(want) {
        same(rt, &want, &member.start, start);
    }
}

/// The four accesses at an address, by looking at each member.
fn plain_accesses(members: &[Interval], k: u64) -> [Option<Interval>; 4] {
    let starting = members.iter().copied().find(|m| m.start >= k);
    let ending = members.iter().copied().find(|m| m.end >= k);
    let ended = members.iter().rev().copied().find(|m| m.end <= k);
    let started = members.iter().rev().copied().find(|m| m.start <= k);
    [starting, ending, ended, started]
}

/// The four accesses of these words at an address are these.
fn are_accesses<R: Abort>(
    rt: &R,
    words: &[&str],
    asked: &AccessesAt<'_>,
    want: [Option<Interval>; 4],
)
    requires two { 2 ≤ length asked.now.tokens.now }
    requires below { asked.now.k < far }
{
    same(rt, &(words, asked.k), &uncounted(asked), &want);
}

/// The accesses follow the members, at every address and a few beyond.
fn follow<R: Abort>(
    rt: &R,
    words: &[&str],
    tokens: &TokenList,
    text: &PlainText,
    members: &[Interval],
)
    requires { 2 ≤ length tokens.now }
{
    for k in 0..14u64 {
        are_accesses(
            rt,
            words,
            &AccessesAt { tokens, text, k },
            plain_accesses(members, k),
        );
    }
}

/// The phrase starts at these addresses, by the plain list too, and all accesses follow.
fn starts<R: Abort>(
    rt: &R,
    alloc: Global,
    text: &PlainText,
    words: &[&str],
    want: &[u64],
) -> Result<(), AllocError> {
    let tokens = tokens_of(rt, alloc, words)?;
    let members = slow_list(alloc, &phrase(&tokens)?, text)?;
    are_starts(rt, members.as_slice(), want);
    follow(rt, words, &tokens, text, members.as_slice());
    Ok(())
}

/// A phrase, and where it starts.
type Row = (&'static [&'static str], &'static [u64]);

const OF_WORDS: [Row; 4] = [
    (&["to", "be"], &[1, 5]),
    (&["be", "to"], &[]),
    (&["not", "to", "be"], &[4]),
    (&["be", "</file!>"], &[6]),
];

const OF_LETTERS: [Row; 4] = [
    (&["a", "b"], &[3, 8]),
    (&["b", "a", "b"], &[7]),
    (&["a", "a"], &[]),
    (&["x", "a"], &[]),
];

#[test]
fn each_access_is_that_of_the_members(rt: HostRuntime) -> Result<(), Fail> {
    let alloc = rt.alloc();
    let hamlet = &["<file!>", "to", "be", "or", "not", "to", "be", "</file!>"];
    let text = text_of(&rt, alloc, 0, hamlet)?;
    for (words, want) in OF_WORDS {
        starts(&rt, alloc, &text, words, want)?;
    }
    let letters = &["a", "b", "a", "c", "b", "a", "b"];
    let text = text_of(&rt, alloc, 3, letters)?;
    for (words, want) in OF_LETTERS {
        starts(&rt, alloc, &text, words, want)?;
    }
    Ok(())
}

/// The four accesses of a phrase at an address of a text of these words, and how many look-ups they take together.
fn counted_at<R: Abort>(
    rt: &R,
    alloc: Global,
    words: &[&str],
    phrase: &[&str],
    k: u64,
) -> Result<([Option<Interval>; 4], u64), AllocError>
    requires { k < far }
{
    let text = &text_of(rt, alloc, 0, words)?;
    let tokens = &tokens_of(rt, alloc, phrase)?;
    Ok(counted(&AccessesAt { tokens, text, k }))
}

/// Four answers, of the first start, the first end, the last end and the last start.
fn four(
    starting: Option<Interval>,
    ending: Option<Interval>,
    ended: Option<Interval>,
    started: Option<Interval>,
) -> [Option<Interval>; 4] {
    [starting, ending, ended, started]
}

/// These are the answers, by this many look-ups.
fn are_counted<R: Abort>(
    rt: &R,
    found: &([Option<Interval>; 4], u64),
    want: [Option<Interval>; 4],
    steps: u64,
) {
    same(rt, &"answers", &found.0, &want);
    same(rt, &"look-ups", &found.1, &steps);
}

/// "to be" in `to or be to be` at 3: 2 look-ups for the first start, 2 for the first end, 3 for the last end and 2 for the last start.
#[test]
fn each_turn_of_a_walk_looks_up_each_token_once(rt: HostRuntime) -> Result<(), Fail> {
    let words = &["to", "or", "be", "to", "be"];
    let found = counted_at(&rt, rt.alloc(), words, &["to", "be"], 3)?;
    let to_be = Interval::new(3, 4);
    let want = four(Some(to_be), Some(to_be), None, Some(to_be));
    are_counted(&rt, &found, want, 9);
    Ok(())
}

/// "the king" in `the a the king a the`: after the first `the` the only `king` leads to 2, and as `the` is there, `king` is not asked
/// again. From 0 that takes 3 look-ups for the first start and 3 for the first end; none ends or starts at or before 0, which takes
/// none and 1.
#[test]
fn a_walk_ends_as_soon_as_each_token_agreed(rt: HostRuntime) -> Result<(), Fail> {
    let words = &["the", "a", "the", "king", "a", "the"];
    let found = counted_at(&rt, rt.alloc(), words, &["the", "king"], 0)?;
    let the_king = Interval::new(2, 3);
    let want = four(Some(the_king), Some(the_king), None, None);
    are_counted(&rt, &found, want, 7);
    Ok(())
}
