use crate::compared::same;
use gcl_model::{
    Bytes, Interval, IntervalList, Ledger, Question, Steps, TokenList, counted, uncounted,
};
use std::alloc::{AllocError, Global};
use std::process::Abort;
use std::test::Fail;

/// A copy of a list of two bytes.
fn two_bytes(alloc: Global) -> Result<Bytes, AllocError> {
    let mut bytes = Bytes::new(alloc);
    bytes.push(7)?;
    bytes.push(8)?;
    bytes.copy()
}

/// A copy of a list of one token.
fn one_token(alloc: Global, token: &Bytes) -> Result<TokenList, AllocError> {
    let mut tokens = TokenList::new(alloc);
    tokens.push(token.copy()?)?;
    tokens.copy()
}

/// A copy of a list of two intervals.
fn two_intervals(alloc: Global) -> Result<IntervalList, AllocError> {
    let mut intervals = IntervalList::new(alloc);
    intervals.push(Interval::new(1, 4))?;
    intervals.push(Interval::new(2, 9))?;
    intervals.copy()
}

/// The list has these two bytes.
fn has_bytes<R: Abort>(rt: &R, bytes: &Bytes, want: (u8, u8)) {
    assert!(rt; bytes.len() == 2);
    same(rt, &"bytes", &(*bytes.get(0), *bytes.get(1)), &want);
}

/// The list has this one token.
fn has_token<R: Abort>(rt: &R, tokens: &TokenList, token: &[u8]) {
    assert!(rt; tokens.len() == 1 && tokens.as_slice().len() == 1);
    same(rt, &"a token", &tokens.get(0).as_slice(), &token);
}

/// The list has these two intervals.
fn has_intervals<R: Abort>(rt: &R, intervals: &IntervalList, want: (Interval, Interval)) {
    assert!(rt; intervals.len() == 2 && intervals.as_slice().len() == 2);
    same(
        rt,
        &"intervals",
        &(*intervals.get(0), *intervals.get(1)),
        &want,
    );
}

#[test]
fn lists_keep_what_was_put_into_them_and_so_do_their_copies(rt: HostRuntime) -> Result<(), Fail> {
    let bytes = two_bytes(rt.alloc())?;
    has_bytes(&rt, &bytes, (7, 8));
    has_token(&rt, &one_token(rt.alloc(), &bytes)?, bytes.as_slice());
    let want = (Interval::new(1, 4), Interval::new(2, 9));
    has_intervals(&rt, &two_intervals(rt.alloc())?, want);
    Ok(())
}

/// Of these words the second is this.
fn has_second<R: Abort>(rt: &R, words: &TokenList, want: &[u8]) {
    assert!(rt; words.len() == 2);
    same(rt, &"a word", &words.get(1).as_slice(), &want);
}

#[test]
fn words_become_tokens_and_a_vector_of_bytes_becomes_bytes(rt: HostRuntime) -> Result<(), Fail> {
    let alloc = rt.alloc();
    has_second(&rt, &TokenList::of(alloc, &["to", "be"])?, b"be");
    let bytes = Bytes::of(vec![in alloc; 7, 8]?);
    same(&rt, &"bytes", &bytes.as_slice(), &[7u8, 8].as_slice());
    Ok(())
}

/// It takes two steps, and the answer is yes.
struct TwoSteps;

impl Question for TwoSteps {
    ghost use Rattle.std.specs.Prelude.{◌≡◌, true, ⊤};

    type Answer = bool;

    ghost can_ask = { λ _. ⊤ };

    ghost answers = { λ _ answer. answer ≡ true };

    ghost most = { λ _ _. 2 };

    fn ask<L: Ledger>(&self, steps: &mut Steps<L>) -> bool {
        steps.tick();
        steps.tick();
        true
    }
}

#[test]
fn a_question_is_asked_with_a_counter_or_without(rt: HostRuntime) {
    same(&rt, &"counted", &counted(&TwoSteps), &(true, 2));
    same(&rt, &"uncounted", &uncounted(&TwoSteps), &true);
}
