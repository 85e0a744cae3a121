ghost use Rattle.std.specs.Prelude.{◌<◌, ◌≤◌};
ghost use Rattle.gcl_model.specs.FormOf.{form_of};
ghost use Rattle.gcl_model.specs.WellFormed.{IsWellFormed};

use crate::compared::same;
use crate::fixtures::{behind, expression};
use gcl_model::{Bytes, Expr, Interval, IntervalList, Ledger, Question, Steps, TokenList, counted};
use gcl_readers::{Readers, read_count, read_list_from};
use plain_text::{PlainText, of_tokens, slow_list};
use std::alloc::{AllocError, Global};
use std::process::Abort;
use std::test::Fail;

/// All members, by pages of `size`, which the same readers fill.
#[derive(Drop)]
struct Pages<'a> {
    alloc: Global,
    expr: &'a Expr,
    text: &'a PlainText,
    size: u64,
}

impl Question for Pages<'_> {
    ghost use Rattle.std.specs.Prelude.{⊤};
    ghost use Rattle.gcl_model.specs.FormOf.{form_of};
    ghost use Rattle.gcl_model.specs.WellFormed.{IsWellFormed};
    ghost use Rattle.gcl_readers.specs.MergeCost.{merge_cost};

    type Answer = Result<IntervalList, AllocError>;

    ghost can_ask = { λ pages. IsWellFormed (form_of pages.expr.now) };

    ghost answers = { λ _ _. ⊤ };

    ghost most = { λ pages _. merge_cost pages.text.now 1 (form_of pages.expr.now) };

    fn ask<L: Ledger>(&self, steps: &mut Steps<L>) -> Result<IntervalList, AllocError> {
        let mut readers = Readers::new(self.alloc, self.expr)?;
        let mut all = IntervalList::new(self.alloc);
        let mut k = 0;
        for _page in 0..20000u64 {
            let page = read_list_from(
                self.alloc,
                &mut readers,
                self.expr,
                self.text,
                k,
                self.size,
                steps,
            )?;
            push_all(&mut all, page.as_slice())?;
            if (page.len() as u64) < self.size {
                break;
            }
            k = behind(page.as_slice(), k);
        }
        Ok(all)
    }
}

fn push_all(all: &mut IntervalList, page: &[Interval]) -> Result<(), AllocError> {
    for member in page {
        all.push(*member)?;
    }
    Ok(())
}

/// How many members there are.
#[derive(Drop)]
struct Count<'a> {
    alloc: Global,
    expr: &'a Expr,
    text: &'a PlainText,
}

impl Question for Count<'_> {
    ghost use Rattle.std.specs.Prelude.{⊤};
    ghost use Rattle.gcl_model.specs.FormOf.{form_of};
    ghost use Rattle.gcl_model.specs.WellFormed.{IsWellFormed};
    ghost use Rattle.gcl_readers.specs.MergeCost.{merge_cost};

    type Answer = Result<u64, AllocError>;

    ghost can_ask = { λ count. IsWellFormed (form_of count.expr.now) };

    ghost answers = { λ _ _. ⊤ };

    ghost most = { λ count _. merge_cost count.text.now 1 (form_of count.expr.now) };

    fn ask<L: Ledger>(&self, steps: &mut Steps<L>) -> Result<u64, AllocError> {
        let mut readers = Readers::new(self.alloc, self.expr)?;
        Ok(read_count(&mut readers, self.expr, self.text, 0, steps))
    }
}

/// The next pseudo-random number.
pub(crate) fn chance(state: &mut u64, below: u64) -> u64
    requires { 0 < below }
    ensures { result < below }
{
    *state = state
        .wrapping_mul(6364136223846793005)
        .wrapping_add(1442695040888963407);
    (*state >> 33) % below
}

const WORDS: [&str; 4] = ["a", "b", "c", "d"];

/// `count` random words.
pub(crate) fn chance_words(
    alloc: Global,
    state: &mut u64,
    count: u64,
    kinds: u64,
) -> Result<TokenList, AllocError>
    requires some { 0 < kinds }
    requires few { kinds ≤ 4 }
{
    let mut tokens = TokenList::new(alloc);
    for _word in 0..count {
        let word = WORDS[chance(state, kinds) as usize];
        tokens.push(Bytes::copy_of(alloc, word.as_bytes())?)?;
    }
    Ok(tokens)
}

const LEAVES: [&str; 7] = ["\"a\"", "\"b\"", "\"c\"", "\"d\"", "\"a b\"", "[1]", "[3]"];

const OPERATORS: [&str; 7] = ["^", "+", "..", ">", "<", "/>", "/<"];

/// A random query of at most this depth.
pub(crate) fn put_query(
    query: &mut Vec<u8>,
    state: &mut u64,
    depth: u64,
) -> Result<(), AllocError> {
    if depth == 0 || chance(state, 5) == 0 {
        return query.extend_from_slice(LEAVES[chance(state, 7) as usize].as_bytes());
    }
    let operator = OPERATORS[chance(state, 7) as usize];
    let operands = 2 + chance(state, 2);
    query.push(b'(')?;
    put_query(query, state, depth - 1)?;
    for _operand in 1..operands {
        query.extend_from_slice(operator.as_bytes())?;
        put_query(query, state, depth - 1)?;
    }
    query.push(b')')?;
    Ok(())
}

/// The text of these words, starting at `first`, if they are not too many.
pub(crate) fn text_of(
    alloc: Global,
    first: u64,
    words: &TokenList,
    most: usize,
) -> Result<Option<PlainText>, AllocError>
    requires first { first ≤ 3 }
    requires most { most ≤ 5000 }
{
    if most < words.len() {
        return Ok(None);
    }
    Ok(Some(of_tokens(alloc, first, words)?))
}

/// Pages of this size have these members.
fn list_by_pages<R: Abort>(
    rt: &R,
    turn: u64,
    pages: &Pages<'_>,
    want: &[Interval],
) -> Result<(), AllocError>
    requires { IsWellFormed (form_of pages.now.expr.now) }
{
    let (read, _) = counted(pages);
    same(rt, &(turn, pages.size), &read?.as_slice(), &want);
    Ok(())
}

/// There are this many members.
fn has_members<R: Abort>(
    rt: &R,
    turn: u64,
    count: &Count<'_>,
    want: usize,
) -> Result<(), AllocError>
    requires { IsWellFormed (form_of count.now.expr.now) }
{
    let (read, _) = counted(count);
    same(rt, &turn, &read?, &(want as u64));
    Ok(())
}

/// Pages of three sizes and the count are those of the plain list.
fn are_listed<R: Abort>(
    rt: &R,
    alloc: Global,
    turn: u64,
    expr: &Expr,
    text: &PlainText,
) -> Result<(), AllocError>
    requires { IsWellFormed (form_of expr.now) }
{
    let plain = slow_list(alloc, expr, text)?;
    for size in [1, 3, 100] {
        let pages = Pages {
            alloc,
            expr,
            text,
            size,
        };
        list_by_pages(rt, turn, &pages, plain.as_slice())?;
    }
    has_members(rt, turn, &Count { alloc, expr, text }, plain.len())
}

/// Compares over a random text and query.
fn compares<R: Abort>(rt: &R, alloc: Global, turn: u64, state: &mut u64) -> Result<(), AllocError> {
    let count = 1 + chance(state, 11);
    let words = chance_words(alloc, state, count, 4)?;
    let Some(text) = text_of(alloc, 3, &words, 100)? else {
        return Ok(());
    };
    let mut query = Vec::new(alloc);
    put_query(&mut query, state, 4)?;
    match expression(alloc, query.as_slice()) {
        Some(expr) => are_listed(rt, alloc, turn, &expr, &text),
        None => Ok(()),
    }
}

#[test]
fn readers_list_what_the_plain_program_lists(rt: HostRuntime) -> Result<(), Fail> {
    let mut state = 7;
    for turn in 0..600u64 {
        compares(&rt, rt.alloc(), turn, &mut state)?;
    }
    Ok(())
}

/// Counting the members of a query over `count` words takes at most four times as many look-ups.
fn takes_few<R: Abort>(
    rt: &R,
    alloc: Global,
    query: &str,
    expr: &Expr,
    count: u64,
) -> Result<(), AllocError>
    requires { IsWellFormed (form_of expr.now) }
{
    let mut state = 5;
    let words = chance_words(alloc, &mut state, count, 4)?;
    let Some(text) = text_of(alloc, 0, &words, 5000)? else {
        return Ok(());
    };
    let text = &text;
    let (read, steps) = counted(&Count { alloc, expr, text });
    let members = read?;
    assert!(rt;
        steps <= count.saturating_mul(4),
        "{query} over {count} words: {members} members by {steps} look-ups"
    );
    Ok(())
}

/// The same over 1,000, 2,000 and 4,000 words.
fn takes_few_over_more<R: Abort>(
    rt: &R,
    alloc: Global,
    query: &str,
    expr: &Expr,
) -> Result<(), AllocError>
    requires { IsWellFormed (form_of expr.now) }
{
    for count in [1000u64, 2000, 4000] {
        takes_few(rt, alloc, query, expr, count)?;
    }
    Ok(())
}

#[test]
fn nested_containments_take_look_ups_in_proportion_to_the_text(
    rt: HostRuntime,
) -> Result<(), Fail> {
    let queries = [
        "(\"a\"..\"b\") > (\"c\" + (\"d\" /< (\"a\"..\"b\")))",
        "(\"a\" + (\"b\" /< [1])) /< [1]",
        "\"a\" /< (\"b\" /< (\"c\" /< (\"d\" /< [1])))",
    ];
    for query in queries {
        if let Some(expr) = expression(rt.alloc(), query.as_bytes()) {
            takes_few_over_more(&rt, rt.alloc(), query, &expr)?;
        }
    }
    Ok(())
}
