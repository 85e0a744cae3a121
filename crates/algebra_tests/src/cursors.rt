//! Cursors: where leaping is broken off, readers find the same.
ghost use Rattle.std.specs.Prelude.{◌≡◌, ◌<◌};
ghost use Rattle.gcl_model.specs.Limits.{far};
ghost use Rattle.gcl_model.specs.FormOf.{form_of};
ghost use Rattle.gcl_model.specs.WellFormed.{IsWellFormed};

use crate::compared::same;
use crate::fixtures::expression;
use crate::readers::{chance, chance_words, put_query, text_of};
use gcl_cursor::Cursor;
use gcl_eval::Page;
use gcl_model::{Expr, Interval, IntervalList, Steps, Tally};
use plain_text::{PlainText, slow_list};
use std::alloc::{AllocError, Global};
use std::marker::Brand;
use std::process::Abort;
use std::sync::ledger::{Blank, Ledger};
use std::test::Fail;

/// What is asked of a cursor that has `leaps` look-ups for leaping.
#[derive(Drop)]
struct Asked<'a> {
    alloc: Global,
    expr: &'a Expr,
    text: &'a PlainText,
    leaps: u64,
}

/// A page of it, and how many look-ups were made.
fn page_by<B: Ledger>(
    asked: &Asked<'_>,
    page: Page,
    blank: Blank,
) -> Result<(IntervalList, u64), AllocError>
    requires well_formed { IsWellFormed (form_of asked.now.expr.now) }
    requires below { page.from < far }
    requires name { blank.name ≡ B.name }
    requires parts { blank.parts ≡ B.parts }
    requires some { 0 < blank.parts }
{
    let mut steps = Steps::<Tally<B>>::open(blank);
    let mut cursor = Cursor::new(asked.alloc, asked.expr, asked.leaps)?;
    let members = cursor.page(asked.alloc, asked.expr, asked.text, page, &mut steps)?;
    Ok((members, steps.count()))
}

/// The number of all members.
fn count_by<B: Ledger>(asked: &Asked<'_>, blank: Blank) -> Result<u64, AllocError>
    requires well_formed { IsWellFormed (form_of asked.now.expr.now) }
    requires name { blank.name ≡ B.name }
    requires parts { blank.parts ≡ B.parts }
    requires some { 0 < blank.parts }
{
    let mut steps = Steps::<Tally<B>>::open(blank);
    let mut cursor = Cursor::new(asked.alloc, asked.expr, asked.leaps)?;
    Ok(cursor.count(asked.expr, asked.text, 0, 0, &mut steps))
}

/// The members of the page among all.
fn of_page(alloc: Global, all: &[Interval], page: Page) -> Result<IntervalList, AllocError> {
    let mut members = IntervalList::new(alloc);
    for member in all {
        if page.from <= member.start && (members.len() as u64) < page.most {
            members.push(*member)?;
        }
    }
    Ok(members)
}

/// Pages and the number of such a cursor are those of the plain list.
fn finds<R: Abort>(
    rt: &R,
    turn: u64,
    asked: &Asked<'_>,
    plain: &[Interval],
) -> Result<(), AllocError>
    requires { IsWellFormed (form_of asked.now.expr.now) }
{
    for most in [1, 3, 100] {
        let page = Page {
            from: turn % 7,
            most,
        };
        let (members, _) = page_by::<Brand>(asked, page, Blank::new(1))?;
        let want = of_page(asked.alloc, plain, page)?;
        same(
            rt,
            &(turn, asked.leaps, most),
            &members.as_slice(),
            &want.as_slice(),
        );
    }
    same(
        rt,
        &(turn, asked.leaps),
        &count_by::<Brand>(asked, Blank::new(1))?,
        &(plain.len() as u64),
    );
    Ok(())
}

/// The same with each of these numbers of look-ups.
fn finds_with_any<R: Abort>(
    rt: &R,
    alloc: Global,
    turn: u64,
    expr: &Expr,
    text: &PlainText,
) -> Result<(), AllocError>
    requires { IsWellFormed (form_of expr.now) }
{
    let plain = slow_list(alloc, expr, text)?;
    for leaps in [0, 1, 2, 3, 5, 8, 13, 21, 34, 55, 1000] {
        let asked = Asked {
            alloc,
            expr,
            text,
            leaps,
        };
        finds(rt, turn, &asked, plain.as_slice())?;
    }
    Ok(())
}

/// Compares over a random text and query.
fn compares<R: Abort>(rt: &R, alloc: Global, turn: u64, state: &mut u64) -> Result<(), AllocError> {
    let count = 1 + chance(state, 11);
    let words = chance_words(alloc, state, count, 4)?;
    let Some(text) = text_of(alloc, 3, &words, 100)? else {
        return Ok(());
    };
    let mut query = Vec::new(alloc);
    put_query(&mut query, state, 3)?;
    match expression(alloc, query.as_slice()) {
        Some(expr) => finds_with_any(rt, alloc, turn, &expr, &text),
        None => Ok(()),
    }
}

#[test]
fn readers_find_what_leaping_is_broken_off_from(rt: HostRuntime) -> Result<(), Fail> {
    let mut state = 11;
    for turn in 0..200u64 {
        compares(&rt, rt.alloc(), turn, &mut state)?;
    }
    Ok(())
}

#[test]
fn a_search_that_may_leap_twice_is_read_to_its_end(rt: HostRuntime) -> Result<(), Fail> {
    let alloc = rt.alloc();
    let mut state = 5;
    let words = chance_words(alloc, &mut state, 2000, 4)?;
    let Some(text) = text_of(alloc, 0, &words, 5000)? else {
        return Ok(());
    };
    let Some(expr) = expression(alloc, b"(\"a\" + (\"b\" /< [1])) /< [1]") else {
        return Ok(());
    };
    let asked = Asked {
        alloc,
        expr: &expr,
        text: &text,
        leaps: 2,
    };
    let page = Page {
        from: 0,
        most: 5000,
    };
    let (members, steps) = page_by::<Brand>(&asked, page, Blank::new(1))?;
    same(&rt, &"members", &(members.len() as u64), &0);
    assert!(&rt; steps <= 4000, "{steps} look-ups");
    Ok(())
}
