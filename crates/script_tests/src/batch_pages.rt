use crate::batches::{MOST, opened, query};
use address_space::is_name;
use collection::{Engine, Opened};
use gcl_model::IntervalList;
use outside::FreeGate;
use query_lanes::{Ask, Asked, Context, Found, answer_batch};
use query_search::{Listing, Search};
use std::alloc::{AllocError, Global};
use std::sync::Wait;
use std::test::Fail;
use std::thread::Threads;

/// The number of members of a page, the start of the first and the end of the last, or 0 if there is none.
type Summary = (u64, u64, u64);

fn summary(page: &IntervalList) -> Summary {
    match (page.as_slice().first(), page.as_slice().last()) {
        (Some(first), Some(last)) => (page.len() as u64, first.start, last.end),
        _ => (0, 0, 0),
    }
}

/// Adds a file of 5,000 words `x`.
fn added<R: Wait>(rt: &R, alloc: Global, engine: &mut Engine) -> bool {
    let mut bytes = Vec::new(alloc);
    for _ in 0..5_000u32 {
        if bytes.extend_from_slice(b"x ").is_err() {
            return false;
        }
    }
    is_name(b"a") && engine.add(rt, b"a", bytes.as_slice()).is_ok()
}

/// An engine with only that file.
fn engine_of_words<R: Wait>(rt: &R, alloc: Global) -> Result<Engine, AllocError> {
    let Opened {
        mut engine,
        readers: _readers,
        lines: _lines,
    } = opened(rt, alloc, 0)?;
    if !added(rt, alloc, &mut engine) {
        engine.end(rt);
        return Err(AllocError);
    }
    Ok(engine)
}

/// The pages of a listing, at most ten.
fn pages_of(alloc: Global, listing: &mut Listing) -> Result<Vec<Summary>, AllocError> {
    let mut pages = Vec::new(alloc);
    for _ in 0..10 {
        let Some(page) = listing.next_page(alloc)? else {
            return Ok(pages);
        };
        pages.push(summary(&page))?;
    }
    Ok(pages)
}

/// The pages of an answer, or only its total.
fn pages_found(alloc: Global, found: &mut Found) -> Result<Vec<Summary>, AllocError> {
    let mut pages = Vec::new(alloc);
    match found {
        Found::List(listing) => return pages_of(alloc, listing),
        Found::Total(total) => pages.push((*total, 0, 0))?,
        Found::Refused(_) => return Err(AllocError),
    }
    Ok(pages)
}

/// What a query for `"x"` finds.
fn found_of_words<R: Threads + Wait + Sync>(
    rt: &R,
    alloc: Global,
    asked: Asked,
    engine: &mut Engine,
) -> Result<Vec<Summary>, AllocError> {
    if engine.version().number() >= MOST {
        return Err(AllocError);
    }
    let mut asks = Vec::new(alloc);
    asks.push(Ask {
        number: 1,
        asked,
        query: query(alloc, b"\"x\"")?,
    })?;
    let context = Context {
        rt,
        alloc,
        gate: &FreeGate,
    };
    let mut answers = answer_batch(&context, asks.as_slice(), false, engine, &mut [])?;
    let Some(found) = answers.first_mut() else {
        return Err(AllocError);
    };
    pages_found(alloc, found)
}

/// What is found of 5,000 words `x`, starting at address 1.
const CASES: [(Asked, &[Summary]); 7] = [
    (Asked::All, &[(4_096, 1, 4_096), (904, 4_097, 5_000)]),
    (
        Asked::First(5_001),
        &[(4_096, 1, 4_096), (904, 4_097, 5_000)],
    ),
    (Asked::First(4_100), &[(4_096, 1, 4_096), (4, 4_097, 4_100)]),
    (Asked::First(4_096), &[(4_096, 1, 4_096)]),
    (Asked::First(3), &[(3, 1, 3)]),
    (Asked::First(0), &[]),
    (Asked::Number, &[(5_000, 0, 0)]),
];

fn finds_the_cases<R: Threads + Wait + Sync>(
    rt: &R,
    alloc: Global,
    engine: &mut Engine,
) -> Result<bool, AllocError> {
    for (asked, want) in CASES {
        if found_of_words(rt, alloc, asked, engine)?.as_slice() != want {
            return Ok(false);
        }
    }
    Ok(true)
}

#[test]
fn a_list_is_handed_out_page_by_page(rt: HostRuntime) -> Result<(), Fail> {
    let mut engine = engine_of_words(&rt, rt.alloc())?;
    let found = finds_the_cases(&rt, rt.alloc(), &mut engine);
    engine.end(&rt);
    assert_eq!(rt; found, Ok(true));
    Ok(())
}

/// How many members of `"x"` are to come before each of some pages, each of this size, and its summary.
fn pages_searched(
    alloc: Global,
    engine: &Engine,
    sizes: &[u64],
) -> Result<Vec<(u64, Summary)>, AllocError> {
    let mut pages = Vec::new(alloc);
    let pass = engine.pass()?;
    let Ok(expr) = query(alloc, b"\"x\"")? else {
        return Err(AllocError);
    };
    let mut search = Search::of(alloc, pass, expr)?;
    for most in sizes {
        let left = search.count();
        let page = search.page(alloc, *most)?;
        pages.push((left, summary(&page)))?;
    }
    Ok(pages)
}

#[test]
fn a_search_goes_on_after_each_page(rt: HostRuntime) -> Result<(), Fail> {
    let engine = engine_of_words(&rt, rt.alloc())?;
    let pages = pages_searched(rt.alloc(), &engine, &[2, 0, 4_997, 9, 9]);
    engine.end(&rt);
    let want = [
        (5_000, (2, 1, 2)),
        (4_998, (0, 0, 0)),
        (4_998, (4_997, 3, 4_999)),
        (1, (1, 5_000, 5_000)),
        (0, (0, 0, 0)),
    ];
    assert_eq!(rt; pages?.as_slice(), want.as_slice());
    Ok(())
}
