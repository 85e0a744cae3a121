//! Searches that readers answer, against the plain program that looks at all pairs.
ghost use Rattle.std.specs.Prelude.{◌<◌};
ghost use Rattle.gcl_model.specs.FormOf.{form_of};
ghost use Rattle.gcl_model.specs.WellFormed.{IsWellFormed};

use crate::batches::{opened, query};
use address_space::is_name;
use collection::{Engine, Opened};
use gcl_model::{Bytes, Expr, IntervalList, TokenList};
use plain_text::{of_tokens, slow_list};
use query_search::{Pages, Search};
use std::alloc::{AllocError, Global};
use std::sync::{Arc, Wait};
use std::test::Fail;

/// The next pseudo-random number.
fn chance(state: &mut u64, below: u64) -> u64
    requires { 0 < below }
    ensures { result < below }
{
    *state = state
        .wrapping_mul(6364136223846793005)
        .wrapping_add(1442695040888963407);
    (*state >> 33) % below
}

const WORDS: [&[u8]; 4] = [b"a", b"b", b"c", b"d"];

// the last one is "one of" more operands than leaping is for
const LEAVES: [&[u8]; 7] = [
    b"\"a\"",
    b"\"b\"",
    b"\"c\"",
    b"\"a b\"",
    b"[1]",
    b"[3]",
    b"((\"c\"+\"d\"+\"e\"+\"f\"+\"g\"+\"h\"+\"i\"+\"j\"+\"k\")+(\"l\"+\"m\"+\"n\"+\"o\"+\"p\"+\"q\"+\"r\"+\"s\"+\"t\"))",
];

const OPERATORS: [&[u8]; 7] = [b"^", b"+", b"..", b">", b"<", b"/>", b"/<"];

/// A random query of at most this depth.
fn put_query(query: &mut Vec<u8>, state: &mut u64, depth: u64) -> Result<(), AllocError> {
    if depth == 0 || chance(state, 6) == 0 {
        return query.extend_from_slice(LEAVES[chance(state, 7) as usize]);
    }
    let operator = OPERATORS[chance(state, 7) as usize];
    query.push(b'(')?;
    put_query(query, state, depth - 1)?;
    query.extend_from_slice(operator)?;
    put_query(query, state, depth - 1)?;
    query.push(b')')?;
    Ok(())
}

/// Random words, as a file, and as the tokens of a text with only that file.
#[derive(Drop)]
struct Sample {
    bytes: Vec<u8>,
    tokens: TokenList,
}

impl Sample {
    fn of(alloc: Global, state: &mut u64, words: u64) -> Result<Sample, AllocError> {
        let mut bytes = Vec::new(alloc);
        let mut tokens = TokenList::new(alloc);
        tokens.push(Bytes::copy_of(alloc, b"<file!>")?)?;
        for _word in 0..words {
            let word = WORDS[chance(state, 4) as usize];
            tokens.push(Bytes::copy_of(alloc, word)?)?;
            bytes.extend_from_slice(word)?;
            bytes.push(b' ')?;
        }
        tokens.push(Bytes::copy_of(alloc, b"</file!>")?)?;
        Ok(Sample { bytes, tokens })
    }
}

/// An engine of one file with these words.
fn engine_of<R: Wait>(rt: &R, alloc: Global, bytes: &[u8]) -> Result<Engine, AllocError> {
    let Opened {
        mut engine,
        readers: _readers,
        lines: _lines,
    } = opened(rt, alloc, 0)?;
    if !is_name(b"a") || engine.add(rt, b"a", bytes).is_err() {
        engine.end(rt);
        return Err(AllocError);
    }
    Ok(engine)
}

/// A new search of the engine's version.
pub(crate) fn search_of(
    alloc: Global,
    engine: &Engine,
    expr: &Arc<Expr>,
) -> Result<Search, AllocError>
    requires { IsWellFormed (form_of expr.now.value) }
{
    let pass = engine.pass()?;
    Search::of(alloc, pass, Arc::try_clone(expr)?)
}

/// All that is to come, by pages of this size.
pub(crate) fn listed(
    alloc: Global,
    search: &mut Search,
    size: u64,
) -> Result<IntervalList, AllocError> {
    let mut all = IntervalList::new(alloc);
    for _page in 0..10_000u64 {
        let page = search.page(alloc, size)?;
        if page.len() == 0 {
            break;
        }
        for member in page.as_slice() {
            all.push(*member)?;
        }
    }
    Ok(all)
}

/// Whether pages of 1, 7 and 4,096 and the count are those of the plain list.
fn is_found(
    alloc: Global,
    engine: &Engine,
    tokens: &TokenList,
    expr: &Arc<Expr>,
) -> Result<bool, AllocError>
    requires { IsWellFormed (form_of expr.now.value) }
{
    if 100 < tokens.len() {
        return Err(AllocError);
    }
    let text = of_tokens(alloc, 0, tokens)?;
    let plain = slow_list(alloc, expr, &text)?;
    for size in [1u64, 7, 4_096] {
        let mut search = search_of(alloc, engine, expr)?;
        let all = listed(alloc, &mut search, size)?;
        if *all.as_slice() != *plain.as_slice() {
            return Ok(false);
        }
    }
    let mut search = search_of(alloc, engine, expr)?;
    let two = search.page(alloc, 2)?;
    let left = search.count();
    let rest = listed(alloc, &mut search, 7)?;
    Ok(rest.len() as u64 == left && two.len() + rest.len() == plain.len())
}

/// The number of the first random query that is not found in such a sample.
fn first_difference<R: Wait>(rt: &R, alloc: Global, turns: u64) -> Result<Option<u64>, AllocError> {
    let mut state = 11;
    for turn in 0..turns {
        let words = 1 + chance(&mut state, 10);
        let sample = Sample::of(alloc, &mut state, words)?;
        let mut text = Vec::new(alloc);
        put_query(&mut text, &mut state, 5)?;
        let Ok(expr) = query(alloc, text.as_slice())? else {
            continue;
        };
        let engine = engine_of(rt, alloc, sample.bytes.as_slice())?;
        let found = is_found(alloc, &engine, &sample.tokens, &expr);
        engine.end(rt);
        if !found? {
            return Ok(Some(turn));
        }
    }
    Ok(None)
}

#[test]
fn a_search_finds_what_the_plain_program_lists(rt: HostRuntime) -> Result<(), Fail> {
    assert_eq!(rt; first_difference(&rt, rt.alloc(), 300)?, None);
    Ok(())
}

/// How many members nested queries have over `words` times `a`.
fn nested_counts<R: Wait>(rt: &R, alloc: Global, words: u64) -> Result<Vec<u64>, AllocError> {
    let mut counts = Vec::new(alloc);
    let mut bytes = Vec::new(alloc);
    for _word in 0..words {
        bytes.extend_from_slice(b"a ")?;
    }
    for operator in ["/<", "/>"] {
        let mut text = Vec::new(alloc);
        for _depth in 1..8u64 {
            text.extend_from_slice(b"(\"a\" + ")?;
        }
        text.extend_from_slice(b"(\"a\" ")?;
        for _depth in 0..8u64 {
            text.extend_from_slice(operator.as_bytes())?;
            text.extend_from_slice(b"[1])")?;
        }
        let Ok(expr) = query(alloc, text.as_slice())? else {
            continue;
        };
        let engine = engine_of(rt, alloc, bytes.as_slice())?;
        let count = match search_of(alloc, &engine, &expr) {
            Ok(mut search) => search.count(),
            Err(_) => u64::MAX,
        };
        engine.end(rt);
        counts.push(count)?;
    }
    Ok(counts)
}

#[test]
fn a_nested_query_over_4000_words_ends(rt: HostRuntime) -> Result<(), Fail> {
    assert_eq!(rt;
        nested_counts(&rt, rt.alloc(), 4_000)?.as_slice(),
        [0, 0].as_slice()
    );
    Ok(())
}

/// Queries, and whether readers find their members.
const WAYS: [(&[u8], bool); 15] = [
    (b"\"a\" + \"b c\"", false),
    (b"(\"a\" + \"b c\") ^ \"d\"", true),
    (b"(\"a\" + \"b\") ^ \"d\"", false),
    (b"(\"a\" ^ \"b c\") .. \"d\"", false),
    (b"\"a\" > (\"b\" + \"c d\")", true),
    (b"\"a\" > (\"b\" ^ \"c d\")", false),
    (b"(\"a\" + (\"b\" < \"c\")) + \"d\"", true),
    (b"\"a\" /> \"b c\"", false),
    (b"(\"a\" /> \"b c\") ^ \"d\"", true),
    (b"(\"a\" /< \"b\") ^ \"d\"", false),
    (b"(\"a\" < \"b c\") ^ \"d\"", false),
    (b"\"a\" < (\"b\" ^ (\"c\" > \"d\"))", true),
    (b"\"a\" + \"b\" + \"c\"", false),
    (b"\"a\" + \"b\" + \"c\" + \"d\"", true),
    (b"\"d\" > (\"a\" + (\"b\" + (\"c\" + \"e\")))", true),
];

/// The number of the first of these that is not answered in its way.
fn goes_another_way(alloc: Global, engine: &Engine) -> Result<Option<usize>, AllocError> {
    for (number, (text, is_read)) in WAYS.iter().enumerate() {
        let Ok(expr) = query(alloc, text)? else {
            return Ok(Some(number));
        };
        let pages = Pages::from(alloc, engine.pass()?, expr, 0);
        if pages.is_read() != *is_read {
            return Ok(Some(number));
        }
    }
    Ok(None)
}

#[test]
fn readers_answer_where_leaping_would_look_far_again_and_again(
    rt: HostRuntime,
) -> Result<(), Fail> {
    let engine = engine_of(&rt, rt.alloc(), b"a b c d")?;
    let number = goes_another_way(rt.alloc(), &engine);
    engine.end(&rt);
    assert_eq!(rt; number?, None);
    Ok(())
}
