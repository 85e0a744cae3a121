//! Searches with prefix terms, against the plain program over the same query with the words in their place.
ghost use Rattle.gcl_model.specs.FormOf.{form_of};
ghost use Rattle.gcl_model.specs.WellFormed.{IsWellFormed};

use crate::batches::{MOST, opened, query};
use crate::readers::{listed, search_of};
use address_space::{FileId, is_name};
use collection::{Engine, Opened};
use gcl_model::{Bytes, Expr, IntervalList, TokenList};
use outside::FreeGate;
use plain_text::{of_tokens, slow_list};
use std::alloc::{AllocError, Global};
use std::sync::{Arc, Wait};
use std::test::Fail;

/// Files, and whether they stay. The first one is more than four times as long as the others together, so it keeps a slot of its own. `@`
/// stands for the words `w00` to `w19`, more than fingers are for. `dead` and `toad` occur only in a dead range.
const FILES: [(&str, bool); 3] = [
    (
        "to tower tea be bees or orb to be not note @ x x x x x x x x x x x x x x x x x x x x x x x x x x x x x x x x x x x x x x x x",
        true,
    ),
    ("dead deal to be toad", false),
    ("to tot w11 orb deft or w03 be", true),
];

/// Queries with prefix terms, and the same with the words that stay in their place. There `@` stands for one of those words.
const TABLE: [(&str, &str); 34] = [
    ("\"to\"*", "\"to\"+\"tot\"+\"tower\""),
    ("\"tow\"*", "\"tower\""),
    ("\"bee\"*", "\"bees\""),
    ("\"orb\"*", "\"orb\""),
    ("\"de\"*", "\"deft\""),
    ("\"dea\"*", "\"none\""),
    ("\"toa\"*", "\"none\""),
    ("\"z\"*", "\"none\""),
    (
        "\"to\"*+\"be\"*",
        "\"to\"+\"tot\"+\"tower\"+\"be\"+\"bees\"",
    ),
    ("\"te\"*^\"no\"*", "\"tea\"^(\"not\"+\"note\")"),
    ("\"z\"*^\"be\"*", "\"none\"^\"be\""),
    (
        "\"to\"*..\"be\"*",
        "(\"to\"+\"tot\"+\"tower\")..(\"be\"+\"bees\")",
    ),
    (
        "(\"to\"..\"to\")>\"or\"*",
        "(\"to\"..\"to\")>(\"or\"+\"orb\")",
    ),
    ("(\"to\"..\"to\")/>\"de\"*", "(\"to\"..\"to\")/>\"deft\""),
    (
        "\"or\"*/<(\"be\"..\"to\")",
        "(\"or\"+\"orb\")/<(\"be\"..\"to\")",
    ),
    ("[5]>\"te\"*", "[5]>\"tea\""),
    ("\"to tot\"+\"or\"*", "\"to tot\"+\"or\"+\"orb\""),
    ("\"w\"*", "(@)"),
    ("\"w1\"*+\"w0\"*", "(@)"),
    ("\"w\"*+\"w03\"", "(@)"),
    ("\"w\"*^\"be\"", "(@)^\"be\""),
    ("\"be\"..\"w\"*", "\"be\"..(@)"),
    ("\"w\"*..\"w\"*", "(@)..(@)"),
    ("\"w\"*..\"to\"*", "(@)..(\"to\"+\"tot\"+\"tower\")"),
    ("(\"be\"..\"or\")>\"w\"*", "(\"be\"..\"or\")>(@)"),
    ("(\"be\"..\"to\")>\"w\"*", "(\"be\"..\"to\")>(@)"),
    ("(\"be\"..\"to\")/>\"w\"*", "(\"be\"..\"to\")/>(@)"),
    ("\"w\"*<(\"or\"..\"to\")", "(@)<(\"or\"..\"to\")"),
    ("\"w\"*/<(\"or\"..\"to\")", "(@)/<(\"or\"..\"to\")"),
    ("[3]>\"w\"*", "[3]>(@)"),
    ("\"w03 be\"+\"w\"*", "\"w03 be\"+(@)"),
    ("\"w\"*>\"w\"*", "(@)"),
    (
        "(\"w\"*^\"to\"*)/>(\"be\"^\"or\"*)",
        "((@)^(\"to\"+\"tot\"+\"tower\"))/>(\"be\"^(\"or\"+\"orb\"))",
    ),
    (
        "((\"w\"*+\"be\")<[2])>(\"w\"*..\"be\")",
        "(((@)+\"be\")<[2])>((@)..\"be\")",
    ),
];

/// Puts the words that `@` stands for, each between quotes, if any, and what joins them.
fn put_words(text: &mut Vec<u8>, quote: &[u8], join: &[u8]) -> Result<(), AllocError> {
    for number in 0..20u64 {
        if number > 0 {
            text.extend_from_slice(join)?;
        }
        text.extend_from_slice(quote)?;
        text.push(b'w')?;
        text.push(b'0' + (number / 10) as u8)?;
        text.push(b'0' + (number % 10) as u8)?;
        text.extend_from_slice(quote)?;
    }
    Ok(())
}

/// The text with words in the place of `@`.
fn spelled(alloc: Global, text: &str, quote: &[u8], join: &[u8]) -> Result<Vec<u8>, AllocError> {
    let mut spelled = Vec::new(alloc);
    for byte in text.as_bytes() {
        if *byte == b'@' {
            put_words(&mut spelled, quote, join)?;
        } else {
            spelled.push(*byte)?;
        }
    }
    Ok(spelled)
}

fn spelled_file(alloc: Global, file: &str) -> Result<Vec<u8>, AllocError> {
    spelled(alloc, file, b"", b" ")
}

fn spelled_query(alloc: Global, query: &str) -> Result<Vec<u8>, AllocError> {
    spelled(alloc, query, b"\"", b"+")
}

/// Puts the tokens of a file. Those of one that does not stay are what no query names.
fn put_tokens(
    alloc: Global,
    tokens: &mut TokenList,
    file: &str,
    stays: bool,
) -> Result<(), AllocError> {
    let (opening, closing): (&[u8], &[u8]) = if stays {
        (b"<file!>", b"</file!>")
    } else {
        (b"-", b"-")
    };
    tokens.push(Bytes::copy_of(alloc, opening)?)?;
    let file = spelled_file(alloc, file)?;
    for word in file.as_slice().split(|byte: &u8| *byte == b' ') {
        let token: &[u8] = if stays { word } else { b"-" };
        tokens.push(Bytes::copy_of(alloc, token)?)?;
    }
    tokens.push(Bytes::copy_of(alloc, closing)?)
}

/// The members of an expression over the files that stay, by looking at all pairs of addresses.
fn plain(alloc: Global, expr: &Expr) -> Result<IntervalList, AllocError>
    requires { IsWellFormed (form_of expr.now) }
{
    let mut tokens = TokenList::new(alloc);
    for (file, stays) in FILES.iter() {
        put_tokens(alloc, &mut tokens, file, *stays)?;
    }
    if 200 < tokens.len() {
        return Err(AllocError);
    }
    let text = of_tokens(alloc, 0, &tokens)?;
    slow_list(alloc, expr, &text)
}

/// Adds the files, and deletes those that do not stay.
fn added<R: Wait>(rt: &R, alloc: Global, engine: &mut Engine) -> Result<bool, AllocError> {
    for (i, (file, stays)) in FILES.iter().enumerate() {
        let file = spelled_file(alloc, file)?;
        if !is_name(b"f") || engine.add(rt, b"f", file.as_slice()).is_err() {
            return Ok(false);
        }
        if !*stays && engine.delete(rt, FileId(i as u64)).is_err() {
            return Ok(false);
        }
    }
    Ok(true)
}

/// Whether a search finds these members, by pages of 1, 7 and 4,096, by pages of which the first is small, and by its count.
fn finds(
    alloc: Global,
    engine: &Engine,
    expr: &Arc<Expr>,
    members: &IntervalList,
) -> Result<bool, AllocError>
    requires { IsWellFormed (form_of expr.now.value) }
{
    for size in [1u64, 7, 4_096] {
        let mut search = search_of(alloc, engine, expr)?;
        let all = listed(alloc, &mut search, size)?;
        if *all.as_slice() != *members.as_slice() {
            return Ok(false);
        }
    }
    let mut search = search_of(alloc, engine, expr)?;
    let two = search.page(alloc, 2)?;
    let left = search.count();
    let rest = listed(alloc, &mut search, 4_096)?;
    Ok(rest.len() as u64 == left && two.len() + rest.len() == members.len())
}

/// Whether both queries of a row have the members that the plain program finds for the second one.
fn is_answered(
    alloc: Global,
    engine: &Engine,
    asked: &str,
    words: &str,
) -> Result<bool, AllocError> {
    let text = spelled_query(alloc, words)?;
    let Ok(words) = query(alloc, text.as_slice())? else {
        return Ok(false);
    };
    let Ok(asked) = query(alloc, asked.as_bytes())? else {
        return Ok(false);
    };
    let members = plain(alloc, &words)?;
    Ok(finds(alloc, engine, &words, &members)? && finds(alloc, engine, &asked, &members)?)
}

/// The first row that is not answered.
fn first_wrong(alloc: Global, engine: &Engine) -> Result<Option<&'static str>, AllocError> {
    for (asked, words) in TABLE.iter() {
        if !is_answered(alloc, engine, asked, words)? {
            return Ok(Some(*asked));
        }
    }
    Ok(None)
}

/// The same, over the files in their slots and again once these are merged.
fn first_wrong_of<R: Wait>(rt: &R, alloc: Global) -> Result<Option<&'static str>, AllocError> {
    let Opened {
        mut engine,
        readers: _readers,
        lines: _lines,
    } = opened(rt, alloc, 0)?;
    let mut wrong = Ok(Some("the files are not added"));
    if added(rt, alloc, &mut engine) == Ok(true) && 1 < engine.version().slot_count() {
        wrong = first_wrong(alloc, &engine);
    }
    if wrong == Ok(None) && engine.version().number() < MOST {
        wrong = match engine.merge_all(rt, &FreeGate) {
            Ok(_) => first_wrong(alloc, &engine),
            Err(_) => Err(AllocError),
        };
    }
    engine.end(rt);
    wrong
}

#[test]
fn a_prefix_finds_what_its_words_do(rt: HostRuntime) -> Result<(), Fail> {
    assert_eq!(rt; first_wrong_of(&rt, rt.alloc())?, None);
    Ok(())
}

/// Every third number below 3,000, starting at `first`, as a word of `w` and four digits.
fn third_of_the_words(alloc: Global, first: u64) -> Result<Vec<u8>, AllocError> {
    let mut words = Vec::new(alloc);
    for turn in 0..1_000u64 {
        let number = 3 * turn + first % 3;
        words.push(b'w')?;
        for power in [1_000u64, 100, 10, 1] {
            words.push(b'0' + (number / power % 10) as u8)?;
        }
        words.push(b' ')?;
    }
    Ok(words)
}

/// Three files of a thousand of these words each, of which the second one is deleted.
fn words_added<R: Wait>(rt: &R, alloc: Global, engine: &mut Engine) -> Result<bool, AllocError> {
    for first in 0..3u64 {
        let words = third_of_the_words(alloc, first)?;
        if !is_name(b"f") || engine.add(rt, b"f", words.as_slice()).is_err() {
            return Ok(false);
        }
    }
    Ok(engine.delete(rt, FileId(1)).is_ok())
}

/// The number of members, counted and listed.
fn counted_and_listed(
    alloc: Global,
    engine: &Engine,
    text: &str,
) -> Result<(u64, u64), AllocError> {
    let Ok(expr) = query(alloc, text.as_bytes())? else {
        return Err(AllocError);
    };
    let mut counting = search_of(alloc, engine, &expr)?;
    let mut listing = search_of(alloc, engine, &expr)?;
    let members = listed(alloc, &mut listing, 4_096)?;
    Ok((counting.count(), members.len() as u64))
}

/// Queries over 3,000 words of one prefix, a third of them only in a dead range, and how many members each has.
const MANY: [(&str, u64); 4] = [
    ("\"w\"*", 2_000),
    ("\"w1\"*", 666),
    ("(\"<file!>\"..\"</file!>\") > \"w0\"*", 2),
    ("\"w2999\" < ((\"<file!>\"..\"</file!>\") > \"w0000\"*)", 0),
];

/// The first query that has another number of members.
fn first_miscounted(alloc: Global, engine: &Engine) -> Result<Option<&'static str>, AllocError> {
    for (text, members) in MANY.iter() {
        if counted_and_listed(alloc, engine, text)? != (*members, *members) {
            return Ok(Some(*text));
        }
    }
    Ok(None)
}

/// The same, over the files in their slots and again once these are merged.
fn first_miscounted_of<R: Wait>(rt: &R, alloc: Global) -> Result<Option<&'static str>, AllocError> {
    let Opened {
        mut engine,
        readers: _readers,
        lines: _lines,
    } = opened(rt, alloc, 0)?;
    let mut wrong = Ok(Some("the files are not added"));
    if words_added(rt, alloc, &mut engine) == Ok(true) {
        wrong = first_miscounted(alloc, &engine);
    }
    if wrong == Ok(None) && engine.version().number() < MOST {
        wrong = match engine.merge_all(rt, &FreeGate) {
            Ok(_) => first_miscounted(alloc, &engine),
            Err(_) => Err(AllocError),
        };
    }
    engine.end(rt);
    wrong
}

#[test]
fn a_prefix_of_3000_words_is_counted_and_listed(rt: HostRuntime) -> Result<(), Fail> {
    assert_eq!(rt; first_miscounted_of(&rt, rt.alloc())?, None);
    Ok(())
}
