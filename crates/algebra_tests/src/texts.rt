ghost use Rattle.std.specs.Prelude.{◌<◌, length};
ghost use Rattle.gcl_model.specs.FormOf.{form_of};
ghost use Rattle.gcl_model.specs.WellFormed.{IsWellFormed};

use crate::compared::same;
use gcl_model::{Bytes, Expr, Interval, IntervalList, TokenList, file_end, file_start};
use gcl_parser::parse;
use plain_text::{of_tokens, slow_list};
use std::alloc::{AllocError, Global};
use std::process::Abort;
use std::test::Fail;
use text_search::{QueryText, answer_count, answers, expanded, names_decide};
use word_tokens::tokens;

/// The tokens of a file between its boundary tokens.
fn file_tokens(alloc: Global, bytes: &[u8]) -> Result<TokenList, AllocError> {
    let mut list = TokenList::new(alloc);
    list.push(Bytes::copy_of(alloc, file_start())?)?;
    for token in tokens(alloc, bytes)?.as_slice() {
        list.push(token.copy()?)?;
    }
    list.push(Bytes::copy_of(alloc, file_end())?)?;
    Ok(list)
}

/// The list of an expression over a file by looking at every pair of addresses.
fn plain_list(
    rt: &impl Abort,
    alloc: Global,
    bytes: &[u8],
    expr: &Expr,
) -> Result<IntervalList, AllocError>
    requires { IsWellFormed (form_of expr.now) }
{
    let list = file_tokens(alloc, bytes)?;
    assert!(rt; list.len() < 1000);
    let text = of_tokens(alloc, 0, &list)?;
    slow_list(alloc, expr, &text)
}

/// The list over the named words, in pages of this many members.
fn paged_list(
    alloc: Global,
    text: &QueryText<'_>,
    expr: &Expr,
    page: u64,
) -> Result<IntervalList, AllocError>
    requires { IsWellFormed (form_of expr.now) }
{
    let mut list = IntervalList::new(alloc);
    let mut from = 0;
    for _ in 0..1000u64 {
        let members = answers(alloc, text, expr, from.min(1000), page)?;
        for member in members.as_slice() {
            list.push(*member)?;
            from = member.start.saturating_add(1);
        }
        if (members.len() as u64) < page {
            break;
        }
    }
    Ok(list)
}

/// A query and a file, as a message names them.
type Case<'a> = (&'a [u8], &'a [u8]);

/// The query of a case, as an expression, has these members over its file, in one page and in pages of two, and their number.
fn has_members<R: Abort>(
    rt: &R,
    alloc: Global,
    case: Case<'_>,
    expr: &Expr,
    members: &[Interval],
) -> Result<(), AllocError>
    requires well_formed { IsWellFormed (form_of expr.now) }
    requires short { length case.1.now < 1000 }
{
    let text = QueryText::of(alloc, case.1, expr)?;
    let page = answers(alloc, &text, expr, 0, 1000)?;
    same(rt, &case, &page.as_slice(), &members);
    let paged = paged_list(alloc, &text, expr, 2)?;
    same(rt, &case, &paged.as_slice(), &members);
    same(
        rt,
        &case,
        &answer_count(&text, expr),
        &(members.len() as u64),
    );
    Ok(())
}

/// A query over a file has the members of the plain list, in one page and in pages of two, and their number.
fn compare(rt: &impl Abort, alloc: Global, bytes: &[u8], query: &[u8]) -> Result<(), Fail> {
    let expr = parse(alloc, query)?;
    assert!(rt; bytes.len() < 1000);
    let members = plain_list(rt, alloc, bytes, &expr)?;
    has_members(rt, alloc, (query, bytes), &expr, members.as_slice())?;
    Ok(())
}

const FILES: [&[u8]; 9] = [
    b"",
    b" .. ",
    b"to be or not to be",
    b"<p>One two</p>\n<p>three\nfour <br/> five</p>\n",
    b"To be,\r\nTO <B/> caf\xc3\xa9 \xff be\r\n",
    b"<a <b> to</b to <b/>be",
    b"<s>to</s><s>be to</s><t>be</t>",
    b"</b><b><b>to</b></b> be",
    b"ha ha ha he ha ha <b>ha ha ha",
];

const QUERIES: [&[u8]; 20] = [
    b"\"to\"",
    b"\"be\"",
    b"\"nowhere\"",
    b"\"<br>\" + \"</br>\"",
    b"\"to\" .. \"be\"",
    b"\"be\" .. \"to\"",
    b"\"to\" ^ \"be\"",
    b"\"to be\"",
    b"\"ha ha\"",
    b"\"ha ha ha\"",
    b"\"caf\xc3\xa9 \xff\"",
    b"[3]",
    b"(\"<p>\" .. \"</p>\") > \"four\"",
    b"(\"<s>\" .. \"</s>\") /> \"be\"",
    b"\"to\" < (\"<b>\" .. \"</b>\")",
    b"\"to\" /< (\"<s>\" .. \"</s>\")",
    b"\"<file!>\" .. \"</file!>\"",
    b"(\"to\" + \"to\") .. (\"be\" + \"two\" + \"be\")",
    b"[2] > (\"to\" + \"one\")",
    b"(\"<b>\" .. \"</b>\") .. (\"to\" ^ \"be\" ^ \"be\")",
];

#[test]
fn queries_have_the_members_of_the_plain_list(rt: HostRuntime) -> Result<(), Fail> {
    names_decide();
    for bytes in FILES {
        for query in QUERIES {
            compare(&rt, rt.alloc(), bytes, query)?;
        }
    }
    Ok(())
}

/// Puts this many letters.
fn put_letters(text: &mut Vec<u8>, letter: u8, count: u8) -> Result<(), AllocError> {
    for _ in 0..count {
        text.push(letter)?;
    }
    Ok(())
}

/// A query for names of each length up to 71.
fn many_names(alloc: Global) -> Result<Vec<u8>, AllocError> {
    let mut query = Vec::new(alloc);
    query.extend_from_slice(b"\"x\"")?;
    for n in 0..71u8 {
        query.extend_from_slice(b" + \"")?;
        put_letters(&mut query, b'a', n)?;
        query.extend_from_slice(b"y\"")?;
    }
    Ok(query)
}

/// A file that has every seventh of these names.
fn file_of_names(alloc: Global) -> Result<Vec<u8>, AllocError> {
    let mut file = Vec::new(alloc);
    for n in 0..71u8 {
        put_letters(&mut file, b'A', if n % 7 == 0 { n } else { 0 })?;
        file.extend_from_slice(b"y ")?;
    }
    Ok(file)
}

#[test]
fn many_names_are_told_apart(rt: HostRuntime) -> Result<(), Fail> {
    let (file, query) = (file_of_names(rt.alloc())?, many_names(rt.alloc())?);
    compare(&rt, rt.alloc(), &file, &query)
}

/// The rows of a table: a file, a query with prefix terms, and the start and end of each answer.
const PREFIXED: [(&[u8], &[u8], &[(u64, u64)]); 9] = [
    (b"to be or not to be", b"\"t\"*", &[(1, 1), (5, 5)]),
    (b"to be or not to be", b"\"TO\"*", &[(1, 1), (5, 5)]),
    (b"to be or not to be", b"\"n\"* ^ \"o\"*", &[(3, 4)]),
    (b"to be or not to be", b"\"z\"*", &[]),
    (b"to be or not to be", b"\"b\"*..\"t\"*", &[(2, 5)]),
    (b"to be or not to be", b"\"to\" ^ \"t\"*", &[(1, 1), (5, 5)]),
    (
        b"<to>Too</to> tonight, TOM; to <t/>tot",
        b"\"to\"*",
        &[(2, 2), (4, 4), (5, 5), (6, 6), (9, 9)],
    ),
    (
        b"<s>the king</s><s>a queen</s><s>kingdoms</s>",
        b"(\"<s>\"..\"</s>\") > \"king\"*",
        &[(1, 4), (9, 11)],
    ),
    (
        b"\xc3\xa9t\xc3\xa9 \xc3\xa9 \xe9",
        b"\"\xc3\"*",
        &[(1, 1), (2, 2)],
    ),
];

/// The answers of a query over a file.
fn prefixed(alloc: Global, bytes: &[u8], query: &[u8]) -> Result<IntervalList, Fail>
    requires { length bytes.now < 1000 }
{
    let query = parse(alloc, query)?;
    let expr = expanded(alloc, bytes, &query)?;
    let text = QueryText::of(alloc, bytes, &expr)?;
    Ok(answers(alloc, &text, &expr, 0, 1000)?)
}

/// The answers of a query are these.
fn are_those<R: Abort>(rt: &R, query: &[u8], members: &[Interval], want: &[(u64, u64)]) {
    same(rt, &query, &members.len(), &want.len());
    for (member, ends) in members.iter().zip(want) {
        same(rt, &query, &(member.start, member.end), ends);
    }
}

#[test]
fn a_prefix_term_is_one_of_the_words_that_begin_with_it(rt: HostRuntime) -> Result<(), Fail> {
    for (bytes, query, want) in PREFIXED {
        assert!(rt; bytes.len() < 1000);
        let members = prefixed(rt.alloc(), bytes, query)?;
        are_those(&rt, query, members.as_slice(), want);
    }
    Ok(())
}
