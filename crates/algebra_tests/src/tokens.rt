use crate::compared::same;
use std::alloc::{AllocError, Global};
use std::process::Abort;
use std::test::Fail;
use word_tokens::{TokenCursor, is_token, token_count, token_text, tokens, tokens_are_tokens};

/// The tokens of a text, with a space before each.
fn spaced(alloc: Global, bytes: &[u8]) -> Result<Vec<u8>, AllocError> {
    let list = tokens(alloc, bytes)?;
    let mut line = Vec::new(alloc);
    for token in list.as_slice() {
        line.push(b' ')?;
        line.extend_from_slice(token.as_slice())?;
    }
    Ok(line)
}

/// The same from the two blocks.
fn spaced_text(alloc: Global, bytes: &[u8]) -> Result<Vec<u8>, AllocError> {
    let text = token_text(alloc, bytes)?;
    let mut line = Vec::new(alloc);
    for i in 0..text.len() {
        line.push(b' ')?;
        line.extend_from_slice(text.get(i))?;
    }
    Ok(line)
}

/// A text gives this line, has this many tokens, and is one by itself or not.
fn gives<R: Abort>(
    rt: &R,
    alloc: Global,
    text: &[u8],
    line: &[u8],
    numbers: (u64, bool),
) -> Result<(), AllocError> {
    same(rt, &text, &spaced(alloc, text)?.as_slice(), &line);
    same(rt, &text, &spaced_text(alloc, text)?.as_slice(), &line);
    same(rt, &text, &(token_count(text), is_token(text)), &numbers);
    Ok(())
}

#[test]
fn a_text_is_cut_into_words_and_tags(rt: HostRuntime) -> Result<(), Fail> {
    let alloc = rt.alloc();
    let cases: [(&[u8], &[u8], u64, bool); 20] = [
        (b"a<b>c", b" a <b> c", 3, false),
        (b"<a<b>", b" a <b>", 2, false),
        (b"<x1/>", b" <x1> </x1>", 2, false),
        (b"</x/>", b" </x>", 1, false),
        (b"<1>", b" 1", 1, false),
        (b"</ a>", b" a", 1, false),
        (b"<!-- no -->", b" no", 1, false),
        (b"<?xml version=\"1\"?>", b" xml version 1", 3, false),
        (b"<file!>", b" <file>", 1, false),
        (b"</file!>", b" </file>", 1, false),
        (b"", b"", 0, false),
        (b"to", b" to", 1, true),
        (b"To", b" to", 1, false),
        (b"<a-b.c:d_e9>", b" <a-b.c:d_e9>", 1, true),
        (b"</div>", b" </div>", 1, true),
        (b"<A HREF=\"x>y\">z", b" <a> y z", 3, false),
        (b"caf\xc3\xa9", b" caf\xc3\xa9", 1, true),
        (b"A\0\0B <", b" a b", 2, false),
        (b"<a / >", b" <a>", 1, false),
        (b"<<<a>>", b" <a>", 1, false),
    ];
    for (text, want, count, alone) in cases {
        gives(&rt, alloc, text, want, (count, alone))?;
    }
    Ok(())
}

/// This many times the beginning of a tag that never ends.
fn open_tags(alloc: Global, count: u64) -> Result<Vec<u8>, AllocError> {
    let mut text = Vec::new(alloc);
    for _ in 0..count {
        text.extend_from_slice(b"<ab ")?;
    }
    Ok(text)
}

/// Each `<` here looks as if it began a tag that never ends.
#[test]
fn tags_that_never_end_are_words(rt: HostRuntime) -> Result<(), Fail> {
    let text = open_tags(rt.alloc(), 3000)?;
    same(&rt, &"count", &token_count(&text), &3000);
    same(&rt, &"list", &token_text(rt.alloc(), &text)?.len(), &3000);
    tokens_are_tokens();
    Ok(())
}

/// The cursor gives this token next.
fn gives_next<R: Abort>(
    rt: &R,
    cursor: &mut TokenCursor<'_>,
    token: &mut Vec<u8>,
    want: &[u8],
) -> Result<(), AllocError> {
    assert!(rt; cursor.next(token)?, "{want:?}");
    same(rt, &"next", &token.as_slice(), &want);
    Ok(())
}

/// The cursor gives no more tokens.
fn is_at_the_end<R: Abort>(
    rt: &R,
    cursor: &mut TokenCursor<'_>,
    token: &mut Vec<u8>,
) -> Result<(), AllocError> {
    assert!(rt; !cursor.next(token)?);
    Ok(())
}

#[test]
fn a_cursor_gives_the_tokens_one_at_a_time(rt: HostRuntime) -> Result<(), AllocError> {
    let texts: [&[u8]; 4] = [
        b"",
        b" .. ",
        b"To be, or NOT to be?",
        b"<a x='1'>B</a><Br/>c<d/> <e",
    ];
    for bytes in texts {
        let text = token_text(rt.alloc(), bytes)?;
        let mut cursor = TokenCursor::new(bytes);
        let mut token = Vec::new(rt.alloc());
        for i in 0..text.len() {
            gives_next(&rt, &mut cursor, &mut token, text.get(i))?;
        }
        is_at_the_end(&rt, &mut cursor, &mut token)?;
    }
    Ok(())
}
