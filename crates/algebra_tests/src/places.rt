use crate::compared::same;
use std::alloc::Global;
use std::process::Abort;
use std::test::Fail;
use token_places::{
    Place, PlaceCursor, PlaceWalk, PlacedToken, file_places_rise, nothing_else,
    places_are_in_order, places_give_their_tokens, tokens_have_places,
};
use word_tokens::tokens;

/// A text, and the first byte of each of its tokens and the byte after its last.
type Row = (&'static [u8], &'static [(usize, usize)]);

const ROWS: [Row; 14] = [
    (b"", &[]),
    (b" .. ", &[]),
    (b"to be", &[(0, 2), (3, 5)]),
    (b"To <B/>x", &[(0, 2), (3, 7), (3, 7), (7, 8)]),
    (b"<p>One two</p>\n", &[(0, 3), (3, 6), (7, 10), (10, 14)]),
    (b"a\r\nb\r\n", &[(0, 1), (3, 4)]),
    (b"<a x='>'>", &[(0, 7)]),
    (b"<a<b>", &[(1, 2), (2, 5)]),
    (b"</x/>", &[(0, 5)]),
    (b"<a / >", &[(0, 6)]),
    (b"caf\xc3\xa9 \xff", &[(0, 5), (6, 7)]),
    (b"<ab", &[(1, 3)]),
    (b"</ a>", &[(3, 4)]),
    (b"<r/><s/>", &[(0, 4), (0, 4), (4, 8), (4, 8)]),
];

/// In this text the token is this one, and no other.
fn is_token<R: Abort>(rt: &R, text: &[u8], placed: &PlacedToken<'_>, token: &[u8]) {
    assert!(rt; placed.is(token), "{text:?}");
    assert!(rt; !placed.is(b"other"), "{text:?}");
    same(rt, &text, &placed.len(), &token.len());
}

/// In this text the token begins as that one does.
fn begins_as<R: Abort>(rt: &R, text: &[u8], placed: &PlacedToken<'_>, token: &[u8]) {
    assert!(rt; placed.starts_with(token), "{text:?}");
    let front = b"</x".as_slice();
    same(
        rt,
        &text,
        &placed.starts_with(front),
        &token.starts_with(front),
    );
    assert!(rt; !placed.starts_with(b"<a>>"), "{text:?}");
}

/// In this text the place is this one.
fn is_from<R: Abort>(rt: &R, text: &[u8], place: Place, want: (usize, usize)) {
    same(rt, &text, &(place.from, place.to), &want);
}

/// The cursor gives this token of the text next, from this place.
fn gives<R: Abort>(
    rt: &R,
    text: &[u8],
    cursor: &mut PlaceCursor<'_>,
    token: &[u8],
    want: (usize, usize),
) -> Result<(), Fail> {
    let placed = cursor.next().ok_or("a token too few")?;
    is_token(rt, text, &placed, token);
    begins_as(rt, text, &placed, token);
    is_from(rt, text, placed.place(), want);
    Ok(())
}

/// The cursor gives no more tokens of the text.
fn is_at_the_end<R: Abort>(rt: &R, text: &[u8], cursor: &mut PlaceCursor<'_>) {
    assert!(rt; cursor.next().is_none(), "{text:?}");
}

/// A cursor gives the tokens of a text from these places.
fn gives_all<R: Abort>(
    rt: &R,
    alloc: Global,
    text: &[u8],
    places: &[(usize, usize)],
) -> Result<(), Fail> {
    let list = tokens(alloc, text)?;
    same(rt, &text, &list.len(), &places.len());
    let mut cursor = PlaceCursor::new(text);
    for (token, place) in list.as_slice().iter().zip(places) {
        gives(rt, text, &mut cursor, token.as_slice(), *place)?;
    }
    is_at_the_end(rt, text, &mut cursor);
    is_at_the_end(rt, text, &mut cursor);
    Ok(())
}

#[test]
fn a_cursor_gives_each_token_with_its_place(rt: HostRuntime) -> Result<(), Fail> {
    for (text, places) in ROWS {
        gives_all(&rt, rt.alloc(), text, places)?;
    }
    Ok(())
}

/// The walk gives these places of a text for its rising addresses, each of which is asked for twice.
fn walks<R: Abort>(rt: &R, text: &[u8], walk: &mut PlaceWalk<'_>, places: &[(usize, usize)]) {
    for (address, place) in places.iter().enumerate() {
        for _ in 0..2u8 {
            is_from(rt, text, walk.place_at(address as u64 + 1), *place);
        }
    }
}

/// The walk gives these empty places of a text at its start and at its end.
fn leaps<R: Abort>(rt: &R, text: &[u8], walk: &mut PlaceWalk<'_>, addresses: &[u64]) {
    for address in addresses {
        let want = if *address == 0 { 0 } else { text.len() };
        is_from(rt, text, walk.place_at(*address), (want, want));
    }
}

#[test]
fn a_walk_gives_the_places_of_rising_addresses(rt: HostRuntime) -> Result<(), Fail> {
    tokens_have_places();
    file_places_rise();
    for (text, places) in ROWS {
        let last = places.len() as u64 + 1;
        let mut walk = PlaceWalk::new(text);
        walks(&rt, text, &mut walk, places);
        leaps(&rt, text, &mut walk, &[last, last + 9, 0]);
        leaps(&rt, text, &mut PlaceWalk::new(text), &[0, last]);
    }
    Ok(())
}

#[test]
fn laws_of_places_are_laws() {
    places_are_in_order();
    places_give_their_tokens();
    nothing_else();
}
