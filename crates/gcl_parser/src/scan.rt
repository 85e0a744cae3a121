ghost use Rattle.std.specs.Prelude.{◌≡◌, ◌+◌, ◌<◌, ◌≤◌, ◌^◌, [], false, length, drop, nat_le, slice_index, slice_range, IfNone, IfSome};
ghost use Rattle.gcl_model.specs.Collections.{is_boundary as is_boundary_token};
ghost use Rattle.gcl_model.specs.Tokens.{is_blank as is_blank_byte, starts_with_byte, tokens_of};
ghost use Rattle.gcl_parser.specs.QueryTokens.{terms_of, quoted_token, prefix_token, closed_piece};
ghost use Rattle.gcl_parser.specs.QueryTokens.{quoted_piece, width_piece, sign_piece, first_piece};
ghost use Rattle.gcl_parser.specs.Scanned.{shown, HasRange, IsPiece, IsNext, tokens_from};

use crate::fault::QueryKind;
use crate::token::{Joint, PlacedToken, Token};
use crate::width::{digit_count, width_of};
use crate::word::is_one_word;
use gcl_model::{Containment, file_end, file_start, is_blank};
use memchr::memchr;
use word_tokens::token_count;

/// The first query token at or after a place; None if only blanks are left.
pub fn next_placed(text: &[u8], from: usize) -> Option<PlacedToken>
    requires { from ≤ length text.now }
    ensures none { IfNone result (tokens_from text.now from ≡ []) }
    ensures some { IfSome result (λ placed. IsNext text.now from placed) }
{
    let at = after_blanks(text, from);
    if at == text.len() {
        return None;
    }
    Some(placed_at(text, at))
}

/// The place of the first byte at or after a place that is no blank, or the length of the text.
fn after_blanks(text: &[u8], from: usize) -> usize
    requires { from ≤ length text.now }
    ensures later { from ≤ result }
    ensures within { result ≤ length text.now }
    ensures same { tokens_from text.now result ≡ tokens_from text.now from }
    ensures stops { result < length text.now → is_blank_byte (slice_index text.now result) ≡ false }
{
    let mut at = from;
    while at < text.len() && is_blank(text[at]) {
        at += 1;
    }
    at
}

/// The query token at a place that holds no blank.
fn placed_at(text: &[u8], at: usize) -> PlacedToken
    requires within { at < length text.now }
    requires no_blank { is_blank_byte (slice_index text.now at) ≡ false }
    ensures { IsPiece text.now at (first_piece (slice_index text.now at) (drop (at + 1) text.now)) result }
{
    match text[at] {
        b'"' => quoted(text, at),
        b'[' => width(text, at),
        _ => sign(text, at),
    }
}

/// The quoted text whose first quote is at the place.
fn quoted(text: &[u8], at: usize) -> PlacedToken
    requires { at < length text.now }
    ensures { IsPiece text.now at (quoted_piece (drop (at + 1) text.now)) result }
{
    let from = at + 1;
    match memchr(b'"', &text[from..]) {
        None => placed(at, 1, Token::Broken(QueryKind::OpenQuote)),
        Some(size) => closed(text, at, from + size),
    }
}

/// The quoted text between the quotes at two places, with the `*` that follows immediately.
fn closed(text: &[u8], at: usize, end: usize) -> PlacedToken
    requires order { at < end }
    requires within { end < length text.now }
    ensures { IsPiece text.now at
        (closed_piece (slice_range text.now (at + 1) end) (starts_with_byte 42 (drop (end + 1) text.now))) result }
{
    let size = end + 1 - at;
    if !stands(text, end + 1, b'*') {
        return placed(at, size, content(text, at + 1, end));
    }
    placed(at, size + 1, prefix(text, at + 1, end))
}

/// What is between two quotes with a `*` after them, from one place to another.
fn prefix(text: &[u8], from: usize, to: usize) -> Token
    requires order { from ≤ to }
    requires within { to ≤ length text.now }
    ensures token { shown text.now result ≡ prefix_token (tokens_of (slice_range text.now from to)) }
    ensures range { HasRange text.now result }
{
    let content = &text[from..to];
    if token_count(content) == 0 {
        Token::Broken(QueryKind::EmptyTerm)
    } else if is_one_word(content) {
        Token::Prefix(from, to)
    } else {
        Token::Broken(QueryKind::BadPrefix)
    }
}

/// What is between two quotes, from one place to another.
fn content(text: &[u8], from: usize, to: usize) -> Token
    requires order { from ≤ to }
    requires within { to ≤ length text.now }
    ensures token { shown text.now result ≡ quoted_token (terms_of (slice_range text.now from to)) }
    ensures range { HasRange text.now result }
{
    if has_terms(&text[from..to]) {
        Token::Quoted(from, to)
    } else {
        Token::Broken(QueryKind::EmptyTerm)
    }
}

fn has_terms(bytes: &[u8]) -> bool
    ensures { result ≡ nat_le 1 (length (terms_of bytes.now)) }
{
    is_boundary(bytes) || token_count(bytes) > 0
}

/// The two tokens that no text has: a query spells them out.
pub fn is_boundary(bytes: &[u8]) -> bool
    ensures { result ≡ is_boundary_token bytes.now }
{
    bytes == file_start() || bytes == file_end()
}

/// The width whose `[` is at the place.
fn width(text: &[u8], at: usize) -> PlacedToken
    requires { at < length text.now }
    ensures { IsPiece text.now at (width_piece (drop (at + 1) text.now)) result }
{
    let from = at + 1;
    let size = digit_count(&text[from..]);
    if !stands(text, from + size, b']') {
        return placed(at, 1, Token::Broken(QueryKind::BadWidth));
    }
    placed(at, size + 2, width_of(&text[from..from + size]))
}

/// The operator or the bracket at the place.
fn sign(text: &[u8], at: usize) -> PlacedToken
    requires { at < length text.now }
    ensures { IsPiece text.now at (sign_piece (slice_index text.now at) (drop (at + 1) text.now)) result }
{
    match text[at] {
        b'^' => placed(at, 1, Token::Joint(Joint::BothOf)),
        b'+' => placed(at, 1, Token::Joint(Joint::OneOf)),
        b'>' => placed(at, 1, Token::Containment(Containment::Containing)),
        b'<' => placed(at, 1, Token::Containment(Containment::ContainedIn)),
        b'(' => placed(at, 1, Token::Open),
        b')' => placed(at, 1, Token::Close),
        b'.' if stands(text, at + 1, b'.') => placed(at, 2, Token::Joint(Joint::FollowedBy)),
        b'/' if stands(text, at + 1, b'>') => {
            placed(at, 2, Token::Containment(Containment::NotContaining))
        }
        b'/' if stands(text, at + 1, b'<') => {
            placed(at, 2, Token::Containment(Containment::NotContainedIn))
        }
        _ => placed(at, 1, Token::Broken(QueryKind::Character)),
    }
}

/// Whether the byte is at the place.
fn stands(text: &[u8], at: usize, byte: u8) -> bool
    ensures { result ≡ starts_with_byte byte (drop at text.now) }
{
    at < text.len() && text[at] == byte
}

fn placed(at: usize, size: usize, token: Token) -> PlacedToken
    requires { at + size < 2 ^ 64 }
    ensures { result ≡ record { at = at; end = at + size; token = token } }
{
    PlacedToken {
        at,
        end: at + size,
        token,
    }
}
