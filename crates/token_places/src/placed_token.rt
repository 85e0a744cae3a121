ghost use Rattle.gcl_model.specs.Collections.{file_start, file_end};
ghost use Rattle.std.specs.Char.{to_ascii_lowercase};
ghost use Rattle.std.specs.Prelude.{◌≡◌, ◌↔◌, ◌++◌, length, map, take, IfOk, IsTrue, OnOk};
ghost use Rattle.token_places.specs.Cursors.{spelled};
ghost use Rattle.token_places.specs.Places.{stretch};

use crate::place::Place;
use gcl_model::Bytes;
use std::alloc::{AllocError, Global};
use std::marker::Model;
use word_tokens::is_spelled;

/// What a token is made of.
#[derive(Clone, Copy, Debug, PartialEq, Eq)]
pub(crate) enum TokenKind {
    /// A word alone.
    Word,
    /// A name between `<` and `>`.
    OpenTag,
    /// A name between `</` and `>`.
    CloseTag,
}

/// A token of a text, and where it comes from. It is not copied: its bytes are those of the text, in upper or lower case.
#[derive(Drop)]
pub struct PlacedToken<'a> {
    place: Place,
    kind: TokenKind,
    name: &'a [u8],
}

impl<'a> Model for PlacedToken<'a> {
    ghost use Rattle.token_places.specs.Places.{Placed};

    ghost Value = { Placed };

    ghost use Rattle.token_places.specs.Cursors.{spelled};

    ghost view = { λ t. record { place = t.place; token = spelled t.kind t.name.now } };
}

impl<'a> PlacedToken<'a> {
    /// The token of this kind and name, from this place.
    pub(crate) fn new(place: Place, kind: TokenKind, name: &'a [u8]) -> Self
        ensures { result ≡ record { place = place; token = spelled kind name.now } }
    {
        PlacedToken { place, kind, name }
    }

    /// The token in front of those of a file, from the empty place at the start.
    pub fn file_start() -> PlacedToken<'static>
        ensures { result ≡ record { place = stretch 0 0; token = file_start } }
    {
        let place = Place { from: 0, to: 0 };
        PlacedToken::new(place, TokenKind::OpenTag, b"file!")
    }

    /// The token after those of a file of `size` bytes, from the empty place at the end.
    pub fn file_end(size: usize) -> PlacedToken<'static>
        ensures { result ≡ record { place = stretch size size; token = file_end } }
    {
        let place = Place {
            from: size,
            to: size,
        };
        PlacedToken::new(place, TokenKind::CloseTag, b"file!")
    }

    /// Where the token comes from.
    pub fn place(&self) -> Place
        ensures { result ≡ self.now.place }
    {
        self.place
    }

    /// How many bytes the token has: 3 for `<b>`, even if the text has `<B x="1">`.
    pub fn len(&self) -> usize
        ensures { result ≡ length self.now.token }
    {
        match self.kind {
            TokenKind::Word => self.name.len(),
            TokenKind::OpenTag => self.name.len() + 2,
            TokenKind::CloseTag => self.name.len() + 3,
        }
    }

    /// Whether it is this token: a word in lower case, or a tag such as `<b>`.
    pub fn is(&self, token: &[u8]) -> bool
        ensures { IsTrue result ↔ token.now ≡ self.now.token }
    {
        match self.kind {
            TokenKind::Word => is_spelled(token, b"", self.name, b""),
            TokenKind::OpenTag => is_spelled(token, b"<", self.name, b">"),
            TokenKind::CloseTag => is_spelled(token, b"</", self.name, b">"),
        }
    }

    /// Whether it begins with these bytes: `king` and `kings` begin with `king`, and `<b>` with `<`.
    pub fn starts_with(&self, prefix: &[u8]) -> bool
        ensures { IsTrue result ↔ prefix.now ≡ take (length prefix.now) self.now.token }
    {
        match self.kind {
            TokenKind::Word => is_front(prefix, b"", self.name, b""),
            TokenKind::OpenTag => is_front(prefix, b"<", self.name, b">"),
            TokenKind::CloseTag => is_front(prefix, b"</", self.name, b">"),
        }
    }

    /// The token by itself, a word in lower case or a tag such as `<b>`. Err means out of memory.
    pub fn to_bytes(&self, alloc: Global) -> Result<Bytes, AllocError>
        ensures { IfOk result (λ bytes. bytes ≡ self.now.token) }
    {
        match self.kind {
            TokenKind::Word => spelled_out(alloc, b"", self.name, b""),
            TokenKind::OpenTag => spelled_out(alloc, b"<", self.name, b">"),
            TokenKind::CloseTag => spelled_out(alloc, b"</", self.name, b">"),
        }
    }
}

/// The name in lower case, between these bytes.
fn spelled_out(
    alloc: Global,
    opening: &[u8],
    name: &[u8],
    closing: &[u8],
) -> Result<Bytes, AllocError>
    ensures { IfOk result (λ bytes. bytes ≡ opening.now ++ map to_ascii_lowercase name.now ++ closing.now) }
{
    let mut bytes = Vec::new(alloc);
    bytes.extend_from_slice(opening)?;
    append_lower_case(&mut bytes, name)?;
    bytes.extend_from_slice(closing)?;
    Ok(Bytes::of(bytes))
}

fn append_lower_case(bytes: &mut Vec<u8>, name: &[u8]) -> Result<(), AllocError>
    ensures { OnOk result (bytes.new.items ≡ bytes.old.items ++ map to_ascii_lowercase name.now) }
{
    for b in name {
        bytes.push(b.to_ascii_lowercase())?;
    }
    Ok(())
}

/// Whether the name in lower case, between `opening` and `closing`, begins with `prefix`.
fn is_front(prefix: &[u8], opening: &[u8], name: &[u8], closing: &[u8]) -> bool
    ensures { IsTrue result ↔ prefix.now ≡ take (length prefix.now) (opening.now ++ map to_ascii_lowercase name.now ++ closing.now) }
{
    if prefix.len() <= opening.len() {
        let (front, _) = opening.split_at(prefix.len());
        return prefix == front;
    }
    let inside = prefix.len() - opening.len();
    if inside <= name.len() {
        let (front, _) = name.split_at(inside);
        return is_spelled(prefix, opening, front, b"");
    }
    let (front, _) = closing.split_at(closing.len().min(inside - name.len()));
    is_spelled(prefix, opening, name, front)
}
