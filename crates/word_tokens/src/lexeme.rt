ghost use Rattle.gcl_model.specs.Tokens.{
  ends_with_byte,
  is_word_byte,
  is_name_byte,
  name_at,
  tag_tokens,
  tag_with_name,
  tag_behind,
  tokens_of,
};
ghost use Rattle.std.specs.Option.{option_map};
ghost use Rattle.std.specs.Prelude.{◌≡◌, ◌+◌, ◌<◌, ◌≤◌, ◌++◌, length, take_while, if◌then◌else◌};
ghost use Rattle.word_tokens.specs.Lexemes.{as_part, lexeme_tokens, part_of, tag_end};

use crate::classes::{CLASSES, NAME, WORD};
use memchr::memchr2;

/// What a text begins with. The bytes are as in the text, in either case.
#[derive(Clone, Copy)]
pub enum Lexeme<'a> {
    /// A word.
    Word(&'a [u8]),
    /// The name in `<name ..>`.
    OpenTag(&'a [u8]),
    /// The name in `</name ..>`.
    CloseTag(&'a [u8]),
    /// The name in `<name ../>`.
    EmptyTag(&'a [u8]),
    /// A byte that belongs to no token.
    Separator,
}

fn is_word_byte(b: u8) -> bool
    ensures { result ≡ is_word_byte b }
{
    CLASSES[b as usize] & WORD != 0
}

fn is_name_byte(b: u8) -> bool
    ensures { result ≡ is_name_byte b }
{
    CLASSES[b as usize] & NAME != 0
}

/// How many bytes of a word the text begins with.
fn word_len(text: &[u8]) -> usize
    ensures { result ≡ length (take_while is_word_byte text.now) }
{
    text.iter().take_while(|b| is_word_byte(**b)).count()
}

/// How many bytes of a name the text begins with.
fn name_run(text: &[u8]) -> usize
    ensures { result ≡ length (take_while is_name_byte text.now) }
{
    text.iter().take_while(|b| is_name_byte(**b)).count()
}

/// How many bytes the name at the front has, or 0 if there is none.
fn name_len(text: &[u8]) -> usize
    ensures { result ≡ length (name_at text.now) }
{
    if text.is_empty() || !text[0].is_ascii_alphabetic() {
        return 0;
    }
    name_run(text)
}

fn ends_with_slash(bytes: &[u8]) -> bool
    ensures { result ≡ ends_with_byte 47 bytes.now }
{
    bytes.last().copied() == Some(b'/')
}

/// The tag with this name, and these bytes between the name and the `>`.
fn tag<'a>(closing: bool, name: &'a [u8], between: &[u8]) -> Lexeme<'a>
    ensures { lexeme_tokens result ≡ tag_tokens closing name.now between.now }
{
    if closing {
        Lexeme::CloseTag(name)
    } else if ends_with_slash(between) {
        Lexeme::EmptyTag(name)
    } else {
        Lexeme::OpenTag(name)
    }
}

/// How many bytes are before the `>` of a tag, starting after its name. The search stops at the next `<` too, so a text
/// with many of these is read no more than twice.
fn tag_end(after: &[u8]) -> Option<usize>
    ensures { result ≡ tag_end after.now }
{
    let end = memchr2(b'<', b'>', after)?;
    if after[end] == b'>' { Some(end) } else { None }
}

/// The tag whose name is at the front, and its size, including the `<` or `</` before the name.
fn tag_by_name(closing: bool, inside: &[u8]) -> Option<(Lexeme<'_>, usize)>
    ensures { option_map as_part result ≡ tag_with_name closing (if closing then 2 else 1) (name_at inside.now) inside.now }
{
    let name_len = name_len(inside);
    if name_len == 0 {
        return None;
    }
    let (name, after) = inside.split_at(name_len);
    let between_len = tag_end(after)?;
    let tag = tag(closing, name, &after[..between_len]);
    let opened = if closing { 2 } else { 1 };
    Some((tag, opened + name_len + between_len + 1))
}

/// The tag whose `<` is before these bytes, and its size, including the `<`.
fn tag_behind(bytes: &[u8]) -> Option<(Lexeme<'_>, usize)>
    ensures { option_map as_part result ≡ tag_behind bytes.now }
{
    if bytes.first() == Some(&b'/') {
        tag_by_name(true, &bytes[1..])
    } else {
        tag_by_name(false, bytes)
    }
}

/// The lexeme at the front of the text, and how many bytes it has.
pub fn first_lexeme(text: &[u8]) -> (Lexeme<'_>, usize)
    requires { 0 < length text.now }
    ensures { as_part result ≡ part_of text.now }
{
    let word = word_len(text);
    if word > 0 {
        return (Lexeme::Word(&text[..word]), word);
    }
    if text[0] == b'<' {
        if let Some(found) = tag_behind(&text[1..]) {
            return found;
        }
    }
    (Lexeme::Separator, 1)
}

/// The lexeme at the front of the text, and what comes after it.
pub(crate) fn split_lexeme(text: &[u8]) -> (Lexeme<'_>, &[u8])
    requires { 0 < length text.now }
    ensures whole { tokens_of text.now ≡ lexeme_tokens result.0 ++ tokens_of result.1.now }
    ensures shorter { length result.1.now < length text.now }
    ensures few { length (lexeme_tokens result.0) + length result.1.now ≤ length text.now }
{
    let (lexeme, size) = first_lexeme(text);
    let (_, rest) = text.split_at(size);
    (lexeme, rest)
}
