ghost use Rattle.gcl_model.specs.Collections.{IsToken};
ghost use Rattle.gcl_model.specs.Tokens.{tokens_of};
ghost use Rattle.std.specs.Char.{to_ascii_lowercase};
ghost use Rattle.std.specs.Prelude.{◌≡◌, ◌↔◌, [], ◌∷◌, ◌++◌, length, map, IfOk, IsTrue};
ghost use Rattle.word_tokens.specs.Lexemes.{lexeme_tokens};

use crate::joined::{TokenText, append_tokens};
use crate::lexeme::{Lexeme, first_lexeme, split_lexeme};
use gcl_model::{Bytes, TokenList};
use std::alloc::{AllocError, Global};

/// The tokens of a text, in two blocks of memory. Err means out of memory.
pub fn token_text(alloc: Global, bytes: &[u8]) -> Result<TokenText, AllocError>
    ensures { IfOk result (λ text. text ≡ tokens_of bytes.now) }
{
    let mut joined = Vec::new(alloc);
    let mut ends = Vec::new(alloc);
    let mut rest = bytes;
    while !rest.is_empty() {
        let (lexeme, behind) = split_lexeme(rest);
        append_tokens(&mut joined, &mut ends, lexeme)?;
        rest = behind;
    }
    Ok(TokenText {
        bytes: joined,
        ends,
    })
}

/// The tokens of a text: of `To <B>` they are `to` and `<b>`. Err means out of memory.
pub fn tokens(alloc: Global, bytes: &[u8]) -> Result<TokenList, AllocError>
    ensures { IfOk result (λ list. list ≡ tokens_of bytes.now) }
{
    let text = token_text(alloc, bytes)?;
    let mut list = TokenList::new(alloc);
    for i in 0..text.len() {
        list.push(Bytes::copy_of(alloc, text.get(i))?)?;
    }
    Ok(list)
}

/// How many tokens a lexeme gives.
fn lexeme_count(lexeme: Lexeme<'_>) -> u64
    ensures { result ≡ length (lexeme_tokens lexeme.entry) }
{
    match lexeme {
        Lexeme::Word(_) | Lexeme::OpenTag(_) | Lexeme::CloseTag(_) => 1,
        Lexeme::EmptyTag(_) => 2,
        Lexeme::Separator => 0,
    }
}

/// The number of tokens of a text. It takes no memory.
pub fn token_count(bytes: &[u8]) -> u64
    ensures { result ≡ length (tokens_of bytes.now) }
{
    let mut count = 0;
    let mut rest = bytes;
    while !rest.is_empty() {
        let (lexeme, behind) = split_lexeme(rest);
        count += lexeme_count(lexeme);
        rest = behind;
    }
    count
}

/// Whether these bytes are the name in lower case.
fn is_lower_case_of(bytes: &[u8], name: &[u8]) -> bool
    ensures { IsTrue result ↔ bytes.now ≡ map to_ascii_lowercase name.now }
{
    bytes.len() == name.len()
        && bytes
            .iter()
            .zip(name)
            .all(|(b, n)| *b == n.to_ascii_lowercase())
}

/// Whether the text is the name in lower case, between these bytes: `<b>` is the name `B` between `<` and `>`.
pub fn is_spelled(text: &[u8], opening: &[u8], name: &[u8], closing: &[u8]) -> bool
    ensures { IsTrue result ↔ text.now ≡ opening.now ++ map to_ascii_lowercase name.now ++ closing.now }
{
    let Some(behind) = text.strip_prefix(opening) else {
        return false;
    };
    let Some(inside) = behind.strip_suffix(closing) else {
        return false;
    };
    is_lower_case_of(inside, name)
}

/// Whether the text is the only token of the lexeme.
fn is_only_token(text: &[u8], lexeme: Lexeme<'_>) -> bool
    ensures { IsTrue result ↔ lexeme_tokens lexeme.entry ≡ text.now ∷ [] }
{
    match lexeme {
        Lexeme::Word(word) => is_spelled(text, b"", word, b""),
        Lexeme::OpenTag(name) => is_spelled(text, b"<", name, b">"),
        Lexeme::CloseTag(name) => is_spelled(text, b"</", name, b">"),
        Lexeme::EmptyTag(_) | Lexeme::Separator => false,
    }
}

/// Whether these bytes, cut into tokens, are the one token that they spell: so are `to` and `<a>`, and not `To`, `a b`,
/// `<a b>` and `<file!>`. It takes no memory.
pub fn is_token(bytes: &[u8]) -> bool
    ensures { IsTrue result ↔ IsToken bytes.now }
{
    if bytes.is_empty() {
        return false;
    }
    let (lexeme, size) = first_lexeme(bytes);
    size == bytes.len() && is_only_token(bytes, lexeme)
}
