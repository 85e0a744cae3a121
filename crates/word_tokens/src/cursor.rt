ghost use Rattle.gcl_model.specs.Tokens.{close_token, open_token, tokens_of};
ghost use Rattle.std.specs.Char.{to_ascii_lowercase};
ghost use Rattle.std.specs.Prelude.{◌≡◌, ◌<◌, [], ◌∷◌, ◌++◌, map, true, false, IfOk, OnOk};
ghost use Rattle.word_tokens.specs.Lexemes.{lexeme_tokens};

use crate::joined::append_lower_case;
use crate::lexeme::{Lexeme, split_lexeme};
use std::alloc::AllocError;
use std::marker::Model;

/// The tokens of a text that are still to come. They are cut one at a time, so that they take the memory of one.
#[derive(Drop)]
pub struct TokenCursor<'a> {
    rest: &'a [u8],
    // the name of an empty tag whose closing token is still to come
    unclosed: Option<&'a [u8]>,
}

impl<'a> Model for TokenCursor<'a> {
    ghost use Rattle.std.specs.Prelude.{List, ℕ};
    ghost use Rattle.word_tokens.specs.Cursors.{still_to_come};

    ghost Value = { List (List ℕ) };

    ghost view = { λ c. still_to_come c.unclosed c.rest.now };
}

impl<'a> TokenCursor<'a> {
    /// All tokens of the text are still to come.
    pub fn new(bytes: &'a [u8]) -> Self
        ensures { result ≡ tokens_of bytes.now }
    {
        TokenCursor {
            rest: bytes,
            unclosed: None,
        }
    }

    /// Puts the next token in place of what the buffer has, and says whether there was one. After an Err nothing is known of what is
    /// still to come.
    pub fn next(&mut self, token: &mut Vec<u8>) -> Result<bool, AllocError>
        ensures some { IfOk result (λ found. found ≡ true → self.old ≡ token.new.items ∷ self.new) }
        ensures none { IfOk result (λ found. found ≡ false → self.old ≡ []) }
    {
        if let Some(name) = self.unclosed {
            self.unclosed = None;
            put_closing(token, name)?;
            return Ok(true);
        }
        let (lexeme, rest) = next_lexeme(self.rest);
        self.rest = rest;
        match lexeme {
            Lexeme::Word(word) => put_word(token, word)?,
            Lexeme::OpenTag(name) => put_opening(token, name)?,
            Lexeme::CloseTag(name) => put_closing(token, name)?,
            Lexeme::EmptyTag(name) => {
                self.unclosed = Some(name);
                put_opening(token, name)?;
            }
            Lexeme::Separator => return Ok(false),
        }
        Ok(true)
    }
}

/// The first lexeme that gives a token, or a separator if no token is left, and what comes after it.
fn next_lexeme(bytes: &[u8]) -> (Lexeme<'_>, &[u8])
    ensures whole { tokens_of bytes.now ≡ lexeme_tokens result.0 ++ tokens_of result.1.now }
    ensures none { lexeme_tokens result.0 ≡ [] → tokens_of bytes.now ≡ [] }
{
    let mut rest = bytes;
    while !rest.is_empty() {
        let (lexeme, behind) = split_lexeme(rest);
        rest = behind;
        match lexeme {
            Lexeme::Separator => {}
            _ => return (lexeme, rest),
        }
    }
    (Lexeme::Separator, rest)
}

/// Puts the word in lower case in place of what the buffer has.
fn put_word(token: &mut Vec<u8>, word: &[u8]) -> Result<(), AllocError>
    ensures { OnOk result (token.new.items ≡ map to_ascii_lowercase word.now) }
{
    token.clear();
    append_lower_case(token, word)?;
    Ok(())
}

/// Puts `<name>` in place of what the buffer has.
fn put_opening(token: &mut Vec<u8>, name: &[u8]) -> Result<(), AllocError>
    ensures { OnOk result (token.new.items ≡ open_token (map to_ascii_lowercase name.now)) }
{
    put_token(token, b"<", name, b">")
}

/// Puts `</name>` in place of what the buffer has.
fn put_closing(token: &mut Vec<u8>, name: &[u8]) -> Result<(), AllocError>
    ensures { OnOk result (token.new.items ≡ close_token (map to_ascii_lowercase name.now)) }
{
    put_token(token, b"</", name, b">")
}

/// Puts the name in lower case between these bytes in place of what the buffer has.
// Inlined into its callers, where the bytes around the name are known.
#[inline(always)]
fn put_token(
    token: &mut Vec<u8>,
    opening: &[u8],
    name: &[u8],
    closing: &[u8],
) -> Result<(), AllocError>
    ensures { OnOk result (token.new.items ≡ opening.now ++ map to_ascii_lowercase name.now ++ closing.now) }
{
    token.clear();
    token.extend_from_slice(opening)?;
    append_lower_case(token, name)?;
    token.extend_from_slice(closing)?;
    Ok(())
}
