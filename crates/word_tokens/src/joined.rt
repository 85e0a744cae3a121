ghost use Rattle.std.specs.Char.{to_ascii_lowercase};
ghost use Rattle.std.specs.List.{concat};
ghost use Rattle.std.specs.Prelude.{◌≡◌, ◌↔◌, ◌<◌, ◌≤◌, [], ◌∷◌, ◌++◌, length, map, take, slice_index_or, IsTrue, OnOk, vec_len};
ghost use Rattle.word_tokens.specs.Joined.{ends_from};
ghost use Rattle.word_tokens.specs.Lexemes.{lexeme_tokens};

use crate::lexeme::Lexeme;
use std::alloc::{AllocError, Global};
use std::marker::Model;

/// A list of tokens in two blocks of memory, which is made once and then only read.
#[derive(Drop)]
pub struct TokenText {
    pub(crate) bytes: Vec<u8>,
    pub(crate) ends: Vec<usize>,
}

impl Model for TokenText {
    ghost use Rattle.std.specs.Prelude.{List, ℕ};
    ghost use Rattle.word_tokens.specs.Joined.{cut_from, AreJoined};

    ghost Value = { List (List ℕ) };

    ghost view = { λ t. cut_from 0 t.ends.items t.bytes.items };

    ghost invariant = { λ t. AreJoined (cut_from 0 t.ends.items t.bytes.items) t.bytes.items t.ends.items };
}

impl TokenText {
    /// No tokens. It takes no memory.
    pub fn new(alloc: Global) -> Self
        ensures { result ≡ [] }
    {
        TokenText {
            bytes: Vec::new(alloc),
            ends: Vec::new(alloc),
        }
    }

    /// The number of tokens.
    pub fn len(&self) -> usize
        ensures { result ≡ length self.now }
    {
        self.ends.len()
    }

    /// The token at place `i`.
    pub fn get(&self, i: usize) -> &[u8]
        requires { i < length self.now }
        ensures { result.now ≡ slice_index_or self.now i result.now }
    {
        &self.bytes[self.start(i)..self.start(i + 1)]
    }

    /// Where the token at place i begins: where the one before it ends.
    fn start(&self, i: usize) -> usize
        requires { i ≤ length self.now }
        ensures { result ≡ length (concat (take i self.now)) }
    {
        if i == 0 { 0 } else { self.ends[i - 1] }
    }
}

/// Whether the name is in lower case already.
fn is_lower_case(name: &[u8]) -> bool
    ensures { IsTrue result ↔ map to_ascii_lowercase name.now ≡ name.now }
{
    !name.iter().any(|b| b.is_ascii_uppercase())
}

/// Appends the name in lower case.
// Most names of a text are in lower case, and are copied as they are.
pub(crate) fn append_lower_case(bytes: &mut Vec<u8>, name: &[u8]) -> Result<(), AllocError>
    ensures { OnOk result (bytes.new.items ≡ bytes.old.items ++ map to_ascii_lowercase name.now) }
{
    let start = bytes.len();
    bytes.extend_from_slice(name)?;
    if !is_lower_case(name) {
        bytes[start..].make_ascii_lowercase();
    }
    Ok(())
}

/// Appends one token: the name in lower case, between these bytes.
fn append_token(
    bytes: &mut Vec<u8>,
    ends: &mut Vec<usize>,
    opening: &[u8],
    name: &[u8],
    closing: &[u8],
) -> Result<(), AllocError>
    ensures bytes { OnOk result (bytes.new.items ≡ bytes.old.items ++ (opening.now ++ map to_ascii_lowercase name.now ++ closing.now)) }
    ensures ends { OnOk result (ends.new.items ≡ ends.old.items ++ vec_len bytes.new ∷ []) }
{
    bytes.extend_from_slice(opening)?;
    append_lower_case(bytes, name)?;
    bytes.extend_from_slice(closing)?;
    ends.push(bytes.len())?;
    Ok(())
}

/// Appends the tokens of a lexeme.
pub(crate) fn append_tokens(
    bytes: &mut Vec<u8>,
    ends: &mut Vec<usize>,
    lexeme: Lexeme<'_>,
) -> Result<(), AllocError>
    ensures bytes { OnOk result (bytes.new.items ≡ bytes.old.items ++ concat (lexeme_tokens lexeme.entry)) }
    ensures ends { OnOk result (ends.new.items ≡ ends.old.items ++ ends_from (vec_len bytes.old) (lexeme_tokens lexeme.entry)) }
{
    match lexeme {
        Lexeme::Word(word) => append_token(bytes, ends, b"", word, b""),
        Lexeme::OpenTag(name) => append_token(bytes, ends, b"<", name, b">"),
        Lexeme::CloseTag(name) => append_token(bytes, ends, b"</", name, b">"),
        Lexeme::EmptyTag(name) => {
            append_token(bytes, ends, b"<", name, b">")?;
            append_token(bytes, ends, b"</", name, b">")
        }
        Lexeme::Separator => Ok(()),
    }
}
