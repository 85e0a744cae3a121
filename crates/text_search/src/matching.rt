ghost use Rattle.std.specs.Prelude.{◌≡◌, ◌≤◌, length, insert, IfOk, IfSome, IfNone, OnOk};
ghost use Rattle.gcl_model.specs.Tokens.{tokens_of};
ghost use Rattle.text_search.specs.FileTexts.{file_text};
ghost use Rattle.text_search.specs.Matching.{with_match, with_matches};
ghost use Rattle.wide_terms.specs.Vocabulary.{matching_words, with_token};

use gcl_model::{Bytes, TokenList};
use std::alloc::{AllocError, Global};
use std::cmp::Ordering;
use token_places::{PlaceCursor, PlacedToken};

/// The tokens of a file that begin with the prefix, in rising byte order and each once.
pub(crate) fn matching(alloc: Global, bytes: &[u8], prefix: &[u8]) -> Result<TokenList, AllocError>
    ensures { IfOk result (λ words. words ≡ matching_words (file_text bytes.now).words prefix.now) }
{
    let mut words = Vec::new(alloc);
    put_match(alloc, &mut words, &PlacedToken::file_start(), prefix)?;
    put_matches(alloc, &mut words, bytes, prefix)?;
    put_match(
        alloc,
        &mut words,
        &PlacedToken::file_end(bytes.len()),
        prefix,
    )?;
    let list = token_list(alloc, words.as_slice())?;
    Ok(list)
}

/// Adds the tokens of a text that begin with the prefix to the words.
fn put_matches(
    alloc: Global,
    words: &mut Vec<Bytes>,
    bytes: &[u8],
    prefix: &[u8],
) -> Result<(), AllocError>
    ensures { OnOk result (words.new.items ≡ with_matches prefix.now (tokens_of bytes.now) words.old.items) }
{
    let mut cursor = PlaceCursor::new(bytes);
    while let Some(token) = cursor.next() {
        put_match(alloc, words, &token, prefix)?;
    }
    Ok(())
}

/// Adds a token to the words, if it begins with the prefix.
fn put_match(
    alloc: Global,
    words: &mut Vec<Bytes>,
    token: &PlacedToken<'_>,
    prefix: &[u8],
) -> Result<(), AllocError>
    ensures { OnOk result (words.new.items ≡ with_match prefix.now token.now.token words.old.items) }
{
    if !token.starts_with(prefix) {
        return Ok(());
    }
    let word = token.to_bytes(alloc)?;
    put_word(words, word)?;
    Ok(())
}

/// Adds a word to others in byte order, if it is not there yet.
fn put_word(words: &mut Vec<Bytes>, word: Bytes) -> Result<(), AllocError>
    ensures { OnOk result (words.new.items ≡ with_token word words.old.items) }
{
    let Some(at) = place_of(words.as_slice(), word.as_slice()) else {
        return Ok(());
    };
    words.insert(at, word)?;
    Ok(())
}

/// The place of a new word among others in byte order. Returns None if it is already there.
fn place_of(words: &[Bytes], word: &[u8]) -> Option<usize>
    ensures there { IfNone result (with_token word.now words.now ≡ words.now) }
    ensures within { IfSome result (λ at. at ≤ length words.now) }
    ensures place { IfSome result (λ at. with_token word.now words.now ≡ insert words.now at word.now) }
{
    for (at, other) in words.iter().enumerate() {
        match word.cmp(other.as_slice()) {
            Ordering::Less => return Some(at),
            Ordering::Equal => return None,
            Ordering::Greater => {}
        }
    }
    Some(words.len())
}

fn token_list(alloc: Global, words: &[Bytes]) -> Result<TokenList, AllocError>
    ensures { IfOk result (λ list. list ≡ words.now) }
{
    let mut list = TokenList::new(alloc);
    for word in words {
        list.push(word.copy()?)?;
    }
    Ok(list)
}
