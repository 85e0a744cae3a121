ghost use Rattle.std.specs.Prelude.{◌≡◌, ◌<◌, ◌∷◌, ℕ, List, [], codes, get_or, length, map};
ghost use Rattle.std.specs.Prelude.{IfOk, IfSome, IsNone, None, option_map};
ghost use Rattle.clap.specs.Words.{first_value, found_of};
ghost use Rattle.clap.specs.declared.error.kind.ErrorKind.TheVariants.{OutOfMemory};
ghost use Rattle.command_words.specs.Grammar.{IsWithinLimits, made_from, number_within, options_from, options_of};
ghost use Rattle.command_words.specs.Program.{HasNoEnd};

use crate::command::command;
use crate::options::{MOST_MADE, MOST_READERS, Made, Options};
use clap::ArgMatches;
use clap::error::ErrorKind;
use gcl_model::{ADDRESS_END, Bytes};
use script_lang::number_of;
use std::alloc::{AllocError, Global};

/// The number that a value writes, if it lies within these bounds.
pub(crate) fn number_within(least: u64, most: u64, value: &[u8]) -> Option<u64>
    ensures { result ≡ number_within least most value.now }
{
    match number_of(value) {
        Some(n) if least <= n && n <= most => Some(n),
        _ => None,
    }
}

/// The corpus that the values of `--made` and `--count` ask for: both are given, or neither.
fn made_from(made: Option<&str>, count: Option<&str>) -> Option<Option<Made>>
    ensures { result ≡ made_from (option_map (λ text. text.now) made.entry) (option_map (λ text. text.now) count.entry) }
{
    match (made, count) {
        (None, None) => Some(None),
        (Some(made), Some(count)) => {
            let start = number_of(made.as_bytes())?;
            let count = number_within(0, MOST_MADE, count.as_bytes())?;
            Some(Some(Made { start, count }))
        }
        _ => None,
    }
}

/// The options of these values.
fn options_from(
    first: Option<&str>,
    readers: Option<&str>,
    made: Option<&str>,
    count: Option<&str>,
) -> Option<Options>
    ensures value { result ≡ options_from (option_map (λ text. text.now) first.entry) (option_map (λ text. text.now) readers.entry)
        (option_map (λ text. text.now) made.entry) (option_map (λ text. text.now) count.entry) }
{
    let first = number_within(0, ADDRESS_END, first.unwrap_or("0").as_bytes())?;
    let readers = number_within(1, MOST_READERS, readers.unwrap_or("4").as_bytes())?;
    let made = made_from(made, count)?;
    Some(Options {
        first,
        readers: readers as usize,
        made,
    })
}

/// A word as text. `--` would end the options for clap, so it is refused with what is not UTF-8.
fn text_of(word: &[u8]) -> Option<&str>
    ensures some { IfSome result (λ text. (text.now ≡ word.now) × HasNoEnd (word.now ∷ [])) }
    ensures none { IsNone result → (words : List (List ℕ)) (i : ℕ) → i < length words → word.now ≡ get_or words i word.now →
        options_of words ≡ None }
{
    match str::from_utf8(word) {
        Ok(text) if text != "--" => Some(text),
        _ => None,
    }
}

/// The words as text.
fn texts_of<'a>(alloc: Global, words: &'a [Bytes]) -> Result<Option<Vec<&'a str>>, AllocError>
    ensures some { IfOk result (λ texts. IfSome texts (λ t. (map (λ text. text.now) t.items ≡ words.now) × HasNoEnd words.now)) }
    ensures none { IfOk result (λ texts. IsNone texts → options_of words.now ≡ None) }
{
    let mut texts = Vec::new(alloc);
    for word in words {
        let Some(text) = text_of(word.as_slice()) else {
            return Ok(None);
        };
        texts.push(text)?;
    }
    Ok(Some(texts))
}

/// None for words that clap refuses, unless it was out of memory.
fn refusal(kind: ErrorKind) -> Result<Option<Options>, AllocError>
    ensures { IfOk result (λ options. IsNone options × ¬ (kind ≡ OutOfMemory)) }
{
    match kind {
        ErrorKind::OutOfMemory => Err(AllocError),
        _ => Ok(None),
    }
}

/// The options of the values that clap found.
fn options_of_matches(matches: &ArgMatches) -> Option<Options>
    ensures { result ≡ options_from
        (first_value (found_of matches.now) (codes "first")) (first_value (found_of matches.now) (codes "readers"))
        (first_value (found_of matches.now) (codes "made")) (first_value (found_of matches.now) (codes "count")) }
{
    options_from(
        matches.get_str("first"),
        matches.get_str("readers"),
        matches.get_str("made"),
        matches.get_str("count"),
    )
}

/// The options that the texts write, by clap.
fn options_in(alloc: Global, texts: &[&str]) -> Result<Option<Options>, AllocError>
    requires { HasNoEnd (map (λ text. text.now) texts.now) }
    ensures { IfOk result (λ options. options ≡ options_of (map (λ text. text.now) texts.now)) }
{
    match command(alloc)?.try_get_matches_from(texts) {
        Ok(matches) => Ok(options_of_matches(&matches)),
        Err(fault) => refusal(fault.kind()),
    }
}

/// The options that the words write, or None if they are outside the grammar: with `--first=7 --readers 2` the first
/// address is 7, and there are two readers.
pub fn options_of(alloc: Global, words: &[Bytes]) -> Result<Option<Options>, AllocError>
    ensures value { IfOk result (λ options. options ≡ options_of words.now) }
    ensures in_range { IfOk result (λ options. IfSome options IsWithinLimits) }
{
    match texts_of(alloc, words)? {
        Some(texts) => options_in(alloc, texts.as_slice()),
        None => Ok(None),
    }
}
