ghost use Rattle.std.specs.Prelude.{◌≡◌, ◌+◌, ◌<◌, ◌⊎◌, [], ◌∷◌, Some, None, IfSome, IsNone, length, option_map, take, drop};
ghost use Rattle.std.specs.List.{position};
ghost use Rattle.std.specs.Option.{option_copied};
ghost use Rattle.command_words.specs.Grammar.{is_equals, number_within, pairs_of, value_of};
ghost use Rattle.share_run.specs.Words.{IsWithinLimits, options_in, options_of};

use crate::options::{MOST_EDITORS, ShareOptions};
use command_words::MOST_MADE;
use gcl_model::Bytes;
use script_lang::number_of;

/// An option of some words: its name, the text of its value, and the words after it.
type First<'a> = (&'a [u8], &'a [u8], &'a [Bytes]);

/// Where the first `=` of a word is.
fn equals_at(word: &[u8]) -> Option<usize>
    ensures { result ≡ position is_equals word.now }
{
    word.iter().position(|b| *b == b'=')
}

/// The option in a word whose name and value are joined by the byte at `at`.
fn cut_at<'a>(word: &'a [u8], at: usize, rest: &'a [Bytes]) -> First<'a>
    requires { at < length word.now }
    ensures name { result.0.now ≡ take at word.entry.now }
    ensures value { result.1.now ≡ drop (at + 1) word.entry.now }
    ensures rest { result.2.now ≡ rest.entry.now }
{
    let (name, _rest) = word.split_at(at);
    let (_front, value) = word.split_at(at + 1);
    (name, value, rest)
}

/// The first option of the words. Returns None if there is no whole option.
fn first_of(words: &[Bytes]) -> Option<First<'_>>
    ensures some { IfSome result (λ first. pairs_of words.entry.now ≡
        option_map (λ pairs. (first.0.now, first.1.now) ∷ pairs) (pairs_of first.2.now)) }
    ensures none { IsNone result → (pairs_of words.entry.now ≡ None) ⊎ (pairs_of words.entry.now ≡ Some []) }
{
    let (word, rest) = words.split_first()?;
    let name = word.as_slice();
    if let Some(at) = equals_at(name) {
        return Some(cut_at(name, at, rest));
    }
    let (next, rest) = rest.split_first()?;
    let value = next.as_slice();
    Some((name, value, rest))
}

/// The value of the first of three options that has this name.
fn value_of<'a>(name: &[u8], one: First<'a>, two: First<'a>, three: First<'a>) -> Option<&'a [u8]>
    ensures { option_copied result ≡ value_of name.now ((one.entry.0.now, one.entry.1.now) ∷ (two.entry.0.now, two.entry.1.now) ∷
        (three.entry.0.now, three.entry.1.now) ∷ []) }
{
    if one.0 == name {
        return Some(one.1);
    }
    if two.0 == name {
        return Some(two.1);
    }
    if three.0 == name {
        return Some(three.1);
    }
    None
}

/// The number that a value writes, if it is within these bounds.
fn number_within(least: u64, most: u64, value: &[u8]) -> Option<u64>
    ensures { result ≡ number_within least most value.now }
{
    match number_of(value) {
        Some(n) if least <= n && n <= most => Some(n),
        _ => None,
    }
}

/// What three options ask for.
fn options_in(one: First<'_>, two: First<'_>, three: First<'_>) -> Option<ShareOptions>
    ensures { result ≡ options_in ((one.entry.0.now, one.entry.1.now) ∷ (two.entry.0.now, two.entry.1.now) ∷
        (three.entry.0.now, three.entry.1.now) ∷ []) }
{
    let start = number_of(value_of(b"--made", one, two, three)?)?;
    let count = number_within(0, MOST_MADE, value_of(b"--count", one, two, three)?)?;
    let editors = number_within(1, MOST_EDITORS, value_of(b"--editors", one, two, three)?)?;
    Some(ShareOptions {
        start,
        count,
        editors,
    })
}

/// What the words ask for: `--editors=3 --made 7 --count 9` asks for 3 editors of 9 files. Returns None if they are outside the grammar.
/// It takes no memory.
pub fn options_of(words: &[Bytes]) -> Option<ShareOptions>
    ensures value { result ≡ options_of words.now }
    ensures in_range { IfSome result IsWithinLimits }
{
    let one = first_of(words)?;
    let two = first_of(one.2)?;
    let three = first_of(two.2)?;
    if !three.2.is_empty() {
        return None;
    }
    options_in(one, two, three)
}
