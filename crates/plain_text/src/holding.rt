ghost use Rattle.std.specs.Prelude.{◌≡◌, ◌+◌, ◌^◌, ◌≤◌, length};
ghost use Rattle.gcl_model.specs.Texts.{holds, is_word};
ghost use Rattle.plain_text.specs.Puts.{word};
ghost use Rattle.gcl_model.specs.Meaning.{holds_in_row, is_term, is_phrase};

use crate::nesting::has_width;
use crate::text::PlainText;
use gcl_model::{Bytes, Interval};

/// Whether the address holds the token.
fn holds(text: &PlainText, token: &[u8], address: u64) -> bool
    ensures { result ≡ holds text.now.words token.now address }
{
    for i in 0..text.word_count() {
        let (at, bytes) = text.word_at(i);
        if is_word(at, bytes, token, address) {
            return true;
        }
    }
    false
}

/// Whether a word, by its address and its bytes, is the token at the address.
fn is_word(at: u64, bytes: &[u8], token: &[u8], address: u64) -> bool
    ensures { result ≡ is_word token.now address (word at bytes.now) }
{
    at == address && bytes == token
}

/// Whether the tokens are in a row that starts at the address.
fn holds_in_row(text: &PlainText, tokens: &[Bytes], start: u64) -> bool
    requires { start + length tokens.now ≤ 2 ^ 64 }
    ensures { result ≡ holds_in_row text.now.words tokens.now start }
{
    for (i, token) in tokens.iter().enumerate() {
        if !holds(text, token.as_slice(), start + i as u64) {
            return false;
        }
    }
    true
}

/// Whether the pair is one address, which holds the token.
pub(crate) fn is_term(text: &PlainText, token: &[u8], pair: Interval) -> bool
    ensures { result ≡ is_term text.now token.now pair }
{
    pair.start == pair.end && holds(text, token, pair.start)
}

/// Whether the addresses of the pair hold the tokens, one each.
pub(crate) fn is_phrase(text: &PlainText, tokens: &[Bytes], pair: Interval) -> bool
    ensures { result ≡ is_phrase text.now tokens.now pair }
{
    has_width(pair, tokens.len() as u64) && holds_in_row(text, tokens, pair.start)
}
