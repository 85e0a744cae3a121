ghost use Rattle.std.specs.Prelude.{◌≡◌, ◌≤◌, length};
ghost use Rattle.std.specs.List.{prefix_len, suffix_len, position_or_len, before_first};
ghost use Rattle.gcl_model.specs.Tokens.{is_blank};
ghost use Rattle.script_lang.specs.Blanks.{behind_word};

use gcl_model::is_blank;

/// How many blanks are at the front.
pub fn front_blanks(bytes: &[u8]) -> usize
    ensures value { result ≡ prefix_len is_blank bytes.now }
    ensures bound { result ≤ length bytes.now }
{
    bytes.iter().take_while(|b| is_blank(**b)).count()
}

/// How many blanks are at the end.
pub fn back_blanks(bytes: &[u8]) -> usize
    ensures value { result ≡ suffix_len is_blank bytes.now }
    ensures bound { result ≤ length bytes.now }
{
    bytes.iter().rev().take_while(|b| is_blank(**b)).count()
}

/// The length of the first word.
fn word_len(bytes: &[u8]) -> usize
    ensures value { result ≡ position_or_len is_blank bytes.now }
    ensures bound { result ≤ length bytes.now }
{
    bytes.iter().take_while(|b| !is_blank(**b)).count()
}

/// The bytes up to the first blank: `top` of `top 2 a`.
pub fn first_word(bytes: &[u8]) -> &[u8]
    ensures { result.now ≡ before_first is_blank bytes.now }
{
    &bytes[..word_len(bytes)]
}

/// What follows the first word and the blanks after it: `2 a` of `top 2 a`.
pub fn behind_word(bytes: &[u8]) -> &[u8]
    ensures { result.now ≡ behind_word bytes.now }
{
    let rest = &bytes[word_len(bytes)..];
    &rest[front_blanks(rest)..]
}
