ghost use Rattle.std.specs.Prelude.{◌≡◌, ◌+◌, ℕ, List, min, length, take_while, true};
ghost use Rattle.std.specs.List.{list_all};
ghost use Rattle.std.specs.Char.{is_ascii_digit};
ghost use Rattle.std.specs.Str.Parse.{digits_value};
ghost use Rattle.gcl_model.specs.Limits.{address_end};
ghost use Rattle.gcl_parser.specs.QueryTokens.{width_token};
ghost use Rattle.gcl_parser.specs.Scanned.{shown, HasRange};

use crate::fault::QueryKind;
use crate::token::Token;
use gcl_model::ADDRESS_END;

/// How many digits are in front.
pub fn digit_count(bytes: &[u8]) -> usize
    ensures { result ≡ length (take_while is_ascii_digit bytes.now) }
{
    bytes
        .iter()
        .take_while(|byte| byte.is_ascii_digit())
        .count()
}

/// The number that the digits write, or `ADDRESS_END + 1` if it is more.
fn capped_value(digits: &[u8]) -> u64
    requires { list_all is_ascii_digit digits.now ≡ true }
    ensures { result ≡ min (digits_value 10 digits.now) (address_end + 1) }
{
    let mut value = 0;
    for digit in digits {
        value = (value * 10 + u64::from(*digit - b'0')).min(ADDRESS_END + 1);
    }
    value
}

/// The width that the digits write, or what is wrong with it.
pub fn width_of(digits: &[u8]) -> Token
    requires { list_all is_ascii_digit digits.now ≡ true }
    ensures token { (text : List ℕ) → shown text result ≡ width_token (digits_value 10 digits.now) }
    ensures range { (text : List ℕ) → HasRange text result }
{
    let value = capped_value(digits);
    if value >= 1 && value <= ADDRESS_END {
        Token::Width(value)
    } else {
        Token::Broken(QueryKind::BadWidth)
    }
}
