ghost use Rattle.std.specs.Prelude.{◌≡◌, ℕ, ◌^◌, ◌<◌, Some, decimal, IfSome};
ghost use Rattle.made_corpus.specs.MadeFiles.{file_named};

use itoa::Buffer;
use std::str::from_utf8;

/// The number that these digits write, without a zero in front.
fn number_of(digits: &[u8]) -> Option<u64>
    ensures some { IfSome result (λ n. decimal n ≡ digits.now) }
    ensures each { (n : ℕ) → n < 2 ^ 64 → digits.now ≡ decimal n → result ≡ Some n }
{
    let text = match from_utf8(digits) {
        Ok(text) => text,
        Err(_) => return None,
    };
    let number = match text.parse::<u64>() {
        Ok(number) => number,
        Err(_) => return None,
    };
    let mut buffer = Buffer::new();
    if buffer.format(number).as_bytes() != digits {
        return None;
    }
    Some(number)
}

/// Which of `count` files has this name: of 10 files `m7` is the name of file 7, and `m07` of none.
pub fn file_named(name: &[u8], count: u64) -> Option<u64>
    ensures value { result ≡ file_named count name.now }
    ensures bound { IfSome result (λ i. i < count) }
{
    if name.is_empty() || name[0] != b'm' {
        return None;
    }
    let i = match number_of(&name[1..]) {
        Some(i) => i,
        None => return None,
    };
    if i >= count {
        return None;
    }
    Some(i)
}
