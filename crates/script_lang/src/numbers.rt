ghost use Rattle.std.specs.Prelude.{◌≡◌};
ghost use Rattle.script_lang.specs.Numbers.{number_of};

// More digits than this are no number, so that each number fits.
const MOST_DIGITS: usize = 18;

/// The number that 1 to 18 decimal digits write, or None for other bytes: `007` is 7, and `7a` is None.
pub fn number_of(text: &[u8]) -> Option<u64>
    ensures { result ≡ number_of text.now }
{
    if text.is_empty() || text.len() > MOST_DIGITS {
        return None;
    }
    let mut number = 0;
    for b in text {
        if !b.is_ascii_digit() {
            return None;
        }
        number = number * 10 + u64::from(*b - b'0');
    }
    Some(number)
}
