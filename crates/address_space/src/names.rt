ghost use Rattle.std.specs.Prelude.{◌≡◌};
ghost use Rattle.std.specs.List.{list_all};
ghost use Rattle.std.specs.Str.{is_utf8};
ghost use Rattle.gcl_model.specs.Names.{is_name, is_plain_byte};
ghost use Rattle.gcl_model.specs.Tokens.{starts_with_byte, ends_with_byte};

use bstr::ByteSlice;

/// A name has at most this many bytes.
pub const NAME_MOST: usize = 65_536;

fn is_utf8(bytes: &[u8]) -> bool
    ensures { result ≡ is_utf8 bytes.now }
{
    bytes.is_utf8()
}

/// No control byte of ASCII is among them.
fn all_plain(bytes: &[u8]) -> bool
    ensures { result ≡ list_all is_plain_byte bytes.now }
{
    bytes.iter().all(|b| *b >= 32 && *b != 127)
}

fn starts_with_space(bytes: &[u8]) -> bool
    ensures { result ≡ starts_with_byte 32 bytes.now }
{
    match bytes {
        [first, ..] => *first == b' ',
        [] => false,
    }
}

fn ends_with_space(bytes: &[u8]) -> bool
    ensures { result ≡ ends_with_byte 32 bytes.now }
{
    match bytes {
        [.., last] => *last == b' ',
        [] => false,
    }
}

/// Whether a file may have this name: `a b` is a name, and ` a` is not.
pub fn is_name(bytes: &[u8]) -> bool
    ensures { result ≡ is_name bytes.now }
{
    1 <= bytes.len()
        && bytes.len() <= NAME_MOST
        && is_utf8(bytes)
        && all_plain(bytes)
        && !starts_with_space(bytes)
        && !ends_with_space(bytes)
}
