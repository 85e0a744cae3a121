ghost use Rattle.std.specs.Prelude.{◌≡◌, ◌≤◌, length};
ghost use Rattle.std.specs.List.{prefix_len};
ghost use Rattle.query_names.specs.Names.{is_name, is_name_byte, name_len};

/// A letter, a digit or `_`.
fn is_name_byte(b: u8) -> bool
    ensures { result ≡ is_name_byte b }
{
    b.is_ascii_alphanumeric() || b == b'_'
}

/// How many bytes at the front may belong to a name.
fn front_len(bytes: &[u8]) -> usize
    ensures value { result ≡ prefix_len is_name_byte bytes.now }
    ensures bound { result ≤ length bytes.now }
{
    bytes.iter().take_while(|b| is_name_byte(**b)).count()
}

/// The length in bytes of the name at the front, 0 if there is none.
pub fn name_len(bytes: &[u8]) -> usize
    ensures value { result ≡ name_len bytes.now }
    ensures bound { result ≤ length bytes.now }
{
    match bytes {
        [first, rest @ ..] if first.is_ascii_alphabetic() => 1 + front_len(rest),
        _ => 0,
    }
}

/// Whether these bytes are a name: a letter, then letters, digits and `_`.
pub fn is_name(bytes: &[u8]) -> bool
    ensures { result ≡ is_name bytes.now }
{
    !bytes.is_empty() && name_len(bytes) == bytes.len()
}
