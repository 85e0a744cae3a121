use crate::options::{MOST_MADE, MOST_READERS};
use crate::reader::number_within;
use gcl_model::{ADDRESS_END, Bytes};

/// The least and the greatest value of the option of this name.
fn bounds_of(name: &[u8]) -> Option<(u64, u64)> {
    match name {
        b"--first" => Some((0, ADDRESS_END)),
        b"--readers" => Some((1, MOST_READERS)),
        b"--made" => Some((0, u64::MAX)),
        b"--count" => Some((0, MOST_MADE)),
        _ => None,
    }
}

/// The name in a word, and the value if one is joined to it.
fn parted(word: &[u8]) -> (&[u8], Option<&[u8]>) {
    match word.iter().position(|b| *b == b'=') {
        Some(at) => (&word[..at], Some(&word[at + 1..])),
        None => (word, None),
    }
}

/// The first word that is no option and no value of one, or else the name whose value is missing, for a message: no
/// clause says which it is. If it is None and the words are outside the grammar, a name comes twice, or only one of
/// `--made` and `--count` comes.
pub fn wrong_word(words: &[Bytes]) -> Option<&[u8]> {
    let mut awaited: Option<&[u8]> = None;
    for word in words {
        let word = word.as_slice();
        let (name, value) = match awaited {
            Some(name) => (name, Some(word)),
            None => parted(word),
        };
        let Some((least, most)) = bounds_of(name) else {
            return Some(word);
        };
        match value {
            Some(value) if number_within(least, most, value).is_none() => return Some(word),
            Some(_) => awaited = None,
            None => awaited = Some(name),
        }
    }
    awaited
}
