ghost use Rattle.std.specs.Prelude.{◌<◌, length, IfSome, IsNone};
ghost use Rattle.image_read.specs.Reading.{IsFixed, IsPacked, HasNoPacked, IsText};

use byteorder::{ByteOrder, LittleEndian};
use posting_code::get_number;

/// A number at the front of some bytes, and what comes after it.
#[derive(Clone, Copy)]
pub(crate) struct NumberFront<'a> {
    pub(crate) value: u64,
    pub(crate) rest: &'a [u8],
}

/// Some bytes at the front of others, and what comes after them.
#[derive(Clone, Copy)]
pub(crate) struct TextFront<'a> {
    pub(crate) text: &'a [u8],
    pub(crate) rest: &'a [u8],
}

/// `len` bytes, if there are that many.
pub(crate) fn text_of_len(bytes: &[u8], len: u64) -> Option<TextFront<'_>>
    ensures some { IfSome result (λ f. IsText len bytes.now f.text.now f.rest.now) }
    ensures none { IsNone result → length bytes.now < len }
{
    if (bytes.len() as u64) < len {
        return None;
    }
    let (text, rest) = bytes.split_at(len as usize);
    Some(TextFront { text, rest })
}

/// A number of eight bytes.
pub(crate) fn eight_in_front(bytes: &[u8]) -> Option<NumberFront<'_>>
    ensures some { IfSome result (λ f. IsFixed 8 bytes.now f.value f.rest.now) }
    ensures none { IsNone result → length bytes.now < 8 }
{
    let front = text_of_len(bytes, 8)?;
    Some(NumberFront {
        value: LittleEndian::read_u64(front.text),
        rest: front.rest,
    })
}

/// A number of four bytes.
pub(crate) fn four_in_front(bytes: &[u8]) -> Option<NumberFront<'_>>
    ensures some { IfSome result (λ f. IsFixed 4 bytes.now f.value f.rest.now) }
    ensures none { IsNone result → length bytes.now < 4 }
{
    let front = text_of_len(bytes, 4)?;
    Some(NumberFront {
        value: LittleEndian::read_u32(front.text) as u64,
        rest: front.rest,
    })
}

/// A packed number.
// Most have one byte or two, and are read without a call.
#[inline(always)]
pub(crate) fn packed_in_front(bytes: &[u8]) -> Option<NumberFront<'_>>
    ensures some { IfSome result (λ f. IsPacked bytes.now f.value f.rest.now) }
    ensures none { IsNone result → HasNoPacked bytes.now }
{
    if let [byte, rest @ ..] = bytes {
        if *byte < 128 {
            return Some(NumberFront {
                value: *byte as u64,
                rest,
            });
        }
    }
    if let [low, high, rest @ ..] = bytes {
        if 128 <= *low && 0 < *high && *high < 128 {
            return Some(NumberFront {
                value: (*low - 128) as u64 + 128 * *high as u64,
                rest,
            });
        }
    }
    longer_in_front(bytes)
}

/// A packed number of any length.
#[inline(never)]
fn longer_in_front(bytes: &[u8]) -> Option<NumberFront<'_>>
    ensures some { IfSome result (λ f. IsPacked bytes.now f.value f.rest.now) }
    ensures none { IsNone result → HasNoPacked bytes.now }
{
    let number = get_number(bytes, 0)?;
    let (_, rest) = bytes.split_at(number.after);
    Some(NumberFront {
        value: number.value,
        rest,
    })
}
