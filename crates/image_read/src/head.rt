ghost use Rattle.std.specs.Prelude.{◌≡◌, ◌-◌, ◌*◌, ◌≤◌, ◌↔◌, ◌++◌, IfSome, IsNone, IsTrue};
ghost use Rattle.image_file.specs.Fields.{mark};
ghost use Rattle.image_file.specs.Images.{end_of};
ghost use Rattle.image_read.specs.Reading.{HasNoHead, IsHead, HasNoMark};

use crate::front::eight_in_front;
use image_file::{Format, MARK_ONE, MARK_TWO};

/// The numbers at the front of an image.
#[derive(Clone, Copy)]
pub(crate) struct Head {
    pub(crate) format: Format,
    pub(crate) first: u64,
    pub(crate) next: u64,
    pub(crate) next_id: u64,
    pub(crate) files: u64,
}

/// The head of an image, and what comes after it.
#[derive(Clone, Copy)]
pub(crate) struct HeadFront<'a> {
    pub(crate) head: Head,
    pub(crate) rest: &'a [u8],
}

/// The head, if the first address and the number of ids lie within what the last address allows.
pub(crate) fn head_in_front(bytes: &[u8]) -> Option<HeadFront<'_>>
    ensures some { IfSome result (λ f. IsHead f.head.format f.head.first f.head.next f.head.next_id f.head.files bytes.now f.rest.now) }
    ensures none { IsNone result → HasNoHead bytes.now }
{
    let front = mark_in_front(bytes)?;
    let first = eight_in_front(front.rest)?;
    let next = eight_in_front(first.rest)?;
    let next_id = eight_in_front(next.rest)?;
    let files = eight_in_front(next_id.rest)?;
    let head = Head {
        format: front.format,
        first: first.value,
        next: next.value,
        next_id: next_id.value,
        files: files.value,
    };
    if !is_in_range(head) {
        return None;
    }
    Some(HeadFront {
        head,
        rest: files.rest,
    })
}

/// The version of the format, and what comes after its mark.
#[derive(Clone, Copy)]
struct MarkFront<'a> {
    format: Format,
    rest: &'a [u8],
}

/// The version of the format, by the mark at the front.
fn mark_in_front(bytes: &[u8]) -> Option<MarkFront<'_>>
    ensures some { IfSome result (λ f. bytes.now ≡ mark f.format ++ f.rest.now) }
    ensures none { IsNone result → HasNoMark bytes.now }
{
    if let Some(rest) = bytes.strip_prefix(MARK_ONE) {
        return Some(MarkFront {
            format: Format::One,
            rest,
        });
    }
    if let Some(rest) = bytes.strip_prefix(MARK_TWO) {
        return Some(MarkFront {
            format: Format::Two,
            rest,
        });
    }
    None
}

/// An id takes two addresses at least.
fn is_in_range(head: Head) -> bool
    ensures { IsTrue result ↔ (head.first ≤ head.next) × (head.next ≤ end_of head.format) × (2 * head.next_id ≤ head.next - head.first) }
{
    head.first <= head.next
        && head.next <= end_of(head.format)
        && head.next_id <= (head.next - head.first) / 2
}

/// The end of addresses.
fn end_of(format: Format) -> u64
    ensures { result ≡ end_of format }
{
    match format {
        Format::One => 1 << 48,
        Format::Two => 1 << 56,
    }
}
