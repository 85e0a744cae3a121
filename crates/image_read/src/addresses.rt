ghost use Rattle.std.specs.Prelude.{◌≡◌, ◌≤◌, IfOk, IfSome, IsNone};
ghost use Rattle.gcl_model.specs.Limits.{address_end};
ghost use Rattle.image_read.specs.Reading.{HasNoAddresses, HasNoCount, HasNoNextAddress, IsAddressesFront};
ghost use Rattle.image_read.specs.Reading.{IsCountFront, IsNextAddress, SeesAll};

use crate::front::{NumberFront, eight_in_front, packed_in_front};
use crate::head::Head;
use crate::places::{Places, Role};
use image_file::Format;
use posting_code::PackedMaker;
use std::alloc::{AllocError, Global};

/// Reads the addresses of a term, and sees them. What comes after them is the rest behind the list.
pub(crate) fn read_addresses<'a>(
    alloc: Global,
    head: Head,
    places: &mut Places<'_>,
    role: Role,
    bytes: &'a [u8],
) -> Result<Option<PackedMaker<'a>>, AllocError>
    requires ordered { head.first ≤ head.next }
    requires in_range { head.next ≤ address_end }
    ensures some { IfOk result
        (λ found. IfSome found (λ f. IsAddressesFront head.format head.first head.next places.old role bytes.now f.list f.rest)) }
    ensures files { IfOk result (λ found. places.new.files ≡ places.old.files) }
    ensures sees { IfOk result (λ found. IfSome found (λ f. SeesAll places.old places.new f.list)) }
    ensures none { IfOk result (λ found. IsNone found → HasNoAddresses head.format head.first head.next places.old role bytes.now) }
{
    let Some(count) = count_in_front(head.format, bytes) else {
        return Ok(None);
    };
    let Some(first) = next_address(head, places, role, head.first, head.first, count.rest) else {
        return Ok(None);
    };
    let mut list = PackedMaker::new(alloc, first.address, first.rest);
    let mut before = first.address;
    for i in 1..count.value {
        let Some(next) = next_address(head, places, role, before, before + 1, list.rest()) else {
            return Ok(None);
        };
        list.pass(next.address, next.rest)?;
        before = next.address;
    }
    Ok(Some(list))
}

/// An address at the front of some bytes, and what comes after it.
#[derive(Clone, Copy)]
struct AddressFront<'a> {
    address: u64,
    rest: &'a [u8],
}

/// Reads the next address of a term, and sees it: it is at least `least`, and the bytes have its difference from the one before.
#[inline(always)]
fn next_address<'a>(
    head: Head,
    places: &mut Places<'_>,
    role: Role,
    before: u64,
    least: u64,
    bytes: &'a [u8],
) -> Option<AddressFront<'a>>
    requires after { before ≤ least }
    requires within { least ≤ head.next }
    requires in_range { head.next ≤ address_end }
    ensures some { IfSome result (λ f. IsNextAddress least head.next places.old places.new role before bytes.now f.address f.rest.now) }
    ensures none { IsNone result → HasNoNextAddress least head.next places.old role before bytes.now }
    ensures files { places.new.files ≡ places.old.files }
{
    let gap = packed_in_front(bytes)?;
    let address = before + gap.value;
    if address < least || head.next <= address || !places.see(address, role) {
        return None;
    }
    Some(AddressFront {
        address,
        rest: gap.rest,
    })
}

/// How many addresses a term has, which is at least one.
fn count_in_front(format: Format, bytes: &[u8]) -> Option<NumberFront<'_>>
    ensures some { IfSome result (λ f. IsCountFront format bytes.now f.value f.rest.now) }
    ensures none { IsNone result → HasNoCount format bytes.now }
{
    match format {
        Format::One => {
            let count = eight_in_front(bytes)?;
            if count.value == 0 {
                return None;
            }
            Some(count)
        }
        Format::Two => {
            let less = packed_in_front(bytes)?;
            Some(NumberFront {
                value: less.value + 1,
                rest: less.rest,
            })
        }
    }
}
