ghost use Rattle.std.specs.Prelude.{◌≡◌, ◌≤◌, [], map, IfOk, IfSome, IsErrOf, IsNone};
ghost use Rattle.std.specs.Option.{option_to_list};
ghost use Rattle.gcl_model.specs.Limits.{address_end};
ghost use Rattle.gcl_model.specs.Slots.{ranges_spanned};
ghost use Rattle.address_space.specs.Runs.{range_of};
ghost use Rattle.index_shard.specs.Tables.{IsShard};
ghost use Rattle.image_read.specs.Reading.{AreAllFiles, HasNoTerms};
ghost use Rattle.image_read.specs.Tables.{AreReadTerms, IsRangeOf, IsReadFrom};
ghost use Rattle.image_read.specs.Answers.{IsImageOf, IsNoImage};
ghost use Rattle.image_read.specs.declared.fault.ImageFault.TheVariants.{NotImage};

use crate::fault::ImageFault;
use crate::files::{FilesFront, read_files};
use crate::front::eight_in_front;
use crate::head::{Head, head_in_front};
use crate::places::Places;
use crate::terms::read_terms;
use address_space::Range;
use index_shard::Shard;
use live_version::{Slot, Version};
use std::alloc::{AllocError, Global};

/// The version that the bytes are an image of, in either version of the format, as it is when it was just opened: one slot from the
/// first file to the last, or none. Unless memory runs out, it returns `NotImage` exactly if the bytes are the image of no collection,
/// so `b"GCLIMG02"` alone gives it.
pub fn read_image(alloc: Global, bytes: &[u8]) -> Result<Version, ImageFault>
    ensures ok { IfOk result (λ version. IsImageOf bytes.now version) }
    ensures not_image { IsErrOf result NotImage → IsNoImage bytes.now }
{
    match found_in(alloc, bytes)? {
        Some(version) => Ok(version),
        None => Err(ImageFault::NotImage),
    }
}

/// The same, with None if the bytes are no image.
fn found_in(alloc: Global, bytes: &[u8]) -> Result<Option<Version>, AllocError>
    ensures some { IfOk result (λ found. IfSome found (λ version. IsImageOf bytes.now version)) }
    ensures none { IfOk result (λ found. IsNone found → IsNoImage bytes.now) }
{
    let Some(front) = head_in_front(bytes) else {
        return Ok(None);
    };
    let Some(files) = read_files(alloc, front.head, front.rest)? else {
        return Ok(None);
    };
    let version = version_of(alloc, front.head, files)?;
    Ok(version)
}

/// The version with these files and the terms after them.
fn version_of(
    alloc: Global,
    head: Head,
    front: FilesFront<'_>,
) -> Result<Option<Version>, AllocError>
    requires in_range { head.next ≤ address_end }
    requires ordered { head.first ≤ head.next }
    requires files { AreAllFiles head.next head.next_id 0 head.first front.files }
    ensures some { IfOk result (λ found. IfSome found (λ v.
        IsReadFrom head.format head.first head.next head.next_id front.entry.files front.entry.rest.now v)) }
    ensures none { IfOk result (λ found. IsNone found →
        HasNoTerms head.format head.first head.next front.entry.files front.entry.rest.now) }
{
    let Some(range) = range_of_files(&front) else {
        return empty_version(alloc, head, front.rest);
    };
    let Some(shard) = shard_of(alloc, head, range, &front)? else {
        return Ok(None);
    };
    let slot = Slot::new(alloc, range, shard, front.files)?;
    let version = Version::of_slot(alloc, head.first, head.next, head.next_id, Some(slot))?;
    Ok(Some(version))
}

/// The index of the files.
fn shard_of(
    alloc: Global,
    head: Head,
    range: Range,
    front: &FilesFront<'_>,
) -> Result<Option<Shard>, AllocError>
    requires ordered { head.first ≤ head.next }
    requires in_range { head.next ≤ address_end }
    requires range { IsRangeOf range front.now.files }
    ensures some { IfOk result
        (λ found. IfSome found (λ shard. AreReadTerms head.format head.first head.next front.now.files front.now.rest.now shard.table)) }
    ensures range { IfOk result (λ found. IfSome found (λ shard. shard.range ≡ range)) }
    ensures shard { IfOk result (λ found. IfSome found IsShard) }
    ensures none { IfOk result (λ found. IsNone found → HasNoTerms head.format head.first head.next front.now.files front.now.rest.now) }
{
    let Some(mut places) = Places::new(alloc, front.files.as_slice(), front.rest.len())? else {
        return Ok(None);
    };
    read_terms(alloc, head, range, &mut places, front.rest)
}

/// Without files there are no terms.
fn empty_version(alloc: Global, head: Head, bytes: &[u8]) -> Result<Option<Version>, AllocError>
    requires in_range { head.next ≤ address_end }
    requires ordered { head.first ≤ head.next }
    ensures some { IfOk result (λ found. IfSome found (λ v. IsReadFrom head.format head.first head.next head.next_id [] bytes.now v)) }
    ensures none { IfOk result (λ found. IsNone found → HasNoTerms head.format head.first head.next [] bytes.now) }
{
    let Some(count) = eight_in_front(bytes) else {
        return Ok(None);
    };
    if count.value != 0 || !count.rest.is_empty() {
        return Ok(None);
    }
    let version = Version::of_slot(alloc, head.first, head.next, head.next_id, None)?;
    Ok(Some(version))
}

/// From the base of the first file to the last address of the last one.
fn range_of_files(front: &FilesFront<'_>) -> Option<Range>
    ensures some { IfSome result (λ range. IsRangeOf range front.now.files) }
    ensures spanned { option_to_list result ≡ ranges_spanned (map range_of front.now.files) }
{
    match front.files.as_slice() {
        [] => None,
        [only] => Some(only.record().range()),
        [first, .., last] => Some(Range {
            first: first.record().base,
            last: last.record().range().last,
        }),
    }
}
