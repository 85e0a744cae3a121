ghost use Rattle.std.specs.Prelude.{◌≡◌, ◌+◌, ◌≤◌, ◌<◌, ◌↔◌, IfOk, IfSome, IsNone, IsTrue};
ghost use Rattle.gcl_model.specs.Limits.{address_end};
ghost use Rattle.gcl_model.specs.Collections.{FitsHole};
ghost use Rattle.image_file.specs.declared.format.Format.TheVariants.{One, Two};
ghost use Rattle.image_read.specs.Reading.{HasNoFile, HasNoFiles, IsFileFront, IsFilesFront, IsNextFile};
ghost use Rattle.image_read.specs.Fronts.{entry};

use crate::front::{eight_in_front, four_in_front, packed_in_front, text_of_len};
use crate::head::Head;
use address_space::{FileId, FileRecord, FileRun, is_name};
use gcl_model::Bytes;
use image_file::Format;
use std::alloc::{AllocError, Global};

/// A file at the front of some bytes, and what comes after it.
#[derive(Clone, Copy)]
struct FileFront<'a> {
    id: u64,
    base: u64,
    len: u64,
    name: &'a [u8],
    rest: &'a [u8],
}

/// The least id and the least address that the next file may have.
#[derive(Clone, Copy)]
struct Least {
    id: u64,
    base: u64,
}

/// All files of an image, and what comes after them.
#[derive(Drop)]
pub(crate) struct FilesFront<'a> {
    pub(crate) files: FileRun,
    pub(crate) rest: &'a [u8],
}

/// As many files as the head says, if they fill its addresses.
pub(crate) fn read_files<'a>(
    alloc: Global,
    head: Head,
    bytes: &'a [u8],
) -> Result<Option<FilesFront<'a>>, AllocError>
    requires ordered { head.first ≤ head.next }
    requires in_range { head.next ≤ address_end }
    requires ids { head.next_id ≤ address_end }
    ensures some { IfOk result (λ found. IfSome found (λ f.
        IsFilesFront head.format head.first head.next head.next_id head.files bytes.now f.files f.rest.now)) }
    ensures none { IfOk result (λ found. IsNone found → HasNoFiles head.format head.first head.next head.next_id head.files bytes.now) }
{
    let mut files = FileRun::new(alloc);
    let mut least = Least {
        id: 0,
        base: head.first,
    };
    let mut rest = bytes;
    for i in 0..head.files {
        let Some(file) = file_in_front(head.format, least, rest) else {
            return Ok(None);
        };
        if !fits(head, least, file) {
            return Ok(None);
        }
        files.push(record_of(alloc, file)?)?;
        least = behind(file);
        rest = file.rest;
    }
    if !fits_hole(head.next - least.base, head.next_id - least.id) {
        return Ok(None);
    }
    Ok(Some(FilesFront { files, rest }))
}

/// The file was found to fit, so neither sum passes the end.
fn behind(file: FileFront<'_>) -> Least
    requires id { file.id < address_end }
    requires end { file.base + file.len ≤ address_end }
    ensures id { result.id ≡ file.entry.id + 1 }
    ensures base { result.base ≡ file.entry.base + file.entry.len }
{
    Least {
        id: file.id + 1,
        base: file.base + file.len,
    }
}

fn record_of(alloc: Global, file: FileFront<'_>) -> Result<FileRecord, AllocError>
    requires len { 2 ≤ file.len }
    requires end { file.base + file.len ≤ address_end }
    ensures { IfOk result (λ made. made ≡ entry file.entry.id file.entry.base file.entry.len file.entry.name.now) }
{
    Ok(FileRecord {
        id: FileId(file.id),
        base: file.base,
        len: file.len,
        name: Bytes::copy_of(alloc, file.name)?,
    })
}

/// The file at the front of some bytes, after an id and an address.
fn file_in_front<'a>(format: Format, least: Least, bytes: &'a [u8]) -> Option<FileFront<'a>>
    requires id { least.id ≤ address_end }
    requires base { least.base ≤ address_end }
    ensures some { IfSome result (λ f. IsFileFront format least.id least.base bytes.now (entry f.id f.base f.len f.name.now) f.rest.now) }
    ensures none { IsNone result → HasNoFile format least.id least.base bytes.now }
{
    match format {
        Format::One => long_file(bytes),
        Format::Two => short_file(least, bytes),
    }
}

fn long_file(bytes: &[u8]) -> Option<FileFront<'_>>
    ensures some { IfSome result (λ f. IsFileFront One 0 0 bytes.now (entry f.id f.base f.len f.name.now) f.rest.now) }
    ensures none { IsNone result → HasNoFile One 0 0 bytes.now }
{
    let id = eight_in_front(bytes)?;
    let base = eight_in_front(id.rest)?;
    let len = eight_in_front(base.rest)?;
    let size = four_in_front(len.rest)?;
    let name = text_of_len(size.rest, size.value)?;
    Some(FileFront {
        id: id.value,
        base: base.value,
        len: len.value,
        name: name.text,
        rest: name.rest,
    })
}

fn short_file(least: Least, bytes: &[u8]) -> Option<FileFront<'_>>
    requires id { least.id ≤ address_end }
    requires base { least.base ≤ address_end }
    ensures some { IfSome result (λ f. IsFileFront Two least.id least.base bytes.now (entry f.id f.base f.len f.name.now) f.rest.now) }
    ensures none { IsNone result → HasNoFile Two least.id least.base bytes.now }
{
    let id = packed_in_front(bytes)?;
    let base = packed_in_front(id.rest)?;
    let len = packed_in_front(base.rest)?;
    let size = packed_in_front(len.rest)?;
    let name = text_of_len(size.rest, size.value)?;
    Some(FileFront {
        id: least.id + id.value,
        base: least.base + base.value,
        len: len.value + 2,
        name: name.text,
        rest: name.rest,
    })
}

/// Whether the file may be the next one.
fn fits(head: Head, least: Least, file: FileFront<'_>) -> bool
    ensures { IsTrue result ↔ IsNextFile head.next head.next_id least.id least.base
        (entry file.entry.id file.entry.base file.entry.len file.entry.name.now) }
{
    least.id <= file.id
        && file.id < head.next_id
        && least.base <= file.base
        && file.base <= head.next
        && 2 <= file.len
        && file.len <= head.next - file.base
        && fits_hole(file.base - least.base, file.id - least.id)
        && is_name(file.name)
}

/// Whether `addresses` addresses may lie between two files that leave out `ids` ids between theirs.
fn fits_hole(addresses: u64, ids: u64) -> bool
    ensures { IsTrue result ↔ FitsHole addresses ids }
{
    if ids == 0 {
        return addresses == 0;
    }
    ids <= addresses / 2
}
