ghost use Rattle.std.specs.Prelude.{IfOk, IfSome};
ghost use Rattle.image_file.specs.Images.{CanBeSaved};

use crate::checks::{holds, same};
use gcl_model::Bytes;
use image_file::image;
use image_read::{ImageFault, read_image};
use live_version::Version;
use std::alloc::{AllocError, Global};
use std::fmt::Debug;
use std::process::Abort;
use std::test::Fail;

/// An image in three parts: the mark and the numbers, the files, and the terms.
type Parts = [&'static [u8]; 3];

// A file `a` with `to be or not to be` at 0 to 7.
const HEAD_A: &[u8] = b"GCLIMG02\
    \0\0\0\0\0\0\0\0\x08\0\0\0\0\0\0\0\
    \x01\0\0\0\0\0\0\0\x01\0\0\0\0\0\0\0";

const FILE_A: &[u8] = b"\0\0\x06\x01a";

const TERMS_A: &[u8] = b"\x06\0\0\0\0\0\0\0\
    \x08</file!>\0\x07\x07<file!>\0\0\x02be\x01\x02\x04\x03not\0\x04\x02or\0\x03\x02to\x01\x01\x04";

// The empty file `b` at 8 and 9, after a file that is gone.
const HEAD_B: &[u8] = b"GCLIMG02\
    \0\0\0\0\0\0\0\0\x0a\0\0\0\0\0\0\0\
    \x02\0\0\0\0\0\0\0\x01\0\0\0\0\0\0\0";

const FILE_B: &[u8] = b"\x01\x08\0\x01b";

const TERMS_B: &[u8] = b"\x02\0\0\0\0\0\0\0\
    \x08</file!>\0\x09\x07<file!>\0\x08";

// The same in version 1.
const OLD_HEAD_B: &[u8] = b"GCLIMG01\
    \0\0\0\0\0\0\0\0\x0a\0\0\0\0\0\0\0\
    \x02\0\0\0\0\0\0\0\x01\0\0\0\0\0\0\0";

const OLD_FILE_B: &[u8] = b"\x01\0\0\0\0\0\0\0\x08\0\0\0\0\0\0\0\x02\0\0\0\0\0\0\0\
    \x01\0\0\0b";

const OLD_TERMS_B: &[u8] = b"\x02\0\0\0\0\0\0\0\
    \x08\0\0\0</file!>\x01\0\0\0\0\0\0\0\x09\x07\0\0\0<file!>\x01\0\0\0\0\0\0\0\x08";

// Two empty files, at 0 and 2, in version 1.
const HEAD_TWO: &[u8] = b"GCLIMG01\
    \0\0\0\0\0\0\0\0\x04\0\0\0\0\0\0\0\
    \x02\0\0\0\0\0\0\0\x02\0\0\0\0\0\0\0";

const FILES_TWO: &[u8] = b"\0\0\0\0\0\0\0\0\0\0\0\0\0\0\0\0\x02\0\0\0\0\0\0\0\x01\0\0\0x\
    \x01\0\0\0\0\0\0\0\x02\0\0\0\0\0\0\0\x02\0\0\0\0\0\0\0\x01\0\0\0y";

const TERMS_TWO: &[u8] = b"\x02\0\0\0\0\0\0\0\
    \x08\0\0\0</file!>\x02\0\0\0\0\0\0\0\x01\x02\x07\0\0\0<file!>\x02\0\0\0\0\0\0\0\0\x02";

const SAME_ADDRESS: &[u8] = b"\0\0\0\0\0\0\0\0\0\0\0\0\0\0\0\0\x02\0\0\0\0\0\0\0\x01\0\0\0x\
    \x01\0\0\0\0\0\0\0\x01\0\0\0\0\0\0\0\x02\0\0\0\0\0\0\0\x01\0\0\0y";

const SAME_ID: &[u8] = b"\0\0\0\0\0\0\0\0\0\0\0\0\0\0\0\0\x02\0\0\0\0\0\0\0\x01\0\0\0x\
    \0\0\0\0\0\0\0\0\x02\0\0\0\0\0\0\0\x02\0\0\0\0\0\0\0\x01\0\0\0y";

// An image without files has no terms.
const NO_TERMS: &[u8] = b"\0\0\0\0\0\0\0\0";

const EMPTY: &[u8] = b"GCLIMG02\
    \x0a\0\0\0\0\0\0\0\x0a\0\0\0\0\0\0\0\
    \0\0\0\0\0\0\0\0\0\0\0\0\0\0\0\0";

const AT_END: &[u8] = b"GCLIMG02\
    \0\0\0\0\0\0\0\x01\0\0\0\0\0\0\0\x01\
    \0\0\0\0\0\0\0\0\0\0\0\0\0\0\0\0";

const BEYOND: &[u8] = b"GCLIMG02\
    \x01\0\0\0\0\0\0\x01\x01\0\0\0\0\0\0\x01\
    \0\0\0\0\0\0\0\0\0\0\0\0\0\0\0\0";

const OLD_AT_END: &[u8] = b"GCLIMG01\
    \0\0\0\0\0\0\x01\0\0\0\0\0\0\0\x01\0\
    \0\0\0\0\0\0\0\0\0\0\0\0\0\0\0\0";

const NEW_AT_OLD_END: &[u8] = b"GCLIMG02\
    \0\0\0\0\0\0\x01\0\0\0\0\0\0\0\x01\0\
    \0\0\0\0\0\0\0\0\0\0\0\0\0\0\0\0";

const OLD_BEYOND: &[u8] = b"GCLIMG01\
    \x01\0\0\0\0\0\x01\0\x01\0\0\0\0\0\x01\0\
    \0\0\0\0\0\0\0\0\0\0\0\0\0\0\0\0";

const TURNED: &[u8] = b"GCLIMG02\
    \x0a\0\0\0\0\0\0\0\x04\0\0\0\0\0\0\0\
    \0\0\0\0\0\0\0\0\0\0\0\0\0\0\0\0";

const UNMARKED: &[u8] = b"GCLIMG03\
    \x0a\0\0\0\0\0\0\0\x0a\0\0\0\0\0\0\0\
    \0\0\0\0\0\0\0\0\0\0\0\0\0\0\0\0";

// As many files as eight bytes can say, as many terms, and as many addresses as there are.
const MANY_FILES: &[u8] = b"GCLIMG02\
    \0\0\0\0\0\0\0\0\x0a\0\0\0\0\0\0\0\
    \x02\0\0\0\0\0\0\0\xff\xff\xff\xff\xff\xff\xff\xff";

const MANY_TERMS: &[u8] = b"\xff\xff\xff\xff\xff\xff\xff\xff\
    \x08</file!>\0\x09\x07<file!>\0\x08";

const HEAD_WIDE: &[u8] = b"GCLIMG02\
    \0\0\0\0\0\0\0\0\0\0\0\0\0\0\0\x01\
    \x02\0\0\0\0\0\0\0\x01\0\0\0\0\0\0\0";

const FILE_WIDE: &[u8] = b"\x01\x08\xf6\xff\xff\xff\xff\xff\xff\x7f\x01b";

// `b` with one token that is not a token.
const HEAD_WITH_BE: &[u8] = b"GCLIMG02\
    \0\0\0\0\0\0\0\0\x0b\0\0\0\0\0\0\0\
    \x02\0\0\0\0\0\0\0\x01\0\0\0\0\0\0\0";

const FILE_WITH_BE: &[u8] = b"\x01\x08\x01\x01b";

const TERMS_WITH_BE: &[u8] = b"\x03\0\0\0\0\0\0\0\
    \x08</file!>\0\x0a\x07<file!>\0\x08\x02Be\0\x09";

// Of two ids and an unused hole, and of none where there is a hole.
const ONE_ID: &[u8] = b"GCLIMG02\
    \0\0\0\0\0\0\0\0\x0a\0\0\0\0\0\0\0\
    \x01\0\0\0\0\0\0\0\x01\0\0\0\0\0\0\0";

const TWO_IDS: &[u8] = b"GCLIMG02\
    \0\0\0\0\0\0\0\0\x02\0\0\0\0\0\0\0\
    \x02\0\0\0\0\0\0\0\x01\0\0\0\0\0\0\0";

const AT_START: &[u8] = b"\x02\0\0\0\0\0\0\0\
    \x08</file!>\0\x01\x07<file!>\0\0";

// The terms of `b`, each time with one fault.
const LONGER: &[u8] = b"\x02\0\0\0\0\0\0\0\
    \x08</file!>\0\x09\x07<file!>\0\x08\0";

const FALLING: &[u8] = b"\x02\0\0\0\0\0\0\0\
    \x07<file!>\0\x08\x08</file!>\0\x09";

const WITHOUT_START: &[u8] = b"\x01\0\0\0\0\0\0\0\
    \x08</file!>\0\x09";

const TWICE: &[u8] = b"\x02\0\0\0\0\0\0\0\
    \x08</file!>\x01\x09\0\x07<file!>\0\x08";

const OUTSIDE: &[u8] = b"\x02\0\0\0\0\0\0\0\
    \x08</file!>\x01\x01\x08\x07<file!>\0\x08";

const OTHER_ROLE: &[u8] = b"\x02\0\0\0\0\0\0\0\
    \x08</file!>\0\x09\x02be\0\x08";

// A file `a` with 149 words `a` and as many `b` by turns: lists of more than two blocks each, whose differences are all 2 except the first.
const HEAD_LONG: &[u8] = b"GCLIMG02\
    \0\0\0\0\0\0\0\0\x2c\x01\0\0\0\0\0\0\
    \x01\0\0\0\0\0\0\0\x01\0\0\0\0\0\0\0";

const FILE_LONG: &[u8] = b"\0\0\xaa\x02\x01a";

const ENDS_LONG: &[u8] = b"\x04\0\0\0\0\0\0\0\
    \x08</file!>\0\xab\x02\x07<file!>\0\0";

const A_LONG: &[u8] = b"\x01a\x94\x01\x01";

const B_LONG: &[u8] = b"\x01b\x94\x01\x02";

/// How many differences each of the two words has after its first address.
const TWOS: usize = 148;

fn joined(alloc: Global, parts: &Parts) -> Result<Vec<u8>, AllocError> {
    let mut out = Vec::new(alloc);
    for part in parts {
        out.extend_from_slice(part)?;
    }
    Ok(out)
}

/// The version that the bytes are an image of. Returns None if they are not an image.
fn read(alloc: Global, bytes: &[u8]) -> Result<Option<Version>, AllocError>
    ensures { IfOk result (λ found. IfSome found CanBeSaved) }
{
    match read_image(alloc, bytes) {
        Ok(version) => Ok(Some(version)),
        Err(ImageFault::NotImage) => Ok(None),
        Err(ImageFault::NoMemory) => Err(AllocError),
    }
}

/// Whether the bytes are an image.
fn is_image(alloc: Global, bytes: &[u8]) -> Result<bool, AllocError> {
    Ok(read(alloc, bytes)?.is_some())
}

/// What the version of this image is saved as.
fn written_back(alloc: Global, bytes: &[u8]) -> Result<Option<Bytes>, AllocError> {
    match read(alloc, bytes)? {
        Some(version) => Ok(Some(image(alloc, &version)?)),
        None => Ok(None),
    }
}

/// These bytes, and no others, were written.
fn is_written<R: Abort, C: Debug>(rt: &R, case: &C, written: Option<Bytes>, want: &[u8]) {
    match written {
        Some(written) => same(rt, case, &written.as_slice(), &want),
        None => holds(rt, case, false),
    }
}

/// The parts are an image of a version that is saved as these other parts, which are an image too.
fn is_written_as<R: Abort>(
    rt: &R,
    alloc: Global,
    case: &str,
    parts: &Parts,
    want: &Parts,
) -> Result<(), AllocError> {
    let want = joined(alloc, want)?;
    is_written(
        rt,
        &case,
        written_back(alloc, &joined(alloc, parts)?)?,
        &want,
    );
    holds(rt, &case, is_image(alloc, &want)?);
    Ok(())
}

const A: Parts = [HEAD_A, FILE_A, TERMS_A];

const B: Parts = [HEAD_B, FILE_B, TERMS_B];

const OLD_B: Parts = [OLD_HEAD_B, OLD_FILE_B, OLD_TERMS_B];

const NO_FILE: Parts = [EMPTY, b"", NO_TERMS];

const NO_ADDRESS: Parts = [AT_END, b"", NO_TERMS];

// What is read, and what is written then.
const WRITTEN: [(&str, Parts, Parts); 6] = [
    ("one file", A, A),
    ("a hole", B, B),
    ("a hole, in version 1", OLD_B, B),
    ("no file", NO_FILE, NO_FILE),
    ("no address left", NO_ADDRESS, NO_ADDRESS),
    (
        "no address left in version 1",
        [OLD_AT_END, b"", NO_TERMS],
        [NEW_AT_OLD_END, b"", NO_TERMS],
    ),
];

#[test]
fn what_is_read_is_written_as_version_two(rt: HostRuntime) -> Result<(), Fail> {
    for (case, parts, want) in &WRITTEN {
        is_written_as(&rt, rt.alloc(), case, parts, want)?;
    }
    Ok(())
}

/// The parts are not an image.
fn is_refused<R: Abort>(
    rt: &R,
    alloc: Global,
    case: &str,
    parts: &Parts,
) -> Result<(), AllocError> {
    holds(rt, &case, !is_image(alloc, &joined(alloc, parts)?)?);
    Ok(())
}

const REFUSED: [(&str, Parts); 20] = [
    ("too many files", [MANY_FILES, FILE_B, TERMS_B]),
    ("too many terms", [HEAD_B, FILE_B, MANY_TERMS]),
    ("a file that is too wide", [HEAD_WIDE, FILE_WIDE, TERMS_B]),
    ("a padded number", [HEAD_B, b"\x81\0\x08\0\x01b", TERMS_B]),
    ("a byte behind the last term", [HEAD_B, FILE_B, LONGER]),
    ("terms that fall", [HEAD_B, FILE_B, FALLING]),
    ("an address without a term", [HEAD_B, FILE_B, WITHOUT_START]),
    ("an address twice under a term", [HEAD_B, FILE_B, TWICE]),
    ("an end that is none", [HEAD_B, FILE_B, OUTSIDE]),
    ("a start that is a word", [HEAD_B, FILE_B, OTHER_ROLE]),
    ("no token", [HEAD_WITH_BE, FILE_WITH_BE, TERMS_WITH_BE]),
    ("no name", [HEAD_B, b"\x01\x08\0\x01\x0a", TERMS_B]),
    ("a hole, but no id", [ONE_ID, b"\0\x08\0\x01b", TERMS_B]),
    ("an id, but no hole", [TWO_IDS, b"\0\0\0\x01b", AT_START]),
    ("two at one address", [HEAD_TWO, SAME_ADDRESS, TERMS_TWO]),
    ("two with one id", [HEAD_TWO, SAME_ID, TERMS_TWO]),
    ("a first address behind the next", [TURNED, b"", NO_TERMS]),
    ("the end of version 1", [OLD_BEYOND, b"", NO_TERMS]),
    ("the end of version 2", [BEYOND, b"", NO_TERMS]),
    ("the mark of no version", [UNMARKED, b"", NO_TERMS]),
];

#[test]
fn what_is_laid_out_otherwise_is_no_image(rt: HostRuntime) -> Result<(), Fail> {
    for (case, parts) in &REFUSED {
        is_refused(&rt, rt.alloc(), case, parts)?;
    }
    let two_files = joined(rt.alloc(), &[HEAD_TWO, FILES_TWO, TERMS_TWO])?;
    holds(&rt, &"two files", is_image(rt.alloc(), &two_files)?);
    Ok(())
}

/// No front part of the bytes is an image.
fn has_no_image_in_front<R: Abort>(rt: &R, alloc: Global, bytes: &[u8]) -> Result<(), AllocError> {
    for len in 0..bytes.len() {
        let (front, _) = bytes.split_at(len);
        holds(rt, &len, !is_image(alloc, front)?);
    }
    Ok(())
}

#[test]
fn no_front_part_of_an_image_is_one(rt: HostRuntime) -> Result<(), Fail> {
    for parts in &[A, OLD_B, NO_FILE] {
        has_no_image_in_front(&rt, rt.alloc(), &joined(rt.alloc(), parts)?)?;
    }
    Ok(())
}

/// Bytes whose byte at `i` was changed are written back unchanged, if they are an image. Returns whether they are one.
fn is_kept<R: Abort>(rt: &R, alloc: Global, bytes: &[u8], i: usize) -> Result<bool, AllocError> {
    let written = written_back(alloc, bytes)?;
    let taken = written.is_some();
    if taken {
        is_written(rt, &i, written, bytes);
    }
    Ok(taken)
}

/// How many of these bytes can be made one greater so that the bytes are still an image, which is written back unchanged.
fn kept_changes<R: Abort>(rt: &R, alloc: Global, bytes: &mut [u8]) -> Result<u64, AllocError> {
    let mut kept = 0u64;
    for i in 0..bytes.len() {
        let byte = bytes[i];
        bytes[i] = byte.wrapping_add(1);
        if is_kept(rt, alloc, bytes, i)? {
            kept = kept.wrapping_add(1);
        }
        bytes[i] = byte;
    }
    Ok(kept)
}

#[test]
fn a_changed_byte_is_refused_or_written_back(rt: HostRuntime) -> Result<(), Fail> {
    let mut kept = 0u64;
    for parts in &[A, B] {
        let mut bytes = joined(rt.alloc(), parts)?;
        kept = kept.wrapping_add(kept_changes(&rt, rt.alloc(), &mut bytes)?);
    }
    holds(&rt, &"a changed byte is taken", 0 < kept);
    Ok(())
}

/// The image of long lists, with these bytes in place of those at a place of the differences after the first address of `a`, and others
/// in place of those of `b`.
fn long_image(alloc: Global, a: (usize, &[u8]), b: (usize, &[u8])) -> Result<Vec<u8>, AllocError> {
    let mut out = joined(alloc, &[HEAD_LONG, FILE_LONG, ENDS_LONG])?;
    out.extend_from_slice(A_LONG)?;
    put_twos(&mut out, a)?;
    out.extend_from_slice(B_LONG)?;
    put_twos(&mut out, b)?;
    Ok(out)
}

/// Puts the differences of a word, with these bytes in place of those at a place.
fn put_twos(out: &mut Vec<u8>, change: (usize, &[u8])) -> Result<(), AllocError> {
    let (place, bytes) = change;
    for i in 0..TWOS {
        let put = match i.checked_sub(place) {
            Some(behind) => bytes.get(behind).copied().unwrap_or(2),
            None => 2,
        };
        out.push(put)?;
    }
    Ok(())
}

const SAME: (usize, &[u8]) = (0, b"");

// What is changed in the differences of `a`, and in those of `b`.
const CHANGED: [(&str, (usize, &[u8]), (usize, &[u8])); 8] = [
    ("a difference of nothing", (63, b"\0"), SAME),
    ("the address before it again", SAME, (70, b"\0\x04")),
    ("an address of another word", SAME, (64, b"\x01\x03")),
    ("the end of the file", SAME, (147, b"\x03")),
    ("beyond the file", SAME, (147, b"\x7f")),
    ("an address without a word", SAME, (147, b"\x01")),
    ("a padded difference", (64, b"\x82\0"), SAME),
    ("a difference without an end", SAME, (147, b"\x82")),
];

#[test]
fn long_lists_are_taken_over_exactly(rt: HostRuntime) -> Result<(), Fail> {
    for (case, a, b) in &CHANGED {
        let bytes = long_image(rt.alloc(), *a, *b)?;
        holds(&rt, case, !is_image(rt.alloc(), &bytes)?);
    }
    let mut whole = long_image(rt.alloc(), SAME, SAME)?;
    is_written(&rt, &"whole", written_back(rt.alloc(), &whole)?, &whole);
    kept_changes(&rt, rt.alloc(), &mut whole)?;
    Ok(())
}
