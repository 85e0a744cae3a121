ghost use Rattle.std.specs.Prelude.{◌≡◌, ◌+◌, ◌≤◌, ◌<◌, true, length, IfOk, IfSome, IsTrue};
ghost use Rattle.std.specs.List.{AllByRecursion};
ghost use Rattle.posting_code.specs.Numbers.{number_end};
ghost use Rattle.gcl_model.specs.Collections.{IsToken, width_of};
ghost use Rattle.gcl_model.specs.Limits.{address_end, most_slots, version_end};
ghost use Rattle.gcl_model.specs.Names.{is_name};
ghost use Rattle.address_space.specs.Runs.{range_of};
ghost use Rattle.live_version.specs.Changes.{HasTokens};
ghost use Rattle.image_file.specs.Images.{CanBeSaved};

use crate::checks::same;
use address_space::{FileId, FileRecord, is_name};
use gcl_model::{ADDRESS_END, Bytes, TokenList};
use image_file::image;
use index_shard::Shard;
use live_version::Version;
use shard_build::build;
use std::alloc::{AllocError, Global};
use std::process::Abort;
use std::test::Fail;
use word_tokens::tokens;

const OF_A: &[u8] = b"GCLIMG02\
    \x00\x00\x00\x00\x00\x00\x00\x00\x08\x00\x00\x00\x00\x00\x00\x00\x01\x00\x00\x00\x00\x00\x00\x00\x01\x00\x00\x00\x00\x00\x00\x00\
    \x00\x00\x06\x01a\x06\x00\x00\x00\x00\x00\x00\x00\
    \x08</file!>\x00\x07\x07<file!>\x00\x00\x02be\x01\x02\x04\x03not\x00\x04\x02or\x00\x03\x02to\x01\x01\x04";

const OF_B: &[u8] = b"GCLIMG02\
    \x00\x00\x00\x00\x00\x00\x00\x00\x0a\x00\x00\x00\x00\x00\x00\x00\x02\x00\x00\x00\x00\x00\x00\x00\x01\x00\x00\x00\x00\x00\x00\x00\
    \x01\x08\x00\x01b\x02\x00\x00\x00\x00\x00\x00\x00\
    \x08</file!>\x00\x09\x07<file!>\x00\x08";

const EMPTY: &[u8] = b"GCLIMG02\
    \x05\x00\x00\x00\x00\x00\x00\x00\x05\x00\x00\x00\x00\x00\x00\x00\x00\x00\x00\x00\x00\x00\x00\x00\x00\x00\x00\x00\x00\x00\x00\x00\
    \x00\x00\x00\x00\x00\x00\x00\x00";

fn start(alloc: Global, first: u64) -> Version
    requires { first ≤ address_end }
    ensures { CanBeSaved result }
{
    Version::empty(alloc, first)
}

/// The version with one more file. Returns None if it may not be added.
#[tactic(auto, using(crate::proofs::images::Shorts::tokens_are))]
fn added(
    alloc: Global,
    version: &Version,
    name: &[u8],
    text: &[u8],
) -> Result<Option<Version>, AllocError>
    requires { CanBeSaved version.now }
    ensures { IfOk result (λ found. IfSome found CanBeSaved) }
{
    let tokens = tokens(alloc, text)?;
    let base = version.next();
    let len = tokens.len() as u64 + 2;
    if !is_name(name)
        || !are_short(tokens.as_slice())
        || ADDRESS_END - base < len
        || 32 <= version.slot_count()
        || version.number() > 999
        || version.next_id() > 999
    {
        return Ok(None);
    }
    let file = FileRecord {
        id: FileId(version.next_id()),
        base,
        len,
        name: Bytes::copy_of(alloc, name)?,
    };
    let shard = build(alloc, base, &tokens)?;
    let more = saved(version, file, shard, &tokens)?;
    Ok(Some(more))
}

fn saved(
    version: &Version,
    file: FileRecord,
    shard: Shard,
    tokens: &TokenList,
) -> Result<Version, AllocError>
    requires can { CanBeSaved version.now }
    requires few { length version.now.slots < most_slots }
    requires id { file.id ≡ version.now.next_id }
    requires base { file.base ≡ version.now.next }
    requires range { shard.range ≡ range_of file }
    requires ids { version.now.next_id < version_end }
    requires number { version.now.number < version_end }
    requires has { HasTokens file shard tokens.now }
    requires fits { version.now.next + width_of tokens.now ≤ address_end }
    requires named { is_name file.name ≡ true }
    requires are { AllByRecursion IsToken tokens.now }
    requires short { AllByRecursion (λ token. length token < number_end) tokens.now }
    ensures { IfOk result CanBeSaved }
{
    version.with_file(file, shard)
}

#[tactic(auto, using(crate::proofs::images::Shorts::short_left))]
fn are_short(tokens: &[Bytes]) -> bool
    ensures { IsTrue result → AllByRecursion (λ token. length token < number_end) tokens.now }
{
    for token in tokens {
        if token.len() >= 1 << 56 {
            return false;
        }
    }
    true
}

/// The version without this file. Returns None if it has no such file, or its number is above 999.
fn deleted(version: &Version, id: u64) -> Result<Option<Version>, AllocError>
    requires { CanBeSaved version.now }
    ensures { IfOk result (λ found. IfSome found CanBeSaved) }
{
    if version.find_file(FileId(id)).is_none() || version.number() > 999 {
        return Ok(None);
    }
    Ok(Some(version.without_file(FileId(id))?))
}

/// The version is saved as these bytes.
fn is_image<R: Abort>(
    rt: &R,
    alloc: Global,
    version: &Version,
    want: &[u8],
) -> Result<(), AllocError>
    requires { CanBeSaved version.now }
{
    same(rt, &"image", &image(alloc, version)?.as_slice(), &want);
    Ok(())
}

#[test]
fn a_collection_without_files_has_48_bytes(rt: HostRuntime) -> Result<(), Fail> {
    is_image(&rt, rt.alloc(), &start(rt.alloc(), 5), EMPTY)?;
    Ok(())
}

/// The version of only the file `a`.
fn with_a<R: Abort>(rt: &R, alloc: Global) -> Result<Version, AllocError>
    ensures { IfOk result CanBeSaved }
{
    let version = start(alloc, 0);
    let more = added(alloc, &version, b"a", b"to be or not to be")?;
    Ok(more.expect(rt, "a may be added"))
}

/// The version with the file `b`, which is empty, and without its first file.
fn with_b_for_a<R: Abort>(rt: &R, alloc: Global, version: &Version) -> Result<Version, AllocError>
    requires { CanBeSaved version.now }
    ensures { IfOk result CanBeSaved }
{
    let both = added(alloc, version, b"b", b"")?.expect(rt, "b may be added");
    Ok(deleted(&both, 0)?.expect(rt, "a survives"))
}

#[test]
fn an_image_has_the_files_that_survive(rt: HostRuntime) -> Result<(), Fail> {
    let one = with_a(&rt, rt.alloc())?;
    is_image(&rt, rt.alloc(), &one, OF_A)?;
    let left = with_b_for_a(&rt, rt.alloc(), &one)?;
    is_image(&rt, rt.alloc(), &left, OF_B)?;
    Ok(())
}
