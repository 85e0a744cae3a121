ghost use Rattle.std.specs.Prelude.{◌≡◌, ◌++◌, length, IfOk, OnOk};
ghost use Rattle.gcl_model.specs.Collections.{Collection};
ghost use Rattle.live_version.specs.StandsFor.{StandsFor};
ghost use Rattle.live_version.specs.Contents.{files_of};
ghost use Rattle.image_file.specs.Fields.{mark, eight_bytes, short_files};
ghost use Rattle.image_file.specs.Images.{CanBeSaved, Spells, forgotten, image_of};
ghost use Rattle.image_file.specs.Written.{ArePacked};

use crate::files::put_files;
use crate::format::Format;
use crate::numbers::{put_bytes, put_eight};
use crate::terms::terms_text;
use gcl_model::Bytes;
use live_version::Version;
use std::alloc::{AllocError, Global};

/// What an image of version 1 begins with.
pub const MARK_ONE: &[u8] = b"GCLIMG01";

/// What an image of version 2 begins with.
pub const MARK_TWO: &[u8] = b"GCLIMG02";

/// The image of the collection that a version stands for, in version 2. Each live posting and each record is gone through once.
pub fn image(alloc: Global, version: &Version) -> Result<Bytes, AllocError>
    requires { CanBeSaved version.now }
    ensures spells { IfOk result (λ bytes. (c : Collection) → StandsFor version.now c → Spells Format.Two bytes (forgotten c)) }
    ensures is { IfOk result (λ bytes. (c : Collection) → StandsFor version.now c → bytes ≡ image_of c) }
{
    let text = terms_text(alloc, version)?;
    let mut out = Vec::new(alloc);
    put_all(&mut out, version, text.count, &text.bytes)?;
    Ok(Bytes::of(out))
}

/// Appends a whole image: the mark, the numbers, the files, and the given number of terms with their text.
fn put_all(out: &mut Vec<u8>, version: &Version, count: u64, terms: &[u8]) -> Result<(), AllocError>
    requires { ArePacked 0 version.now.first (files_of version.now.slots) }
    ensures { OnOk result (out.new.items ≡ out.old.items ++ mark Format.Two ++ eight_bytes version.now.first ++
        eight_bytes version.now.next ++ eight_bytes version.now.next_id ++ eight_bytes (length (files_of version.now.slots)) ++
        short_files 0 version.now.first (files_of version.now.slots) ++ eight_bytes count ++ terms.now) }
{
    put_head(out, version)?;
    put_files(out, version)?;
    put_eight(out, count)?;
    put_bytes(out, terms)
}

/// Appends the mark, the numbers and the number of files.
fn put_head(out: &mut Vec<u8>, version: &Version) -> Result<(), AllocError>
    ensures { OnOk result (out.new.items ≡ out.old.items ++ mark Format.Two ++ eight_bytes version.now.first ++
        eight_bytes version.now.next ++ eight_bytes version.now.next_id ++ eight_bytes (length (files_of version.now.slots))) }
{
    out.extend_from_slice(MARK_TWO)?;
    put_eight(out, version.first())?;
    put_eight(out, version.next())?;
    put_eight(out, version.next_id())?;
    put_eight(out, version.file_count())?;
    Ok(())
}
