ghost use Rattle.std.specs.Prelude.{◌≡◌, ◌++◌, OnOk};
ghost use Rattle.live_version.specs.Contents.{files_of};
ghost use Rattle.image_file.specs.Fields.{short_file, short_files};
ghost use Rattle.image_file.specs.Written.{CanPack, ArePacked};

use crate::numbers::put_text;
use address_space::FileRecord;
use live_version::Version;
use posting_code::put_number;
use std::alloc::AllocError;

/// Appends all files of the version.
pub(crate) fn put_files(out: &mut Vec<u8>, version: &Version) -> Result<(), AllocError>
    requires { ArePacked 0 version.now.first (files_of version.now.slots) }
    ensures { OnOk result (out.new.items ≡ out.old.items ++ short_files 0 version.now.first (files_of version.now.slots)) }
{
    let mut id = 0;
    let mut at = version.first();
    for i in 0..version.file_count() {
        let file = version.file_at(i);
        put_file(out, id, at, file)?;
        id = file.id.0 + 1;
        at = file.base + file.len;
    }
    Ok(())
}

/// Appends a file whose id and base are at least these.
fn put_file(out: &mut Vec<u8>, id: u64, at: u64, file: &FileRecord) -> Result<(), AllocError>
    requires { CanPack id at file.now }
    ensures { OnOk result (out.new.items ≡ out.old.items ++ short_file id at file.now) }
{
    put_number(out, file.id.0 - id)?;
    put_number(out, file.base - at)?;
    put_number(out, file.len - 2)?;
    put_text(out, file.name.as_slice())?;
    Ok(())
}
