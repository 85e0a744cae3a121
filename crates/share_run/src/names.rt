ghost use Rattle.std.specs.Prelude.{◌≡◌, true, OnOk};
ghost use Rattle.gcl_model.specs.Names.{is_name};
ghost use Rattle.made_corpus.specs.MadeFiles.{name_of};

use itoa::Buffer;
use std::alloc::AllocError;

/// Puts the name of made file `i` into a buffer: for file 7 it is `m7`.
pub fn put_name(out: &mut Vec<u8>, i: u64) -> Result<(), AllocError>
    ensures value { OnOk result (out.new.items ≡ name_of i) }
    ensures name { OnOk result (is_name out.new.items ≡ true) }
{
    let mut buffer = Buffer::new();
    out.clear();
    out.extend_from_slice(b"m")?;
    out.extend_from_slice(buffer.format(i).as_bytes())?;
    Ok(())
}
