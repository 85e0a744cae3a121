ghost use Rattle.std.specs.Prelude.{◌≡◌, ◌<◌, ◌++◌, length, OnOk};
ghost use Rattle.posting_code.specs.Numbers.{number_end};
ghost use Rattle.image_file.specs.Fields.{eight_bytes, short_text};

use byteorder::{ByteOrder, LittleEndian};
use posting_code::put_number;
use std::alloc::AllocError;

/// Appends a number in eight bytes.
pub(crate) fn put_eight(out: &mut Vec<u8>, n: u64) -> Result<(), AllocError>
    ensures { OnOk result (out.new.items ≡ out.old.items ++ eight_bytes n) }
{
    let mut bytes = [0u8; 8];
    LittleEndian::write_u64(&mut bytes, n);
    out.extend_from_slice(&bytes)?;
    Ok(())
}

/// Appends a packed length and that many bytes.
pub(crate) fn put_text(out: &mut Vec<u8>, text: &[u8]) -> Result<(), AllocError>
    requires { length text.now < number_end }
    ensures { OnOk result (out.new.items ≡ out.old.items ++ short_text text.now) }
{
    put_number(out, text.len() as u64)?;
    out.extend_from_slice(text)?;
    Ok(())
}

/// Appends bytes.
pub(crate) fn put_bytes(out: &mut Vec<u8>, bytes: &[u8]) -> Result<(), AllocError>
    ensures { OnOk result (out.new.items ≡ out.old.items ++ bytes.now) }
{
    out.extend_from_slice(bytes)?;
    Ok(())
}
