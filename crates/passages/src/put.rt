ghost use Rattle.std.specs.Prelude.{◌≡◌, ◌++◌, [], decimal, OnOk};
ghost use Rattle.passages.specs.Shown.{name_head, number_head, shown_line};
ghost use Rattle.passages.specs.Texts.{count_text, name_text};

use crate::shown::Shown;
use itoa::Buffer;
use std::alloc::AllocError;

/// Appends a number in decimal.
fn put_number(out: &mut Vec<u8>, n: u64) -> Result<(), AllocError>
    ensures { OnOk result (out.new.items ≡ out.old.items ++ decimal n) }
{
    let mut buffer = Buffer::new();
    out.extend_from_slice(buffer.format(n).as_bytes())
}

/// Appends the name and a mark, if names are shown.
fn put_name_head(out: &mut Vec<u8>, shown: &Shown, mark: u8) -> Result<(), AllocError>
    ensures { OnOk result (out.new.items ≡ out.old.items ++ name_head shown.now.name mark) }
{
    match &shown.name {
        Some(name) => {
            out.extend_from_slice(name.as_slice())?;
            out.push(mark)?;
            Ok(())
        }
        None => Ok(()),
    }
}

/// Appends a line's number and a mark, if numbers are shown.
fn put_number_head(
    out: &mut Vec<u8>,
    numbered: bool,
    mark: u8,
    number: u64,
) -> Result<(), AllocError>
    ensures { OnOk result (out.new.items ≡ out.old.items ++ number_head numbered mark number) }
{
    if numbered {
        put_number(out, number)?;
        out.push(mark)?;
    }
    Ok(())
}

/// Appends a line, with its head in front and a newline after it.
pub fn put_line(
    out: &mut Vec<u8>,
    shown: &Shown,
    mark: u8,
    number: u64,
    line: &[u8],
) -> Result<(), AllocError>
    ensures { OnOk result (out.new.items ≡ out.old.items ++ shown_line shown.now mark number line.now) }
{
    put_name_head(out, shown, mark)?;
    put_number_head(out, shown.numbered, mark, number)?;
    out.extend_from_slice(line)?;
    out.push(b'\n')?;
    Ok(())
}

/// Appends how many answers a file has: `a:2` for two in the file `a`.
pub fn put_count(out: &mut Vec<u8>, shown: &Shown, count: u64) -> Result<(), AllocError>
    ensures { OnOk result (out.new.items ≡ out.old.items ++ count_text shown.now count) }
{
    put_name_head(out, shown, b':')?;
    put_number(out, count)?;
    out.push(b'\n')?;
    Ok(())
}

/// Appends a file's name alone.
pub fn put_name(out: &mut Vec<u8>, name: &[u8]) -> Result<(), AllocError>
    ensures { OnOk result (out.new.items ≡ out.old.items ++ name_text name.now) }
{
    out.extend_from_slice(name)?;
    out.push(b'\n')?;
    Ok(())
}
