ghost use Rattle.std.specs.Prelude.{◌≡◌, ◌+◌, ◌<◌, ◌≤◌, ◌^◌, ◌++◌, ◌↔◌, length, drop, take, get_or, IsNone, OnOk, OnErr, IfSome, Some};
ghost use Rattle.posting_code.specs.Numbers.{spelling, IsNumberAt, HasNoNumberAt};
ghost use Rattle.posting_code.specs.Reader.{behind, reads, number_at};

use std::alloc::AllocError;

/// Packed numbers are below this.
pub const NUMBER_END: u64 = 1 << 56;

/// A number that was read, and the place after its spelling.
#[derive(Clone, Copy, Debug, PartialEq, Eq)]
pub struct Number {
    pub value: u64,
    pub after: usize,
}

/// Appends the spelling of a number.
pub fn put_number(out: &mut Vec<u8>, n: u64) -> Result<(), AllocError>
    requires { n < 2 ^ 56 }
    ensures ok { OnOk result (out.new.items ≡ out.old.items ++ spelling n) }
    ensures err { OnErr result (out.new.items ≡ out.old.items) }
{
    // most numbers have one byte
    if n < 128 {
        out.push(n as u8)?;
        return Ok(());
    }
    let before = out.len();
    match put_bytes(out, n) {
        Ok(()) => Ok(()),
        Err(fault) => {
            out.truncate(before);
            Err(fault)
        }
    }
}

/// Appends the bytes of a spelling one by one. If an allocation fails, those so far stay.
fn put_bytes(out: &mut Vec<u8>, n: u64) -> Result<(), AllocError>
    requires { n < 2 ^ 56 }
    ensures ok { OnOk result (out.new.items ≡ out.old.items ++ spelling n) }
    ensures err { OnErr result (take (length out.old.items) out.new.items ≡ out.old.items) }
{
    let mut left = n;
    while 128 <= left {
        out.push(128 + (left % 128) as u8)?;
        left /= 128;
    }
    out.push(left as u8)?;
    Ok(())
}

/// The number whose spelling begins at place `at`.
pub fn get_number(bytes: &[u8], at: usize) -> Option<Number>
    ensures some { IfSome result (λ number. IsNumberAt bytes.now at number.value number.after) }
    ensures none { IsNone result ↔ HasNoNumberAt bytes.now at }
{
    number_from(bytes, at)
}

fn number_from(bytes: &[u8], at: usize) -> Option<Number>
    ensures { result ≡ number_at at (reads 8 (drop at bytes.now)) }
{
    let first = *bytes.get(at)?;
    if first < 128 {
        return Some(Number {
            value: first as u64,
            after: at + 1,
        });
    }
    longer_number(bytes, at, first)
}

/// The number of two bytes or more.
fn longer_number(bytes: &[u8], at: usize, first: u8) -> Option<Number>
    requires within { at < length bytes.now }
    requires first { first ≡ get_or bytes.now at 0 }
    requires top { 128 ≤ first }
    ensures { result ≡ number_at at (behind first (reads 7 (drop (at + 1) bytes.now))) }
{
    let mut value = (first - 128) as u64;
    let mut scale = 128u64;
    for i in 1..8usize {
        if bytes.len() <= at + i {
            return None;
        }
        let byte = bytes[at + i];
        if byte == 0 {
            return None;
        }
        if byte < 128 {
            return Some(Number {
                value: value + scale * byte as u64,
                after: at + i + 1,
            });
        }
        value += scale * (byte - 128) as u64;
        scale *= 128;
    }
    None
}
