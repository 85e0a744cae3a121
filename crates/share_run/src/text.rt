ghost use Rattle.std.specs.Prelude.{◌≡◌, ◌∷◌, ◌++◌, [], OnOk, IfOk, decimal};
ghost use Rattle.std.specs.Io.KnownBytes.{Appends};
ghost use Rattle.outside.specs.Causes.{HasWriteCause};
ghost use Rattle.share_run.specs.Text.{GetsPart, summary};

use itoa::Buffer;
use outside::{Sink, WriteError};
use shared_edit::Closed;
use std::alloc::{AllocError, Global};

/// Appends a name and its number, on a line of their own.
fn put_line(out: &mut Vec<u8>, name: &[u8], n: u64) -> Result<(), AllocError>
    ensures { OnOk result (out.new.items ≡ out.old.items ++ name.now ++ decimal n ++ 10 ∷ []) }
{
    let mut buffer = Buffer::new();
    out.extend_from_slice(name)?;
    out.extend_from_slice(buffer.format(n).as_bytes())?;
    out.extend_from_slice(b"\n")
}

/// The five lines of what was closed.
fn summary_of(alloc: Global, editors: u64, closed: &Closed) -> Result<Vec<u8>, AllocError>
    ensures { IfOk result (λ text. text.items ≡ summary editors closed.now) }
{
    let mut out = Vec::new(alloc);
    put_line(&mut out, b"editors ", editors)?;
    put_line(&mut out, b"added ", closed.added())?;
    put_line(&mut out, b"gone ", closed.gone())?;
    put_line(&mut out, b"refused ", closed.refused())?;
    put_line(&mut out, b"files ", closed.files())?;
    Ok(out)
}

/// Writes a whole text.
fn write_all<K: Sink>(sink: &mut K, text: &[u8]) -> Result<(), WriteError>
    ensures written { OnOk result (Appends (K.written sink.old) (K.written sink.new) text.now) }
    ensures part { GetsPart (K.written sink.old) (K.written sink.new) text.now }
    ensures cause { HasWriteCause (K.faults sink.old) (K.faults sink.new) result }
    ensures calm { OnOk result (K.faults sink.new ≡ K.faults sink.old) }
{
    let mut at = 0;
    while at < text.len() {
        let (_written, rest) = text.split_at(at);
        at += sink.write(rest)?;
    }
    Ok(())
}

/// Writes the five lines of what was closed.
pub fn write_summary<K: Sink>(
    alloc: Global,
    editors: u64,
    closed: &Closed,
    sink: &mut K,
) -> Result<(), WriteError>
    ensures written { OnOk result (Appends (K.written sink.old) (K.written sink.new) (summary editors closed.now)) }
    ensures part { GetsPart (K.written sink.old) (K.written sink.new) (summary editors closed.now) }
    ensures cause { HasWriteCause (K.faults sink.old) (K.faults sink.new) result }
    ensures calm { OnOk result (K.faults sink.new ≡ K.faults sink.old) }
{
    let text = summary_of(alloc, editors, closed)?;
    write_all(sink, text.as_slice())
}
