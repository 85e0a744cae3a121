ghost use Rattle.std.specs.Prelude.{◌++◌, ℕ, List, OnOk};
ghost use Rattle.std.specs.Io.KnownBytes.{Appends};
ghost use Rattle.outside.specs.Causes.{CountsWriteFault};
ghost use Rattle.file_answers.specs.Written.{GetsPart, Moves};

use outside::{Sink, WriteError};
use passages::PIECE;

/// Writes a whole text, a piece in each call.
pub fn write_all<K: Sink>(sink: &mut K, text: &[u8]) -> Result<(), WriteError>
    ensures written { OnOk result (Appends (K.written sink.old) (K.written sink.new) text.now) }
    ensures part { GetsPart (K.written sink.old) (K.written sink.new) text.now }
    ensures counts { CountsWriteFault (K.faults sink.old) (K.faults sink.new) result }
{
    let mut at = 0;
    while at < text.len() {
        let end = text.len().min(at + PIECE);
        at += sink.write(&text[at..end])?;
    }
    Ok(())
}

/// Hands over what is held back, if it is a piece or more.
pub fn hand_over<K: Sink>(sink: &mut K, out: &mut Vec<u8>) -> Result<(), WriteError>
    ensures moves { OnOk result ((more : List ℕ) →
        Moves (K.written sink.old) (K.written sink.new) (out.old.items ++ more) (out.new.items ++ more)) }
    ensures part { (more : List ℕ) → GetsPart (K.written sink.old) (K.written sink.new) (out.old.items ++ more) }
    ensures counts { CountsWriteFault (K.faults sink.old) (K.faults sink.new) result }
{
    if out.len() < PIECE {
        return Ok(());
    }
    write_all(sink, out.as_slice())?;
    out.clear();
    Ok(())
}
