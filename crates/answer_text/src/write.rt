ghost use Rattle.std.specs.Prelude.{OnOk};
ghost use Rattle.std.specs.Io.KnownBytes.{Appends};
ghost use Rattle.outside.specs.Causes.{CountsWriteFault, HasWriteCause};
ghost use Rattle.answer_text.specs.Puts.{GetsPart};

use outside::{Sink, WriteError};

/// The most bytes that the source is asked for, and that the sink is given, in one call.
pub const PIECE: usize = 65_536;

/// Writes a whole text, a piece in each call.
pub fn write_all<K: Sink>(sink: &mut K, text: &[u8]) -> Result<(), WriteError>
    ensures written { OnOk result (Appends (K.written sink.old) (K.written sink.new) text.now) }
    ensures part { GetsPart (K.written sink.old) (K.written sink.new) text.now }
    ensures cause { HasWriteCause (K.faults sink.old) (K.faults sink.new) result }
    ensures counts { CountsWriteFault (K.faults sink.old) (K.faults sink.new) result }
{
    let mut at = 0;
    while at < text.len() {
        let end = text.len().min(at + PIECE);
        at += sink.write(&text[at..end])?;
    }
    Ok(())
}
