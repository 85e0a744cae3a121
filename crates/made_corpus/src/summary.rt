ghost use Rattle.std.specs.Prelude.{◌≡◌, ◌++◌, ◌∷◌, [], Some, ◌<◌, ◌≤◌, IfSome, IfOk, OnOk, OnErr, IsErrOf, length, decimal};
ghost use Rattle.std.specs.Io.KnownBytes.{WriteAppends};
ghost use Rattle.made_corpus.specs.Counted.{AreCountsOf};
ghost use Rattle.made_corpus.specs.MadeLines.{made_lines};
ghost use Rattle.made_corpus.specs.Summary.{summary};

use crate::counts::Counts;
use crate::put::{put_number, put_text};
use crate::taken::Taken;
use outside::{Sink, WriteError};
use std::alloc::AllocError;

/// Takes a text and keeps of it only what a summary reports. It never fails, except with NoMemory if a number would not fit into 64 bits.
#[derive(Drop)]
pub struct SummarySink {
    counts: Counts,
    taken: Taken,
    ghost counted: { AreCountsOf counts taken },
}

impl SummarySink {
    /// Nothing was taken yet. It allocates nothing.
    pub fn new() -> Self
        ensures { ⟦<SummarySink as Sink>⟧.written result ≡ Some [] }
    {
        SummarySink {
            counts: Counts::none(),
            taken: Taken::none(),
        }
    }

    /// One that took one more byte, or None if a number has no room for it.
    fn with(&self, byte: u8) -> Option<SummarySink>
        ensures { IfSome result (λ sink. sink.taken ≡ self.now.taken ++ byte ∷ []) }
    {
        let counts = self.counts.with(byte)?;
        let taken = self.taken.with(byte);
        Some(SummarySink { counts, taken })
    }

    /// One that took one more piece, or None if the piece has no byte or is not counted as a whole.
    fn with_all(&self, piece: &[u8]) -> Option<SummarySink>
        ensures { IfSome result (λ sink. sink.taken ≡ self.now.taken ++ piece.now) }
    {
        let (first, rest) = piece.split_first()?;
        let counts = self.counts.with_all(piece)?;
        let taken = self.taken.with(*first).with_all(rest);
        Some(SummarySink { counts, taken })
    }

    /// Takes bytes from the front of a piece, one by one, while the numbers have room.
    fn write_each(&mut self, piece: &[u8]) -> Result<usize, WriteError>
        ensures bound { IfOk result (λ n. n ≤ length piece.now) }
        ensures some { IfOk result (λ n. 0 < length piece.now → 0 < n) }
        ensures bytes { WriteAppends (Some self.old.taken) (Some self.new.taken) result piece.now }
        ensures full { OnErr result (IsErrOf result WriteError.NoMemory) }
    {
        let mut count = 0;
        for byte in piece {
            match self.with(*byte) {
                Some(sink) => *self = sink,
                None if count > 0 => return Ok(count),
                None => return Err(WriteError::NoMemory),
            }
            count += 1;
        }
        Ok(count)
    }

    /// Appends what is reported of a run over `count` files made from the number `start`, whose script has `lines` lines: five
    /// lines, of which the last three are about the text that was taken.
    pub fn put_summary(
        &self,
        out: &mut Vec<u8>,
        start: u64,
        count: u64,
        lines: u64,
    ) -> Result<(), AllocError>
        requires { lines ≡ length (made_lines start count) }
        ensures { IfSome (⟦<SummarySink as Sink>⟧.written self.now) (λ text.
            OnOk result (out.new.items ≡ out.old.items ++ summary start count text)) }
    {
        put_text(out, b"made ")?;
        put_number(out, start)?;
        put_text(out, b" ")?;
        put_line(out, b"", count)?;
        put_line(out, b"lines ", lines)?;
        put_line(out, b"refused ", self.counts.refused)?;
        put_line(out, b"bytes ", self.counts.bytes)?;
        put_line(out, b"sum ", self.counts.sum)?;
        Ok(())
    }
}

impl Sink for SummarySink {
    ghost written = { λ s. Some s.taken };

    ghost faults = { λ _. 0 };

    fn write(&mut self, piece: &[u8]) -> Result<usize, WriteError> {
        match self.with_all(piece) {
            Some(sink) => {
                *self = sink;
                Ok(piece.len())
            }
            None => self.write_each(piece),
        }
    }
}

/// A number after its name, on a line of its own.
fn put_line(out: &mut Vec<u8>, name: &[u8], n: u64) -> Result<(), AllocError>
    ensures { OnOk result (out.new.items ≡ out.old.items ++ name.now ++ decimal n ++ 10 ∷ []) }
{
    put_text(out, name)?;
    put_number(out, n)?;
    put_text(out, b"\n")
}
