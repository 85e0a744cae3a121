ghost use Rattle.std.specs.Prelude.{◌≡◌, ◌<◌, ◌≤◌, IfOk, IsErrOf, length};
ghost use Rattle.std.specs.Io.KnownBytes.{WriteAppends};
ghost use Rattle.outside.specs.Causes.{HasWriteCause, CountsWriteFault};

use crate::wait::nap;
use outside::{Sink, WriteError};
use std::io;
use std::io::{ErrorKind, Write};
use std::rt::Clock;

/// A sink over a writer. Its bytes are known if the writer's are, which is so of no real one. It never needs memory.
#[derive(Drop)]
pub struct StdSink<'a, R, W> {
    clock: &'a R,
    inner: W,
    faults: u64,
    gone: bool,
}

impl<'a, R: Clock, W: Write> StdSink<'a, R, W> {
    /// Writes to `inner`, and naps by `clock` when that takes nothing yet. It takes no memory.
    pub fn new(clock: &'a R, inner: W) -> Self
        ensures written { ⟦<StdSink<'a, R, W> as Sink>⟧.written result ≡ W.contents inner }
        ensures faults { ⟦<StdSink<'a, R, W> as Sink>⟧.faults result ≡ 0 }
    {
        StdSink {
            clock,
            inner,
            faults: 0,
            gone: false,
        }
    }

    /// Whether the last fault was that nobody reads any more, as with a pipe into `head`.
    pub fn reader_is_gone(&self) -> bool {
        self.gone
    }
}

/// One write, made again if a signal interrupted it.
pub fn write_again<W: Write>(inner: &mut W, piece: &[u8]) -> io::Result<usize>
    ensures bound { IfOk result (λ n. n ≤ length piece.now) }
    ensures bytes { WriteAppends (W.contents inner.old) (W.contents inner.new) result piece.now }
{
    for _ in 0..u64::MAX {
        match inner.write(piece) {
            Err(fault) if fault.kind() == ErrorKind::Interrupted => {}
            result => return result,
        }
    }
    inner.write(piece)
}

/// One write, made again while the writer would have to wait.
fn write_waiting<R: Clock, W: Write>(clock: &R, inner: &mut W, piece: &[u8]) -> io::Result<usize>
    ensures bound { IfOk result (λ n. n ≤ length piece.now) }
    ensures bytes { WriteAppends (W.contents inner.old) (W.contents inner.new) result piece.now }
{
    for turn in 0..u64::MAX {
        match write_again(inner, piece) {
            Err(fault) if fault.kind() == ErrorKind::WouldBlock => nap(clock, turn),
            result => return result,
        }
    }
    write_again(inner, piece)
}

impl<'a, R: Clock, W: Write> Sink for StdSink<'a, R, W> {
    ghost written = { λ s. W.contents s.inner };

    ghost faults = { λ s. s.faults };

    fn write(&mut self, piece: &[u8]) -> Result<usize, WriteError>
        ensures bound { IfOk result (λ n. n ≤ length piece.now) }
        ensures some { IfOk result (λ n. 0 < length piece.now → 0 < n) }
        ensures bytes { WriteAppends (⟦<StdSink<'a, R, W> as Sink>⟧.written self.old) (⟦<StdSink<'a, R, W> as Sink>⟧.written self.new)
            result piece.now }
        ensures cause { HasWriteCause (⟦<StdSink<'a, R, W> as Sink>⟧.faults self.old)
            (⟦<StdSink<'a, R, W> as Sink>⟧.faults self.new) result }
        ensures counts { CountsWriteFault (⟦<StdSink<'a, R, W> as Sink>⟧.faults self.old)
            (⟦<StdSink<'a, R, W> as Sink>⟧.faults self.new) result }
        ensures never { ¬ IsErrOf result WriteError.NoMemory }
    {
        let gone = match write_waiting(self.clock, &mut self.inner, piece) {
            Ok(count) if count > 0 || piece.is_empty() => return Ok(count),
            // a writer that takes nothing of a piece never will
            Ok(_) => false,
            Err(fault) => fault.kind() == ErrorKind::BrokenPipe,
        };
        self.gone = gone;
        self.faults = self.faults.saturating_add(1);
        Err(WriteError::Failed)
    }
}
