ghost use Rattle.std.specs.Prelude.{◌≡◌};
ghost use Rattle.std.specs.Io.{ReadsAtMost};
ghost use Rattle.std.specs.Io.KnownBytes.{ReadConsumes};

use crate::wait::nap;
use outside::{Failed, Source};
use std::io;
use std::io::{ErrorKind, Read};
use std::rt::Clock;

/// A source over a reader. Its bytes are known if the reader's are, which is so of no real one.
#[derive(Drop)]
pub struct StdSource<'a, C, R> {
    clock: &'a C,
    inner: R,
    faults: u64,
}

impl<'a, C: Clock, R: Read> StdSource<'a, C, R> {
    /// Reads from `inner`, and naps by `clock` when that has nothing yet. It takes no memory.
    pub fn new(clock: &'a C, inner: R) -> Self
        ensures left { ⟦<StdSource<'a, C, R> as Source>⟧.left result ≡ R.remaining inner }
        ensures faults { ⟦<StdSource<'a, C, R> as Source>⟧.faults result ≡ 0 }
    {
        StdSource {
            clock,
            inner,
            faults: 0,
        }
    }
}

/// One read, made again if a signal interrupted it.
pub fn read_again<R: Read>(inner: &mut R, into: &mut [u8]) -> io::Result<usize>
    ensures bound { ReadsAtMost result into.new }
    ensures bytes { ReadConsumes (R.remaining inner.old) (R.remaining inner.new) result into.new }
{
    for _ in 0..u64::MAX {
        match inner.read(into) {
            Err(fault) if fault.kind() == ErrorKind::Interrupted => {}
            result => return result,
        }
    }
    inner.read(into)
}

/// One read, made again while the reader would have to wait.
fn read_waiting<C: Clock, R: Read>(clock: &C, inner: &mut R, into: &mut [u8]) -> io::Result<usize>
    ensures bound { ReadsAtMost result into.new }
    ensures bytes { ReadConsumes (R.remaining inner.old) (R.remaining inner.new) result into.new }
{
    for turn in 0..u64::MAX {
        match read_again(inner, into) {
            Err(fault) if fault.kind() == ErrorKind::WouldBlock => nap(clock, turn),
            result => return result,
        }
    }
    read_again(inner, into)
}

impl<'a, C: Clock, R: Read> Source for StdSource<'a, C, R> {
    ghost left = { λ s. R.remaining s.inner };

    ghost faults = { λ s. s.faults };

    fn read(&mut self, into: &mut [u8]) -> Result<usize, Failed> {
        match read_waiting(self.clock, &mut self.inner, into) {
            Ok(count) => Ok(count),
            Err(_) => {
                self.faults = self.faults.saturating_add(1);
                Err(Failed)
            }
        }
    }
}
