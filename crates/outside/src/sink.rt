ghost use Rattle.std.specs.Prelude.{◌≡◌, ◌<◌, ◌≤◌, ◌↔◌, ℕ, List, [], Option, Some, IfOk, IsErrOf, length};
ghost use Rattle.std.specs.Io.KnownBytes.{WriteAppends};
ghost use Rattle.outside.specs.Causes.{HasWriteCause, CountsWriteFault};

use crate::{FailList, WriteError};
use std::alloc::Global;

/// Takes bytes.
pub trait Sink {
    /// The bytes that were taken so far, or None if they are not known.
    ghost written: { Self → Option (List ℕ) };

    /// How often the sink has failed.
    ghost faults: { Self → ℕ };

    /// Takes bytes from the front of a piece, at least one if it has one.
    fn write(&mut self, piece: &[u8]) -> Result<usize, WriteError>
        ensures bound { IfOk result (λ n. n ≤ length piece.now) }
        ensures some { IfOk result (λ n. 0 < length piece.now → 0 < n) }
        ensures bytes { WriteAppends (written self.old) (written self.new) result piece.now }
        ensures cause { HasWriteCause (faults self.old) (faults self.new) result }
        ensures counts { CountsWriteFault (faults self.old) (faults self.new) result };
}

/// Keeps what is written. It fails at the calls with these numbers, counted from 1.
#[derive(Drop)]
pub struct MemSink {
    taken: Vec<u8>,
    calls: FailList,
}

impl MemSink {
    ghost use Rattle.outside.specs.Plans.{sink_plan};

    /// Nothing was written yet. It takes no memory.
    pub fn new(alloc: Global, fails: Vec<u64>) -> Self
        ensures written { ⟦<MemSink as Sink>⟧.written result ≡ Some [] }
        ensures plan { sink_plan result ≡ record { fails = fails; calls = 0; faults = 0 } }
    {
        MemSink {
            taken: Vec::new(alloc),
            calls: FailList::new(fails),
        }
    }

    /// The bytes that were taken so far.
    pub fn written(&self) -> &[u8]
        ensures { ⟦<MemSink as Sink>⟧.written self.now ≡ Some result.now }
    {
        self.taken.as_slice()
    }
}

impl Sink for MemSink {
    ghost use Rattle.outside.specs.Plans.{sink_plan, IsDue, IsOneCallLater};

    ghost written = { λ s. Some s.taken.items };

    ghost faults = { λ s. s.calls.faults };

    fn write(&mut self, piece: &[u8]) -> Result<usize, WriteError>
        ensures bound { IfOk result (λ n. n ≤ length piece.now) }
        ensures some { IfOk result (λ n. 0 < length piece.now → 0 < n) }
        ensures bytes { WriteAppends (⟦<MemSink as Sink>⟧.written self.old) (⟦<MemSink as Sink>⟧.written self.new) result piece.now }
        ensures cause { HasWriteCause (⟦<MemSink as Sink>⟧.faults self.old) (⟦<MemSink as Sink>⟧.faults self.new) result }
        ensures counts { CountsWriteFault (⟦<MemSink as Sink>⟧.faults self.old) (⟦<MemSink as Sink>⟧.faults self.new) result }
        ensures planned { IsErrOf result WriteError.Failed ↔ IsDue (sink_plan self.old) }
        ensures called { IsOneCallLater (sink_plan self.old) (sink_plan self.new) }
    {
        self.calls.call()?;
        self.taken.extend_from_slice(piece)?;
        Ok(piece.len())
    }
}

/// Keeps what is written. It never fails.
#[derive(Drop)]
pub struct SureSink {
    taken: Vec<u8>,
}

impl SureSink {
    /// Nothing was written yet. It takes no memory.
    pub fn new(alloc: Global) -> Self
        ensures { ⟦<SureSink as Sink>⟧.written result ≡ Some [] }
    {
        SureSink {
            taken: Vec::new(alloc),
        }
    }

    /// The bytes that were taken so far.
    pub fn written(&self) -> &[u8]
        ensures { ⟦<SureSink as Sink>⟧.written self.now ≡ Some result.now }
    {
        self.taken.as_slice()
    }
}

impl Sink for SureSink {
    ghost written = { λ s. Some s.taken.items };

    ghost faults = { λ _. 0 };

    fn write(&mut self, piece: &[u8]) -> Result<usize, WriteError> {
        self.taken.extend_from_slice(piece)?;
        Ok(piece.len())
    }
}
