ghost use Rattle.std.specs.Prelude.{◌↔◌, IsErr, ◌≡◌, ◌<◌, ◌≤◌, ℕ, List, [], ◌++◌, length, take, drop, Option, Some};
ghost use Rattle.std.specs.Io.{ReadsAtMost};
ghost use Rattle.std.specs.Io.KnownBytes.{ReadConsumes};
ghost use Rattle.outside.specs.Causes.{HasCause, CountsFault};

use crate::{FailList, Failed};
use gcl_model::Bytes;
use std::alloc::Global;

/// Hands out bytes, to its end.
pub trait Source {
    /// The bytes that are left, or None if they are not known.
    ghost left: { Self → Option (List ℕ) };

    /// How often the source has failed.
    ghost faults: { Self → ℕ };

    /// Moves bytes to the front of `into`. For an `into` that isn't empty, 0 means the end.
    fn read(&mut self, into: &mut [u8]) -> Result<usize, Failed>
        ensures bound { ReadsAtMost result into.new }
        ensures bytes { ReadConsumes (left self.old) (left self.new) result into.new }
        ensures cause { HasCause (faults self.old) (faults self.new) result }
        ensures counts { CountsFault (faults self.old) (faults self.new) result };
}

/// Bytes in memory. It fails at the calls with these numbers, counted from 1.
#[derive(Drop)]
pub struct MemSource {
    bytes: Bytes,
    at: usize,
    calls: FailList,
}

impl MemSource {
    ghost use Rattle.outside.specs.Plans.{source_plan};

    /// All bytes are left. It takes no memory.
    pub fn new(_alloc: Global, bytes: Bytes, fails: Vec<u64>) -> Self
        ensures left { ⟦<MemSource as Source>⟧.left result ≡ Some bytes }
        ensures plan { source_plan result ≡ record { fails = fails; calls = 0; faults = 0 } }
    {
        MemSource {
            bytes,
            at: 0,
            calls: FailList::new(fails),
        }
    }
}

impl Source for MemSource {
    ghost use Rattle.outside.specs.Plans.{source_plan, IsDue, IsOneCallLater};

    ghost left = { λ s. Some (drop s.at s.bytes) };

    ghost faults = { λ s. s.calls.faults };

    fn read(&mut self, into: &mut [u8]) -> Result<usize, Failed>
        ensures bound { ReadsAtMost result into.new }
        ensures bytes { ReadConsumes (⟦<MemSource as Source>⟧.left self.old) (⟦<MemSource as Source>⟧.left self.new) result into.new }
        ensures cause { HasCause (⟦<MemSource as Source>⟧.faults self.old) (⟦<MemSource as Source>⟧.faults self.new) result }
        ensures counts { CountsFault (⟦<MemSource as Source>⟧.faults self.old) (⟦<MemSource as Source>⟧.faults self.new) result }
        ensures planned { IsErr result ↔ IsDue (source_plan self.old) }
        ensures called { IsOneCallLater (source_plan self.old) (source_plan self.new) }
    {
        self.calls.call()?;
        Ok(take_front(&self.bytes, &mut self.at, into))
    }
}

/// Bytes in memory. It never fails.
#[derive(Drop)]
pub struct SureSource {
    bytes: Bytes,
    at: usize,
}

impl SureSource {
    /// All bytes are left. It takes no memory.
    pub fn new(_alloc: Global, bytes: Bytes) -> Self
        ensures { ⟦<SureSource as Source>⟧.left result ≡ Some bytes }
    {
        SureSource { bytes, at: 0 }
    }
}

impl Source for SureSource {
    ghost left = { λ s. Some (drop s.at s.bytes) };

    ghost faults = { λ _. 0 };

    fn read(&mut self, into: &mut [u8]) -> Result<usize, Failed> {
        Ok(take_front(&self.bytes, &mut self.at, into))
    }
}

/// Moves the bytes starting at a place to the front of `into`, as many as there are and fit.
fn take_front(bytes: &Bytes, at: &mut usize, into: &mut [u8]) -> usize
    ensures bound { result ≤ length into.new }
    ensures bytes { drop at.old bytes.now ≡ take result into.new ++ drop at.new bytes.now }
    ensures end { result ≡ 0 → 0 < length into.new → drop at.new bytes.now ≡ [] }
{
    let bytes = bytes.as_slice();
    if *at >= bytes.len() {
        return 0;
    }
    let left = &bytes[*at..];
    let count = left.len().min(into.len());
    into[..count].copy_from_slice(&left[..count]);
    *at += count;
    count
}
