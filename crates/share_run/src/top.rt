ghost use Rattle.std.specs.Prelude.{◌≡◌, ◌↔◌, ◌⊎◌, true, None, IfSome, IsNone, IsSome};
ghost use Rattle.std.specs.Io.KnownBytes.{Appends};
ghost use Rattle.outside.specs.Causes.{Rose};
ghost use Rattle.shared_edit.specs.Books.{IsClosed};
ghost use Rattle.share_run.specs.Shares.{IsShared};
ghost use Rattle.share_run.specs.Text.{GetsPart, summary};
ghost use Rattle.share_run.specs.Words.{options_of};

use crate::answer::Share;
use crate::sharing::{Outcome, share_edits};
use crate::status::ShareStatus;
use crate::text::write_summary;
use crate::words::options_of;
use gcl_model::Bytes;
use outside::{Gate, Sink, WriteError};
use shared_edit::Closed;
use std::alloc::Global;
use std::sync::Wait;
use std::thread::Threads;

/// Writes the five lines of what was closed, if all edits were answered.
fn tell<K: Sink>(
    alloc: Global,
    editors: u64,
    closed: &Closed,
    done: bool,
    sink: &mut K,
) -> ShareStatus
    ensures done { result ≡ ShareStatus.Done → (done ≡ true) ×
        Appends (K.written sink.old) (K.written sink.new) (summary editors closed.now) }
    ensures calm { result ≡ ShareStatus.Done → K.faults sink.new ≡ K.faults sink.old }
    ensures part { GetsPart (K.written sink.old) (K.written sink.new) (summary editors closed.now) }
    ensures write_fault { result ≡ ShareStatus.WriteFault → Rose (K.faults sink.old) (K.faults sink.new) }
    ensures complete { ¬ Rose (K.faults sink.old) (K.faults sink.new) → (result ≡ ShareStatus.Done) ⊎ (result ≡ ShareStatus.NoMemory) }
    ensures not_usage { ¬ (result ≡ ShareStatus.Usage) }
{
    if !done {
        return ShareStatus::NoMemory;
    }
    match write_summary(alloc, editors, closed, sink) {
        Ok(()) => ShareStatus::Done,
        Err(WriteError::Failed) => ShareStatus::WriteFault,
        Err(WriteError::NoMemory) => ShareStatus::NoMemory,
    }
}

/// Makes a corpus by several editors in threads of their own, which add its files to one collection and delete every third one again,
/// concurrently with a lane that merges, and writes five lines about the result. `--made 7 --count 9 --editors 3` writes `editors 3`,
/// `added 9`, `gone 3`, `refused 0` and `files 6`.
pub fn share<R: Threads + Wait + Sync, K: Sink, W: Gate + Sync>(
    rt: &R,
    alloc: Global,
    words: &[Bytes],
    sink: &mut K,
    gate: &W,
) -> Share
    // 2 exactly if the words are outside the grammar; without an engine nothing was written.
    ensures usage { result.status ≡ ShareStatus.Usage ↔ (options_of words.now ≡ None) }
    ensures unopened { result.status ≡ ShareStatus.Usage → IsNone result.closed }
    ensures untouched { IsNone result.closed → sink.new ≡ sink.old }

    // 0 only if the whole text was written. Its numbers are those of the journal and the engine that were closed.
    ensures done { result.status ≡ ShareStatus.Done → IsSome result.closed }
    ensures shared { result.status ≡ ShareStatus.Done → IfSome (options_of words.now) (λ options. IfSome result.closed (λ closed.
        IsShared options closed (K.written sink.old) (K.written sink.new))) }
    ensures calm { result.status ≡ ShareStatus.Done → K.faults sink.new ≡ K.faults sink.old }

    // Whatever the status, if there is an engine, the journal is a history of one thread and the engine stands for the collection at its
    // end, as many files survive as were added and not deleted, and what was written is the beginning of the text.
    ensures closed { IfSome result.closed IsClosed }
    ensures part { IfSome (options_of words.now) (λ options. IfSome result.closed (λ closed.
        GetsPart (K.written sink.old) (K.written sink.new) (summary options.editors closed))) }

    // 4 only if the sink failed, and then there is an engine. If it did not, the status is 0, or there was no memory.
    ensures write_fault { result.status ≡ ShareStatus.WriteFault → Rose (K.faults sink.old) (K.faults sink.new) × IsSome result.closed }
    ensures complete { IsSome (options_of words.now) → ¬ Rose (K.faults sink.old) (K.faults sink.new) →
        (result.status ≡ ShareStatus.Done) ⊎ (result.status ≡ ShareStatus.NoMemory) }
{
    let Some(options) = options_of(words) else {
        return Share {
            status: ShareStatus::Usage,
            closed: None,
        };
    };
    let Some(outcome) = share_edits(rt, alloc, gate, &options) else {
        return Share {
            status: ShareStatus::NoMemory,
            closed: None,
        };
    };
    let Outcome { closed, done } = outcome;
    let status = tell(alloc, options.editors, &closed, done, sink);
    Share {
        status,
        closed: Some(closed),
    }
}
