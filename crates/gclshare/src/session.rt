ghost use Rattle.std.specs.Prelude.{◌≡◌, ◌↔◌, ◌⊎◌, None, IsSome};
ghost use Rattle.std.specs.Process.{exit_status};
ghost use Rattle.outside.specs.Causes.{Rose};
ghost use Rattle.share_run.specs.Words.{options_of};
ghost use Rattle.gclshare.specs.Exits.{IsToldOf};

use crate::tell::{exit, tell};
use gcl_model::Bytes;
use outside::{FreeGate, Sink};
use share_run::{Share, share};
use shared_edit::Closed;
use std::alloc::Global;
use std::process::ExitCode;
use std::sync::Wait;
use std::thread::Threads;

/// Ends the engine, if there is one.
fn end<R: Wait>(rt: &R, closed: Option<Closed>) {
    match closed {
        Some(closed) => {
            let Closed {
                engine,
                journal: _journal,
            } = closed;
            engine.end(rt);
        }
        None => {}
    }
}

/// Shares the corpus that the words ask for among its editors, says on standard error what was wrong, and returns the exit status.
pub fn answer<R: Threads + Wait + Sync + Eprint, K: Sink>(
    rt: &R,
    alloc: Global,
    words: &[Bytes],
    sink: &mut K,
) -> ExitCode
    // 2 exactly if the words are outside the grammar, and then nothing was written.
    ensures usage { exit_status result ≡ 2 ↔ (options_of words.now ≡ None) }
    ensures untouched { exit_status result ≡ 2 → sink.new ≡ sink.old }

    // 0 only if the whole text of what was closed was written.
    ensures done { exit_status result ≡ 0 → IsToldOf (options_of words.now) (K.written sink.old) (K.written sink.new) }
    ensures calm { exit_status result ≡ 0 → K.faults sink.new ≡ K.faults sink.old }

    // 4 only if the sink failed. If it did not, the status is 0, or there was no memory.
    ensures write_fault { exit_status result ≡ 4 → Rose (K.faults sink.old) (K.faults sink.new) }
    ensures complete { IsSome (options_of words.now) → ¬ Rose (K.faults sink.old) (K.faults sink.new) →
        (exit_status result ≡ 0) ⊎ (exit_status result ≡ 6) }
{
    let Share { status, closed } = share(rt, alloc, words, sink, &FreeGate);
    end(rt, closed);
    tell(rt, status);
    exit(status)
}
