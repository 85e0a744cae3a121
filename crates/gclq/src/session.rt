ghost use Rattle.std.specs.Prelude.{◌≡◌, map, drop, string_bytes};
ghost use Rattle.std.specs.Process.{exit_status};
ghost use Rattle.query_run.specs.Promises.{objects};
ghost use Rattle.gclq.specs.Exits.{Exits};

use crate::fault_name::FaultName;
use crate::reader_gone::ReaderGone;
use crate::tell::{Told, exit, invite, refuse, tell};
use crate::words::{WordFault, after_name, copied};
use gcl_model::Bytes;
use outside::{FreeGate, Source};
use query_run::run;
use std::alloc::{AllocError, Global};
use std::process::ExitCode;
use std::random::RandomSource;
use std::sync::Wait;
use std::thread::Threads;

/// Runs the script of the source by the arguments of the program, of which the first is its name, and gives the exit status. If the
/// script is awaited from a terminal, that is said on standard error, and so is what was wrong.
pub fn begin<
    R: Threads + Wait + Sync + RandomSource + Eprint,
    F: FaultName,
    S: Source,
    K: ReaderGone,
>(
    rt: &R,
    alloc: Global,
    args: &[String],
    awaited: bool,
    files: &mut F,
    source: &mut S,
    sink: &mut K,
) -> ExitCode
    ensures { Exits (map string_bytes (drop 1 args.now))
        (objects (S.left source.old) (S.faults source.old) (F.held files.old) (F.unkept files.old) (F.faults files.old)
        (K.written sink.old) (K.faults sink.old))
        (objects (S.left source.new) (S.faults source.new) (F.held files.new) (F.unkept files.new) (F.faults files.new)
        (K.written sink.new) (K.faults sink.new))
        (exit_status result) (source.new ≡ source.old) (files.new ≡ files.old) (sink.new ≡ sink.old) }
{
    let words = match copied(alloc, after_name(args)) {
        Ok(words) => words,
        Err(AllocError) => return refuse(rt, WordFault::NoMemory),
    };
    if awaited {
        invite(rt, alloc, words.as_slice());
    }
    answer(rt, alloc, words.as_slice(), files, source, sink)
}

/// Runs the script of the source, says on standard error what was wrong, and gives the exit status.
fn answer<R: Threads + Wait + Sync + RandomSource + Eprint, F: FaultName, S: Source, K: ReaderGone>(
    rt: &R,
    alloc: Global,
    words: &[Bytes],
    files: &mut F,
    source: &mut S,
    sink: &mut K,
) -> ExitCode
    ensures { Exits words.now
        (objects (S.left source.old) (S.faults source.old) (F.held files.old) (F.unkept files.old) (F.faults files.old)
        (K.written sink.old) (K.faults sink.old))
        (objects (S.left source.new) (S.faults source.new) (F.held files.new) (F.unkept files.new) (F.faults files.new)
        (K.written sink.new) (K.faults sink.new))
        (exit_status result) (source.new ≡ source.old) (files.new ≡ files.old) (sink.new ≡ sink.old) }
{
    let mut completed = 0;
    let status = run(
        rt,
        alloc,
        words,
        files,
        source,
        sink,
        &FreeGate,
        &mut completed,
    );
    let told = Told {
        status,
        completed,
        words,
    };
    tell(rt, &told, files, sink);
    exit(status)
}
