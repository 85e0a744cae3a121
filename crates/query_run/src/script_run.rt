ghost use Rattle.std.specs.Prelude.{◌≡◌, ◌≤◌};
ghost use Rattle.gcl_model.specs.Limits.{address_end, most_readers};
ghost use Rattle.script_answers.specs.States.{greatest_limits};
ghost use Rattle.query_run.specs.Promises.{IsScriptRun, objects};

use crate::open::open;
use crate::status::Status;
use crate::stream::serve;
use collection::{OpenFault, Opened};
use outside::{Files, Gate, Sink, Source};
use query_lanes::Context;
use script_answers::Limits;
use std::random::RandomSource;
use std::sync::Wait;
use std::thread::Threads;

/// Opens an engine that begins at this address, with at most `readers` readers, answers the script of the source on it, and ends
/// it. `completed` gets the number of lines that are completed.
pub fn run_script<
    R: Threads + Wait + Sync + RandomSource,
    F: Files,
    S: Source,
    K: Sink,
    G: Gate + Sync,
>(
    context: &Context<'_, R, G>,
    first: u64,
    readers: usize,
    files: &mut F,
    source: &mut S,
    sink: &mut K,
    completed: &mut u64,
) -> Status
    requires in_range { first ≤ address_end }
    requires few { readers ≤ most_readers }
    requires none { completed.old ≡ 0 }
    ensures { IsScriptRun greatest_limits first
        (objects (S.left source.old) (S.faults source.old) (F.held files.old) (F.unkept files.old) (F.faults files.old)
        (K.written sink.old) (K.faults sink.old))
        (objects (S.left source.new) (S.faults source.new) (F.held files.new) (F.unkept files.new) (F.faults files.new)
        (K.written sink.new) (K.faults sink.new))
        completed.new result (files.new ≡ files.old) }
{
    let mut opened = match open(context.rt, context.alloc, first, readers) {
        Ok(opened) => opened,
        Err(OpenFault::NoMemory) => return Status::NoMemory,
        // the address is not above the end
        Err(OpenFault::BadFirst(_)) => unreachable!(),
    };
    let limits = Limits::greatest();
    let status = serve(
        context.rt,
        context.alloc,
        &mut opened,
        &limits,
        files,
        source,
        sink,
        context.gate,
    );
    let Opened {
        engine,
        readers: _readers,
        lines,
    } = opened;
    engine.end(context.rt);
    *completed = lines;
    status
}
