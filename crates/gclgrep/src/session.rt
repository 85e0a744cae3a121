ghost use Rattle.std.specs.Prelude.{◌≡◌, ◌<◌};
ghost use Rattle.outside.specs.Causes.{Rose};
ghost use Rattle.grep_run.specs.Runs.{IsBeforeFiles, IsBeforeWriting};

use crate::help::{HELP, USAGE, VERSION};
use crate::reader_gone::ReaderGone;
use crate::tell::{Says, say};
use gcl_model::{Ledger, NoLedger, Steps};
use grep_run::{Context, Ended, FileStop, Remarks, SharedFiles, Status, end_number, run};
use outside::Sink;
use std::alloc::Global;
use std::marker::Brand;
use std::process::ExitCode;
use std::sync::ledger;
use std::sync::ledger::Blank;
use std::thread::Threads;

/// Runs with a counter of look-ups that keeps nothing.
fn run_uncounted<B: ledger::Ledger, R: Threads + Sync, F: SharedFiles, K: Sink, N: Remarks>(
    context: &Context<'_, R>,
    words: &[String],
    files: &mut F,
    sink: &mut K,
    remarks: &mut N,
    blank: Blank,
) -> Ended
    requires name { blank.name ≡ B.name }
    requires parts { blank.parts ≡ B.parts }
    requires some { 0 < blank.parts }
    ensures write_fault { result ≡ Ended.Searched Status.WriteFault → Rose (K.faults sink.old) (K.faults sink.new) }
    ensures unread { IsBeforeFiles result → files.new ≡ files.old }
    ensures unwritten { IsBeforeWriting result → sink.new ≡ sink.old }
{
    let mut steps = Steps::<NoLedger<B>>::open(blank);
    run(context, words, files, sink, &mut steps, remarks)
}

/// Writes a text, and returns the status 0, or 2 if it could not be written.
fn write_text<R: Eprint, K: ReaderGone>(rt: &R, sink: &mut K, text: &str) -> ExitCode {
    match file_answers::write_all(sink, text.as_bytes()) {
        Ok(()) => ExitCode::from(0),
        Err(_) => {
            say_unwritten(rt, sink);
            ExitCode::from(2)
        }
    }
}

/// Says that the output could not be written, unless its reader is gone, as with `head`.
fn say_unwritten<R: Eprint, K: ReaderGone>(rt: &R, sink: &K) {
    if !sink.reader_gone() {
        say(rt, "gclgrep: cannot write to standard output");
    }
}

/// Says why the definitions file gave no definitions.
fn tell_file<R: Eprint>(rt: &R, stop: FileStop) {
    match stop {
        FileStop::Failed => say(
            rt,
            "gclgrep: the definitions file cannot be read: see that it is a file that is there and may be read",
        ),
        FileStop::TooLong => say(
            rt,
            "gclgrep: the definitions file has more than 67108864 bytes: cut it",
        ),
        FileStop::NoLines => say(
            rt,
            "gclgrep: the definitions file has a line of more than 65536 bytes, or more than 256 definitions",
        ),
        FileStop::NoMemory => say(rt, "gclgrep: out of memory"),
    }
}

/// Does what the words ask for, says on standard error what was wrong, and returns the exit status.
pub fn answer<R: Eprint + Threads + Sync, F: SharedFiles, K: ReaderGone>(
    rt: &R,
    alloc: Global,
    words: &[String],
    files: &mut F,
    sink: &mut K,
) -> ExitCode {
    let context = Context { rt, alloc };
    let mut says = Says::new(rt, alloc);
    let ended = run_uncounted::<Brand, R, F, K, Says<'_, R>>(
        &context,
        words,
        files,
        sink,
        &mut says,
        Blank::new(1),
    );
    match ended {
        Ended::Help => return write_text(rt, sink, HELP),
        Ended::Version => return write_text(rt, sink, VERSION),
        Ended::BadWords => say(rt, USAGE),
        Ended::NoDefinitions(stop) => tell_file(rt, stop),
        Ended::NoMemory | Ended::Searched(Status::NoMemory) => say(rt, "gclgrep: out of memory"),
        Ended::Searched(Status::WriteFault) => say_unwritten(rt, sink),
        Ended::BadDefinition(_) | Ended::Searched(_) => {}
    }
    ExitCode::from(end_number(ended))
}
