ghost use Rattle.std.specs.Prelude.{◌≡◌};
ghost use Rattle.std.specs.Process.{exit_status};
ghost use Rattle.gclq.specs.Exits.{word_status};
ghost use Rattle.query_run.specs.Statuses.{number_of};

use crate::advice::{advice_on_keep, advice_on_load, advice_on_name};
use crate::fault_name::FaultName;
use crate::reader_gone::ReaderGone;
use crate::words::WordFault;
use command_words::{options_of, wrong_word};
use gcl_model::Bytes;
use outside_std::FileCall;
use query_run::{SCRIPT_MOST, Status};
use std::alloc::Global;
use std::io;
use std::process::ExitCode;

/// The words that the program takes.
pub const USAGE: &str =
    "usage: gclq [--first ADDRESS] [--readers NUMBER] [--made NUMBER --count NUMBER] < SCRIPT; see docs/SCRIPT.md";

const OUT_OF_MEMORY: &str =
    "gclq: out of memory: add fewer or smaller files, or save an image and open it in another run";

/// How a run with these words ended, and how many lines of its script were completed.
#[derive(Drop)]
pub struct Told<'a> {
    pub status: Status,
    pub completed: u64,
    pub words: &'a [Bytes],
}

/// One line on standard error for each status of 2 or more: what was wrong, with which word or name, and what to do.
/// If nobody reads the answers any more, only the status says so.
pub fn tell<R: Eprint, F: FaultName, K: ReaderGone>(rt: &R, ended: &Told<'_>, files: &F, sink: &K) {
    let _ = match ended.status {
        Status::Done | Status::DoneWithRefusals => Ok(()),
        Status::Usage => tell_usage(rt, ended.words),
        Status::ReadFault => eprintln!(rt;
            "gclq: cannot read the script from standard input: give it as a file or through a pipe"
        ),
        Status::WriteFault if sink.reader_gone() => Ok(()),
        Status::WriteFault => eprintln!(rt;
            "gclq: cannot write the answers to standard output: see that its disk has room and its reader goes on"
        ),
        Status::FileFault => tell_file(rt, files, ended.completed),
        Status::NoMemory => eprintln!(rt; "{OUT_OF_MEMORY}"),
        Status::ScriptTooLong => eprintln!(rt;
            "gclq: the script has more than {SCRIPT_MOST} bytes: cut it, and save an image between its parts"
        ),
    };
}

/// A word may have any characters, and is printed in quotes with escapes.
fn tell_usage<R: Eprint>(rt: &R, words: &[Bytes]) -> io::Result<()> {
    match wrong_word(words).and_then(|word: &[u8]| str::from_utf8(word).ok()) {
        Some(word) => eprintln!(rt; "gclq: unexpected word {word:?}; {USAGE}"),
        None => eprintln!(rt; "gclq: a word comes twice, or its pair is missing; {USAGE}"),
    }
}

/// A name is printed in quotes with escapes, so that it moves nothing on a terminal. The line that names the file is the one after
/// those that are completed.
fn tell_file<R: Eprint, F: FaultName>(rt: &R, files: &F, completed: u64) -> io::Result<()> {
    let line = completed.saturating_add(1);
    let (done, advice) = match files.fault_call() {
        Some(FileCall::Keep) => ("save", advice_on_keep(files.fault_cause())),
        _ => ("read", advice_on_load(files.fault_cause())),
    };
    match str::from_utf8(files.fault_name()) {
        Ok(name) if !name.is_empty() => {
            let as_it_is = advice_on_name(name);
            eprintln!(rt; "gclq: line {line}: cannot {done} {name:?}: {advice}{as_it_is}")
        }
        _ => eprintln!(rt; "gclq: line {line}: cannot {done} a file: {advice}"),
    }
}

/// One line if a terminal is to give the script: that it is awaited, and how it ends.
pub fn invite<R: Eprint>(rt: &R, alloc: Global, words: &[Bytes]) {
    let Ok(Some(options)) = options_of(alloc, words) else {
        return;
    };
    if options.made.is_none() {
        let _ = eprintln!(rt;
            "gclq: waits for a script: type its lines, as `add FILE` and `find \"to\"`, and end it by Ctrl-D"
        );
    }
}

/// The exit status that says how a run ended.
pub fn exit(status: Status) -> ExitCode
    ensures { exit_status result ≡ number_of status }
{
    ExitCode::from(status.number())
}

/// The exit status of a run that did not begin, with its line on standard error.
pub fn refuse<R: Eprint>(rt: &R, fault: WordFault) -> ExitCode
    ensures { exit_status result ≡ word_status fault }
{
    match fault {
        WordFault::NotText => {
            let _ = eprintln!(rt; "gclq: a word is not UTF-8; {USAGE}");
            exit(Status::Usage)
        }
        WordFault::NoMemory => {
            let _ = eprintln!(rt; "{OUT_OF_MEMORY}");
            exit(Status::NoMemory)
        }
    }
}
