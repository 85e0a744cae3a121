ghost use Rattle.std.specs.Prelude.{◌≡◌, ◌≤◌, ◌<◌, [], Some, true, false, OnOk, OnErr, IfSome, IsSomeAnd, IsErrOf, length};
ghost use Rattle.gcl_model.specs.Limits.{most_readers, most_script};
ghost use Rattle.outside.specs.Causes.{Rose};
ghost use Rattle.script_lang.specs.Lines.{lines};
ghost use Rattle.standing_query.specs.Watches.{watch_list};
ghost use Rattle.query_lanes.specs.Readers.{AreOf};
ghost use Rattle.script_answers.specs.Answers.{names_kept_of, names_of, output_by};
ghost use Rattle.script_answers.specs.States.{AreLimits, IsFresh};
ghost use Rattle.script_answers.specs.Stopped.{GetsPart, IsStopped};
ghost use Rattle.script_answers.specs.inner.Service.{Counts, Halts, IsServing, Serves, stand};
ghost use Rattle.query_run.specs.Runs.{HandsOverMore, HasAnswered, IsAnsweredBy, IsLeftBy, TakesAtMost, WhereTold, within};
ghost use Rattle.query_run.specs.Statuses.{IsAllAnswered, IsCutOff, IsFinished, IsSureOfFiles, ending_of as status_ending, most_taken};
ghost use Rattle.query_run.specs.inner.Streams.{HasRead, IsSure, LeavesFiles, ServesWithin, ending_of, status_of};

use crate::read::read_piece;
use crate::status::Status;
use crate::stream_fault::StreamFault;
use collection::Opened;
use outside::{Files, Gate, Sink, Source};
use query_lanes::Context;
use script_answers::{Limits, Progress, Setting, merge_pending, serve_held};
use script_lang::LineFeed;
use std::alloc::Global;
use std::sync::Wait;
use std::thread::Threads;

/// Reads a script piece by piece, and answers the lines of each piece before it reads the next.
fn serve_script<R: Threads + Wait + Sync, F: Files, S: Source, K: Sink, G: Gate + Sync>(
    setting: &Setting<'_, R, G>,
    files: &mut F,
    source: &mut S,
    sink: &mut K,
    opened: &mut Opened,
    progress: &mut Progress,
) -> Result<(), StreamFault>
    requires serving { IsServing opened.old progress.old 0 }
    requires none { opened.old.lines ≡ 0 }
    ensures serves { OnOk result (IfSome (S.left source.old) (λ script. Serves setting.now.limits (lines setting.now.limits.line script)
        (stand (F.held files.old) opened.old progress.old) (stand (F.held files.new) opened.new progress.new)
        (K.written sink.old) (K.written sink.new))) }
    ensures halts { OnErr result (IfSome (S.left source.old) (λ script.
        Halts setting.now.limits (lines setting.now.limits.line script) (ending_of result) (F.unkept files.new ≡ F.unkept files.old)
        (stand (F.held files.old) opened.old progress.old) (stand (F.held files.new) opened.new progress.new)
        (K.written sink.old) (K.written sink.new))) }
    ensures within { IsErrOf result StreamFault.TooLong → IfSome (S.left source.old) (λ script. ServesWithin setting.now.limits script
        (stand (F.held files.old) opened.old progress.old) (stand (F.held files.new) opened.new progress.new)
        (K.written sink.old) (K.written sink.new)) }
    ensures serving { OnOk result (IsServing opened.new progress.new 0 × (opened.new.lines ≤ most_script)) }
    ensures read { HasRead setting.now.limits.script (S.left source.old) (S.left source.new)
        (S.faults source.old) (S.faults source.new) result }
    ensures files { LeavesFiles setting.now.limits.line (S.left source.old) (files.new ≡ files.old) (F.held files.new ≡ F.held files.old)
        (F.unkept files.new ≡ F.unkept files.old) result }
    ensures sink { Counts (K.faults sink.old) (K.faults sink.new) (IsErrOf result StreamFault.Write) }
    ensures faults { Counts (F.faults files.old) (F.faults files.new) (IsErrOf result StreamFault.Files) }
{
    let mut feed = LineFeed::new(setting.context.alloc, setting.limits.line);
    let mut read = 0;
    while read_piece(source, &mut feed, &mut read, setting.limits.script)? {
        serve_held(setting, files, sink, opened, progress, feed.ready())?;
        feed.take_ready();
    }
    serve_held(setting, files, sink, opened, progress, feed.rest())?;
    Ok(())
}

/// Answers a script on an engine that was just opened, and makes the merge that is pending at its end, if one is.
fn serve_all<R: Threads + Wait + Sync, F: Files, S: Source, K: Sink, G: Gate + Sync>(
    setting: &Setting<'_, R, G>,
    files: &mut F,
    source: &mut S,
    sink: &mut K,
    opened: &mut Opened,
    progress: &mut Progress,
) -> Result<(), StreamFault>
    requires opened { IsFresh opened.old.engine opened.old.lines }
    requires readers { AreOf opened.old.engine.publisher opened.old.readers.items × (length opened.old.readers.items ≤ most_readers) }
    requires progress { (progress.old.asked ≡ 0) × (progress.old.refused ≡ false) × (progress.old.pending ≡ false) ×
        (progress.old.watches ≡ watch_list [] 0) }
    ensures answered { OnOk result (
        WhereTold setting.now.limits (Some opened.old.engine.version.first) (S.left source.old) (F.held files.old) (λ start script.
        HasAnswered setting.now.limits start script progress.new.refused (F.held files.new) (K.written sink.old) (K.written sink.new))) }
    ensures left { OnOk result (
        WhereTold setting.now.limits (Some opened.old.engine.version.first) (S.left source.old) (F.held files.old) (λ start script.
        IsLeftBy setting.now.limits start script opened.new.engine opened.new.lines)) }
    ensures stopped { WhereTold setting.now.limits (Some opened.old.engine.version.first) (S.left source.old) (F.held files.old)
        (λ start script. IsStopped setting.now.limits start (lines setting.now.limits.line script)
        opened.new.lines opened.new.engine.version (ending_of result) (F.unkept files.new ≡ F.unkept files.old)
        (F.held files.new) (K.written sink.old) (K.written sink.new)) }
    ensures part_within { IsErrOf result StreamFault.TooLong →
        WhereTold setting.now.limits (Some opened.old.engine.version.first) (S.left source.old) (F.held files.old) (λ start script.
        GetsPart (K.written sink.old) (K.written sink.new) (output_by setting.now.limits start (within setting.now.limits.script script))) }
    ensures read { HasRead setting.now.limits.script (S.left source.old) (S.left source.new)
        (S.faults source.old) (S.faults source.new) result }
    ensures files { LeavesFiles setting.now.limits.line (S.left source.old) (files.new ≡ files.old) (F.held files.new ≡ F.held files.old)
        (F.unkept files.new ≡ F.unkept files.old) result }
    ensures sink { Counts (K.faults sink.old) (K.faults sink.new) (IsErrOf result StreamFault.Write) }
    ensures faults { Counts (F.faults files.old) (F.faults files.new) (IsErrOf result StreamFault.Files) }
{
    // shows that the collection of an empty engine can be saved
    let _version = opened.engine.version();
    serve_script(setting, files, source, sink, opened, progress)?;
    merge_pending(&setting.context, &mut opened.engine, &mut progress.pending)?;
    Ok(())
}

/// Answers the script that a source hands out, on an engine that was just opened. Before the source is asked for more, each whole line that
/// it has handed out is answered, and the answer is handed to the sink: so a caller that waits for an answer before it sends the next line
/// is not left waiting.
///
/// Queries in a row are a batch, which the engine's readers answer concurrently with a merge that is pending. `opened.lines` counts the
/// lines that are completed: one that changes the collection or a file once that is done, any other once its answer is made. This call does
/// not end the engine.
pub fn serve<R: Threads + Wait + Sync, F: Files, S: Source, K: Sink, G: Gate + Sync>(
    rt: &R,
    alloc: Global,
    opened: &mut Opened,
    limits: &Limits,
    files: &mut F,
    source: &mut S,
    sink: &mut K,
    gate: &G,
) -> Status
    requires opened { IsFresh opened.old.engine opened.old.lines }
    requires readers { AreOf opened.old.engine.publisher opened.old.readers.items × (length opened.old.readers.items ≤ most_readers) }
    requires limits { AreLimits limits.now }
    ensures never_usage { ¬ (result ≡ Status.Usage) }

    // If the script and what the files hold are known, the bytes written are the output of the script, and the files
    // hold what its lines leave.
    ensures done { result ≡ Status.Done →
        WhereTold limits.now (Some opened.old.engine.version.first) (S.left source.old) (F.held files.old) (λ start script.
        IsAnsweredBy limits.now start script false (S.left source.new) (F.held files.new) (K.written sink.old) (K.written sink.new)) }
    ensures done_with_refusals { result ≡ Status.DoneWithRefusals →
        WhereTold limits.now (Some opened.old.engine.version.first) (S.left source.old) (F.held files.old) (λ start script.
        IsAnsweredBy limits.now start script true (S.left source.new) (F.held files.new) (K.written sink.old) (K.written sink.new)) }
    ensures left { IsAllAnswered result →
        WhereTold limits.now (Some opened.old.engine.version.first) (S.left source.old) (F.held files.old) (λ start script.
        IsLeftBy limits.now start script opened.new.engine opened.new.lines) }

    // Whatever the status, some lines are completed, the sink gets the beginning of the output, and the files hold exactly what these lines
    // leave; but if a keep returned an error, that holds for every name except the one that the next line saves. No keep did, unless the
    // status names a fault of a file or is out of memory. If the status names a fault of the source or the files, or too long a script, all
    // answers to these lines are written and nothing else; and at a fault of the files the next line is the one that names the file.
    ensures stopped { WhereTold limits.now (Some opened.old.engine.version.first) (S.left source.old) (F.held files.old) (λ start script.
        IsStopped limits.now start (lines limits.now.line script) opened.new.lines opened.new.engine.version (status_ending result)
        (F.unkept files.new ≡ F.unkept files.old) (F.held files.new) (K.written sink.old) (K.written sink.new)) }
    ensures sure { IsSureOfFiles result → F.unkept files.new ≡ F.unkept files.old }
    ensures part { WhereTold limits.now (Some opened.old.engine.version.first) (S.left source.old) (F.held files.old) (λ start script.
        GetsPart (K.written sink.old) (K.written sink.new) (output_by limits.now start script)) }
    ensures part_within { result ≡ Status.ScriptTooLong →
        WhereTold limits.now (Some opened.old.engine.version.first) (S.left source.old) (F.held files.old) (λ start script.
        GetsPart (K.written sink.old) (K.written sink.new) (output_by limits.now start (within limits.now.script script))) }

    // No more bytes are taken than a script may have, and one more if the status says that it is too long.
    ensures took { TakesAtMost (most_taken limits.now.script result) (S.left source.old) (S.left source.new) }

    // Each other status has its cause.
    ensures read_fault { result ≡ Status.ReadFault → Rose (S.faults source.old) (S.faults source.new) }
    ensures write_fault { result ≡ Status.WriteFault → Rose (K.faults sink.old) (K.faults sink.new) }
    ensures file_fault { result ≡ Status.FileFault → Rose (F.faults files.old) (F.faults files.new) }
    ensures too_long { result ≡ Status.ScriptTooLong → HandsOverMore limits.now.script (S.left source.old) (S.left source.new) }

    // If no object failed and the script is within its limit, all is answered, or the run is out of memory. If it is longer, the status
    // says so, or the run is out of memory.
    ensures complete { ¬ Rose (S.faults source.old) (S.faults source.new) → ¬ Rose (K.faults sink.old) (K.faults sink.new) →
        ¬ Rose (F.faults files.old) (F.faults files.new) → IsSomeAnd (S.left source.old) (λ script. length script ≤ limits.now.script) →
        IsFinished result }
    ensures complete_long { ¬ Rose (S.faults source.old) (S.faults source.new) → ¬ Rose (K.faults sink.old) (K.faults sink.new) →
        ¬ Rose (F.faults files.old) (F.faults files.new) → IsSomeAnd (S.left source.old) (λ script. limits.now.script < length script) →
        IsCutOff result }

    // Each object failed only if the status says so.
    ensures source_calm { ¬ (result ≡ Status.ReadFault) → S.faults source.new ≡ S.faults source.old }
    ensures sink_calm { ¬ (result ≡ Status.WriteFault) → K.faults sink.new ≡ K.faults sink.old }
    ensures files_calm { ¬ (result ≡ Status.FileFault) → F.faults files.new ≡ F.faults files.old }

    // If no line names a file, none is asked for, and if no line saves, none changes.
    ensures unasked { IfSome (S.left source.old) (λ script. names_of (lines limits.now.line script) ≡ [] → files.new ≡ files.old) }
    ensures unsaved { IfSome (S.left source.old) (λ script. names_kept_of (lines limits.now.line script) ≡ [] →
        F.held files.new ≡ F.held files.old) }
{
    let setting = Setting {
        context: Context { rt, alloc, gate },
        limits: *limits,
    };
    let mut progress = Progress::new(alloc);
    let ended = serve_all(&setting, files, source, sink, opened, &mut progress);
    status_of(ended, progress.refused)
}

/// The status of a run over a source that ended so.
fn status_of(ended: Result<(), StreamFault>, refused: bool) -> Status
    ensures { result ≡ status_of ended refused }
{
    match ended {
        Ok(()) if refused => Status::DoneWithRefusals,
        Ok(()) => Status::Done,
        Err(StreamFault::Read) => Status::ReadFault,
        Err(StreamFault::TooLong) => Status::ScriptTooLong,
        Err(StreamFault::Write) => Status::WriteFault,
        Err(StreamFault::Files) => Status::FileFault,
        Err(StreamFault::NoMemory) => Status::NoMemory,
    }
}
