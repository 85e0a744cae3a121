ghost use Rattle.std.specs.Prelude.{◌≡◌, ◌≤◌, ◌<◌, ◌⊎◌, true, false, [], None, IfSome, IsSome, IsSomeAnd, length};
ghost use Rattle.outside.specs.Causes.{Rose};
ghost use Rattle.gcl_model.specs.Limits.{most_line, most_script};
ghost use Rattle.script_lang.specs.Lines.{lines};
ghost use Rattle.command_words.specs.Grammar.{options_of};
ghost use Rattle.query_run.specs.Words.{first_of};
ghost use Rattle.query_run.specs.Statuses.{IsSureOfFiles, IsFinished, IsCutOff, ending_of, most_taken};
ghost use Rattle.script_answers.specs.States.{greatest_limits};
ghost use Rattle.script_answers.specs.Answers.{output, names_kept_of, names_of};
ghost use Rattle.query_run.specs.Runs.{TakesAtMost, WhereTold, WhereMadeBy, StopsAfter};
ghost use Rattle.query_run.specs.Runs.{IsAnswered, IsSummed, HandsOverMore, made_summary, within};
ghost use Rattle.script_answers.specs.Stopped.{GetsPart};

use crate::made_run::run_made;
use crate::script_run::run_script;
use crate::status::Status;
use command_words::options_of;
use gcl_model::Bytes;
use outside::{Files, Gate, Sink, Source};
use query_lanes::Context;
use std::alloc::{AllocError, Global};
use std::random::RandomSource;
use std::sync::Wait;
use std::thread::Threads;

/// Reads a script from the source, and writes the answers to its lines to the sink; or, if the words ask for a made corpus, answers its
/// script over its files and writes the summary. The words are those of `command_words`: `--first A`, `--readers N`, `--made X` and
/// `--count C`.
///
/// `completed` gets the number of lines of the script that are completed: if a file could not be loaded or kept, the line after these is
/// the one that names it.
pub fn run<R: Threads + Wait + Sync + RandomSource, F: Files, S: Source, K: Sink, G: Gate + Sync>(
    rt: &R,
    alloc: Global,
    words: &[Bytes],
    files: &mut F,
    source: &mut S,
    sink: &mut K,
    gate: &G,
    completed: &mut u64,
) -> Status
    // Usage exactly if the words are outside the grammar, unless out of memory. At Usage nothing is touched.
    ensures usage_only { result ≡ Status.Usage → options_of words.now ≡ None }
    ensures usage_always { options_of words.now ≡ None → (result ≡ Status.Usage) ⊎ (result ≡ Status.NoMemory) }
    ensures untouched { result ≡ Status.Usage →
        (source.new ≡ source.old) × (files.new ≡ files.old) × (sink.new ≡ sink.old) }

    // The headline: if the script and what the files hold are known, and of what the lines open it is said rightly
    // what it is an image of.
    ensures done { result ≡ Status.Done →
        WhereTold greatest_limits (first_of words.now) (S.left source.old) (F.held files.old) (λ start script.
        IsAnswered start script false (S.left source.new) (F.held files.new) (K.written sink.old) (K.written sink.new)) }
    ensures done_with_refusals { result ≡ Status.DoneWithRefusals →
        WhereTold greatest_limits (first_of words.now) (S.left source.old) (F.held files.old) (λ start script.
        IsAnswered start script true (S.left source.new) (F.held files.new) (K.written sink.old) (K.written sink.new)) }

    // Whatever the status, `completed` lines are completed, the sink gets the beginning of the output, and the files hold exactly what
    // these lines leave; but if a keep returned an error, that holds for every name except the one that the next line saves. No keep did,
    // unless the status names a fault of a file or is out of memory. If the status names a fault of the source or the files, or too long a
    // script, all answers to these lines are written and nothing else; and at a fault of the files the next line is the one that names the
    // file.
    ensures stopped { WhereTold greatest_limits (first_of words.now) (S.left source.old) (F.held files.old) (λ start script.
        StopsAfter greatest_limits start (lines most_line script) completed.new (ending_of result) (F.unkept files.new ≡ F.unkept files.old)
        (F.held files.new) (K.written sink.old) (K.written sink.new)) }
    ensures sure { IsSureOfFiles result → F.unkept files.new ≡ F.unkept files.old }
    ensures part { WhereTold greatest_limits (first_of words.now) (S.left source.old) (F.held files.old) (λ start script.
        GetsPart (K.written sink.old) (K.written sink.new) (output start script)) }
    ensures part_within { result ≡ Status.ScriptTooLong →
        WhereTold greatest_limits (first_of words.now) (S.left source.old) (F.held files.old) (λ start script.
        GetsPart (K.written sink.old) (K.written sink.new) (output start (within most_script script))) }

    // No more bytes are taken than a script may have, and one more if the status says that it is too long.
    ensures took { TakesAtMost (most_taken most_script result) (S.left source.old) (S.left source.new) }

    // Each other status has its cause.
    ensures read_fault { result ≡ Status.ReadFault → Rose (S.faults source.old) (S.faults source.new) }
    ensures write_fault { result ≡ Status.WriteFault → Rose (K.faults sink.old) (K.faults sink.new) }
    ensures file_fault { result ≡ Status.FileFault → Rose (F.faults files.old) (F.faults files.new) }
    ensures too_long { result ≡ Status.ScriptTooLong → HandsOverMore most_script (S.left source.old) (S.left source.new) }

    // If the words are in the grammar, no object failed and the script is within the limit, all is answered, or the
    // run is out of memory. If it is longer, the status says so, or the run is out of memory.
    ensures complete { IsSome (options_of words.now) → ¬ Rose (S.faults source.old) (S.faults source.new) →
        ¬ Rose (K.faults sink.old) (K.faults sink.new) → ¬ Rose (F.faults files.old) (F.faults files.new) →
        IsSomeAnd (S.left source.old) (λ script. length script ≤ most_script) →
        IsFinished result }
    ensures complete_long { IsSome (first_of words.now) → ¬ Rose (S.faults source.old) (S.faults source.new) →
        ¬ Rose (K.faults sink.old) (K.faults sink.new) → ¬ Rose (F.faults files.old) (F.faults files.new) →
        IsSomeAnd (S.left source.old) (λ script. most_script < length script) →
        IsCutOff result }

    // Each object failed only if the status says so.
    ensures source_calm { ¬ (result ≡ Status.ReadFault) → S.faults source.new ≡ S.faults source.old }
    ensures sink_calm { ¬ (result ≡ Status.WriteFault) → K.faults sink.new ≡ K.faults sink.old }
    ensures files_calm { ¬ (result ≡ Status.FileFault) → F.faults files.new ≡ F.faults files.old }

    // If no line names a file, none is asked for, and if no line saves, none changes.
    ensures unasked { IfSome (S.left source.old) (λ script. names_of (lines most_line script) ≡ [] → files.new ≡ files.old) }
    ensures unsaved { IfSome (S.left source.old) (λ script. names_kept_of (lines most_line script) ≡ [] →
        F.held files.new ≡ F.held files.old) }

    // Over a made corpus the sink gets the summary of the output, or the beginning of the summary, and no other object is touched.
    // If it did not fail, all is answered, or the run is out of memory.
    ensures summed { result ≡ Status.Done →
        WhereMadeBy (options_of words.now) (λ made start. IsSummed made start false (K.written sink.old) (K.written sink.new)) }
    ensures summed_with_refusals { result ≡ Status.DoneWithRefusals →
        WhereMadeBy (options_of words.now) (λ made start. IsSummed made start true (K.written sink.old) (K.written sink.new)) }
    ensures part_summed { WhereMadeBy (options_of words.now)
        (λ made start. GetsPart (K.written sink.old) (K.written sink.new) (made_summary made start)) }
    ensures complete_made { IfSome (options_of words.now) (λ options.
        IsSome options.made → ¬ Rose (K.faults sink.old) (K.faults sink.new) → IsFinished result) }
    ensures untouched_by_made { IfSome (options_of words.now) (λ options. IsSome options.made →
        (source.new ≡ source.old) × (files.new ≡ files.old)) }
{
    *completed = 0;
    let options = match options_of(alloc, words) {
        Ok(Some(options)) => options,
        Ok(None) => return Status::Usage,
        Err(AllocError) => return Status::NoMemory,
    };
    let context = Context { rt, alloc, gate };
    match options.made {
        None => run_script(
            &context,
            options.first,
            options.readers,
            files,
            source,
            sink,
            completed,
        ),
        Some(made) => run_made(&context, options.first, options.readers, made, sink),
    }
}
