ghost use Rattle.std.specs.Prelude.{◌≡◌, ◌≤◌, true, false, length, IfSome, IsErrOf, OnOk};
ghost use Rattle.std.specs.Io.KnownBytes.{Appends};
ghost use Rattle.made_corpus.specs.MadeLines.{made_lines};
ghost use Rattle.made_corpus.specs.Summary.{summary};
ghost use Rattle.outside.specs.Causes.{Rose};
ghost use Rattle.gcl_model.specs.Limits.{address_end, most_made, most_readers};
ghost use Rattle.query_run.specs.Statuses.{IsMadeEnd};
ghost use Rattle.query_run.specs.Runs.{WhereMade, IsSummed, AreTold, made_summary};
ghost use Rattle.script_answers.specs.Stopped.{GetsPart};

use crate::script_run::run_script;
use crate::status::Status;
use command_words::Made;
use made_corpus::{MadeFiles, SummarySink, made_script};
use outside::{Gate, Sink, SureSource};
use query_lanes::Context;
use script_answers::{RunFault, write_all};
use std::alloc::Global;
use std::random::RandomSource;
use std::sync::Wait;
use std::thread::Threads;

/// Answers the script of a made corpus over its files, and writes the summary of the answers, which are not kept.
pub fn run_made<R: Threads + Wait + Sync + RandomSource, K: Sink, G: Gate + Sync>(
    context: &Context<'_, R, G>,
    first: u64,
    readers: usize,
    made: Made,
    sink: &mut K,
) -> Status
    requires in_range { first ≤ address_end }
    requires lanes { readers ≤ most_readers }
    requires few { made.count ≤ most_made }
    ensures ends { IsMadeEnd result }
    ensures summed { result ≡ Status.Done →
        WhereMade first made (λ start. IsSummed made start false (K.written sink.old) (K.written sink.new)) }
    ensures summed_with_refusals { result ≡ Status.DoneWithRefusals →
        WhereMade first made (λ start. IsSummed made start true (K.written sink.old) (K.written sink.new)) }
    ensures part { WhereMade first made (λ start. GetsPart (K.written sink.old) (K.written sink.new) (made_summary made start)) }
    ensures write_fault { result ≡ Status.WriteFault → Rose (K.faults sink.old) (K.faults sink.new) }
    ensures calm { ¬ (result ≡ Status.WriteFault) → K.faults sink.new ≡ K.faults sink.old }
{
    let Some(answers) = answer_made(context, first, readers, made) else {
        return Status::NoMemory;
    };
    match write_summary(context.alloc, &answers.told, made, answers.lines, sink) {
        Ok(()) if answers.refused => Status::DoneWithRefusals,
        Ok(()) => Status::Done,
        Err(RunFault::Write) => Status::WriteFault,
        Err(_) => Status::NoMemory,
    }
}

/// The answers to a made script, as far as a summary reports them.
#[derive(Drop)]
struct MadeAnswers {
    told: SummarySink,
    // whether one of them is a refusal
    refused: bool,
    // how many lines the script has
    lines: u64,
}

/// Answers the script of a made corpus. Returns None only if out of memory, since the objects never fail.
fn answer_made<R: Threads + Wait + Sync + RandomSource, G: Gate + Sync>(
    context: &Context<'_, R, G>,
    first: u64,
    readers: usize,
    made: Made,
) -> Option<MadeAnswers>
    requires in_range { first ≤ address_end }
    requires lanes { readers ≤ most_readers }
    requires few { made.count ≤ most_made }
    ensures answers { IfSome result (λ answers.
        WhereMade first made (λ start. AreTold made start answers.refused (⟦<SummarySink as Sink>⟧.written answers.told))) }
    ensures lines { IfSome result (λ answers. answers.lines ≡ length (made_lines made.start made.count)) }
{
    let script = made_script(context.alloc, made.start, made.count).ok()?;
    let mut files = MadeFiles::new(context.alloc, made.start, made.count);
    let mut source = SureSource::new(context.alloc, script.text);
    let mut told = SummarySink::new();
    let mut completed = 0;
    let status = run_script(
        context,
        first,
        readers,
        &mut files,
        &mut source,
        &mut told,
        &mut completed,
    );
    let refused = match status {
        Status::Done => false,
        Status::DoneWithRefusals => true,
        _ => return None,
    };
    Some(MadeAnswers {
        told,
        refused,
        lines: script.lines,
    })
}

/// Writes the summary of the answers.
fn write_summary<K: Sink>(
    alloc: Global,
    told: &SummarySink,
    made: Made,
    lines: u64,
    sink: &mut K,
) -> Result<(), RunFault>
    requires { lines ≡ length (made_lines made.start made.count) }
    ensures written { OnOk result (IfSome (⟦<SummarySink as Sink>⟧.written told.now) (λ text.
        Appends (K.written sink.old) (K.written sink.new) (summary made.start made.count text))) }
    ensures part { IfSome (⟦<SummarySink as Sink>⟧.written told.now) (λ text.
        GetsPart (K.written sink.old) (K.written sink.new) (summary made.start made.count text)) }
    ensures cause { IsErrOf result RunFault.Write → Rose (K.faults sink.old) (K.faults sink.new) }
    ensures calm { ¬ IsErrOf result RunFault.Write → K.faults sink.new ≡ K.faults sink.old }
{
    let mut out = Vec::new(alloc);
    told.put_summary(&mut out, made.start, made.count, lines)?;
    write_all(sink, out.as_slice())?;
    Ok(())
}
