ghost use Rattle.std.specs.Prelude.{◌≡◌, ◌≤◌, ◌+◌, IfOk, OnOk, OnErr, IsErrOf, if◌then◌else◌};
ghost use Rattle.std.specs.Io.KnownBytes.{Appends};
ghost use Rattle.outside.specs.Causes.{Rose};
ghost use Rattle.gcl_model.specs.FormOf.{form_of};
ghost use Rattle.gcl_model.specs.WellFormed.{IsWellFormed};
ghost use Rattle.file_answers.specs.Written.{GetsPart};
ghost use Rattle.grep_run.specs.Requests.{request_of};
ghost use Rattle.grep_run.specs.Visits.{AreBegun, AreSearched, IsBegun, IsVisited, fate_text, look_ups, outcome_of};
ghost use Rattle.grep_run.specs.inner.Works.{IsReady, IsRight, fate_of};

use crate::ahead::{Ahead, hands_on, take};
use crate::context::Context;
use crate::fault::SearchFault;
use crate::files::after;
use crate::one_file::{search_bytes, search_one};
use crate::outcome::{Outcome, Summary};
use crate::remarks::Remarks;
use crate::shared_files::SharedFiles;
use crate::wish::Wish;
use crate::work::{Answered, Gone, Work};
use file_answers::write_all;
use gcl_model::{Bytes, Ledger, Steps};
use outside::{Files, Sink};
use std::alloc::Global;
use std::thread::Threads;

/// Writes the text of a file that was searched, and returns whether it has an answer.
fn write_answered<K: Sink>(sink: &mut K, answered: &Answered) -> Result<bool, SearchFault>
    ensures written { OnOk result (Appends (K.written sink.old) (K.written sink.new) answered.now.text) }
    ensures part { GetsPart (K.written sink.old) (K.written sink.new) answered.now.text }
    ensures some { IfOk result (λ some. some ≡ answered.now.found) }
    ensures fault { IsErrOf result SearchFault.Write → Rose (K.faults sink.old) (K.faults sink.new) }
    ensures calm { OnOk result (K.faults sink.new ≡ K.faults sink.old) }
{
    write_all(sink, answered.text.as_slice())?;
    Ok(answered.found)
}

/// The outcome of a search.
fn outcome_for(found: bool) -> Outcome
    ensures { result ≡ (if found then Outcome.Found else Outcome.NotFound) }
{
    if found {
        Outcome::Found
    } else {
        Outcome::NotFound
    }
}

/// Writes what was found in a file.
fn write_work<K: Sink, S: Ledger>(
    alloc: Global,
    sink: &mut K,
    steps: &mut Steps<S>,
    wish: &Wish<'_>,
    work: &Work,
) -> Result<Outcome, SearchFault>
    requires well_formed { IsWellFormed (form_of wish.now.asking.expr.now) }
    requires right { IsRight (request_of wish.now) work.now.name work.now.gone }
    ensures outcome { IfOk result (λ outcome. outcome ≡ outcome_of (request_of wish.now) (fate_of work.now.gone)) }
    ensures written { OnOk result (Appends (K.written sink.old) (K.written sink.new) (fate_text
        (request_of wish.now) work.now.name (fate_of work.now.gone))) }
    ensures part { GetsPart (K.written sink.old) (K.written sink.new) (fate_text
        (request_of wish.now) work.now.name (fate_of work.now.gone)) }
    ensures cost { steps.new ≤ steps.old + look_ups (request_of wish.now) (fate_of work.now.gone) }
    ensures fault { IsErrOf result SearchFault.Write → Rose (K.faults sink.old) (K.faults sink.new) }
    ensures calm { OnOk result (K.faults sink.new ≡ K.faults sink.old) }
{
    match &work.gone {
        Gone::Searched(_, answered) => {
            let found = write_answered(sink, answered)?;
            Ok(outcome_for(found))
        }
        Gone::Loaded(bytes) => {
            let name = work.name.as_slice();
            let found = search_bytes(alloc, sink, steps, wish, name, bytes.as_slice())?;
            Ok(outcome_for(found))
        }
        Gone::TooLong => Ok(Outcome::TooLong),
    }
}

/// Writes what was found in a file, or visits it now if nothing was.
fn visit<F: Files, K: Sink, S: Ledger>(
    alloc: Global,
    files: &mut F,
    sink: &mut K,
    steps: &mut Steps<S>,
    wish: &Wish<'_>,
    name: &[u8],
    work: Option<Work>,
) -> Result<Outcome, SearchFault>
    requires well_formed { IsWellFormed (form_of wish.now.asking.expr.now) }
    requires ready { IsReady (F.held files.old) (request_of wish.now) work }
    ensures visited { IfOk result (λ outcome. IsVisited (F.held files.old) (request_of wish.now) name.now outcome
        (K.written sink.old) (K.written sink.new) (F.faults files.old) (F.faults files.new) steps.old steps.new) }
    ensures begun { OnErr result (IsBegun (F.held files.old) (request_of wish.now) name.now (K.written sink.old) (K.written sink.new)) }
    ensures held { F.held files.new ≡ F.held files.old }
    ensures fault { IsErrOf result SearchFault.Write → Rose (K.faults sink.old) (K.faults sink.new) }
    ensures calm { OnOk result (K.faults sink.new ≡ K.faults sink.old) }
{
    if let Some(work) = work {
        if work.name.as_slice() == name {
            let outcome = write_work(alloc, sink, steps, wish, &work)?;
            return Ok(outcome);
        }
    }
    search_one(alloc, files, sink, steps, wish, name, &mut Vec::new(alloc))
}

/// Searches the files of these names as `search_files` does, in threads that visit files before their turn. Each thread has one buffer,
/// and what is found in a file is held until it is written: at most 2 MiB of texts, plus one text for each thread. A file that a thread
/// cannot load is loaded again in its turn, and that result counts.
pub(crate) fn search_beside<R: Threads + Sync, F: SharedFiles, K: Sink, S: Ledger, N: Remarks>(
    context: &Context<'_, R>,
    files: &mut F,
    sink: &mut K,
    steps: &mut Steps<S>,
    wish: &Wish<'_>,
    names: &[Bytes],
    remarks: &mut N,
) -> Result<Summary, SearchFault>
    requires well_formed { IsWellFormed (form_of wish.now.asking.expr.now) }
    ensures searched { IfOk result (λ summary. AreSearched (F.held files.old) (request_of wish.now) names.now summary
        (K.written sink.old) (K.written sink.new) (F.faults files.old) (F.faults files.new) steps.old steps.new) }
    ensures begun { OnErr result (AreBegun (F.held files.old) (request_of wish.now) names.now (K.written sink.old) (K.written sink.new)) }
    ensures held { F.held files.new ≡ F.held files.old }
    ensures fault { IsErrOf result SearchFault.Write → Rose (K.faults sink.old) (K.faults sink.new) }
    ensures calm { OnOk result (K.faults sink.new ≡ K.faults sink.old) }
{
    let mut hands = hands_on(context.alloc, files, wish.threads)?;
    let hands = hands.as_mut_slice();
    let mut ahead = Ahead::new(context.alloc);
    let mut summary = Summary {
        found: false,
        left_out: false,
    };
    for name in names {
        let work = take(context, wish, names, &mut ahead, hands)?;
        let outcome = visit(
            context.alloc,
            files,
            sink,
            steps,
            wish,
            name.as_slice(),
            work,
        )?;
        remarks.visited(name.as_slice(), outcome);
        summary = after(summary, outcome);
    }
    Ok(summary)
}
