ghost use Rattle.std.specs.Prelude.{◌≡◌, ◌||◌, IfOk, OnOk, OnErr, IsErrOf};
ghost use Rattle.outside.specs.Causes.{Rose};
ghost use Rattle.gcl_model.specs.FormOf.{form_of};
ghost use Rattle.gcl_model.specs.WellFormed.{IsWellFormed};
ghost use Rattle.grep_run.specs.Requests.{request_of};
ghost use Rattle.grep_run.specs.Visits.{AreBegun, AreSearched, is_found, is_left_out};

use crate::fault::SearchFault;
use crate::one_file::search_one;
use crate::outcome::{Outcome, Summary};
use crate::remarks::Remarks;
use crate::wish::Wish;
use file_answers::Mode;
use gcl_model::{Bytes, Ledger, Steps};
use outside::{Files, Sink};
use std::alloc::Global;

/// The summary with one more outcome.
pub(crate) fn after(summary: Summary, outcome: Outcome) -> Summary
    ensures found { result.found ≡ (summary.found || is_found outcome) }
    ensures left_out { result.left_out ≡ (summary.left_out || is_left_out outcome) }
{
    Summary {
        found: summary.found || matches!(outcome, Outcome::Found),
        left_out: summary.left_out || matches!(outcome, Outcome::TooLong | Outcome::Failed),
    }
}

/// Searches the files of these names one after another, and writes what is asked of each. A file that cannot be loaded, or has too many
/// bytes, is left out, and the search goes on with the next one; a write that fails ends it. If nothing is to be written, the first
/// answer ends it.
pub fn search_files<F: Files, K: Sink, S: Ledger, N: Remarks>(
    alloc: Global,
    files: &mut F,
    sink: &mut K,
    steps: &mut Steps<S>,
    wish: &Wish<'_>,
    names: &[Bytes],
    remarks: &mut N,
) -> Result<Summary, SearchFault>
    requires well_formed { IsWellFormed (form_of wish.now.asking.expr.now) }
    ensures searched { IfOk result (λ summary. AreSearched (F.held files.old) (request_of wish.now) names.now summary
        (K.written sink.old) (K.written sink.new) (F.faults files.old) (F.faults files.new) steps.old steps.new) }
    ensures begun { OnErr result (AreBegun (F.held files.old) (request_of wish.now) names.now (K.written sink.old) (K.written sink.new)) }
    ensures held { F.held files.new ≡ F.held files.old }
    ensures fault { IsErrOf result SearchFault.Write → Rose (K.faults sink.old) (K.faults sink.new) }
    ensures calm { OnOk result (K.faults sink.new ≡ K.faults sink.old) }
{
    let mut bytes = Vec::new(alloc);
    let mut summary = Summary {
        found: false,
        left_out: false,
    };
    for name in names {
        let outcome = search_one(alloc, files, sink, steps, wish, name.as_slice(), &mut bytes)?;
        remarks.visited(name.as_slice(), outcome);
        summary = after(summary, outcome);
        if summary.found && wish.asking.mode == Mode::Quiet {
            return Ok(summary);
        }
    }
    Ok(summary)
}
