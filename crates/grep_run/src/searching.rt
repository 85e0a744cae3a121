ghost use Rattle.std.specs.Prelude.{◌≡◌, IfOk, IsErrOf, OnErr, OnOk};
ghost use Rattle.outside.specs.Causes.{Rose};
ghost use Rattle.gcl_model.specs.FormOf.{form_of};
ghost use Rattle.gcl_model.specs.WellFormed.{IsWellFormed};
ghost use Rattle.grep_run.specs.Requests.{request_of};
ghost use Rattle.grep_run.specs.Visits.{AreBegun, AreSearched};
ghost use Rattle.grep_run.specs.Searches.{Ends, FilesEnd, IsRefusal, TextEnds, request_with};

use crate::asked::{Asked, Query};
use crate::beside::search_beside;
use crate::context::Context;
use crate::fault::SearchFault;
use crate::files::search_files;
use crate::outcome::Summary;
use crate::remarks::Remarks;
use crate::shared_files::SharedFiles;
use crate::status::{Status, end_of, is_quiet};
use crate::tally::Tally;
use crate::wish::Wish;
use file_answers::Asking;
use gcl_model::{Bytes, Expr, Ledger, Steps};
use gcl_parser::{ParseFault, parse};
use outside::Sink;
use query_names::{NameFault, put_in};
use std::thread::Threads;

/// Searches the files of these names, concurrently if that is asked for. If the first answer ends the search, files are searched one after
/// another, so that no file after it is visited.
fn search_each<R: Threads + Sync, F: SharedFiles, K: Sink, S: Ledger, N: Remarks>(
    context: &Context<'_, R>,
    files: &mut F,
    sink: &mut K,
    steps: &mut Steps<S>,
    wish: &Wish<'_>,
    names: &[Bytes],
    remarks: &mut N,
) -> Result<Summary, SearchFault>
    requires well_formed { IsWellFormed (form_of wish.now.asking.expr.now) }
    ensures searched { IfOk result (λ summary. AreSearched (F.held files.old) (request_of wish.now) names.now summary
        (K.written sink.old) (K.written sink.new) (F.faults files.old) (F.faults files.new) steps.old steps.new) }
    ensures begun { OnErr result (AreBegun (F.held files.old) (request_of wish.now) names.now (K.written sink.old) (K.written sink.new)) }
    ensures held { F.held files.new ≡ F.held files.old }
    ensures fault { IsErrOf result SearchFault.Write → Rose (K.faults sink.old) (K.faults sink.new) }
    ensures calm { OnOk result (K.faults sink.new ≡ K.faults sink.old) }
{
    if wish.threads < 2 || names.len() < 2 || is_quiet(wish.asking.mode) {
        return search_files(context.alloc, files, sink, steps, wish, names, remarks);
    }
    search_beside(context, files, sink, steps, wish, names, remarks)
}

/// Searches the files of these names, and returns how it ended.
fn search_for<R: Threads + Sync, F: SharedFiles, K: Sink, S: Ledger, N: Remarks>(
    context: &Context<'_, R>,
    files: &mut F,
    sink: &mut K,
    steps: &mut Steps<S>,
    wish: &Wish<'_>,
    names: &[Bytes],
    remarks: &mut N,
) -> Status
    requires well_formed { IsWellFormed (form_of wish.now.asking.expr.now) }
    ensures ends { FilesEnd (F.held files.old) (request_of wish.now) names.now result (K.written sink.old) (K.written sink.new)
        (F.faults files.old) (F.faults files.new) steps.old steps.new }
    ensures write_fault { result ≡ Status.WriteFault → Rose (K.faults sink.old) (K.faults sink.new) }
    ensures held { F.held files.new ≡ F.held files.old }
{
    match search_each(context, files, sink, steps, wish, names, remarks) {
        Ok(summary) => end_of(wish.asking.mode, summary),
        Err(SearchFault::Write) => Status::WriteFault,
        Err(SearchFault::NoMemory) => Status::NoMemory,
    }
}

/// Searches the files for an expression, and reports what they have of the words that it names.
fn search_expr<R: Threads + Sync, F: SharedFiles, K: Sink, S: Ledger, N: Remarks>(
    context: &Context<'_, R>,
    files: &mut F,
    sink: &mut K,
    steps: &mut Steps<S>,
    asked: &Asked<'_>,
    expr: &Expr,
    remarks: &mut N,
) -> Status
    requires well_formed { IsWellFormed (form_of expr.now) }
    ensures ends { FilesEnd (F.held files.old) (request_with asked.now (form_of expr.now)) asked.now.names.now result
        (K.written sink.old) (K.written sink.new) (F.faults files.old) (F.faults files.new) steps.old steps.new }
    ensures write_fault { result ≡ Status.WriteFault → Rose (K.faults sink.old) (K.faults sink.new) }
    ensures held { F.held files.new ≡ F.held files.old }
{
    let Ok(tally) = Tally::of(context.alloc, expr) else {
        return Status::NoMemory;
    };
    let wish = Wish {
        asking: Asking {
            expr,
            most: asked.most,
            mode: asked.mode,
        },
        named: asked.named,
        numbered: asked.numbered,
        threads: asked.threads,
        tally: &tally,
    };
    let status = search_for(context, files, sink, steps, &wish, asked.names, remarks);
    remarks.counted(&tally, status);
    status
}

/// Searches the files for a query in which all names are put in.
fn search_text<R: Threads + Sync, F: SharedFiles, K: Sink, S: Ledger, N: Remarks>(
    context: &Context<'_, R>,
    files: &mut F,
    sink: &mut K,
    steps: &mut Steps<S>,
    asked: &Asked<'_>,
    text: &[u8],
    remarks: &mut N,
) -> Status
    ensures ends { TextEnds (F.held files.old) asked.now text.now result (K.written sink.old) (K.written sink.new)
        (F.faults files.old) (F.faults files.new) steps.old steps.new }
    ensures write_fault { result ≡ Status.WriteFault → Rose (K.faults sink.old) (K.faults sink.new) }
    ensures untouched { IsRefusal result → (files.new ≡ files.old) × (sink.new ≡ sink.old) }
    ensures held { F.held files.new ≡ F.held files.old }
{
    let expr = match parse(context.alloc, text) {
        Ok(expr) => expr,
        Err(ParseFault::Query(fault)) => return Status::BadQuery(fault),
        Err(ParseFault::NoMemory) => return Status::NoMemory,
    };
    search_expr(context, files, sink, steps, asked, &expr, remarks)
}

/// Searches files for a query, and writes what is asked of each: all that the program does once its words are read.
///
/// A query that is refused reads and writes nothing. A file that cannot be loaded, or is longer than a file may be, is left out, and the
/// search goes on; a write that fails ends it. What was written is the beginning of the texts of the files that were searched, in order.
pub fn search<R: Threads + Sync, F: SharedFiles, K: Sink, S: Ledger, N: Remarks>(
    context: &Context<'_, R>,
    files: &mut F,
    sink: &mut K,
    steps: &mut Steps<S>,
    asked: &Asked<'_>,
    query: &Query<'_>,
    remarks: &mut N,
) -> Status
    // What was written, and why it ended so: the texts of the files in order, all look-ups within their bounds, and the refusal's cause.
    ensures ends { Ends (F.held files.old) asked.now query.now.definitions.now query.now.text.now result (K.written sink.old)
        (K.written sink.new)
        (F.faults files.old) (F.faults files.new) steps.old steps.new }

    // A write fault is one of the sink, and the files hold what they held.
    ensures write_fault { result ≡ Status.WriteFault → Rose (K.faults sink.old) (K.faults sink.new) }
    ensures untouched { IsRefusal result → (files.new ≡ files.old) × (sink.new ≡ sink.old) }
    ensures held { F.held files.new ≡ F.held files.old }
{
    match put_in(context.alloc, query.definitions, query.text) {
        Ok(text) => search_text(context, files, sink, steps, asked, text.as_slice(), remarks),
        Err(NameFault::NoMemory) => Status::NoMemory,
        Err(fault) => Status::BadName(fault),
    }
}
