ghost use Rattle.std.specs.Prelude.{◌≡◌, ◌+◌, ◌≤◌, length, IfOk, OnOk, OnErr, IsErrOf};
ghost use Rattle.std.specs.Io.KnownBytes.{Appends};
ghost use Rattle.outside.specs.Causes.{Rose};
ghost use Rattle.gcl_model.specs.FormOf.{form_of};
ghost use Rattle.gcl_model.specs.Limits.{most_file};
ghost use Rattle.gcl_model.specs.Meaning.{concordance};
ghost use Rattle.gcl_model.specs.WellFormed.{IsWellFormed};
ghost use Rattle.gcl_model.specs.Wide.{wide};
ghost use Rattle.wide_terms.specs.Expansion.{expansion};
ghost use Rattle.text_search.specs.FileTexts.{file_text};
ghost use Rattle.file_answers.specs.Written.{GetsPart};
ghost use Rattle.grep_run.specs.Requests.{file_output, has_answer, request_of, shown_name, shown_of};
ghost use Rattle.grep_run.specs.Visits.{IsBegun, IsVisited, look_ups, searched};

use crate::fault::SearchFault;
use crate::outcome::Outcome;
use crate::wish::Wish;
use file_answers::{Asking, Label, write_file};
use gcl_model::{Bytes, Expr, Ledger, Steps};
use outside::{FileError, Files, Loaded, Sink};
use passages::Shown;
use std::alloc::{AllocError, Global};
use text_search::{QueryText, expanded};

/// The most bytes that a file may have.
pub const MOST_FILE: u64 = 1 << 26;

/// The name that a file is shown by: `(standard input)` for standard input.
fn shown_name(name: &[u8]) -> &[u8]
    ensures { result.now ≡ shown_name name.now }
{
    if name == b"-".as_slice() {
        b"(standard input)"
    } else {
        name
    }
}

/// The shown name of a file, and what is in front of its lines.
fn label(alloc: Global, wish: &Wish<'_>, name: &[u8]) -> Result<Label, AllocError>
    ensures name { IfOk result (λ label. label.name ≡ shown_name name.now) }
    ensures shown { IfOk result (λ label. label.shown ≡ shown_of (request_of wish.now) name.now) }
{
    let name = shown_name(name);
    let shown = if wish.named {
        Some(Bytes::copy_of(alloc, name)?)
    } else {
        None
    };
    Ok(Label {
        name: Bytes::copy_of(alloc, name)?,
        shown: Shown {
            name: shown,
            numbered: wish.numbered,
        },
    })
}

/// Writes what is asked of a file with these bytes, and returns whether it has an answer.
pub(crate) fn search_bytes<K: Sink, S: Ledger>(
    alloc: Global,
    sink: &mut K,
    steps: &mut Steps<S>,
    wish: &Wish<'_>,
    name: &[u8],
    bytes: &[u8],
) -> Result<bool, SearchFault>
    requires well_formed { IsWellFormed (form_of wish.now.asking.expr.now) }
    requires short { length bytes.now ≤ most_file }
    ensures written { OnOk result (Appends (K.written sink.old) (K.written sink.new) (file_output
        (request_of wish.now) name.now bytes.now)) }
    ensures part { GetsPart (K.written sink.old) (K.written sink.new) (file_output (request_of wish.now) name.now bytes.now) }
    ensures some { IfOk result (λ some. some ≡ has_answer (request_of wish.now) bytes.now) }
    ensures cost { steps.new ≤ steps.old + look_ups (request_of wish.now) (searched bytes.now) }
    ensures fault { IsErrOf result SearchFault.Write → Rose (K.faults sink.old) (K.faults sink.new) }
    ensures calm { OnOk result (K.faults sink.new ≡ K.faults sink.old) }
{
    let expr = expanded(alloc, bytes, wish.asking.expr)?;
    search_expanded(alloc, sink, steps, wish, &expr, name, bytes)
}

/// The same by the expression as it is expanded over the file.
fn search_expanded<K: Sink, S: Ledger>(
    alloc: Global,
    sink: &mut K,
    steps: &mut Steps<S>,
    wish: &Wish<'_>,
    expr: &Expr,
    name: &[u8],
    bytes: &[u8],
) -> Result<bool, SearchFault>
    requires well_formed { IsWellFormed (form_of expr.now) }
    requires short { length bytes.now ≤ most_file }
    requires form { form_of expr.now ≡ expansion (file_text bytes.now) (form_of wish.now.asking.expr.now) }
    requires wide { concordance (file_text bytes.now) (form_of expr.now) ≡ wide (file_text bytes.now) (form_of wish.now.asking.expr.now) }
    ensures written { OnOk result (Appends (K.written sink.old) (K.written sink.new) (file_output
        (request_of wish.now) name.now bytes.now)) }
    ensures part { GetsPart (K.written sink.old) (K.written sink.new) (file_output (request_of wish.now) name.now bytes.now) }
    ensures some { IfOk result (λ some. some ≡ has_answer (request_of wish.now) bytes.now) }
    ensures cost { steps.new ≤ steps.old + look_ups (request_of wish.now) (searched bytes.now) }
    ensures fault { IsErrOf result SearchFault.Write → Rose (K.faults sink.old) (K.faults sink.new) }
    ensures calm { OnOk result (K.faults sink.new ≡ K.faults sink.old) }
{
    let text = QueryText::of(alloc, bytes, expr)?;
    let asking = Asking {
        expr,
        most: wish.asking.most,
        mode: wish.asking.mode,
    };
    let label = label(alloc, wish, name)?;
    let mut out = Vec::new(alloc);
    let found = write_file(sink, &mut out, &text, steps, &asking, &label, bytes)?;
    wish.tally.add(&text);
    Ok(found)
}

/// Loads a file, and writes what is asked of it. A file that cannot be loaded, or has too many bytes, is left out.
pub fn search_one<F: Files, K: Sink, S: Ledger>(
    alloc: Global,
    files: &mut F,
    sink: &mut K,
    steps: &mut Steps<S>,
    wish: &Wish<'_>,
    name: &[u8],
    bytes: &mut Vec<u8>,
) -> Result<Outcome, SearchFault>
    requires well_formed { IsWellFormed (form_of wish.now.asking.expr.now) }
    ensures visited { IfOk result (λ outcome. IsVisited (F.held files.old) (request_of wish.now) name.now outcome
        (K.written sink.old) (K.written sink.new) (F.faults files.old) (F.faults files.new) steps.old steps.new) }
    ensures begun { OnErr result (IsBegun (F.held files.old) (request_of wish.now) name.now (K.written sink.old) (K.written sink.new)) }
    ensures held { F.held files.new ≡ F.held files.old }
    ensures fault { IsErrOf result SearchFault.Write → Rose (K.faults sink.old) (K.faults sink.new) }
    ensures calm { OnOk result (K.faults sink.new ≡ K.faults sink.old) }
{
    match files.load(name, MOST_FILE, bytes) {
        Ok(Loaded::Whole) => {
            let found = search_bytes(alloc, sink, steps, wish, name, bytes.as_slice())?;
            Ok(if found {
                Outcome::Found
            } else {
                Outcome::NotFound
            })
        }
        Ok(Loaded::Long) => Ok(Outcome::TooLong),
        Err(FileError::Failed) => Ok(Outcome::Failed),
        Err(FileError::NoMemory) => Err(SearchFault::NoMemory),
    }
}
