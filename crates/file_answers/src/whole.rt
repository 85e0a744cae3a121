ghost use Rattle.std.specs.Prelude.{◌≡◌, ◌+◌, ◌≤◌, [], length, nat_lt, take, IfOk, OnOk};
ghost use Rattle.std.specs.Io.KnownBytes.{Appends};
ghost use Rattle.outside.specs.Causes.{CountsWriteFault};
ghost use Rattle.gcl_model.specs.FormOf.{form_of};
ghost use Rattle.gcl_model.specs.Meaning.{concordance};
ghost use Rattle.gcl_model.specs.WellFormed.{IsWellFormed};
ghost use Rattle.gcl_readers.specs.MergeCost.{merge_cost};
ghost use Rattle.passages.specs.Texts.{count_text, name_text};
ghost use Rattle.file_answers.specs.Outputs.{output_of, where_some};
ghost use Rattle.file_answers.specs.Searched.{passages_of};
ghost use Rattle.file_answers.specs.Written.{GetsPart};

use crate::handing::write_all;
use crate::line_writer::LineWriter;
use crate::members::{Asking, next_member, put_answers};
use crate::mode::Mode;
use crate::part_writer::PartWriter;
use crate::writer::PassageWriter;
use gcl_model::{Bytes, Leaves, Ledger, Steps};
use gcl_readers::{Readers, read_count};
use outside::{Sink, WriteError};
use passages::{Shown, put_count, put_name};
use std::alloc::{AllocError, Global};

/// A file's name, and what is in front of each line.
#[derive(Drop)]
pub struct Label {
    pub name: Bytes,
    pub shown: Shown,
}

/// Hands over all that is held back.
fn finish<K: Sink>(sink: &mut K, out: &mut Vec<u8>) -> Result<(), WriteError>
    ensures written { OnOk result (Appends (K.written sink.old) (K.written sink.new) out.old.items) }
    ensures part { GetsPart (K.written sink.old) (K.written sink.new) out.old.items }
    ensures empty { OnOk result (out.new.items ≡ []) }
    ensures counts { CountsWriteFault (K.faults sink.old) (K.faults sink.new) result }
{
    write_all(sink, out.as_slice())?;
    out.clear();
    Ok(())
}

/// Writes the passages of the answers, and returns whether there is an answer.
fn write_passages<L: Leaves, S: Ledger, W: PassageWriter + Drop, K: Sink>(
    sink: &mut K,
    out: &mut Vec<u8>,
    leaves: &L,
    steps: &mut Steps<S>,
    asking: &Asking<'_>,
    bytes: &[u8],
    mut writer: W,
) -> Result<bool, WriteError>
    requires well_formed { IsWellFormed (form_of asking.now.expr.now) }
    requires empty { out.old.items ≡ [] }
    requires size { W.size writer ≡ length bytes.now }
    requires fresh { W.reached writer ≡ 0 }
    requires nothing { W.text writer [] ≡ [] }
    ensures written { OnOk result (Appends (K.written sink.old) (K.written sink.new)
        (W.text writer (passages_of bytes.now (take asking.now.most (concordance (L.text leaves.now) (form_of asking.now.expr.now)))))) }
    ensures part { GetsPart (K.written sink.old) (K.written sink.new)
        (W.text writer (passages_of bytes.now (take asking.now.most (concordance (L.text leaves.now) (form_of asking.now.expr.now))))) }
    ensures some { IfOk result (λ some. some ≡
        nat_lt 0 (length (take asking.now.most (concordance (L.text leaves.now) (form_of asking.now.expr.now))))) }
    ensures empty { OnOk result (out.new.items ≡ []) }
    ensures cost { steps.new ≤ steps.old + merge_cost (L.text leaves.now) (L.most leaves.now) (form_of asking.now.expr.now) }
    ensures counts { CountsWriteFault (K.faults sink.old) (K.faults sink.new) result }
{
    let count = put_answers(sink, out, leaves, steps, asking, bytes, &mut writer)?;
    finish(sink, out)?;
    Ok(count > 0)
}

/// How many answers count. `Err` means out of memory.
fn answer_count<L: Leaves, S: Ledger>(
    alloc: Global,
    leaves: &L,
    steps: &mut Steps<S>,
    asking: &Asking<'_>,
) -> Result<u64, AllocError>
    requires well_formed { IsWellFormed (form_of asking.now.expr.now) }
    ensures value { IfOk result (λ count.
        count ≡ length (take asking.now.most (concordance (L.text leaves.now) (form_of asking.now.expr.now)))) }
    ensures cost { steps.new ≤ steps.old + merge_cost (L.text leaves.now) (L.most leaves.now) (form_of asking.now.expr.now) }
{
    let mut readers = Readers::new(alloc, asking.expr)?;
    let count = read_count(&mut readers, asking.expr, leaves, 0, steps);
    Ok(count.min(asking.most))
}

/// Writes how many answers there are, and returns whether there are any.
fn write_count<L: Leaves, S: Ledger, K: Sink>(
    sink: &mut K,
    out: &mut Vec<u8>,
    leaves: &L,
    steps: &mut Steps<S>,
    asking: &Asking<'_>,
    shown: &Shown,
) -> Result<bool, WriteError>
    requires well_formed { IsWellFormed (form_of asking.now.expr.now) }
    requires empty { out.old.items ≡ [] }
    ensures written { OnOk result (Appends (K.written sink.old) (K.written sink.new)
        (count_text shown.now (length (take asking.now.most (concordance (L.text leaves.now) (form_of asking.now.expr.now)))))) }
    ensures part { GetsPart (K.written sink.old) (K.written sink.new)
        (count_text shown.now (length (take asking.now.most (concordance (L.text leaves.now) (form_of asking.now.expr.now))))) }
    ensures some { IfOk result (λ some. some ≡
        nat_lt 0 (length (take asking.now.most (concordance (L.text leaves.now) (form_of asking.now.expr.now))))) }
    ensures empty { OnOk result (out.new.items ≡ []) }
    ensures cost { steps.new ≤ steps.old + merge_cost (L.text leaves.now) (L.most leaves.now) (form_of asking.now.expr.now) }
    ensures counts { CountsWriteFault (K.faults sink.old) (K.faults sink.new) result }
{
    let count = answer_count(*out.allocator(), leaves, steps, asking)?;
    put_count(out, shown, count)?;
    finish(sink, out)?;
    Ok(count > 0)
}

/// Whether there is an answer. `Err` means out of memory.
fn has_answer<L: Leaves, S: Ledger>(
    alloc: Global,
    leaves: &L,
    steps: &mut Steps<S>,
    asking: &Asking<'_>,
) -> Result<bool, AllocError>
    requires well_formed { IsWellFormed (form_of asking.now.expr.now) }
    ensures some { IfOk result (λ some. some ≡
        nat_lt 0 (length (take asking.now.most (concordance (L.text leaves.now) (form_of asking.now.expr.now))))) }
    ensures cost { steps.new ≤ steps.old + merge_cost (L.text leaves.now) (L.most leaves.now) (form_of asking.now.expr.now) }
{
    if asking.most == 0 {
        return Ok(false);
    }
    let mut readers = Readers::new(alloc, asking.expr)?;
    let answer = next_member(&mut readers, asking.expr, leaves, 0, steps);
    Ok(answer.is_some())
}

/// Writes the file's name if there is an answer, and returns whether there is one.
fn write_name<L: Leaves, S: Ledger, K: Sink>(
    sink: &mut K,
    out: &mut Vec<u8>,
    leaves: &L,
    steps: &mut Steps<S>,
    asking: &Asking<'_>,
    name: &[u8],
) -> Result<bool, WriteError>
    requires well_formed { IsWellFormed (form_of asking.now.expr.now) }
    requires empty { out.old.items ≡ [] }
    ensures written { OnOk result (Appends (K.written sink.old) (K.written sink.new)
        (where_some (take asking.now.most (concordance (L.text leaves.now) (form_of asking.now.expr.now))) (name_text name.now))) }
    ensures part { GetsPart (K.written sink.old) (K.written sink.new)
        (where_some (take asking.now.most (concordance (L.text leaves.now) (form_of asking.now.expr.now))) (name_text name.now)) }
    ensures some { IfOk result (λ some. some ≡
        nat_lt 0 (length (take asking.now.most (concordance (L.text leaves.now) (form_of asking.now.expr.now))))) }
    ensures empty { OnOk result (out.new.items ≡ []) }
    ensures cost { steps.new ≤ steps.old + merge_cost (L.text leaves.now) (L.most leaves.now) (form_of asking.now.expr.now) }
    ensures counts { CountsWriteFault (K.faults sink.old) (K.faults sink.new) result }
{
    if !has_answer(*out.allocator(), leaves, steps, asking)? {
        return Ok(false);
    }
    put_name(out, name)?;
    finish(sink, out)?;
    Ok(true)
}

/// Writes what is asked of a file, and returns whether it has an answer. `leaves` are the file's words, and `bytes` the file.
pub fn write_file<L: Leaves, S: Ledger, K: Sink>(
    sink: &mut K,
    out: &mut Vec<u8>,
    leaves: &L,
    steps: &mut Steps<S>,
    asking: &Asking<'_>,
    label: &Label,
    bytes: &[u8],
) -> Result<bool, WriteError>
    requires well_formed { IsWellFormed (form_of asking.now.expr.now) }
    requires empty { out.old.items ≡ [] }
    ensures written { OnOk result (Appends (K.written sink.old) (K.written sink.new)
        (output_of asking.now.mode label.now.shown label.now.name bytes.now
        (take asking.now.most (concordance (L.text leaves.now) (form_of asking.now.expr.now))))) }
    ensures part { GetsPart (K.written sink.old) (K.written sink.new)
        (output_of asking.now.mode label.now.shown label.now.name bytes.now
        (take asking.now.most (concordance (L.text leaves.now) (form_of asking.now.expr.now)))) }
    ensures some { IfOk result (λ some. some ≡
        nat_lt 0 (length (take asking.now.most (concordance (L.text leaves.now) (form_of asking.now.expr.now))))) }
    ensures empty { OnOk result (out.new.items ≡ []) }
    ensures cost { steps.new ≤ steps.old + merge_cost (L.text leaves.now) (L.most leaves.now) (form_of asking.now.expr.now) }
    ensures counts { CountsWriteFault (K.faults sink.old) (K.faults sink.new) result }
{
    match asking.mode {
        Mode::Lines => {
            let writer = LineWriter::new(&label.shown, bytes);
            write_passages(sink, out, leaves, steps, asking, bytes, writer)
        }
        Mode::Answers => {
            let writer = PartWriter::new(&label.shown, bytes);
            write_passages(sink, out, leaves, steps, asking, bytes, writer)
        }
        Mode::Count => write_count(sink, out, leaves, steps, asking, &label.shown),
        Mode::Names => write_name(sink, out, leaves, steps, asking, label.name.as_slice()),
        Mode::Quiet => Ok(has_answer(*out.allocator(), leaves, steps, asking)?),
    }
}
