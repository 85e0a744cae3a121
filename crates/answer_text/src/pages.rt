//! The answers to the queries of a batch are put page by page.
ghost use Rattle.std.specs.Prelude.{◌≡◌, ◌+◌, ◌-◌, ◌≤◌, ◌++◌, [], flat_map, length, map, take, IfOk, OnOk, OnErr};
ghost use Rattle.std.specs.List.{list_any};
ghost use Rattle.std.specs.Io.KnownBytes.{Appends};
ghost use Rattle.gcl_model.specs.Limits.{far};
ghost use Rattle.outside.specs.Causes.{HasWriteCause, CountsWriteFault};
ghost use Rattle.script_lang.specs.Answers.{interval_line, is_refusal};
ghost use Rattle.script_lang.specs.Lines.{text_of_lines};
ghost use Rattle.answer_text.specs.Puts.{founds_text, GetsPart, members_text, Puts};
ghost use Rattle.answer_text.specs.Texts.{found_lines, list_lines};

use crate::write::{PIECE, write_all};
use gcl_model::{Interval, IntervalList};
use outside::{Sink, WriteError};
use query_lanes::Found;
use query_search::Listing;
use script_lang::{Refusal, put_interval, put_refusal, put_total};
use std::alloc::{AllocError, Global};

/// Appends a line for each interval.
fn put_intervals(out: &mut Vec<u8>, list: &[Interval]) -> Result<(), AllocError>
    ensures { OnOk result (out.new.items ≡ out.old.items ++ text_of_lines (map interval_line list.now)) }
{
    for interval in list {
        put_interval(out, *interval)?;
    }
    Ok(())
}

/// Hands over what is held back, once it is a piece.
pub(crate) fn hand_over<K: Sink>(sink: &mut K, out: &mut Vec<u8>) -> Result<(), WriteError>
    ensures puts { OnOk result (Puts (K.written sink.old) (K.written sink.new) out.old.items out.new.items []) }
    ensures part { OnErr result (GetsPart (K.written sink.old) (K.written sink.new) out.old.items) }
    ensures cause { HasWriteCause (K.faults sink.old) (K.faults sink.new) result }
    ensures counts { CountsWriteFault (K.faults sink.old) (K.faults sink.new) result }
{
    if out.len() < PIECE {
        return Ok(());
    }
    write_all(sink, out.as_slice())?;
    out.clear();
    Ok(())
}

/// Puts a line for each interval of a page.
fn put_page<K: Sink>(sink: &mut K, out: &mut Vec<u8>, page: &IntervalList) -> Result<(), WriteError>
    ensures puts { OnOk result (Puts (K.written sink.old) (K.written sink.new) out.old.items out.new.items (members_text page.now)) }
    ensures part { OnErr result (GetsPart (K.written sink.old) (K.written sink.new) (out.old.items ++ members_text page.now)) }
    ensures cause { HasWriteCause (K.faults sink.old) (K.faults sink.new) result }
    ensures counts { CountsWriteFault (K.faults sink.old) (K.faults sink.new) result }
{
    put_intervals(out, page.as_slice())?;
    hand_over(sink, out)?;
    Ok(())
}

/// Puts a line for each member that is still to come, page by page, and gives their number.
fn put_members<K: Sink>(
    alloc: Global,
    sink: &mut K,
    out: &mut Vec<u8>,
    listing: &mut Listing,
) -> Result<u64, WriteError>
    ensures puts { OnOk result (Puts (K.written sink.old) (K.written sink.new) out.old.items out.new.items (members_text listing.old)) }
    ensures part { OnErr result (GetsPart (K.written sink.old) (K.written sink.new) (out.old.items ++ members_text listing.old)) }
    ensures count { IfOk result (λ count. count ≡ length listing.old) }
    ensures cause { HasWriteCause (K.faults sink.old) (K.faults sink.new) result }
    ensures counts { CountsWriteFault (K.faults sink.old) (K.faults sink.new) result }
{
    listing.is_bounded();
    let mut count = 0;
    while let Some(page) = listing.next_page(alloc)? {
        put_page(sink, out, &page)?;
        count += page.len() as u64;
    }
    Ok(count)
}

/// Puts a line for each member of a list, and gives their number.
fn put_all_members<K: Sink>(
    alloc: Global,
    sink: &mut K,
    out: &mut Vec<u8>,
    listing: Listing,
) -> Result<u64, WriteError>
    ensures puts { OnOk result (Puts (K.written sink.old) (K.written sink.new) out.old.items out.new.items (members_text listing)) }
    ensures part { OnErr result (GetsPart (K.written sink.old) (K.written sink.new) (out.old.items ++ members_text listing)) }
    ensures count { IfOk result (λ count. count ≡ length listing) }
    ensures cause { HasWriteCause (K.faults sink.old) (K.faults sink.new) result }
    ensures counts { CountsWriteFault (K.faults sink.old) (K.faults sink.new) result }
{
    let mut listing = listing;
    let put = put_members(alloc, sink, out, &mut listing);
    // dropped by name: at the end of its block this takes long to prove
    drop(listing);
    put
}

/// Puts a line for each member of a list, and then their number.
fn put_list<K: Sink>(
    alloc: Global,
    sink: &mut K,
    out: &mut Vec<u8>,
    listing: Listing,
) -> Result<(), WriteError>
    ensures puts { OnOk result (Puts (K.written sink.old) (K.written sink.new) out.old.items out.new.items
        (text_of_lines (list_lines listing))) }
    ensures part { OnErr result (GetsPart (K.written sink.old) (K.written sink.new) (out.old.items ++ text_of_lines (list_lines listing))) }
    ensures cause { HasWriteCause (K.faults sink.old) (K.faults sink.new) result }
    ensures counts { CountsWriteFault (K.faults sink.old) (K.faults sink.new) result }
{
    let count = put_all_members(alloc, sink, out, listing)?;
    put_total(out, count)?;
    Ok(())
}

/// Puts what was found of a query, and says whether it is a refusal.
fn put_found<K: Sink>(
    alloc: Global,
    sink: &mut K,
    out: &mut Vec<u8>,
    found: Found,
) -> Result<bool, WriteError>
    ensures puts { OnOk result (Puts (K.written sink.old) (K.written sink.new) out.old.items out.new.items
        (text_of_lines (found_lines found))) }
    ensures part { OnErr result (GetsPart (K.written sink.old) (K.written sink.new) (out.old.items ++ text_of_lines (found_lines found))) }
    ensures refusal { IfOk result (λ refusal. refusal ≡ list_any is_refusal (found_lines found)) }
    ensures cause { HasWriteCause (K.faults sink.old) (K.faults sink.new) result }
    ensures counts { CountsWriteFault (K.faults sink.old) (K.faults sink.new) result }
{
    match found {
        Found::List(listing) => {
            put_list(alloc, sink, out, listing)?;
            Ok(false)
        }
        Found::Total(total) => {
            put_total(out, total)?;
            Ok(false)
        }
        Found::Refused(fault) => {
            put_refusal(out, &Refusal::Query(fault))?;
            Ok(true)
        }
    }
}

/// Puts what was found of each query of a batch, in their order, and says whether a refusal is among them. Each line is completed once its
/// answer is put.
fn put_answers<K: Sink>(
    alloc: Global,
    sink: &mut K,
    out: &mut Vec<u8>,
    completed: &mut u64,
    answers: Vec<Found>,
) -> Result<bool, WriteError>
    requires { completed.old + length answers.items ≤ far }
    ensures puts { OnOk result (Puts (K.written sink.old) (K.written sink.new) out.old.items out.new.items (founds_text answers.items)) }
    ensures part { OnErr result (GetsPart (K.written sink.old) (K.written sink.new)
        (out.old.items ++ founds_text (take (completed.new - completed.old + 1) answers.items))) }
    ensures refusal { IfOk result (λ refusal. refusal ≡ list_any is_refusal (flat_map found_lines answers.items)) }
    ensures completed { OnOk result (completed.new ≡ completed.old + length answers.items) }
    ensures counted { (completed.old ≤ completed.new) × (completed.new ≤ completed.old + length answers.items) }
    ensures cause { HasWriteCause (K.faults sink.old) (K.faults sink.new) result }
    ensures counts { CountsWriteFault (K.faults sink.old) (K.faults sink.new) result }
{
    let mut refused = false;
    for found in answers {
        refused |= put_found(alloc, sink, out, found)?;
        *completed += 1;
    }
    Ok(refused)
}

/// Writes what was found of each query of a batch, in their order, and says whether a refusal is among them.
pub fn write_answers<K: Sink>(
    alloc: Global,
    sink: &mut K,
    out: &mut Vec<u8>,
    completed: &mut u64,
    answers: Vec<Found>,
) -> Result<bool, WriteError>
    requires { completed.old + length answers.items ≤ far }
    ensures written { OnOk result (Appends (K.written sink.old) (K.written sink.new) (founds_text answers.items)) }
    ensures part { OnErr result (GetsPart (K.written sink.old) (K.written sink.new)
        (founds_text (take (completed.new - completed.old + 1) answers.items))) }
    ensures refusal { IfOk result (λ refusal. refusal ≡ list_any is_refusal (flat_map found_lines answers.items)) }
    ensures completed { OnOk result (completed.new ≡ completed.old + length answers.items) }
    ensures counted { (completed.old ≤ completed.new) × (completed.new ≤ completed.old + length answers.items) }
    ensures cause { HasWriteCause (K.faults sink.old) (K.faults sink.new) result }
    ensures counts { CountsWriteFault (K.faults sink.old) (K.faults sink.new) result }
{
    out.clear();
    let refused = put_answers(alloc, sink, out, completed, answers)?;
    write_all(sink, out.as_slice())?;
    Ok(refused)
}
