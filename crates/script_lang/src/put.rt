ghost use Rattle.std.specs.Prelude.{◌≡◌, [], ◌∷◌, ◌++◌, OnOk, decimal, codes};
ghost use Rattle.script_lang.specs.Answers.{file_line, gone_line, interval_line, total_line, record_line, merging_line, shards_line};
ghost use Rattle.script_lang.specs.Answers.{saved_line, opened_line, watch_line, unwatched_line};
ghost use Rattle.script_lang.specs.Answers.{change_mark, change_line, refusal_line, kind_text, query_line, Grows};

use crate::refusals::Refusal;
use address_space::FileRecord;
use gcl_model::Interval;
use gcl_parser::{QueryFault, QueryKind};
use itoa::Buffer;
use std::alloc::AllocError;

fn put_text(out: &mut Vec<u8>, text: &[u8]) -> Result<(), AllocError>
    ensures ok { OnOk result (out.new.items ≡ out.old.items ++ text.now) }
    ensures grown { Grows out.old.items out.new.items }
{
    out.extend_from_slice(text)
}

fn put_number(out: &mut Vec<u8>, n: u64) -> Result<(), AllocError>
    ensures ok { OnOk result (out.new.items ≡ out.old.items ++ decimal n) }
    ensures grown { Grows out.old.items out.new.items }
{
    let mut buffer = Buffer::new();
    put_text(out, buffer.format(n).as_bytes())
}

/// A number and a space.
fn put_field(out: &mut Vec<u8>, n: u64) -> Result<(), AllocError>
    ensures ok { OnOk result (out.new.items ≡ out.old.items ++ decimal n ++ codes " ") }
    ensures grown { Grows out.old.items out.new.items }
{
    put_number(out, n)?;
    put_text(out, b" ")
}

/// What ends a line, and its newline.
fn put_end(out: &mut Vec<u8>, text: &[u8]) -> Result<(), AllocError>
    ensures ok { OnOk result (out.new.items ≡ out.old.items ++ text.now ++ 10 ∷ []) }
    ensures grown { Grows out.old.items out.new.items }
{
    put_text(out, text)?;
    put_text(out, b"\n")
}

/// The number that ends a line, and its newline.
fn put_last(out: &mut Vec<u8>, n: u64) -> Result<(), AllocError>
    ensures ok { OnOk result (out.new.items ≡ out.old.items ++ decimal n ++ 10 ∷ []) }
    ensures grown { Grows out.old.items out.new.items }
{
    put_number(out, n)?;
    put_text(out, b"\n")
}

/// What begins a line, the number that ends it, and its newline.
fn put_numbered(out: &mut Vec<u8>, text: &[u8], n: u64) -> Result<(), AllocError>
    ensures ok { OnOk result (out.new.items ≡ out.old.items ++ (text.now ++ decimal n) ++ 10 ∷ []) }
    ensures grown { Grows out.old.items out.new.items }
{
    put_text(out, text)?;
    put_last(out, n)
}

/// Two numbers that end a line, and its newline.
fn put_pair(out: &mut Vec<u8>, first: u64, last: u64) -> Result<(), AllocError>
    ensures ok { OnOk result (out.new.items ≡ out.old.items ++ (decimal first ++ codes " " ++ decimal last) ++ 10 ∷ []) }
    ensures grown { Grows out.old.items out.new.items }
{
    put_field(out, first)?;
    put_last(out, last)
}

/// Appends the answer to an accepted `add`, as `file 0 0 7`.
pub fn put_file(out: &mut Vec<u8>, id: u64, first: u64, last: u64) -> Result<(), AllocError>
    ensures ok { OnOk result (out.new.items ≡ out.old.items ++ file_line id first last ++ 10 ∷ []) }
    ensures grown { Grows out.old.items out.new.items }
{
    put_text(out, b"file ")?;
    put_field(out, id)?;
    put_pair(out, first, last)
}

/// Appends the answer to an accepted `del`, as `gone 3`.
pub fn put_gone(out: &mut Vec<u8>, id: u64) -> Result<(), AllocError>
    ensures ok { OnOk result (out.new.items ≡ out.old.items ++ gone_line id ++ 10 ∷ []) }
    ensures grown { Grows out.old.items out.new.items }
{
    put_numbered(out, b"gone ", id)
}

/// Appends the line of an interval, as `1 2`.
pub fn put_interval(out: &mut Vec<u8>, interval: Interval) -> Result<(), AllocError>
    ensures ok { OnOk result (out.new.items ≡ out.old.items ++ interval_line interval ++ 10 ∷ []) }
    ensures grown { Grows out.old.items out.new.items }
{
    put_pair(out, interval.start, interval.end)
}

/// Appends the line of a total, as `= 2`.
pub fn put_total(out: &mut Vec<u8>, total: u64) -> Result<(), AllocError>
    ensures ok { OnOk result (out.new.items ≡ out.old.items ++ total_line total ++ 10 ∷ []) }
    ensures grown { Grows out.old.items out.new.items }
{
    put_numbered(out, b"= ", total)
}

/// Appends the line of a surviving file, as `0 0 7 a`: its id, its first and last address, and its name.
pub fn put_record(out: &mut Vec<u8>, file: &FileRecord) -> Result<(), AllocError>
    ensures ok { OnOk result (out.new.items ≡ out.old.items ++ record_line file.now ++ 10 ∷ []) }
    ensures grown { Grows out.old.items out.new.items }
{
    put_field(out, file.id.0)?;
    put_field(out, file.base)?;
    put_field(out, file.base + file.len - 1)?;
    put_end(out, file.name.as_slice())
}

/// Appends the answer to a `merge`, `merging`.
pub fn put_merging(out: &mut Vec<u8>) -> Result<(), AllocError>
    ensures ok { OnOk result (out.new.items ≡ out.old.items ++ merging_line ++ 10 ∷ []) }
    ensures grown { Grows out.old.items out.new.items }
{
    put_end(out, b"merging")
}

/// Appends the number of slots, as `shards 2`.
pub fn put_shards(out: &mut Vec<u8>, count: u64) -> Result<(), AllocError>
    ensures ok { OnOk result (out.new.items ≡ out.old.items ++ shards_line count ++ 10 ∷ []) }
    ensures grown { Grows out.old.items out.new.items }
{
    put_numbered(out, b"shards ", count)
}

/// Appends the answer to an accepted `save`, as `saved 118`: the length of the image.
pub fn put_saved(out: &mut Vec<u8>, bytes: u64) -> Result<(), AllocError>
    ensures ok { OnOk result (out.new.items ≡ out.old.items ++ saved_line bytes ++ 10 ∷ []) }
    ensures grown { Grows out.old.items out.new.items }
{
    put_numbered(out, b"saved ", bytes)
}

/// Appends the answer to an accepted `open`, as `opened 1`: the number of files of the image.
pub fn put_opened(out: &mut Vec<u8>, files: u64) -> Result<(), AllocError>
    ensures ok { OnOk result (out.new.items ≡ out.old.items ++ opened_line files ++ 10 ∷ []) }
    ensures grown { Grows out.old.items out.new.items }
{
    put_numbered(out, b"opened ", files)
}

/// Appends the answer to an accepted `watch`, as `watch 0`: its number.
pub fn put_watch(out: &mut Vec<u8>, number: u64) -> Result<(), AllocError>
    ensures ok { OnOk result (out.new.items ≡ out.old.items ++ watch_line number ++ 10 ∷ []) }
    ensures grown { Grows out.old.items out.new.items }
{
    put_numbered(out, b"watch ", number)
}

/// Appends the answer to an accepted `unwatch`, as `unwatched 0`.
pub fn put_unwatched(out: &mut Vec<u8>, number: u64) -> Result<(), AllocError>
    ensures ok { OnOk result (out.new.items ≡ out.old.items ++ unwatched_line number ++ 10 ∷ []) }
    ensures grown { Grows out.old.items out.new.items }
{
    put_numbered(out, b"unwatched ", number)
}

/// What the line of an interval that came or went begins with.
fn change_mark(came: bool) -> &'static [u8]
    ensures { result.now ≡ change_mark came }
{
    if came { b"+ " } else { b"- " }
}

/// Appends the line of an interval that came or went, by the number of its watch: `+ 0 1 2`, and `- 0 1 2`.
pub fn put_change(
    out: &mut Vec<u8>,
    number: u64,
    came: bool,
    interval: Interval,
) -> Result<(), AllocError>
    ensures ok { OnOk result (out.new.items ≡ out.old.items ++ change_line number came interval ++ 10 ∷ []) }
    ensures grown { Grows out.old.items out.new.items }
{
    put_text(out, change_mark(came))?;
    put_field(out, number)?;
    put_interval(out, interval)
}

/// What is wrong with a query, in words.
fn kind_text(kind: QueryKind) -> &'static [u8]
    ensures { result.now ≡ kind_text kind }
{
    match kind {
        QueryKind::OperandExpected => b"operand expected",
        QueryKind::OperatorOrCloseExpected => b"operator or close expected",
        QueryKind::EmptyTerm => b"empty term",
        QueryKind::BadPrefix => b"bad prefix",
        QueryKind::BadWidth => b"bad width",
        QueryKind::OpenQuote => b"open quote",
        QueryKind::Character => b"character",
        QueryKind::TooLarge => b"too large",
        QueryKind::TooDeep => b"too deep",
    }
}

fn put_query_fault(out: &mut Vec<u8>, fault: &QueryFault) -> Result<(), AllocError>
    ensures ok { OnOk result (out.new.items ≡ out.old.items ++ query_line fault.now ++ 10 ∷ []) }
    ensures grown { Grows out.old.items out.new.items }
{
    put_text(out, b"! query at ")?;
    put_number(out, fault.at)?;
    put_text(out, b": ")?;
    put_end(out, kind_text(fault.kind))
}

/// Appends the line of a refusal, as `! no file 3`.
pub fn put_refusal(out: &mut Vec<u8>, refusal: &Refusal) -> Result<(), AllocError>
    ensures ok { OnOk result (out.new.items ≡ out.old.items ++ refusal_line refusal.now ++ 10 ∷ []) }
    ensures grown { Grows out.old.items out.new.items }
{
    match refusal {
        Refusal::Command => put_end(out, b"! command"),
        Refusal::LongLine => put_end(out, b"! long line"),
        Refusal::Query(fault) => put_query_fault(out, fault),
        Refusal::NoFile(id) => put_numbered(out, b"! no file ", *id),
        Refusal::TooLong => put_end(out, b"! file too long"),
        Refusal::NoAddresses => put_end(out, b"! no addresses"),
        Refusal::NotEmpty => put_end(out, b"! not empty"),
        Refusal::NotImage => put_end(out, b"! not an image"),
        Refusal::NoWatch(number) => put_numbered(out, b"! no watch ", *number),
        Refusal::TooManyWatches => put_end(out, b"! too many watches"),
    }
}
