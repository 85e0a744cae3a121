ghost use Rattle.std.specs.Prelude.{◌≡◌, ◌+◌, ◌<◌, ◌≤◌, ◌++◌, ◌∷◌, List, true, false, length, OnOk, IfOk};
ghost use Rattle.passages.specs.declared.passage.Passage.{Passage};
ghost use Rattle.passages.specs.Lines.{lines_at, lines_met};
ghost use Rattle.passages.specs.Texts.{text_of_met};
ghost use Rattle.passages.specs.Order.{BeginFrom, IsLineStart};
ghost use Rattle.script_lang.specs.Lines.{line_end};

use crate::cursors::LineCursor;
use crate::passage::Passage;
use crate::put::put_line;
use crate::shown::Shown;
use memchr::memchr;
use std::alloc::AllocError;

/// The length at which the collected text is handed over.
pub const PIECE: usize = 65_536;

/// Where the line that begins at `at` ends: at its newline, or at the end.
pub fn line_end(bytes: &[u8], at: usize) -> usize
    requires { at ≤ length bytes.now }
    ensures value { result ≡ line_end bytes.now at }
    ensures behind { at ≤ result }
    ensures bound { result ≤ length bytes.now }
{
    match memchr(b'\n', &bytes[at..]) {
        Some(len) => at + len,
        None => bytes.len(),
    }
}

/// Moves to the line that the place belongs to. Lines that end before it meet no passage that begins at or after it.
fn skip_to(bytes: &[u8], cursor: &mut LineCursor, place: usize)
    requires start { IsLineStart bytes.now cursor.old }
    requires within { place < length bytes.now }
    ensures start { IsLineStart bytes.now cursor.new }
    ensures reached { place ≤ line_end bytes.now cursor.new.at }
    ensures forward { cursor.old.at ≤ cursor.new.at }
    ensures same { (ps : List Passage) → BeginFrom place ps →
        lines_met ps (lines_at bytes.now cursor.old) ≡ lines_met ps (lines_at bytes.now cursor.new) }
{
    while cursor.at < place {
        let end = line_end(bytes, cursor.at);
        if place <= end {
            return;
        }
        cursor.at = end + 1;
        cursor.number += 1;
    }
}

/// Puts the lines up to the one that holds the last byte before `p.to`, and stops early once `out` holds a piece. True
/// means that all were put.
fn put_met(
    out: &mut Vec<u8>,
    shown: &Shown,
    bytes: &[u8],
    cursor: &mut LineCursor,
    p: Passage,
) -> Result<bool, AllocError>
    requires start { IsLineStart bytes.now cursor.old }
    requires some { p.from < p.to }
    requires within { p.to ≤ length bytes.now }
    requires reached { p.from ≤ line_end bytes.now cursor.old.at }
    ensures start { IsLineStart bytes.now cursor.new }
    ensures put { OnOk result ((later : List Passage) →
        out.old.items ++ text_of_met shown.now (lines_met (p ∷ later) (lines_at bytes.now cursor.old))
        ≡ out.new.items ++ text_of_met shown.now (lines_met (p ∷ later) (lines_at bytes.now cursor.new))) }
    ensures all { IfOk result (λ all. all ≡ true → p.to ≤ cursor.new.at) }
    ensures goes { IfOk result (λ all. all ≡ false → cursor.old.at < cursor.new.at) }
{
    while cursor.at < p.to {
        let end = line_end(bytes, cursor.at);
        put_line(out, shown, b':', cursor.number, &bytes[cursor.at..end])?;
        cursor.at = (end + 1).min(bytes.len());
        cursor.number += 1;
        if out.len() >= PIECE {
            return Ok(false);
        }
    }
    Ok(true)
}

/// Puts the lines that a passage meets and that no earlier one met, and stops early once `out` holds a piece. True means that all were
/// put; after false it is called again with the same passage. Passages come in rising order.
pub fn put_lines(
    out: &mut Vec<u8>,
    shown: &Shown,
    bytes: &[u8],
    cursor: &mut LineCursor,
    p: Passage,
) -> Result<bool, AllocError>
    requires start { IsLineStart bytes.now cursor.old }
    requires within { p.to ≤ length bytes.now }
    ensures start { IsLineStart bytes.now cursor.new }
    ensures put { OnOk result ((later : List Passage) → BeginFrom p.from later →
        out.old.items ++ text_of_met shown.now (lines_met (p ∷ later) (lines_at bytes.now cursor.old))
        ≡ out.new.items ++ text_of_met shown.now (lines_met (p ∷ later) (lines_at bytes.now cursor.new))) }
    ensures all { IfOk result (λ all. all ≡ true → (later : List Passage) →
        lines_met (p ∷ later) (lines_at bytes.now cursor.new) ≡ lines_met later (lines_at bytes.now cursor.new)) }
    ensures goes { IfOk result (λ all. all ≡ false → cursor.old.at < cursor.new.at) }
{
    if p.from >= p.to {
        return Ok(true);
    }
    skip_to(bytes, cursor, p.from);
    put_met(out, shown, bytes, cursor, p)
}
