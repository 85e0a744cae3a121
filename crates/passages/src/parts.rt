ghost use Rattle.std.specs.Prelude.{◌≡◌, ◌<◌, ◌≤◌, ◌++◌, true, false, length, IfOk};
ghost use Rattle.passages.specs.Order.{IsNumbered, IsPartStart};
ghost use Rattle.passages.specs.Texts.{parts_at, passage_text};

use crate::cursors::{NumberedPlace, PartCursor};
use crate::lines::{PIECE, line_end};
use crate::passage::Passage;
use crate::put::put_line;
use crate::shown::Shown;
use std::alloc::AllocError;

/// Moves to a place, and counts the newlines on the way.
fn count_to(bytes: &[u8], place: &mut NumberedPlace, to: usize)
    requires numbered { IsNumbered bytes.now place.old }
    requires forward { place.old.at ≤ to }
    requires within { to ≤ length bytes.now }
    ensures numbered { IsNumbered bytes.now place.new }
    ensures there { place.new.at ≡ to }
{
    while place.at < to {
        if bytes[place.at] == b'\n' {
            place.number += 1;
        }
        place.at += 1;
    }
}

/// The first part of a passage. Passages come in rising order, and `place` is that of the previous one.
pub fn begin_parts(bytes: &[u8], place: &mut NumberedPlace, p: Passage) -> PartCursor
    requires numbered { IsNumbered bytes.now place.old }
    requires forward { place.old.at ≤ p.from }
    requires ordered { p.from ≤ p.to }
    requires within { p.to ≤ length bytes.now }
    ensures numbered { IsNumbered bytes.now place.new }
    ensures there { place.new.at ≡ p.from }
    ensures start { IsPartStart p.to result }
    ensures text { (shown : Shown) → parts_at shown bytes.now result p.to ≡ passage_text shown bytes.now p }
{
    count_to(bytes, place, p.from);
    PartCursor {
        at: p.from,
        number: place.number,
        mark: b':',
    }
}

/// Puts the parts of a passage that ends at `to`, stops early once `out` holds a piece, and returns whether all were put. After false it
/// is called again.
pub fn put_parts(
    out: &mut Vec<u8>,
    shown: &Shown,
    bytes: &[u8],
    cursor: &mut PartCursor,
    to: usize,
) -> Result<bool, AllocError>
    requires start { IsPartStart to cursor.old }
    requires within { to ≤ length bytes.now }
    ensures start { IfOk result (λ all. all ≡ false → IsPartStart to cursor.new) }
    ensures all { IfOk result (λ all. all ≡ true → out.new.items ≡ out.old.items ++ parts_at shown.now bytes.now cursor.old to) }
    ensures some { IfOk result (λ all. all ≡ false → out.old.items ++ parts_at shown.now bytes.now cursor.old to
        ≡ out.new.items ++ parts_at shown.now bytes.now cursor.new to) }
    ensures goes { IfOk result (λ all. all ≡ false → cursor.old.at < cursor.new.at) }
{
    let bytes = &bytes[..to];
    loop {
        let end = line_end(bytes, cursor.at);
        put_line(
            out,
            shown,
            cursor.mark,
            cursor.number,
            &bytes[cursor.at..end],
        )?;
        cursor.at = (end + 1).min(to);
        if cursor.at == to {
            return Ok(true);
        }
        cursor.number += 1;
        cursor.mark = b'-';
        if out.len() >= PIECE {
            return Ok(false);
        }
    }
}
