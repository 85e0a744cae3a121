ghost use Rattle.std.specs.Prelude.{◌≡◌, ◌<◌, ◌≤◌, ◌+◌, ◌^◌, ◌-◌, ◌++◌, OnOk, IfOk, length, decimal};
ghost use Rattle.made_corpus.specs.MadeLines.{add_from, change_from, find_from, count_from, top_from, turn_from, HasDrawnLines};

use crate::draws::Draws;
use crate::put::{put_number, put_text};
use std::alloc::AllocError;

/// A number between two texts.
fn put_between(out: &mut Vec<u8>, before: &[u8], n: u64, after: &[u8]) -> Result<(), AllocError>
    ensures { OnOk result (out.new.items ≡ out.old.items ++ before.now ++ decimal n ++ after.now) }
{
    put_text(out, before)?;
    put_number(out, n)?;
    put_text(out, after)
}

fn put_add(out: &mut Vec<u8>, draws: &Draws, i: u64) -> Result<(), AllocError>
    ensures { OnOk result (HasDrawnLines (add_from i draws.now.state) out.old.items out.new.items draws.now.state) }
{
    put_between(out, b"add m", i, b"\n")
}

/// Appends one line or none.
fn put_change(out: &mut Vec<u8>, draws: &mut Draws, i: u64) -> Result<u64, AllocError>
    requires { i < 2 ^ 64 - 1 }
    ensures lines { OnOk result (HasDrawnLines (change_from i draws.old.state) out.old.items out.new.items draws.new.state) }
    ensures number { IfOk result (λ n. n ≡ length (change_from i draws.old.state).lines) }
    ensures few { IfOk result (λ n. n ≤ 1) }
{
    match draws.draw(10) {
        0 | 1 => put_between(out, b"del ", draws.draw(i + 1), b"\n")?,
        2 => put_text(out, b"merge\n")?,
        3 => put_text(out, b"shards\n")?,
        _ => return Ok(0),
    }
    Ok(1)
}

fn put_find(out: &mut Vec<u8>, draws: &mut Draws) -> Result<(), AllocError>
    ensures { OnOk result (HasDrawnLines (find_from draws.old.state) out.old.items out.new.items draws.new.state) }
{
    put_between(out, b"find \"w", draws.draw(50), b"\"..")?;
    put_between(out, b"\"w", draws.draw(50), b"\"\n")
}

fn put_count(out: &mut Vec<u8>, draws: &mut Draws) -> Result<(), AllocError>
    ensures { OnOk result (HasDrawnLines (count_from draws.old.state) out.old.items out.new.items draws.new.state) }
{
    put_between(
        out,
        b"count (\"<s>\"..\"</s>\") > \"w",
        draws.draw(50),
        b"\"\n",
    )
}

fn put_top(out: &mut Vec<u8>, draws: &mut Draws) -> Result<(), AllocError>
    ensures { OnOk result (HasDrawnLines (top_from draws.old.state) out.old.items out.new.items draws.new.state) }
{
    put_between(out, b"top 5 (\"w", draws.draw(50), b"\"^")?;
    put_between(out, b"\"w", draws.draw(50), b"\") < [20]\n")
}

/// Appends the lines of the turn of file `i`, and says how many these are.
pub fn put_turn(out: &mut Vec<u8>, draws: &mut Draws, i: u64) -> Result<u64, AllocError>
    requires { i < 2 ^ 64 - 1 }
    ensures number { IfOk result (λ n. n ≡ length (turn_from i draws.old.state).lines) }
    ensures few { IfOk result (λ n. n ≤ 5) }
    ensures lines { OnOk result (HasDrawnLines (turn_from i draws.old.state) out.old.items out.new.items draws.new.state) }
{
    put_add(out, draws, i)?;
    let changes = put_change(out, draws, i)?;
    put_find(out, draws)?;
    put_count(out, draws)?;
    put_top(out, draws)?;
    Ok(4 + changes)
}
