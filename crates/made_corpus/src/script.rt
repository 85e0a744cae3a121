ghost use Rattle.std.specs.Prelude.{◌≡◌, ◌≤◌, IfOk, length};
ghost use Rattle.gcl_model.specs.Limits.{most_made};
ghost use Rattle.made_corpus.specs.MadeLines.{made_lines, made_text};

use crate::draws::Draws;
use crate::lines::put_turn;
use gcl_model::Bytes;
use std::alloc::{AllocError, Global};

// The draws of the script begin this far from those of the files.
const AWAY: u64 = 1 << 40;

/// A made script.
#[derive(Drop)]
pub struct MadeScript {
    /// Its lines, each with its newline.
    pub text: Bytes,
    /// How many these are.
    pub lines: u64,
}

/// The script over `count` files, made from the number `start`.
pub fn made_script(alloc: Global, start: u64, count: u64) -> Result<MadeScript, AllocError>
    requires { count ≤ most_made }
    ensures text { IfOk result (λ script. script.text ≡ made_text start count) }
    ensures lines { IfOk result (λ script. script.lines ≡ length (made_lines start count)) }
{
    let mut out = Vec::new(alloc);
    let mut lines = 0;
    let mut draws = Draws {
        state: start.wrapping_add(AWAY),
    };
    for i in 0..count {
        lines += put_turn(&mut out, &mut draws, i)?;
    }
    Ok(MadeScript {
        text: Bytes::of(out),
        lines,
    })
}
