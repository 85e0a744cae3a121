ghost use Rattle.std.specs.Prelude.{◌≡◌, ◌++◌, ◌<◌, OnOk};
ghost use Rattle.made_corpus.specs.MadeFiles.{word_from, item_from, content_from, HasDrawn};

use crate::draws::Draws;
use crate::put::{put_number, put_text};
use std::alloc::AllocError;

fn put_word(out: &mut Vec<u8>, draws: &mut Draws) -> Result<(), AllocError>
    ensures { OnOk result (HasDrawn (word_from draws.old.state) out.old.items out.new.items draws.new.state) }
{
    put_text(out, b"w")?;
    let left = draws.draw(50);
    let right = draws.draw(20);
    put_number(out, left * right)
}

fn put_item(out: &mut Vec<u8>, draws: &mut Draws) -> Result<(), AllocError>
    ensures { OnOk result (HasDrawn (item_from draws.old.state) out.old.items out.new.items draws.new.state) }
{
    match draws.draw(100) {
        0..=9 => put_text(out, b"<s>"),
        10..=19 => put_text(out, b"</s>"),
        _ => put_word(out, draws),
    }
}

/// Appends the content of a file whose draws begin at this state.
pub fn put_content(out: &mut Vec<u8>, state: u64) -> Result<(), AllocError>
    ensures { OnOk result (out.new.items ≡ out.old.items ++ content_from state) }
{
    let mut draws = Draws { state };
    let later = 19 + draws.draw(200);
    // an item has at most four bytes, and each later one a space before it
    out.reserve(5 * (later as usize + 1))?;
    put_item(out, &mut draws)?;
    for _i in 0..later {
        put_text(out, b" ")?;
        put_item(out, &mut draws)?;
    }
    Ok(())
}
