ghost use Rattle.std.specs.Prelude.{◌≡◌, List, length};
ghost use Rattle.passages.specs.Order.{IsLineStart};
ghost use Rattle.passages.specs.Texts.{lines_text};
ghost use Rattle.passages.specs.declared.passage.Passage.{Passage};

use crate::handing::hand_over;
use crate::writer::PassageWriter;
use outside::{Sink, WriteError};
use passages::{LineCursor, Passage, Shown, put_lines};

/// Writes each line that a passage meets, once.
#[derive(Drop)]
pub struct LineWriter<'a> {
    shown: &'a Shown,
    bytes: &'a [u8],
    cursor: LineCursor,
    ghost start: { IsLineStart bytes.now cursor },
}

impl<'a> LineWriter<'a> {
    /// Before the first passage of a file with these bytes.
    pub fn new(shown: &'a Shown, bytes: &'a [u8]) -> Self
        ensures text { (ps : List Passage) → ⟦<LineWriter<'a> as PassageWriter>⟧.text result ps ≡ lines_text shown.now bytes.now ps }
        ensures size { ⟦<LineWriter<'a> as PassageWriter>⟧.size result ≡ length bytes.now }
        ensures reached { ⟦<LineWriter<'a> as PassageWriter>⟧.reached result ≡ 0 }
    {
        LineWriter {
            shown,
            bytes,
            cursor: LineCursor { at: 0, number: 1 },
        }
    }
}

impl<'a> PassageWriter for LineWriter<'a> {
    ghost use Rattle.std.specs.Prelude.{length};
    ghost use Rattle.passages.specs.Lines.{lines_at, lines_met};
    ghost use Rattle.passages.specs.Texts.{text_of_met};

    ghost text = { λ w ps. text_of_met w.shown.now (lines_met ps (lines_at w.bytes.now w.cursor)) };

    ghost size = { λ w. length w.bytes.now };

    ghost reached = { λ _. 0 };

    fn put<K: Sink>(
        &mut self,
        sink: &mut K,
        out: &mut Vec<u8>,
        p: Passage,
    ) -> Result<(), WriteError> {
        let mut all = false;
        while !all {
            all = put_lines(out, self.shown, self.bytes, &mut self.cursor, p)?;
            hand_over(sink, out)?;
        }
        Ok(())
    }
}
