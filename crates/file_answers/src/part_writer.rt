ghost use Rattle.std.specs.Prelude.{◌≡◌, List, length};
ghost use Rattle.passages.specs.Order.{IsNumbered};
ghost use Rattle.passages.specs.Texts.{answers_text};
ghost use Rattle.passages.specs.declared.passage.Passage.{Passage};

use crate::handing::hand_over;
use crate::writer::PassageWriter;
use outside::{Sink, WriteError};
use passages::{NumberedPlace, Passage, Shown, begin_parts, put_parts};

/// Writes each passage by itself, in the parts that lie in its lines.
#[derive(Drop)]
pub struct PartWriter<'a> {
    shown: &'a Shown,
    bytes: &'a [u8],
    place: NumberedPlace,
    ghost numbered: { IsNumbered bytes.now place },
}

impl<'a> PartWriter<'a> {
    /// Before the first passage of a file with these bytes.
    pub fn new(shown: &'a Shown, bytes: &'a [u8]) -> Self
        ensures text { (ps : List Passage) → ⟦<PartWriter<'a> as PassageWriter>⟧.text result ps ≡ answers_text shown.now bytes.now ps }
        ensures size { ⟦<PartWriter<'a> as PassageWriter>⟧.size result ≡ length bytes.now }
        ensures reached { ⟦<PartWriter<'a> as PassageWriter>⟧.reached result ≡ 0 }
    {
        PartWriter {
            shown,
            bytes,
            place: NumberedPlace { at: 0, number: 1 },
        }
    }
}

impl<'a> PassageWriter for PartWriter<'a> {
    ghost use Rattle.std.specs.Prelude.{length};
    ghost use Rattle.passages.specs.Texts.{answers_text};

    ghost text = { λ w ps. answers_text w.shown.now w.bytes.now ps };

    ghost size = { λ w. length w.bytes.now };

    ghost reached = { λ w. w.place.at };

    fn put<K: Sink>(
        &mut self,
        sink: &mut K,
        out: &mut Vec<u8>,
        p: Passage,
    ) -> Result<(), WriteError> {
        let mut cursor = begin_parts(self.bytes, &mut self.place, p);
        let mut all = false;
        while !all {
            all = put_parts(out, self.shown, self.bytes, &mut cursor, p.to)?;
            hand_over(sink, out)?;
        }
        Ok(())
    }
}
