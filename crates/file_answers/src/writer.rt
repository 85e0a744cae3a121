ghost use Rattle.std.specs.Prelude.{◌≡◌, ◌≤◌, ◌++◌, ◌∷◌, [], ℕ, List, OnOk};
ghost use Rattle.outside.specs.Causes.{CountsWriteFault};
ghost use Rattle.passages.specs.Order.{BeginFrom};
ghost use Rattle.passages.specs.declared.passage.Passage.{Passage};
ghost use Rattle.file_answers.specs.Written.{GetsPart, Moves};

use outside::{Sink, WriteError};
use passages::Passage;

/// Writes the passages of a file, which come in rising order.
pub trait PassageWriter {
    ghost use Rattle.std.specs.Prelude.{ℕ, List};
    ghost use Rattle.passages.specs.declared.passage.Passage.{Passage};

    /// What is written for these passages, if they are the ones still to come.
    ghost text: { Self → List Passage → List ℕ };

    /// How many bytes the file has.
    ghost size: { Self → ℕ };

    /// No passage may begin before this place.
    ghost reached: { Self → ℕ };

    /// Puts the text of one more passage: a piece at a time goes to the sink, and less than a piece is held back.
    fn put<K: Sink>(
        &mut self,
        sink: &mut K,
        out: &mut Vec<u8>,
        p: Passage,
    ) -> Result<(), WriteError>
        requires ordered { p.from ≤ p.to }
        requires within { p.to ≤ size self.old }
        requires ahead { reached self.old ≤ p.from }
        ensures same { size self.new ≡ size self.old }
        ensures ahead { reached self.new ≤ p.from }
        ensures nothing { text self.new [] ≡ [] }
        ensures moves { OnOk result ((later : List Passage) → BeginFrom p.from later →
            Moves (K.written sink.old) (K.written sink.new) (out.old.items ++ text self.old (p ∷ later))
            (out.new.items ++ text self.new later)) }
        ensures part { (later : List Passage) → BeginFrom p.from later →
            GetsPart (K.written sink.old) (K.written sink.new) (out.old.items ++ text self.old (p ∷ later)) }
        ensures counts { CountsWriteFault (K.faults sink.old) (K.faults sink.new) result };
}
