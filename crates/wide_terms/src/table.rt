ghost use Rattle.std.specs.Prelude.{◌≡◌, ◌+◌, ◌≤◌, IfOk};
ghost use Rattle.wide_terms.specs.Vocabulary.{matching_words};

use gcl_model::TokenList;
use std::alloc::{AllocError, Global};

/// The words of a text, which are found by what they begin with.
pub trait WordTable {
    ghost use Rattle.std.specs.Prelude.{ℕ, List};
    ghost use Rattle.gcl_model.specs.Texts.{Text};

    /// What look-ups are counted on. A table that makes none has `()`, with the count 0.
    type Counter;

    /// The text whose words it has.
    ghost text: { Self → Text };

    /// How many look-ups a call may make for a prefix.
    ghost most: { Self → List ℕ → ℕ };

    /// How many look-ups were counted.
    ghost count: { Self.Counter → ℕ };

    /// The words of the text that begin with the prefix, in rising byte order and each once.
    fn matching(
        &self,
        alloc: Global,
        prefix: &[u8],
        counter: &mut Self::Counter,
    ) -> Result<TokenList, AllocError>
        ensures words { IfOk result (λ words. words ≡ matching_words (text self.now).words prefix.now) }
        ensures counted { count counter.old ≤ count counter.new }
        ensures cost { count counter.new ≤ count counter.old + most self.now prefix.now };
}
