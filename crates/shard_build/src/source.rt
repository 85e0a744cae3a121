ghost use Rattle.std.specs.Prelude.{◌≡◌, ◌∷◌, [], true, false, IfOk};

use gcl_model::TokenList;
use std::alloc::AllocError;
use word_tokens::{TokenCursor, TokenText};

/// A list of tokens that is only read.
pub trait Tokens {
    ghost use Rattle.std.specs.Prelude.{◌≡◌, ◌<◌, List, ℕ, length, slice_index_or};

    /// The tokens, in order.
    ghost tokens: { Self → List (List ℕ) };

    /// The number of tokens.
    fn len(&self) -> usize
        ensures { result ≡ length (tokens self.now) };

    /// The token at place `i`.
    fn get(&self, i: usize) -> &[u8]
        requires { i < length (tokens self.now) }
        ensures { result.now ≡ slice_index_or (tokens self.now) i result.now };
}

impl Tokens for TokenList {
    ghost tokens = { λ l. l };

    fn len(&self) -> usize {
        TokenList::len(self)
    }

    fn get(&self, i: usize) -> &[u8] {
        TokenList::get(self, i).as_slice()
    }
}

impl Tokens for TokenText {
    ghost tokens = { λ t. t };

    fn len(&self) -> usize {
        TokenText::len(self)
    }

    fn get(&self, i: usize) -> &[u8] {
        TokenText::get(self, i)
    }
}

/// Tokens that are taken one at a time, in order.
pub(crate) trait TokenSource {
    ghost use Rattle.std.specs.Prelude.{◌≡◌, List, ℕ, [], ◌∷◌, true, false, IfOk};

    // The tokens that are still to come.
    ghost left: { Self → List (List ℕ) };

    /// Puts the next token in place of what the buffer has, and says whether there was one.
    fn next(&mut self, token: &mut Vec<u8>) -> Result<bool, AllocError>
        ensures some { IfOk result (λ found. found ≡ true → left self.old ≡ token.new.items ∷ left self.new) }
        ensures none { IfOk result (λ found. found ≡ false → left self.old ≡ []) };
}

impl TokenSource for TokenCursor<'_> {
    ghost left = { λ c. c };

    fn next(&mut self, token: &mut Vec<u8>) -> Result<bool, AllocError> {
        TokenCursor::next(self, token)
    }
}

/// A list of tokens that are taken from the front.
#[derive(Drop)]
pub(crate) struct Listed<'a, T: Tokens> {
    pub(crate) tokens: &'a T,
    pub(crate) next: usize,
}

impl<T: Tokens> TokenSource for Listed<'_, T> {
    ghost use Rattle.std.specs.Prelude.{drop};

    ghost left = { λ l. drop l.next (T.tokens l.tokens.now) };

    fn next(&mut self, token: &mut Vec<u8>) -> Result<bool, AllocError> {
        if self.next < self.tokens.len() {
            token.clear();
            token.extend_from_slice(self.tokens.get(self.next))?;
            self.next += 1;
            return Ok(true);
        }
        Ok(false)
    }
}
