use crate::matching::matching;
use gcl_model::TokenList;
use std::alloc::{AllocError, Global};
use wide_terms::WordTable;

/// The tokens of a file, found by what they begin with: one pass over its bytes for each prefix, which takes memory only for the tokens
/// that begin with it.
#[derive(Clone, Copy)]
pub struct FileWords<'a> {
    bytes: &'a [u8],
}

impl<'a> FileWords<'a> {
    ghost use Rattle.std.specs.Prelude.{◌≡◌};

    /// The tokens of a file with these bytes, with its boundary tokens.
    pub fn new(bytes: &'a [u8]) -> Self
        ensures { result.bytes.now ≡ bytes.now }
    {
        FileWords { bytes }
    }
}

impl WordTable for FileWords<'_> {
    ghost use Rattle.text_search.specs.FileTexts.{file_text};

    type Counter = ();

    ghost text = { λ words. file_text words.bytes.now };

    ghost most = { λ _ _. 0 };

    ghost count = { λ _. 0 };

    fn matching(
        &self,
        alloc: Global,
        prefix: &[u8],
        _counter: &mut (),
    ) -> Result<TokenList, AllocError> {
        matching(alloc, self.bytes, prefix)
    }
}
