ghost use Rattle.std.specs.Prelude.{◌≡◌, ◌∷◌, ◌++◌, [], length, map, OnOk, OnErr, IfOk};

use gcl_model::Bytes;
use std::alloc::{AllocError, Global};
use std::marker::Model;

/// Words in order. Contracts see a list with the bytes of each.
#[derive(Drop)]
pub struct WordList {
    items: Vec<Bytes>,
}

impl Model for WordList {
    ghost use Rattle.std.specs.Prelude.{List, ℕ};

    ghost Value = { List (List ℕ) };

    ghost view = { λ l. l.items.items };
}

impl WordList {
    /// No words. It allocates nothing.
    pub fn new(alloc: Global) -> Self
        ensures { result ≡ [] }
    {
        WordList {
            items: Vec::new(alloc),
        }
    }

    /// Copies of these texts.
    pub fn of(alloc: Global, words: &[&str]) -> Result<Self, AllocError>
        ensures { IfOk result (λ list. list ≡ map (λ word. word.now) words.now) }
    {
        let mut items = Vec::new(alloc);
        for word in words {
            items.push(Bytes::copy_of(alloc, word.as_bytes())?)?;
        }
        Ok(WordList { items })
    }

    /// Copies of these words.
    pub fn copy_of(alloc: Global, words: &[Bytes]) -> Result<Self, AllocError>
        ensures { IfOk result (λ list. list ≡ words.now) }
    {
        let mut items = Vec::new(alloc);
        for word in words {
            items.push(word.copy()?)?;
        }
        Ok(WordList { items })
    }

    /// The number of words.
    pub fn len(&self) -> usize
        ensures { result ≡ length self.now }
    {
        self.items.len()
    }

    /// All words.
    pub fn as_slice(&self) -> &[Bytes]
        ensures { result.now ≡ self.now }
    {
        self.items.as_slice()
    }

    /// Puts a word at the end.
    pub fn push(&mut self, word: Bytes) -> Result<(), AllocError>
        ensures ok { OnOk result (self.new ≡ self.old ++ word ∷ []) }
        ensures err { OnErr result (self.new ≡ self.old) }
    {
        self.items.push(word)?;
        Ok(())
    }
}
