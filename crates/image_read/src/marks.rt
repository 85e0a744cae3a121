ghost use Rattle.std.specs.Prelude.{◌≡◌, ◌*◌, ◌<◌, ◌≤◌, ◌↔◌, ℕ, true, false, length, get_or, set, replicate, IfOk, IsTrue};
ghost use Rattle.image_read.specs.Bits.{bit_of};

use std::alloc::{AllocError, Global};
use std::marker::Model;

/// Marks in a row, which are set one by one. Each takes a bit, so that those of many addresses lie close to one another.
#[derive(Drop)]
pub(crate) struct Marks {
    count: usize,
    words: Vec<u64>,
}

impl Model for Marks {
    ghost use Rattle.std.specs.Prelude.{◌≤◌, ◌*◌, List, Bool, length};
    ghost use Rattle.image_read.specs.Bits.{bits_of};

    ghost Value = { List Bool };

    ghost view = { λ m. bits_of m.words.items m.count };

    ghost invariant = { λ m. m.count ≤ 64 * length m.words.items };
}

impl Marks {
    /// `count` marks, none of which is set.
    pub(crate) fn new(alloc: Global, count: usize) -> Result<Self, AllocError>
        ensures { IfOk result (λ marks. marks ≡ replicate count false) }
    {
        Ok(Marks {
            count,
            words: vec![in alloc; 0u64; count.div_ceil(64)]?,
        })
    }

    /// Whether a mark is set.
    #[inline(always)]
    pub(crate) fn is_marked(&self, at: usize) -> bool
        requires { at < length self.now }
        ensures { result ≡ get_or self.now at false }
    {
        (self.words[at / 64] >> (at % 64)) & 1 == 1
    }

    /// Sets a mark.
    #[inline(always)]
    pub(crate) fn mark(&mut self, at: usize)
        requires { at < length self.old }
        ensures { self.new ≡ set self.old at true }
    {
        self.words[at / 64] |= 1 << (at % 64);
    }

    /// Whether all marks are set.
    pub(crate) fn all_marked(&self) -> bool
        ensures { IsTrue result ↔ ((i : ℕ) → i < length self.now → get_or self.now i false ≡ true) }
    {
        let whole = self.count / 64;
        if !are_full(&self.words[..whole]) {
            return false;
        }
        self.marked_from(64 * whole)
    }

    /// Whether the marks starting at a place are set.
    fn marked_from(&self, at: usize) -> bool
        ensures { IsTrue result ↔ ((i : ℕ) → at ≤ i → i < length self.now → get_or self.now i false ≡ true) }
    {
        for i in at..self.count {
            if !self.is_marked(i) {
                return false;
            }
        }
        true
    }
}

/// Whether each bit of some words is set.
fn are_full(words: &[u64]) -> bool
    ensures { IsTrue result ↔ ((i : ℕ) → i < 64 * length words.now → bit_of words.now i ≡ true) }
{
    for word in words {
        if *word != u64::MAX {
            return false;
        }
    }
    true
}
