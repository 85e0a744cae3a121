//! The index of a text before it has a place.
ghost use Rattle.std.specs.Prelude.{◌≡◌, ◌+◌, ◌-◌, ◌≤◌, ◌↔◌, IfOk, IsTrue};
ghost use Rattle.std.specs.List.{AllByRecursion};
ghost use Rattle.gcl_model.specs.Collections.{IsToken, width_of, with_boundaries, words_from};
ghost use Rattle.gcl_model.specs.Limits.{address_end};
ghost use Rattle.gcl_model.specs.Slots.{slot_range};
ghost use Rattle.gcl_model.specs.Tokens.{tokens_of};
ghost use Rattle.index_shard.specs.Tables.{words_of};

use crate::building::build_text;
use crate::names::Names;
use gcl_model::ADDRESS_END;
use index_shard::Shard;
use std::alloc::{AllocError, Global};
use std::marker::Model;
use word_tokens::token_count;

/// The index of a text that is made ahead: it is given its place later, at the cost of a step for each term and each block. Contracts see
/// the tokens of the text.
#[derive(Drop)]
pub struct TextIndex {
    // at the addresses starting at 0
    shard: Shard,
}

impl Model for TextIndex {
    ghost use Rattle.std.specs.Prelude.{List, ℕ};
    ghost use Rattle.index_shard.specs.Tables.{words_of};
    ghost use Rattle.shard_build.specs.Ahead.{IsAhead, tokens_between};

    ghost Value = { List (List ℕ) };

    ghost view = { λ t. tokens_between (words_of t.shard) };

    ghost invariant = { λ t. IsAhead t.shard };
}

impl TextIndex {
    /// How many addresses the text needs, with the two of its boundary tokens.
    pub fn width(&self) -> u64
        ensures value { result ≡ width_of self.now }
        ensures tokens { AllByRecursion IsToken self.now }
    {
        self.shard.range().last + 1
    }

    /// The shard of the text, with its first address at `base`.
    pub fn placed(self, base: u64) -> Shard
        requires { base + width_of self ≤ address_end }
        ensures words { words_of result ≡ words_from base (with_boundaries self) }
        ensures range { result.range ≡ slot_range base (base + width_of self - 1) }
    {
        self.shard.moved(base)
    }
}

/// Whether a text needs so few addresses that it can have an index. All texts of fewer than 2^56 - 1 bytes do.
// No text has more tokens than bytes.
pub fn can_index(bytes: &[u8]) -> bool
    ensures { IsTrue result ↔ width_of (tokens_of bytes.now) ≤ address_end }
{
    if bytes.len() as u64 <= ADDRESS_END - 2 {
        return true;
    }
    token_count(bytes) <= ADDRESS_END - 2
}

/// The index of a text, which needs no place yet. It takes memory for the index and for names that were not met before.
pub fn index_text(alloc: Global, names: &mut Names, bytes: &[u8]) -> Result<TextIndex, AllocError>
    requires { width_of (tokens_of bytes.now) ≤ address_end }
    ensures { IfOk result (λ index. index ≡ tokens_of bytes.now) }
{
    let shard = build_text(alloc, names, 0, bytes)?;
    Ok(TextIndex { shard })
}
