ghost use Rattle.std.specs.Prelude.{◌≡◌, ◌+◌, ◌-◌, ◌≤◌, IfOk};
ghost use Rattle.gcl_model.specs.Collections.{words_from, with_boundaries, width_of};
ghost use Rattle.gcl_model.specs.Limits.{address_end};
ghost use Rattle.gcl_model.specs.Slots.{slot_range};
ghost use Rattle.gcl_model.specs.Tokens.{tokens_of};
ghost use Rattle.index_shard.specs.Tables.{words_of};

use crate::group::group_by_token;
use crate::names::Names;
use crate::source::{Listed, TokenSource, Tokens};
use gcl_model::TokenList;
use index_shard::Shard;
use std::alloc::{AllocError, Global};
use word_tokens::TokenCursor;

/// The shard of a file with these tokens: `<file!>` is at `base`, the tokens follow, and `</file!>` is at the last address.
pub fn build(alloc: Global, base: u64, tokens: &TokenList) -> Result<Shard, AllocError>
    requires { base + width_of tokens.now ≤ address_end }
    ensures words { IfOk result (λ shard. words_of shard ≡ words_from base (with_boundaries tokens.now)) }
    ensures range { IfOk result (λ shard. shard.range ≡ slot_range base (base + width_of tokens.now - 1)) }
{
    build_from(alloc, base, tokens)
}

/// The same of tokens that are kept in another way.
pub fn build_from<T: Tokens>(alloc: Global, base: u64, tokens: &T) -> Result<Shard, AllocError>
    requires { base + width_of (T.tokens tokens.now) ≤ address_end }
    ensures words { IfOk result (λ shard. words_of shard ≡ words_from base (with_boundaries (T.tokens tokens.now))) }
    ensures range { IfOk result (λ shard. shard.range ≡ slot_range base (base + width_of (T.tokens tokens.now) - 1)) }
{
    build_of(
        alloc,
        &mut Names::new(alloc),
        base,
        &mut Listed { tokens, next: 0 },
    )
}

/// The same of the tokens of a text, which is read once. It takes memory for the index and for names that were not met before.
pub fn build_text(
    alloc: Global,
    names: &mut Names,
    base: u64,
    bytes: &[u8],
) -> Result<Shard, AllocError>
    requires { base + width_of (tokens_of bytes.now) ≤ address_end }
    ensures words { IfOk result (λ shard. words_of shard ≡ words_from base (with_boundaries (tokens_of bytes.now))) }
    ensures range { IfOk result (λ shard. shard.range ≡ slot_range base (base + width_of (tokens_of bytes.now) - 1)) }
{
    build_of(alloc, names, base, &mut TokenCursor::new(bytes))
}

/// The same of tokens that are taken one at a time.
fn build_of<S: TokenSource>(
    alloc: Global,
    names: &mut Names,
    base: u64,
    source: &mut S,
) -> Result<Shard, AllocError>
    requires { base + width_of (S.left source.old) ≤ address_end }
    ensures words { IfOk result (λ shard. words_of shard ≡ words_from base (with_boundaries (S.left source.old))) }
    ensures range { IfOk result (λ shard. shard.range ≡ slot_range base (base + width_of (S.left source.old) - 1)) }
{
    names.clear();
    let range = group_by_token(alloc, names, base, source)?;
    let shard = names.make(alloc, range)?;
    names.bound();
    Ok(shard)
}
