ghost use Rattle.std.specs.Prelude.{◌≡◌, ℕ, List, ◌<◌, [], ◌∷◌, length, map, OnOk, IfOk};
ghost use Rattle.text_search.specs.Tables.{key_of, noted, places_in, tokens_in, AreEmpty, Names};

use crate::bucket::Bucket;
use std::alloc::{AllocError, Global};
use std::marker::Model;
use token_places::PlacedToken;

/// How many buckets a table has.
const BUCKETS: usize = 64;

/// Tokens with their addresses, in buckets by their length: a token of a text is compared only with those of its own length, or, if it has
/// 63 bytes or more, with all that long.
#[derive(Drop)]
pub(crate) struct TermTable {
    buckets: Vec<Bucket>,
}

impl Model for TermTable {
    ghost use Rattle.std.specs.Prelude.{List};
    ghost use Rattle.text_search.specs.Tables.{Entry, IsTable, joined};

    ghost Value = { List Entry };

    ghost view = { λ t. joined t.buckets.items };

    ghost invariant = { λ t. IsTable t.buckets.items };
}

/// The bucket of a token with this many bytes.
fn key(len: usize) -> usize
    ensures bucket { result < 64 }
    ensures key { (token : List ℕ) → len ≡ length token → result ≡ key_of token }
{
    len.min(BUCKETS - 1)
}

impl TermTable {
    /// No tokens.
    pub(crate) fn new(alloc: Global) -> Result<Self, AllocError>
        ensures { IfOk result (λ table. table ≡ []) }
    {
        let mut buckets = Vec::with_capacity(alloc, BUCKETS)?;
        for _ in 0..BUCKETS {
            buckets.push(Bucket::new(alloc))?;
        }
        Ok(TermTable { buckets })
    }

    /// Puts a token into the table, with no address yet, if it is not there.
    pub(crate) fn put(&mut self, alloc: Global, token: &[u8]) -> Result<(), AllocError>
        ensures named { OnOk result (Names (tokens_in self.old) (tokens_in self.new) (token.now ∷ [])) }
        ensures empty { AreEmpty self.old → AreEmpty self.new }
    {
        let bucket = &mut self.buckets[key(token.len())];
        if bucket.has(token) {
            return Ok(());
        }
        bucket.push(alloc, token)?;
        Ok(())
    }

    /// Adds the address to those of its token, if the table has that token.
    pub(crate) fn note(&mut self, token: &PlacedToken<'_>, address: u32) -> Result<(), AllocError>
        ensures { OnOk result (self.new ≡ map (noted token.now.token address) self.old) }
    {
        let bucket = &mut self.buckets[key(token.len())];
        bucket.note(token, address)?;
        Ok(())
    }

    /// The addresses of a token: none if the table does not have it.
    pub(crate) fn places(&self, token: &[u8]) -> &[u32]
        ensures { result.now ≡ places_in self.now token.now }
    {
        self.buckets[key(token.len())].places(token)
    }

    /// Whether a token begins with these bytes and has an address.
    pub(crate) fn has_word_from(&self, prefix: &[u8]) -> bool {
        self.buckets
            .iter()
            .any(|bucket| bucket.has_word_from(prefix))
    }
}
