ghost use Rattle.std.specs.Prelude.{◌≡◌, [], ◌∷◌, ◌++◌, map, OnOk, OnErr};
ghost use Rattle.text_search.specs.Names.{is_named};
ghost use Rattle.text_search.specs.Tables.{new_entry, noted, places_in, tokens_in};

use crate::term_places::TermPlaces;
use gcl_model::Bytes;
use std::alloc::{AllocError, Global};
use std::marker::Model;
use token_places::PlacedToken;

/// Some tokens with their addresses.
#[derive(Drop)]
pub(crate) struct Bucket {
    terms: Vec<TermPlaces>,
}

impl Model for Bucket {
    ghost use Rattle.std.specs.Prelude.{List};
    ghost use Rattle.text_search.specs.Tables.{Entry};

    ghost Value = { List Entry };

    ghost view = { λ b. b.terms.items };
}

impl Bucket {
    /// No tokens. It allocates nothing.
    pub(crate) fn new(alloc: Global) -> Self
        ensures { result ≡ [] }
    {
        Bucket {
            terms: Vec::new(alloc),
        }
    }

    /// Whether the token is among them.
    pub(crate) fn has(&self, token: &[u8]) -> bool
        ensures { result ≡ is_named (tokens_in self.now) token.now }
    {
        for term in &self.terms {
            if token == term.token() {
                return true;
            }
        }
        false
    }

    /// Adds a token after the others, with no address yet.
    pub(crate) fn push(&mut self, alloc: Global, token: &[u8]) -> Result<(), AllocError>
        ensures ok { OnOk result (self.new ≡ self.old ++ new_entry token.now ∷ []) }
        ensures err { OnErr result (self.new ≡ self.old) }
    {
        let token = Bytes::copy_of(alloc, token)?;
        self.terms.push(TermPlaces::new(alloc, token))?;
        Ok(())
    }

    /// Adds the address to those of its token, if that is among them.
    pub(crate) fn note(&mut self, token: &PlacedToken<'_>, address: u32) -> Result<(), AllocError>
        ensures tokens { tokens_in self.new ≡ tokens_in self.old }
        ensures ok { OnOk result (self.new ≡ map (noted token.now.token address) self.old) }
    {
        for i in 0..self.terms.len() {
            let term = &mut self.terms[i];
            if !term.is(token) {
                continue;
            }
            term.push(address)?;
        }
        Ok(())
    }

    /// The addresses of a token: none if it is not among them.
    pub(crate) fn places(&self, token: &[u8]) -> &[u32]
        ensures { result.now ≡ places_in self.now token.now }
    {
        for term in &self.terms {
            if token == term.token() {
                return term.places();
            }
        }
        &[]
    }

    /// Whether a token begins with these bytes and has an address.
    pub(crate) fn has_word_from(&self, prefix: &[u8]) -> bool {
        for term in &self.terms {
            if term.token().starts_with(prefix) && !term.places().is_empty() {
                return true;
            }
        }
        false
    }
}
