ghost use Rattle.std.specs.Prelude.{◌≡◌, ◌↔◌, [], ◌∷◌, ◌++◌, IsTrue, OnOk, OnErr};
ghost use Rattle.text_search.specs.Tables.{new_entry};

use gcl_model::Bytes;
use std::alloc::{AllocError, Global};
use std::marker::Model;
use token_places::PlacedToken;

/// A token, and the addresses that hold it.
#[derive(Drop)]
pub(crate) struct TermPlaces {
    token: Bytes,
    places: Vec<u32>,
}

impl Model for TermPlaces {
    ghost use Rattle.text_search.specs.Tables.{Entry};

    ghost Value = { Entry };

    ghost view = { λ t. record { token = t.token; places = t.places.items } };
}

impl TermPlaces {
    /// The token, with no address yet.
    pub(crate) fn new(alloc: Global, token: Bytes) -> Self
        ensures { result ≡ new_entry token }
    {
        TermPlaces {
            token,
            places: Vec::new(alloc),
        }
    }

    pub(crate) fn token(&self) -> &[u8]
        ensures { result.now ≡ self.now.token }
    {
        self.token.as_slice()
    }

    pub(crate) fn places(&self) -> &[u32]
        ensures { result.now ≡ self.now.places }
    {
        self.places.as_slice()
    }

    /// Whether a token of a text is this one.
    pub(crate) fn is(&self, token: &PlacedToken<'_>) -> bool
        ensures { IsTrue result ↔ self.now.token ≡ token.now.token }
    {
        token.is(self.token.as_slice())
    }

    /// Adds an address after the others.
    pub(crate) fn push(&mut self, address: u32) -> Result<(), AllocError>
        ensures token { self.new.token ≡ self.old.token }
        ensures ok { OnOk result (self.new.places ≡ self.old.places ++ address ∷ []) }
        ensures err { OnErr result (self.new.places ≡ self.old.places) }
    {
        self.places.push(address)?;
        Ok(())
    }
}
