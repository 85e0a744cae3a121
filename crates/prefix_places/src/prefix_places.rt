ghost use Rattle.std.specs.Prelude.{◌≡◌, true, nat_le, find, length, IfOk};
ghost use Rattle.gcl_model.specs.Access.{find_last};
ghost use Rattle.gcl_model.specs.Wide.{is_prefix_term};
ghost use Rattle.live_version.specs.Contents.{version_text};
ghost use Rattle.prefix_places.specs.Places.{wide_places};

use crate::gathering::gathered;
use crate::near::{border_near, member_at};
use gcl_model::Bytes;
use live_version::Version;
use std::alloc::{AllocError, Global};
use std::cell::Cell;
use std::marker::Model;

/// All places of a prefix term over a version.
#[derive(Drop)]
pub struct PrefixPlaces {
    token: Bytes,
    places: Vec<u64>,
    // where the last answer was: the next one is most often near it
    last: Cell<usize>,
}

impl Model for PrefixPlaces {
    ghost use Rattle.posting_code.specs.Postings.{ArePostings};
    ghost use Rattle.prefix_places.specs.Places.{PrefixContent};

    ghost Value = { PrefixContent };

    ghost view = { λ p. record { token = p.token; places = p.places.items } };

    ghost invariant = { λ p. ArePostings p.places.items };
}

impl PrefixPlaces {
    /// The places of the term. Err means out of memory.
    pub fn of(alloc: Global, version: &Version, token: &[u8]) -> Result<PrefixPlaces, AllocError>
        requires { is_prefix_term token.now ≡ true }
        ensures { IfOk result (λ p. (p.token ≡ token.now) × (p.places ≡ wide_places (version_text version.now).words token.now)) }
    {
        let prefix = &token[..token.len().saturating_sub(1)];
        let places = gathered(alloc, version.slots(), prefix)?;
        let token = Bytes::copy_of(alloc, token)?;
        Ok(PrefixPlaces {
            token,
            places,
            last: Cell::new(0),
        })
    }

    /// The prefix term, with its `*`.
    pub fn token(&self) -> &[u8]
        ensures { result.now ≡ self.now.token }
    {
        self.token.as_slice()
    }

    /// The number of places.
    pub fn len(&self) -> usize
        ensures { result ≡ length self.now.places }
    {
        self.places.len()
    }

    /// The least place at or after `k`.
    pub fn next(&self, k: u64) -> Option<u64>
        ensures { result ≡ find (λ p. nat_le k p) self.now.places }
    {
        let places = self.places.as_slice();
        let at = border_near(places, k, self.last.get());
        self.last.set(at);
        member_at(places, at)
    }

    /// The greatest place up to `k`.
    pub fn prev(&self, k: u64) -> Option<u64>
        ensures { result ≡ find_last (λ p. nat_le p k) self.now.places }
    {
        let places = self.places.as_slice();
        let at = border_near(places, k.saturating_add(1), self.last.get());
        self.last.set(at);
        if at == 0 {
            return None;
        }
        member_at(places, at - 1)
    }
}
