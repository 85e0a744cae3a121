ghost use Rattle.std.specs.Prelude.{◌≡◌, ◌⊎◌, [], option_map, MatchOption};
ghost use Rattle.live_version.specs.Contents.{IsVersion};
ghost use Rattle.live_version.specs.Terms.{IsLeastTerm, IsNoLater, terms_from, terms_of};

use crate::version::Version;
use std::cmp::Ordering;

impl Version {
    /// The least term of all slots' indexes that is at least `low`, or above it with `strict`. All of its postings may be dead: whether
    /// one is alive is a look-up. It takes no memory.
    pub fn term_from(&self, low: &[u8], strict: bool) -> Option<&[u8]>
        ensures value { MatchOption result (terms_from (terms_of self.now.slots) low.now strict ≡ [])
            (λ term. IsLeastTerm (terms_from (terms_of self.now.slots) low.now strict) term.now) }
        ensures version { IsVersion self.now }
    {
        let slots = self.slots();
        let mut least = None;
        for slot in slots {
            least = earlier_term(least, slot.shard().term_from(low, strict));
        }
        least
    }
}

/// The lesser of two terms, if there are two.
pub fn earlier_term<'a>(first: Option<&'a [u8]>, second: Option<&'a [u8]>) -> Option<&'a [u8]>
    ensures first { IsNoLater (option_map (λ term. term.now) result) (option_map (λ term. term.now) first.entry) }
    ensures second { IsNoLater (option_map (λ term. term.now) result) (option_map (λ term. term.now) second.entry) }
    ensures among { (option_map (λ term. term.now) result ≡ option_map (λ term. term.now) first.entry) ⊎
        (option_map (λ term. term.now) result ≡ option_map (λ term. term.now) second.entry) }
{
    match (first, second) {
        (Some(a), Some(b)) => match a.cmp(b) {
            Ordering::Greater => second,
            _ => first,
        },
        (None, _) => second,
        (_, None) => first,
    }
}
