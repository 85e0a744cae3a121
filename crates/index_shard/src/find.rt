ghost use Rattle.std.specs.Prelude.{◌≡◌, ◌+◌, ◌^◌, ◌<◌, List, ℕ, map, slice_get, if◌then◌else◌};
ghost use Rattle.std.specs.List.{AllByRecursion};
ghost use Rattle.gcl_model.specs.Slots.{SlotRange};
ghost use Rattle.index_shard.specs.Tables.{IsTable, place_of, least_term, TermEntry};
ghost use Rattle.index_shard.specs.Kept.{IsTermIn, table_in};

use crate::entry::{Entry, head_of};

/// The place of a term, found by halving, whatever the postings of the terms are.
pub(crate) fn find_place(bytes: &[u8], entries: &[Entry], term: &[u8]) -> Option<usize>
    requires { AllByRecursion (IsTermIn bytes.now) entries.now }
    ensures { (packed : List ℕ) (long : List (List ℕ)) (range : SlotRange) → IsTable range (table_in bytes.now packed long entries.now)
        → result ≡ place_of (table_in bytes.now packed long entries.now) term.now }
{
    let head = head_of(term);
    match entries.binary_search_by(|entry| entry.compare(bytes, head, term)) {
        Ok(i) => Some(i),
        Err(_) => None,
    }
}

/// The place of the least term that is at least `low`, or above it with `strict`: the end if there is none.
pub(crate) fn place_from(bytes: &[u8], entries: &[Entry], low: &[u8], strict: bool) -> usize
    requires { AllByRecursion (IsTermIn bytes.now) entries.now }
    ensures { (packed : List ℕ) (long : List (List ℕ)) (range : SlotRange) → IsTable range (table_in bytes.now packed long entries.now)
        → slice_get (map (λ (entry : TermEntry). entry.term) (table_in bytes.now packed long entries.now)) result
        ≡ least_term (table_in bytes.now packed long entries.now) low.now strict }
{
    let head = head_of(low);
    match entries.binary_search_by(|entry| entry.compare(bytes, head, low)) {
        Ok(i) => behind(i, strict),
        Err(i) => i,
    }
}

fn behind(place: usize, strict: bool) -> usize
    requires { place < 2 ^ 63 }
    ensures { result ≡ (if strict then place + 1 else place) }
{
    if strict { place + 1 } else { place }
}
