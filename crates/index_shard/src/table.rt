ghost use Rattle.std.specs.Prelude.{◌≡◌, ◌<◌, ◌++◌, ◌∷◌, [], length, map, option_map};
ghost use Rattle.std.specs.Prelude.{slice_get, MatchOption, None, Some, IfSome, OnOk, OnErr};
ghost use Rattle.std.specs.List.{AllByRecursion, concat};
ghost use Rattle.gcl_model.specs.Slots.{SlotRange};
ghost use Rattle.posting_code.specs.Postings.{ArePostings};
ghost use Rattle.index_shard.specs.Kept.{AreBytes, AreEndsOf, leading};
ghost use Rattle.index_shard.specs.Moved.{CanMove, moved_term};
ghost use Rattle.index_shard.specs.Tables.{IsTable, TermEntry, postings_of, addresses_at, place_of, least_term};

use crate::entry::{Entry, Kept, head_of, lent, move_entries};
use crate::find::{find_place, place_from};
use crate::parts::{Ends, ends_of, put_entry, put_short};
use crate::room::{Room, long_room};
use posting_code::{BLOCK, PostingList, PostingRows, Postings};
use std::alloc::{AllocError, Global};
use std::marker::Model;

/// Terms with their postings. The bytes of all terms are in one row, and so are the packed differences of all lists of up to 64. Longer
/// ones that were joined have rows of their own.
#[derive(Drop)]
pub(crate) struct TermTable {
    bytes: Vec<u8>,
    packed: Vec<u8>,
    entries: Vec<Entry>,
    // the lists of more than 64
    long: PostingRows,
}

impl Model for TermTable {
    ghost use Rattle.std.specs.Prelude.{List};
    ghost use Rattle.index_shard.specs.Tables.{TermEntry};
    ghost use Rattle.index_shard.specs.Kept.{table_in, AreKeptIn};

    ghost Value = { List TermEntry };

    ghost view = { λ t. table_in t.bytes.items t.packed.items t.long t.entries.items };

    ghost invariant = { λ t. AreKeptIn t.bytes.items t.packed.items t.long t.entries.items };
}

impl TermTable {
    /// No terms. It takes no memory.
    pub(crate) fn new(alloc: Global) -> Self
        ensures { result ≡ [] }
    {
        TermTable {
            bytes: Vec::new(alloc),
            packed: Vec::new(alloc),
            entries: Vec::new(alloc),
            long: PostingRows::new(alloc),
        }
    }

    /// Where its memory comes from.
    pub(crate) fn alloc(&self) -> Global {
        *self.entries.allocator()
    }

    /// Appends a term with its postings. A long list keeps its memory, and a short one is copied.
    pub(crate) fn push(&mut self, term: &[u8], postings: PostingList) -> Result<(), AllocError>
        ensures ok { OnOk result (self.new ≡ self.old ++ record { term = term.now; addresses = postings } ∷ []) }
        ensures err { OnErr result (self.new ≡ self.old) }
    {
        if postings.len() > BLOCK {
            return self.push_own(term, postings);
        }
        let lent = postings.as_postings();
        self.push_parts(head_of(term), term, &[lent])?;
        Ok(())
    }

    /// The same with a list that keeps its memory.
    fn push_own(&mut self, term: &[u8], postings: PostingList) -> Result<(), AllocError>
        ensures ok { OnOk result (self.new ≡ self.old ++ record { term = term.now; addresses = postings } ∷ []) }
        ensures err { OnErr result (self.new ≡ self.old) }
    {
        let place = self.long.len();
        self.long.push(postings)?;
        let kept = Kept::Long(place);
        put_entry(
            &mut self.bytes,
            &mut self.entries,
            head_of(term),
            term,
            kept,
        )?;
        Ok(())
    }

    /// The same with the postings of several lists, each after those before, and the first bytes of the term as a number. None is unpacked.
    #[inline]
    pub(crate) fn push_parts(
        &mut self,
        head: u64,
        term: &[u8],
        parts: &[Postings<'_>],
    ) -> Result<(), AllocError>
        requires head { head ≡ leading 8 0 term.now }
        requires postings { ArePostings (concat parts.now) }
        ensures ok { OnOk result (self.new ≡ self.old ++ record { term = term.now; addresses = concat parts.now } ∷ []) }
        ensures err { OnErr result (self.new ≡ self.old) }
    {
        let ends = ends_of(parts);
        if ends.count > BLOCK {
            return self.push_long(head, term, ends, parts);
        }
        let kept = put_short(&mut self.packed, ends, parts)?;
        put_entry(&mut self.bytes, &mut self.entries, head, term, kept)?;
        Ok(())
    }

    /// The same with more than 64 postings in all.
    fn push_long(
        &mut self,
        head: u64,
        term: &[u8],
        ends: Ends,
        parts: &[Postings<'_>],
    ) -> Result<(), AllocError>
        requires head { head ≡ leading 8 0 term.now }
        requires postings { ArePostings (concat parts.now) }
        requires ends { AreEndsOf ends (concat parts.now) }
        ensures ok { OnOk result (self.new ≡ self.old ++ record { term = term.now; addresses = concat parts.now } ∷ []) }
        ensures err { OnErr result (self.new ≡ self.old) }
    {
        let place = self.long.len();
        self.long
            .push_joined(parts, ends.first, ends.last, ends.count)?;
        let kept = Kept::Long(place);
        put_entry(&mut self.bytes, &mut self.entries, head, term, kept)?;
        Ok(())
    }

    /// Moves all postings up. No list is unpacked.
    pub(crate) fn move_up(&mut self, by: u64)
        requires { AllByRecursion (CanMove by) self.old }
        ensures { self.new ≡ map (moved_term by) self.old }
    {
        move_entries(&mut self.entries, by);
        self.long.move_up(by);
    }

    /// The room it takes.
    pub(crate) fn room(&self) -> Room
        ensures { result.terms ≡ length self.now }
    {
        Room {
            terms: self.entries.len(),
            bytes: self.bytes.len(),
            packed: self.packed.len(),
            long: self.long.room(),
        }
    }

    /// Reserves this much more room.
    pub(crate) fn reserve(&mut self, room: Room) -> Result<(), AllocError>
        ensures { self.new ≡ self.old }
    {
        self.entries.reserve(room.terms)?;
        self.bytes.reserve(room.bytes)?;
        self.packed.reserve(room.packed)?;
        self.long.reserve(long_room(room))?;
        Ok(())
    }

    /// Gives back the memory that growing took and no term needs.
    pub(crate) fn fit(&mut self)
        ensures { self.new ≡ self.old }
    {
        self.bytes.shrink_to_fit();
        self.packed.shrink_to_fit();
        self.entries.shrink_to_fit();
        self.long.fit();
    }

    /// The number of terms.
    #[inline]
    pub(crate) fn len(&self) -> usize
        ensures { result ≡ length self.now }
    {
        self.entries.len()
    }

    /// The term at a place.
    #[inline]
    pub(crate) fn term(&self, place: usize) -> &[u8]
        requires { place < length self.now }
        ensures { slice_get (map (λ (entry : TermEntry). entry.term) self.now) place ≡ Some result.now }
    {
        let entry = &self.entries[place];
        entry.term(&self.bytes)
    }

    /// The first eight bytes of the term at a place, as a number.
    #[inline]
    pub(crate) fn head(&self, place: usize) -> u64
        requires { place < length self.now }
        ensures value { option_map (leading 8 0) (slice_get (map (λ (entry : TermEntry). entry.term) self.now) place) ≡ Some result }
        ensures bytes { IfSome (slice_get (map (λ (entry : TermEntry). entry.term) self.now) place) AreBytes }
    {
        let entry = &self.entries[place];
        entry.head_in(&self.bytes)
    }

    /// The postings at a place.
    #[inline]
    pub(crate) fn postings_at(&self, place: usize) -> Postings<'_>
        requires { place < length self.now }
        ensures at { result ≡ addresses_at self.now place }
        ensures entry { slice_get (map (λ (entry : TermEntry). entry.addresses) self.now) place ≡ Some result }
    {
        let entry = &self.entries[place];
        lent(&self.packed, &self.long, entry.list)
    }

    /// The place of a term.
    pub(crate) fn place(&self, term: &[u8]) -> Option<usize>
        requires { (range : SlotRange) × IsTable range self.now }
        ensures { result ≡ place_of self.now term.now }
    {
        find_place(&self.bytes, &self.entries, term)
    }

    /// The postings of a term.
    pub(crate) fn find_postings(&self, term: &[u8]) -> Option<Postings<'_>>
        requires { (range : SlotRange) × IsTable range self.now }
        ensures { MatchOption result (postings_of self.now term.now ≡ []) (λ list. postings_of self.now term.now ≡ list) }
    {
        let place = self.place(term)?;
        Some(self.postings_at(place))
    }

    /// The place of the least term that is at least `low`, or above it with `strict`: the end if there is none.
    fn least_place(&self, low: &[u8], strict: bool) -> usize
        requires { (range : SlotRange) × IsTable range self.now }
        ensures { slice_get (map (λ (entry : TermEntry). entry.term) self.now) result ≡ least_term self.now low.now strict }
    {
        place_from(&self.bytes, &self.entries, low, strict)
    }

    /// The least term that is at least `low`, or above it with `strict`.
    pub(crate) fn term_from(&self, low: &[u8], strict: bool) -> Option<&[u8]>
        requires { (range : SlotRange) × IsTable range self.now }
        ensures { MatchOption result (least_term self.now low.now strict ≡ None)
            (λ term. least_term self.now low.now strict ≡ Some term.now) }
    {
        let place = self.least_place(low, strict);
        if place < self.entries.len() {
            Some(self.term(place))
        } else {
            None
        }
    }
}
