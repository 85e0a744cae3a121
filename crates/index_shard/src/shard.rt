ghost use Rattle.std.specs.Prelude.{◌≡◌, ◌+◌, ◌<◌, length, map, option_map, MatchOption, None, Some, IfSome, slice_get};
ghost use Rattle.gcl_model.specs.Limits.{address_end};
ghost use Rattle.index_shard.specs.Kept.{AreBytes, leading};
ghost use Rattle.index_shard.specs.Tables.{IsShard, TermEntry, postings_of, addresses_at, place_of, least_term, words_of};
ghost use Rattle.index_shard.specs.Moved.{moved_range, moved_shard, moved_words};
ghost use Rattle.index_shard.specs.Searched.{look_up};
ghost use Rattle.posting_access.specs.Search.{RisesByDigits};

use crate::room::Room;
use crate::table::TermTable;
use crate::walk::Walk;
use address_space::Range;
use gcl_model::{Direction, Ledger, NoLedger, Steps};
use posting_access::{at_or_after, at_or_before};
use posting_code::Postings;
use std::marker::{Brand, Model};
use std::sync::ledger;
use std::sync::ledger::Blank;

/// The postings of a range of addresses, by term.
#[derive(Drop)]
pub struct Shard {
    range: Range,
    table: TermTable,
}

impl Model for Shard {
    ghost use Rattle.index_shard.specs.Tables.{ShardContent, IsShard};

    ghost Value = { ShardContent };

    ghost view = { λ s. record { range = s.range; table = s.table } };

    ghost invariant = { λ s. IsShard (record { range = s.range; table = s.table }) };
}

impl Shard {
    pub(crate) fn of(range: Range, table: TermTable) -> Self
        requires { IsShard (record { range = range; table = table }) }
        ensures range { result.range ≡ range }
        ensures table { result.table ≡ table }
    {
        Shard { range, table }
    }

    /// The addresses that it is about.
    pub fn range(&self) -> Range
        ensures value { result ≡ self.now.range }
        ensures shard { IsShard self.now }
    {
        self.range
    }

    /// The same shard at addresses that are greater by a number. It takes a step for each term and each block, and no memory.
    pub fn moved(self, by: u64) -> Shard
        requires { self.range.last + by < address_end }
        ensures value { result ≡ moved_shard by self }
        ensures words { words_of result ≡ moved_words by (words_of self) }
    {
        let range = moved_range(self.range, by);
        let mut table = self.table;
        table.move_up(by);
        Shard::of(range, table)
    }

    /// The posting of the term that is nearest to `k` on one side. It is one step.
    pub fn look_up<L: Ledger>(
        &self,
        term: &[u8],
        k: u64,
        direction: Direction,
        steps: &mut Steps<L>,
    ) -> Option<u64>
        ensures answer { result ≡ look_up self.now.table term.now k direction }
        ensures step { steps.new ≡ steps.old + 1 }
        ensures shard { IsShard self.now }
    {
        unprobed::<L, Brand>(self, term, k, direction, steps, Blank::new(1))
    }

    /// The same, with the probes of first addresses counted as well as the step.
    pub fn look_up_probed<L: Ledger, P: Ledger>(
        &self,
        term: &[u8],
        k: u64,
        direction: Direction,
        steps: &mut Steps<L>,
        probes: &mut Steps<P>,
    ) -> Option<u64>
        ensures answer { result ≡ look_up self.now.table term.now k direction }
        ensures step { steps.new ≡ steps.old + 1 }
        ensures probes { RisesByDigits (length (postings_of self.now.table term.now)) probes.old probes.new }
        ensures shard { IsShard self.now }
    {
        steps.tick();
        let list = self.table.find_postings(term)?;
        match direction {
            Direction::Forward => at_or_after(&list, k, probes),
            Direction::Backward => at_or_before(&list, k, probes),
        }
    }

    /// The place of a term, counted from 0 in rising byte order. It is no step.
    pub fn place(&self, term: &[u8]) -> Option<usize>
        ensures value { result ≡ place_of self.now.table term.now }
        ensures shard { IsShard self.now }
    {
        self.table.place(term)
    }

    /// The postings of the term at a place.
    #[inline]
    pub fn postings(&self, place: usize) -> Postings<'_>
        requires { place < length self.now.table }
        ensures value { result ≡ addresses_at self.now.table place }
        ensures shard { IsShard self.now }
    {
        self.table.postings_at(place)
    }

    /// The number of terms.
    #[inline]
    pub fn term_count(&self) -> usize
        ensures value { result ≡ length self.now.table }
        ensures shard { IsShard self.now }
    {
        self.table.len()
    }

    /// The room of its table, so that as much can be reserved.
    pub fn room(&self) -> Room
        ensures terms { result.terms ≡ length self.now.table }
        ensures shard { IsShard self.now }
    {
        self.table.room()
    }

    /// The term at place `i`, counted from 0 in rising byte order.
    #[inline]
    pub fn term(&self, i: usize) -> &[u8]
        requires { i < length self.now.table }
        ensures value { slice_get (map (λ (entry : TermEntry). entry.term) self.now.table) i ≡ Some result.now }
        ensures shard { IsShard self.now }
    {
        self.table.term(i)
    }

    /// The first eight bytes of the term at place `i` as a number, with a 0 for each that is not there. Terms are in the order of their
    /// numbers as far as these differ.
    #[inline]
    pub fn head(&self, i: usize) -> u64
        requires { i < length self.now.table }
        ensures value { option_map (leading 8 0) (slice_get (map (λ (entry : TermEntry). entry.term) self.now.table) i) ≡ Some result }
        ensures bytes { IfSome (slice_get (map (λ (entry : TermEntry). entry.term) self.now.table) i) AreBytes }
        ensures shard { IsShard self.now }
    {
        self.table.head(i)
    }

    /// The least term that is at least `low`, or above it with `strict`.
    pub fn term_from(&self, low: &[u8], strict: bool) -> Option<&[u8]>
        ensures value { MatchOption result (least_term self.now.table low.now strict ≡ None)
            (λ term. least_term self.now.table low.now strict ≡ Some term.now) }
        ensures shard { IsShard self.now }
    {
        self.table.term_from(low, strict)
    }

    /// The postings of the term at place `i`, starting at the first.
    pub fn walk(&self, i: usize) -> Walk<'_>
        requires { i < length self.now.table }
        ensures value { slice_get (map (λ (entry : TermEntry). entry.addresses) self.now.table) i ≡ Some result }
        ensures shard { IsShard self.now }
    {
        Walk::new(self.table.postings_at(i))
    }
}

/// The range at addresses that are greater by a number.
fn moved_range(range: Range, by: u64) -> Range
    requires { range.last + by < address_end }
    ensures { result ≡ moved_range by range }
{
    Range {
        first: range.first + by,
        last: range.last + by,
    }
}

/// A look-up whose probes are counted separately and not kept.
fn unprobed<L: Ledger, B: ledger::Ledger>(
    shard: &Shard,
    term: &[u8],
    k: u64,
    direction: Direction,
    steps: &mut Steps<L>,
    blank: Blank,
) -> Option<u64>
    requires name { blank.name ≡ B.name }
    requires parts { blank.parts ≡ B.parts }
    requires some { 0 < blank.parts }
    ensures answer { result ≡ look_up shard.now.table term.now k direction }
    ensures step { steps.new ≡ steps.old + 1 }
    ensures shard { IsShard shard.now }
{
    let mut probes = Steps::<NoLedger<B>>::open(blank);
    shard.look_up_probed(term, k, direction, steps, &mut probes)
}
