ghost use Rattle.std.specs.Prelude.{◌≡◌, [], ◌∷◌, ◌++◌, OnOk, OnErr, IfSome};
ghost use Rattle.std.specs.List.{AllByRecursion, concat};
ghost use Rattle.index_shard.specs.Kept.{leading};
ghost use Rattle.index_shard.specs.Tables.{ArePostingsIn, AreApart, ComesBefore, IsShard, last_entry};

use crate::room::Room;
use crate::shard::Shard;
use crate::table::TermTable;
use address_space::Range;
use posting_code::{PostingList, Postings, encode};
use std::alloc::{AllocError, Global};
use std::marker::Model;

/// A shard that is being made, term by term.
#[derive(Drop)]
pub struct ShardMaker {
    range: Range,
    table: TermTable,
}

impl Model for ShardMaker {
    ghost use Rattle.index_shard.specs.Tables.{ShardContent, IsShard};

    ghost Value = { ShardContent };

    ghost view = { λ m. record { range = m.range; table = m.table } };

    ghost invariant = { λ m. IsShard (record { range = m.range; table = m.table }) };
}

impl ShardMaker {
    /// No terms yet. It takes no memory.
    pub fn new(alloc: Global, range: Range) -> Self
        ensures range { result.range ≡ range }
        ensures table { result.table ≡ [] }
    {
        // reading a field of a range shows that it is one
        let _ = &range.first;
        ShardMaker {
            range,
            table: TermTable::new(alloc),
        }
    }

    /// Reserves this much more room, so that the rows need not be moved while they grow. Unused room is given back at the end.
    pub fn reserve(&mut self, room: Room) -> Result<(), AllocError>
        ensures { self.new ≡ self.old }
    {
        self.table.reserve(room)
    }

    /// Appends a term with its postings.
    pub fn push_term(&mut self, term: &[u8], addresses: &[u64]) -> Result<(), AllocError>
        requires rising { IfSome (last_entry self.old.table) (λ last. ComesBefore last.term term.now) }
        requires postings { ArePostingsIn self.old.range addresses.now }
        requires apart { AllByRecursion (λ entry. AreApart entry.addresses addresses.now) self.old.table }
        ensures ok { OnOk result
            (self.new ≡ record self.old { table = self.old.table ++ record { term = term.now; addresses = addresses.now } ∷ [] }) }
        ensures err { OnErr result (self.new ≡ self.old) }
    {
        let postings = encode(self.table.alloc(), addresses)?;
        self.push_list(term, postings)
    }

    /// Appends a term with postings that are handed over.
    pub fn push_list(&mut self, term: &[u8], postings: PostingList) -> Result<(), AllocError>
        requires rising { IfSome (last_entry self.old.table) (λ last. ComesBefore last.term term.now) }
        requires postings { ArePostingsIn self.old.range postings }
        requires apart { AllByRecursion (λ entry. AreApart entry.addresses postings) self.old.table }
        ensures ok { OnOk result
            (self.new ≡ record self.old { table = self.old.table ++ record { term = term.now; addresses = postings } ∷ [] }) }
        ensures err { OnErr result (self.new ≡ self.old) }
    {
        self.table.push(term, postings)?;
        Ok(())
    }

    /// The same with the postings of several lists, each after those before, and the first bytes of the term as a number, as `head_of`
    /// gives it. None of the lists is unpacked.
    #[inline]
    pub fn push_parts(
        &mut self,
        head: u64,
        term: &[u8],
        parts: &[Postings<'_>],
    ) -> Result<(), AllocError>
        requires head { head ≡ leading 8 0 term.now }
        requires rising { IfSome (last_entry self.old.table) (λ last. ComesBefore last.term term.now) }
        requires postings { ArePostingsIn self.old.range (concat parts.now) }
        requires apart { AllByRecursion (λ entry. AreApart entry.addresses (concat parts.now)) self.old.table }
        ensures ok { OnOk result
            (self.new ≡ record self.old { table = self.old.table ++ record { term = term.now; addresses = concat parts.now } ∷ [] }) }
        ensures err { OnErr result (self.new ≡ self.old) }
    {
        self.table.push_parts(head, term, parts)?;
        Ok(())
    }

    /// The shard of the terms so far.
    pub fn finish(self) -> Shard
        ensures value { result ≡ self }
        ensures shard { IsShard result }
    {
        let mut table = self.table;
        table.fit();
        Shard::of(self.range, table)
    }
}
