ghost use Rattle.std.specs.Prelude.{◌≡◌, ◌<◌, ◌≤◌, ◌++◌, ℕ, length, drop, nat_lt, IsTrue, OnOk};
ghost use Rattle.std.specs.List.{concat};
ghost use Rattle.gcl_model.specs.Limits.{address_end};
ghost use Rattle.gcl_model.specs.Slots.{AreRangesWithin};
ghost use Rattle.index_shard.specs.Tables.{IsShard, addresses_at};
ghost use Rattle.delete_mask.specs.Masks.{is_dead};
ghost use Rattle.posting_code.specs.Postings.{ArePostings};
ghost use Rattle.slot_terms.specs.Firsts.{IsFirst, IsFirstOf};
ghost use Rattle.slot_terms.specs.Parts.{alive, head_postings, is_headed, past};

use crate::first::First;
use address_space::Range;
use delete_mask::Mask;
use index_shard::{Room, Shard};
use posting_code::Postings;
use std::alloc::AllocError;
use std::marker::Model;

/// The index and the dead ranges of a slot, and the place of the first term that is still to come.
// That term is stored here too: comparing it looks into no row.
#[derive(Drop)]
pub(crate) struct Part<'a> {
    shard: &'a Shard,
    mask: Mask,
    next: usize,
    first: Option<First<'a>>,
}

impl<'a> Model for Part<'a> {
    ghost use Rattle.std.specs.Prelude.{◌≤◌, length, drop};
    ghost use Rattle.index_shard.specs.Tables.{IsShard};
    ghost use Rattle.slot_terms.specs.Firsts.{IsFirstOf};
    ghost use Rattle.slot_terms.specs.Parts.{PartContent};

    ghost Value = { PartContent };

    ghost view = { λ p. record { mask = p.mask; left = drop p.next p.shard.now.table } };

    ghost invariant = { λ p. (p.next ≤ length p.shard.now.table) × IsFirstOf (drop p.next p.shard.now.table) p.first ×
        IsShard p.shard.now };
}

impl<'a> Part<'a> {
    /// All terms of the shard are still to come.
    pub(crate) fn new(shard: &'a Shard, mask: Mask) -> Self
        ensures { result ≡ record { mask = mask; left = shard.now.table } }
    {
        Part {
            shard,
            mask,
            next: 0,
            first: first_from(shard, 0),
        }
    }

    /// The room of the slot's table.
    pub(crate) fn room(&self) -> Room {
        self.shard.room()
    }

    /// The first term that is still to come.
    #[inline]
    pub(crate) fn first(&self) -> Option<First<'a>>
        ensures { IsFirstOf self.now.left result }
    {
        self.first
    }

    /// Moves past the term if it is the first, and appends its live postings to the lists.
    pub(crate) fn take_list(
        &mut self,
        first: &First<'_>,
        lists: &mut Vec<Postings<'a>>,
    ) -> Result<(), AllocError>
        requires { IsFirst first.now }
        ensures lists { OnOk result (concat lists.new.items ≡ concat lists.old.items ++
            alive self.old.mask (head_postings self.old.left first.now.term.now)) }
        ensures past { OnOk result (self.new ≡ past first.now.term.now self.old) }
    {
        if self.has_first(first) {
            self.take_first(lists)?;
        }
        Ok(())
    }

    /// Moves past the first term, and appends its live postings to the lists.
    #[inline]
    pub(crate) fn take_first(&mut self, lists: &mut Vec<Postings<'a>>) -> Result<(), AllocError>
        requires { 0 < length self.old.left }
        ensures lists { OnOk result (concat lists.new.items ≡ concat lists.old.items ++
            alive self.old.mask (addresses_at self.old.left 0)) }
        ensures past { OnOk result (self.new ≡ record self.old { left = drop 1 self.old.left }) }
    {
        lend_live(self.shard.postings(self.next), &self.mask, lists)?;
        self.step();
        Ok(())
    }

    /// Whether the term is the first that is still to come.
    #[inline]
    fn has_first(&self, first: &First<'_>) -> bool
        requires { IsFirst first.now }
        ensures { result ≡ is_headed self.now.left first.now.term.now }
    {
        match self.first {
            Some(own) => own.is(first),
            None => false,
        }
    }

    /// Moves past the first term, if there is one.
    #[inline]
    fn step(&mut self)
        ensures { self.new ≡ record self.old { left = drop 1 self.old.left } }
    {
        if self.next < self.shard.term_count() {
            self.next += 1;
            self.first = first_from(self.shard, self.next);
        }
    }

    /// Moves past the term if it is the first, and appends its live postings to the addresses.
    pub(crate) fn take(
        &mut self,
        first: &First<'_>,
        addresses: &mut Vec<u64>,
    ) -> Result<(), AllocError>
        requires { IsFirst first.now }
        ensures addresses { OnOk result (addresses.new.items ≡ addresses.old.items ++
            alive self.old.mask (head_postings self.old.left first.now.term.now)) }
        ensures past { OnOk result (self.new ≡ past first.now.term.now self.old) }
    {
        if self.has_first(first) {
            put_live(&self.shard.postings(self.next), &self.mask, addresses)?;
            self.step();
        }
        Ok(())
    }
}

/// The term at a place, or None at the end.
#[inline]
fn first_from(shard: &Shard, place: usize) -> Option<First<'_>>
    requires { place ≤ length shard.now.table }
    ensures first { IsFirstOf (drop place shard.now.table) result }
    ensures shard { IsShard shard.now }
{
    if place == shard.term_count() {
        return None;
    }
    Some(First {
        head: shard.head(place),
        term: shard.term(place),
    })
}

/// Appends the live postings to the lists. They are lent, and none of them is unpacked.
fn lend_live<'a>(
    list: Postings<'a>,
    mask: &Mask,
    lists: &mut Vec<Postings<'a>>,
) -> Result<(), AllocError>
    ensures { OnOk result (concat lists.new.items ≡ concat lists.old.items ++ alive mask.now list.entry) }
{
    if is_apart(&list, mask) {
        lists.push(list)?;
        return Ok(());
    }
    for block in 0..list.block_count() {
        let block = list.block(block);
        let ranges = ranges_from(mask, block.first());
        lend_between(block, ranges, lists)?;
    }
    Ok(())
}

/// Whether no dead range meets the stretch from the first of the postings to the last.
fn is_apart(list: &Postings<'_>, mask: &Mask) -> bool
    ensures { IsTrue result → alive mask.now list.now ≡ list.now }
{
    if list.len() == 0 {
        return true;
    }
    mask.is_apart(Range {
        first: list.first(),
        last: list.last(),
    })
}

/// The dead ranges that do not end before the address.
fn ranges_from(mask: &Mask, p: u64) -> &[Range]
    ensures dead { (q : ℕ) → p ≤ q → is_dead result.now q ≡ is_dead mask.now q }
    ensures apart { AreRangesWithin 0 address_end result.now }
{
    let ranges = mask.ranges();
    let before = ranges.partition_point(
        |range: &Range| -> bool
            ensures { result ≡ nat_lt range.now.last p }
        { range.last < p },
    );
    &ranges[before..]
}

/// Appends the live postings of a block to the lists: those between two dead ranges are lent as they are packed.
fn lend_between<'a>(
    block: Postings<'a>,
    ranges: &[Range],
    lists: &mut Vec<Postings<'a>>,
) -> Result<(), AllocError>
    requires few { length block ≤ 64 }
    requires apart { AreRangesWithin 0 address_end ranges.now }
    ensures { OnOk result (concat lists.new.items ≡ concat lists.old.items ++ alive ranges.now block.entry) }
{
    let mut rest = block;
    for range in ranges {
        if rest.len() == 0 {
            return Ok(());
        }
        // most often all are before it
        if rest.last() < range.first {
            lists.push(rest)?;
            return Ok(());
        }
        let (live, others) = rest.split(range.first);
        let behind = others.split(range.last + 1).1;
        // often none is in it
        if behind.len() == others.len() {
            continue;
        }
        lists.push(live)?;
        rest = behind;
    }
    lists.push(rest)?;
    Ok(())
}

/// Appends the live postings to the addresses. Each block is read once.
fn put_live(list: &Postings<'_>, mask: &Mask, addresses: &mut Vec<u64>) -> Result<(), AllocError>
    ensures { OnOk result (addresses.new.items ≡ addresses.old.items ++ alive mask.now list.now) }
{
    let mut members = [0; 64];
    for block in 0..list.block_count() {
        let count = list.read_block(block, &mut members);
        put_block(&members[..count], mask, addresses)?;
    }
    Ok(())
}

/// Appends the live postings of a block to the addresses. If no dead range meets the block, it is appended as a whole.
fn put_block(members: &[u64], mask: &Mask, addresses: &mut Vec<u64>) -> Result<(), AllocError>
    requires { ArePostings members.now }
    ensures { OnOk result (addresses.new.items ≡ addresses.old.items ++ alive mask.now members.now) }
{
    if is_untouched(members, mask) {
        addresses.extend_from_slice(members)
    } else {
        put_each(members, mask, addresses)
    }
}

/// Whether no dead range meets the stretch from the first of the postings to the last.
fn is_untouched(members: &[u64], mask: &Mask) -> bool
    requires { ArePostings members.now }
    ensures { IsTrue result → alive mask.now members.now ≡ members.now }
{
    match (members.first(), members.last()) {
        (Some(first), Some(last)) => mask.is_apart(Range {
            first: *first,
            last: *last,
        }),
        _ => true,
    }
}

/// A dead range is looked up once, at the first posting in it.
fn put_each(members: &[u64], mask: &Mask, addresses: &mut Vec<u64>) -> Result<(), AllocError>
    requires { ArePostings members.now }
    ensures { OnOk result (addresses.new.items ≡ addresses.old.items ++ alive mask.now members.now) }
{
    let mut alive_from = 0;
    for address in members {
        if *address >= alive_from {
            match mask.dead(*address) {
                Some(range) => alive_from = range.last + 1,
                None => addresses.push(*address)?,
            }
        }
    }
    Ok(())
}
