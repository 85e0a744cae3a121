ghost use Rattle.std.specs.Prelude.{◌≡◌, List, ℕ, [], ◌++◌, map, flat_map, IfOk, OnOk, IfSome, IsNone};
ghost use Rattle.std.specs.List.{AllByRecursion, concat};
ghost use Rattle.index_shard.specs.Kept.{leading};
ghost use Rattle.slot_terms.specs.Firsts.{IsFirst};
ghost use Rattle.slot_terms.specs.Leasts.{IsLeastAt, IsLeastOf};
ghost use Rattle.slot_terms.specs.Parts.{IsNext, IsPart, alive, head_postings, part_of, past, postings_left};

use crate::first::First;
use crate::least::{Least, least_of};
use crate::part::Part;
use index_shard::Room;
use live_version::Slot;
use posting_code::{Postings, RowsRoom};
use std::alloc::{AllocError, Global};
use std::marker::Model;

/// The terms of some slots that are still to come.
#[derive(Drop)]
pub struct SlotTerms<'a> {
    parts: Vec<Part<'a>>,
}

impl<'a> Model for SlotTerms<'a> {
    ghost use Rattle.std.specs.Prelude.{List};
    ghost use Rattle.slot_terms.specs.Parts.{PartContent};

    ghost Value = { List PartContent };

    ghost view = { λ t. t.parts.items };
}

impl<'a> SlotTerms<'a> {
    /// All terms of the slots are still to come.
    pub fn new(alloc: Global, slots: &'a [Slot]) -> Result<SlotTerms<'a>, AllocError>
        ensures value { IfOk result (λ terms. terms ≡ map part_of slots.now) }
        ensures parts { IfOk result (λ terms. AllByRecursion IsPart terms) }
    {
        let mut parts = Vec::with_capacity(alloc, slots.len())?;
        for slot in slots {
            // the ranges of a slot that is read as a whole, by themselves
            let mask = slot.mask().flat(alloc)?;
            parts.push(Part::new(slot.shard(), mask))?;
        }
        Ok(SlotTerms { parts })
    }

    /// The next term, and its live postings in place of the addresses: none if all of them are dead. After an Err nothing is known of
    /// what is still to come.
    pub fn next(&mut self, addresses: &mut Vec<u64>) -> Result<Option<&'a [u8]>, AllocError>
        requires { AllByRecursion IsPart self.old }
        ensures next { IfOk result (λ found. IfSome found (λ term. IsNext self.old term.now addresses.new.items)) }
        ensures past { IfOk result (λ found. IfSome found (λ term. self.new ≡ map (past term.now) self.old)) }
        ensures parts { IfOk result (λ found. AllByRecursion IsPart self.new) }
        ensures none { IfOk result (λ found. IsNone found → (term : List ℕ) → postings_left self.old term ≡ []) }
    {
        if let Some(least) = self.least() {
            self.take(&least.first, addresses)?;
            return Ok(Some(least.first.term));
        }
        Ok(None)
    }

    /// The room of the tables of all slots: as much as that of the terms that they become, or more.
    pub fn room(&self) -> Room {
        let mut room = Room {
            terms: 0,
            bytes: 0,
            packed: 0,
            long: RowsRoom::NONE,
        };
        for part in &self.parts {
            room = room.and(part.room());
        }
        room
    }

    /// The first bytes of the next term as a number, the term, and its live postings in place of the lists, slot by slot: none if all of
    /// them are dead. They are lent, and none is unpacked. After an Err nothing is known of what is still to come.
    pub fn next_lists(
        &mut self,
        lists: &mut Vec<Postings<'a>>,
    ) -> Result<Option<(u64, &'a [u8])>, AllocError>
        requires { AllByRecursion IsPart self.old }
        ensures head { IfOk result (λ found. IfSome found (λ next. next.0 ≡ leading 8 0 next.1.now)) }
        ensures next { IfOk result (λ found. IfSome found (λ next. IsNext self.old next.1.now (concat lists.new.items))) }
        ensures past { IfOk result (λ found. IfSome found (λ next. self.new ≡ map (past next.1.now) self.old)) }
        ensures parts { IfOk result (λ found. AllByRecursion IsPart self.new) }
        ensures none { IfOk result (λ found. IsNone found → (term : List ℕ) → postings_left self.old term ≡ []) }
    {
        if let Some(least) = self.least() {
            self.take_lists(&least, lists)?;
            return Ok(Some((least.first.head, least.first.term)));
        }
        Ok(None)
    }

    fn least(&self) -> Option<Least<'a>>
        ensures { IsLeastOf self.now result }
    {
        least_of(self.parts.as_slice())
    }

    fn take(&mut self, first: &First<'_>, addresses: &mut Vec<u64>) -> Result<(), AllocError>
        requires { IsFirst first.now }
        ensures addresses { OnOk result (addresses.new.items
            ≡ flat_map (λ part. alive part.mask (head_postings part.left first.now.term.now)) self.old) }
        ensures past { OnOk result (self.new ≡ map (past first.now.term.now) self.old) }
    {
        addresses.clear();
        take_term(self.parts.as_mut_slice(), first, addresses)?;
        Ok(())
    }

    fn take_lists(
        &mut self,
        least: &Least<'_>,
        lists: &mut Vec<Postings<'a>>,
    ) -> Result<(), AllocError>
        requires { IsLeastAt self.old least.now }
        ensures lists { OnOk result (concat lists.new.items
            ≡ flat_map (λ part. alive part.mask (head_postings part.left least.now.first.term.now)) self.old) }
        ensures past { OnOk result (self.new ≡ map (past least.now.first.term.now) self.old) }
    {
        lists.clear();
        take_term_lists(self.parts.as_mut_slice(), least, lists)?;
        Ok(())
    }
}

/// Moves past the term in each part, and appends its live postings to the addresses.
fn take_term(
    parts: &mut [Part<'_>],
    first: &First<'_>,
    addresses: &mut Vec<u64>,
) -> Result<(), AllocError>
    requires { IsFirst first.now }
    ensures addresses { OnOk result (addresses.new.items ≡ addresses.old.items ++
        flat_map (λ part. alive part.mask (head_postings part.left first.now.term.now)) parts.old) }
    ensures past { OnOk result (parts.new ≡ map (past first.now.term.now) parts.old) }
{
    for part in parts.iter_mut() {
        part.take(first, addresses)?;
    }
    Ok(())
}

/// Moves past the least term in each part that has it, and appends its live postings to the lists.
fn take_term_lists<'a>(
    parts: &mut [Part<'a>],
    least: &Least<'_>,
    lists: &mut Vec<Postings<'a>>,
) -> Result<(), AllocError>
    requires { IsLeastAt parts.old least.now }
    ensures lists { OnOk result (concat lists.new.items ≡ concat lists.old.items ++
        flat_map (λ part. alive part.mask (head_postings part.left least.now.first.term.now)) parts.old) }
    ensures past { OnOk result (parts.new ≡ map (past least.now.first.term.now) parts.old) }
{
    parts[least.place].take_first(lists)?;
    // most terms are those of one part
    if least.others == 0 {
        return Ok(());
    }
    for place in least.place + 1..parts.len() {
        parts[place].take_list(&least.first, lists)?;
    }
    Ok(())
}
