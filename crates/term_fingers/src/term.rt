ghost use Rattle.std.specs.Prelude.{◌≡◌, ◌+◌, ◌≤◌, Some, IfSome, IsTrue, true, false, length, slice_get, take};
ghost use Rattle.gcl_model.specs.Limits.{most_slots};
ghost use Rattle.gcl_model.specs.Texts.{any_pair, holds, places};
ghost use Rattle.index_shard.specs.Searched.{nearest};
ghost use Rattle.index_shard.specs.Tables.{place_of, postings_of};
ghost use Rattle.live_version.specs.Contents.{IsVersion, live_of};
ghost use Rattle.term_fingers.specs.Lists.{list_of, places_of, shard_at};

use crate::finger::Finger;
use crate::naming::Naming;
use crate::undeleted::{SlotList, UndeletedSlots};
use gcl_model::{Direction, Pair};
use index_shard::Shard;
use live_version::{Slot, Version};
use posting_code::Postings;
use std::cell::RefCell;

/// A term, its place in the index of each slot, and a finger on the postings that it was last looked for in.
#[derive(Drop)]
pub(crate) struct Term<'a, J: Naming> {
    bytes: &'a [u8],
    places: [Option<usize>; 32],
    pub(crate) finger: RefCell<Finger<J>>,
    ghost found: { take (length J.version.slots) places ≡ places_of bytes.now J.version.slots },
}

impl<'a, J: Naming> Term<'a, J> {
    /// Finds the term in each slot.
    pub(crate) fn new(version: &Version, bytes: &'a [u8]) -> Self
        requires { version.now ≡ J.version }
        ensures { result.bytes.now ≡ bytes.now }
    {
        // the number of slots is known to be small
        let _slots = version.slot_count();
        Term {
            bytes,
            places: places(version.slots(), bytes),
            finger: RefCell::new(Finger::new()),
        }
    }

    /// Whether its bytes are these.
    // A term is compared at each look-up, and most are short: one byte after the other is quicker than a call that compares many.
    #[inline(always)]
    pub(crate) fn has_bytes(&self, bytes: &[u8]) -> bool
        ensures { IsTrue result → self.now.bytes.now ≡ bytes.now }
    {
        if self.bytes.len() != bytes.len() {
            return false;
        }
        for i in 0..bytes.len() {
            if self.bytes[i] != bytes[i] {
                return false;
            }
        }
        true
    }

    /// The posting that is nearest to `k` on one side, in the index of the slot with this number.
    pub(crate) fn nearest(
        &self,
        number: usize,
        shard: &Shard,
        k: u64,
        direction: Direction,
    ) -> Option<u64>
        requires { shard_at J.version.slots number ≡ Some shard.now }
        ensures { result ≡ nearest direction (postings_of shard.now.table self.now.bytes.now) k }
    {
        let place = self.place(number, shard)?;
        let list = shard.postings(place);
        match self.finger.try_borrow_mut() {
            Ok(mut finger) => finger.nearest(&list, number, place, k, direction),
            // another look-up of the term is under way
            Err(_) => nearest_anew::<J>(&list, number, place, k, direction),
        }
    }

    /// The place of the term in the version that is nearest to `k` on one side, if the list that its finger is on reaches around `k` and
    /// nothing in the slot of that list is dead.
    #[inline(always)]
    pub(crate) fn at_hand(
        &self,
        undeleted: &UndeletedSlots<'a, J>,
        k: u64,
        direction: Direction,
    ) -> Option<u64>
        requires { IsVersion J.version }
        ensures { IfSome result (λ p. Some p ≡ nearest direction (places (live_of J.version.slots) self.now.bytes.now) k) }
    {
        // else another look-up of the term is under way
        let Ok(mut finger) = self.finger.try_borrow_mut() else {
            return None;
        };
        if let Some(p) = self.at_hand_in_block(undeleted, &mut finger, k, direction) {
            return Some(p);
        }
        self.at_hand_in_list(undeleted, &mut finger, k, direction)
    }

    /// The same if the block that its finger is on reaches around `k`.
    #[inline(always)]
    fn at_hand_in_block(
        &self,
        undeleted: &UndeletedSlots<'a, J>,
        finger: &mut Finger<J>,
        k: u64,
        direction: Direction,
    ) -> Option<u64>
        requires { IsVersion J.version }
        ensures { IfSome result (λ p. Some p ≡ nearest direction (places (live_of J.version.slots) self.now.bytes.now) k) }
    {
        let slot = finger.slot();
        if !undeleted.is_undeleted(slot) || !self.has_place(slot, finger.place()) {
            return None;
        }
        finger.at_hand(k, direction)
    }

    /// The same by another block.
    #[inline(never)]
    fn at_hand_in_list(
        &self,
        undeleted: &UndeletedSlots<'a, J>,
        finger: &mut Finger<J>,
        k: u64,
        direction: Direction,
    ) -> Option<u64>
        requires { IsVersion J.version }
        ensures { IfSome result (λ p. Some p ≡ nearest direction (places (live_of J.version.slots) self.now.bytes.now) k) }
    {
        let slot = finger.slot();
        if !undeleted.is_undeleted(slot) {
            return None;
        }
        let list = self.list(undeleted, slot)?;
        finger.nearest_within(&list, k, direction)
    }

    /// An address at or after `k` before which the other term nowhere occurs right after this one, and whether it does there, as far as
    /// their fingers show it.
    pub(crate) fn earliest_pair(
        &self,
        other: &Term<'a, J>,
        undeleted: &UndeletedSlots<'a, J>,
        k: u64,
    ) -> Pair
        requires { IsVersion J.version }
        ensures from { k ≤ result.at }
        ensures none { any_pair (live_of J.version.slots) self.now.bytes.now other.now.bytes.now k result.at ≡ false }
        ensures found { IsTrue result.found → (holds (live_of J.version.slots) self.now.bytes.now result.at ≡ true) ×
            (holds (live_of J.version.slots) other.now.bytes.now (result.at + 1) ≡ true) }
    {
        let unknown = Pair {
            at: k,
            found: false,
        };
        let Ok(mut finger) = self.finger.try_borrow_mut() else {
            return unknown;
        };
        // a term followed by itself gets no answer: its finger is borrowed already
        let Ok(mut behind) = other.finger.try_borrow_mut() else {
            return unknown;
        };
        self.earliest_pair_by(other, undeleted, &mut finger, &mut behind, k)
    }

    /// The same by a finger of each term, in the blocks that both are on, if these are of the lists of both terms in one slot. What is
    /// dead is in the lists, too, so a pair is believed only if nothing in the slot is.
    fn earliest_pair_by(
        &self,
        other: &Term<'a, J>,
        undeleted: &UndeletedSlots<'a, J>,
        finger: &mut Finger<J>,
        behind: &mut Finger<J>,
        k: u64,
    ) -> Pair
        requires { IsVersion J.version }
        ensures from { k ≤ result.at }
        ensures none { any_pair (live_of J.version.slots) self.now.bytes.now other.now.bytes.now k result.at ≡ false }
        ensures found { IsTrue result.found → (holds (live_of J.version.slots) self.now.bytes.now result.at ≡ true) ×
            (holds (live_of J.version.slots) other.now.bytes.now (result.at + 1) ≡ true) }
    {
        let slot = finger.slot();
        if behind.slot() != slot
            || !self.has_place(slot, finger.place())
            || !other.has_place(slot, behind.place())
        {
            return Pair {
                at: k,
                found: false,
            };
        }
        let pair = finger.earliest_pair(behind, k);
        Pair {
            at: pair.at,
            found: undeleted.believes(slot, pair.found),
        }
    }

    /// The postings of the term in the slot with this number, if it was found there.
    fn list<'b>(&self, undeleted: &'b UndeletedSlots<'a, J>, slot: usize) -> Option<SlotList<'b, J>>
        ensures slot { IfSome result (λ list. list.slot ≡ slot) }
        ensures place { IfSome result (λ list. slice_get self.now.places slot ≡ Some (Some list.place)) }
    {
        let place = (*self.places.get(slot)?)?;
        undeleted.list(slot, place)
    }

    /// Whether the term was found at this place in the index of the slot with this number.
    pub(crate) fn has_place(&self, number: usize, place: usize) -> bool
        ensures { IsTrue result → slice_get self.now.places number ≡ Some (Some place) }
    {
        if number >= 32 {
            return false;
        }
        match self.places[number] {
            Some(found) => found == place,
            None => false,
        }
    }

    /// The term's place in the index of a slot, if it is there.
    fn place(&self, number: usize, shard: &Shard) -> Option<usize>
        requires { shard_at J.version.slots number ≡ Some shard.now }
        ensures { result ≡ place_of shard.now.table self.now.bytes.now }
    {
        self.places[number]
    }
}

/// The address that is nearest to `k` on one side, in the list at a place of the slot with this number, by a finger of its own.
#[inline(never)]
fn nearest_anew<J: Naming>(
    list: &Postings<'_>,
    slot: usize,
    place: usize,
    k: u64,
    direction: Direction,
) -> Option<u64>
    requires { list.now ≡ list_of J.version.slots slot place }
    ensures { result ≡ nearest direction list.now k }
{
    let mut finger = Finger::<J>::new();
    finger.nearest(list, slot, place, k, direction)
}

/// The place of a term in the index of each slot, by the slot's number.
fn places(slots: &[Slot], bytes: &[u8]) -> [Option<usize>; 32]
    requires { length slots.now ≤ most_slots }
    ensures { take (length slots.now) result ≡ places_of bytes.now slots.now }
{
    let mut places = [None; 32];
    for (number, slot) in slots.iter().enumerate() {
        places[number] = slot.shard().place(bytes);
    }
    places
}
