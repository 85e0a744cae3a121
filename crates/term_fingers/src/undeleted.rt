ghost use Rattle.std.specs.Prelude.{◌≡◌, ◌≤◌, IfSome, IsTrue, length, take};
ghost use Rattle.gcl_model.specs.Limits.{most_slots};
ghost use Rattle.term_fingers.specs.Lists.{HasNoDead, is_undeleted, list_of, undeleted_of};

use crate::naming::Naming;
use live_version::{Slot, Version};
use posting_code::Postings;
use std::marker::PhantomData;

/// The slots of the version, and which of them have no dead range: what is nearest in one of these is nearest in the version.
#[derive(Drop)]
pub(crate) struct UndeletedSlots<'a, J: Naming> {
    version: &'a Version,
    undeleted: [bool; 32],
    of: PhantomData<J>,
    ghost known: { take (length J.version.slots) undeleted ≡ undeleted_of J.version.slots },
    ghost is: { version.now ≡ J.version },
}

impl<'a, J: Naming> UndeletedSlots<'a, J> {
    /// Asks each slot once.
    pub(crate) fn new(version: &'a Version) -> Self
        requires { version.now ≡ J.version }
    {
        // the number of slots is known to be small
        let _slots = version.slot_count();
        UndeletedSlots {
            version,
            undeleted: undeleted_slots(version.slots()),
            of: PhantomData,
        }
    }

    /// Whether the slot with this number is known to have no dead range.
    #[inline]
    pub(crate) fn is_undeleted(&self, number: usize) -> bool
        ensures { IsTrue result → HasNoDead J.version.slots number }
    {
        if number >= 32 {
            return false;
        }
        self.undeleted[number]
    }

    /// The list at a place of the slot with this number, if both exist.
    pub(crate) fn list(&self, slot: usize, place: usize) -> Option<SlotList<'_, J>>
        ensures slot { IfSome result (λ list. list.slot ≡ slot) }
        ensures place { IfSome result (λ list. list.place ≡ place) }
    {
        let shard = self.version.slots().get(slot)?.shard();
        if place >= shard.term_count() {
            return None;
        }
        Some(SlotList::new(slot, place, shard.postings(place)))
    }

    /// Whether something was found in the lists of the slot with this number, and is in the version because nothing of the slot is dead.
    pub(crate) fn believes(&self, number: usize, found: bool) -> bool
        ensures found { IsTrue result → IsTrue found }
        ensures undeleted { IsTrue result → HasNoDead J.version.slots number }
    {
        found && self.is_undeleted(number)
    }
}

/// A list of the version, by the number of its slot and by its place there.
#[derive(Drop)]
pub(crate) struct SlotList<'b, J: Naming> {
    pub(crate) slot: usize,
    pub(crate) place: usize,
    pub(crate) postings: Postings<'b>,
    of: PhantomData<J>,
    ghost is: { postings ≡ list_of J.version.slots slot place },
}

impl<'b, J: Naming> SlotList<'b, J> {
    fn new(slot: usize, place: usize, postings: Postings<'b>) -> Self
        requires { postings ≡ list_of J.version.slots slot place }
        ensures slot { result.slot ≡ slot }
        ensures place { result.place ≡ place }
    {
        SlotList {
            slot,
            place,
            postings,
            of: PhantomData,
        }
    }
}

/// Whether each slot has no dead range, by the slot's number.
fn undeleted_slots(slots: &[Slot]) -> [bool; 32]
    requires { length slots.now ≤ most_slots }
    ensures { take (length slots.now) result ≡ undeleted_of slots.now }
{
    let mut undeleted = [false; 32];
    for (number, slot) in slots.iter().enumerate() {
        undeleted[number] = is_undeleted(slot);
    }
    undeleted
}

/// Whether a slot has no dead range.
fn is_undeleted(slot: &Slot) -> bool
    ensures { result ≡ is_undeleted slot.now }
{
    slot.mask().range_count() == 0
}
