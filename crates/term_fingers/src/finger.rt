ghost use Rattle.std.specs.Prelude.{◌≡◌, ◌+◌, ◌*◌, ◌-◌, ◌<◌, ◌≤◌, Some, length, slice_index, slice_get, take, IfSome, IsTrue};
ghost use Rattle.index_shard.specs.Searched.{nearest};
ghost use Rattle.posting_code.specs.Postings.{ArePostings, block_of, blocks_of};
ghost use Rattle.posting_access.specs.Search.{least_from, greatest_to};
ghost use Rattle.live_version.specs.Contents.{IsVersion};
ghost use Rattle.term_fingers.specs.Lists.{IsAt, IsAtHand, LackPairs, TellsNearest, list_of};

use crate::gallop::border_near;
use crate::members::{greatest_in, least_in, nearest_in, reach_around};
use crate::naming::Naming;
use crate::pairs::earliest_pair_in;
use crate::undeleted::SlotList;
use gcl_model::{Direction, Pair};
use posting_access::BlocksUpTo;
use posting_code::{BLOCK, Postings};
use std::marker::PhantomData;

/// Where a term was last looked for: one block of one list, its members if they were read, and a place among them.
// The list is known from the number of its slot and from its place there.
#[derive(Drop)]
pub(crate) struct Finger<J: Naming> {
    slot: usize,
    place: usize,
    block: usize,
    count: usize,
    members: [u64; 64],
    at: usize,
    of: PhantomData<J>,
    ghost few: { count ≤ 64 },
    ghost is: { 0 < count → take count members ≡ block_of (list_of J.version.slots slot place) block },
}

impl<J: Naming> Finger<J> {
    /// On no list.
    pub(crate) fn new() -> Self {
        Finger {
            slot: 0,
            place: 0,
            block: 0,
            count: 0,
            members: [0; BLOCK],
            at: 0,
            of: PhantomData,
        }
    }

    pub(crate) fn slot(&self) -> usize
        ensures { result ≡ self.now.slot }
    {
        self.slot
    }

    pub(crate) fn place(&self) -> usize
        ensures { result ≡ self.now.place }
    {
        self.place
    }

    /// An address at or after `k` before which no member of this finger's list has one of the other finger's right after it, and whether
    /// the member there does, as far as the blocks that both hold show it. Both fingers move on to there.
    pub(crate) fn earliest_pair(&mut self, other: &mut Finger<J>, k: u64) -> Pair
        requires { IsVersion J.version }
        ensures from { k ≤ result.at }
        ensures none { LackPairs (list_of J.version.slots self.old.slot self.old.place)
            (list_of J.version.slots other.old.slot other.old.place) k result.at }
        ensures found { IsTrue result.found → IsAt (list_of J.version.slots self.old.slot self.old.place) result.at ×
            IsAt (list_of J.version.slots other.old.slot other.old.place) (result.at + 1) }
    {
        let unknown = Pair {
            at: k,
            found: false,
        };
        let first = &self.members[..self.count];
        let second = &other.members[..other.count];
        if !reach_around(first, k) || !reach_around(second, k.saturating_add(1)) {
            return unknown;
        }
        let (pair, at, behind) = earliest_pair_in(first, second, (self.at, other.at), k);
        if pair.at < k {
            return unknown;
        }
        self.at = at;
        other.at = behind;
        pair
    }

    /// The address that is nearest to `k` on one side, in this finger's list, if `k` lies between the ends of the members that were read
    /// last.
    #[inline(always)]
    pub(crate) fn at_hand(&mut self, k: u64, direction: Direction) -> Option<u64>
        requires { IsVersion J.version }
        ensures answer { IfSome result (IsAtHand direction (list_of J.version.slots self.old.slot self.old.place) k) }
        ensures slot { self.new.slot ≡ self.old.slot }
        ensures place { self.new.place ≡ self.old.place }
    {
        let members = &self.members[..self.count];
        if !reach_around(members, k) {
            return None;
        }
        let (found, at) = nearest_in(members, self.at, k, direction);
        self.at = at;
        found
    }

    /// The address that is nearest to `k` on one side, in this list, if `k` lies between its ends.
    #[inline(never)]
    pub(crate) fn nearest_within(
        &mut self,
        list: &SlotList<'_, J>,
        k: u64,
        direction: Direction,
    ) -> Option<u64>
        ensures { IfSome result (IsAtHand direction (list_of J.version.slots list.now.slot list.now.place) k) }
    {
        let postings = &list.postings;
        if postings.len() == 0 || k < postings.first() || postings.last() < k {
            return None;
        }
        self.nearest(postings, list.slot, list.place, k, direction)
    }

    /// The address that is nearest to `k` on one side, in the list at a place of the slot with this number.
    pub(crate) fn nearest(
        &mut self,
        list: &Postings<'_>,
        slot: usize,
        place: usize,
        k: u64,
        direction: Direction,
    ) -> Option<u64>
        requires { list.now ≡ list_of J.version.slots slot place }
        ensures { result ≡ nearest direction list.now k }
    {
        match direction {
            Direction::Forward => self.least(list, slot, place, k),
            Direction::Backward => self.greatest(list, slot, place, k),
        }
    }

    /// The least address at or after `k`.
    #[inline]
    fn least(&mut self, list: &Postings<'_>, slot: usize, place: usize, k: u64) -> Option<u64>
        requires { list.now ≡ list_of J.version.slots slot place }
        ensures { result ≡ least_from list.now k }
    {
        if self.spans(list, slot, place, k) {
            let (found, at) = least_in(&self.members[..self.count], self.at, k);
            self.at = at;
            return found;
        }
        self.least_far(list, slot, place, k)
    }

    /// The same by the blocks' first addresses.
    #[inline(never)]
    fn least_far(&mut self, list: &Postings<'_>, slot: usize, place: usize, k: u64) -> Option<u64>
        requires { list.now ≡ list_of J.version.slots slot place }
        ensures { result ≡ least_from list.now k }
    {
        if let Some(address) = self.first_behind(list, slot, place, k) {
            return Some(address);
        }
        let near = blocks_up_to(list, self.block, k);
        if list.len() == 0 {
            return None;
        }
        match self.least_in_block(list, slot, place, near.saturating_sub(1), k) {
            Some(address) => Some(address),
            None => self.first_of(list, slot, place, near),
        }
    }

    /// The first address of the block after the one that was read last, if `k` lies between the two: it is the answer then. Most look-ups
    /// that leave a block move on to there.
    #[inline]
    fn first_behind(
        &mut self,
        list: &Postings<'_>,
        slot: usize,
        place: usize,
        k: u64,
    ) -> Option<u64>
        requires { list.now ≡ list_of J.version.slots slot place }
        ensures { IfSome result (λ p. Some p ≡ least_from list.now k) }
    {
        let next = self.block.checked_add(1)?;
        if !self.ends_before(slot, place, k)
            || next >= list.block_count()
            || list.block_first(next) <= k
        {
            return None;
        }
        self.first_of(list, slot, place, next)
    }

    /// Whether the members that were read last are of this list, and all before `k`.
    #[inline]
    fn ends_before(&self, slot: usize, place: usize, k: u64) -> bool
        ensures slot { IsTrue result → slot ≡ self.now.slot }
        ensures place { IsTrue result → place ≡ self.now.place }
        ensures count { IsTrue result → 0 < self.now.count }
        ensures some { IsTrue result → 0 < length (take self.now.count self.now.members) }
        ensures last { IsTrue result →
            slice_index (take self.now.count self.now.members) (length (take self.now.count self.now.members) - 1) < k }
    {
        let members = &self.members[..self.count];
        match members.last() {
            Some(last) => self.slot == slot && self.place == place && *last < k,
            None => false,
        }
    }

    /// The least address of a block at or after `k`.
    fn least_in_block(
        &mut self,
        list: &Postings<'_>,
        slot: usize,
        place: usize,
        block: usize,
        k: u64,
    ) -> Option<u64>
        requires list { list.now ≡ list_of J.version.slots slot place }
        requires block { block < blocks_of list.now }
        ensures { result ≡ least_from (block_of list.now block) k }
    {
        self.read(list, slot, place, block);
        let (found, at) = least_in(&self.members[..self.count], self.at, k);
        self.at = at;
        found
    }

    /// The first address of a block, if there is such a block.
    fn first_of(
        &mut self,
        list: &Postings<'_>,
        slot: usize,
        place: usize,
        block: usize,
    ) -> Option<u64>
        requires list { list.now ≡ list_of J.version.slots slot place }
        requires block { block ≤ blocks_of list.now }
        ensures { result ≡ slice_get list.now (64 * block) }
    {
        if block == list.block_count() {
            return None;
        }
        // the next look-up most often finds its answer here
        self.read(list, slot, place, block);
        Some(list.block_first(block))
    }

    /// The greatest address at or before `k`.
    #[inline]
    fn greatest(&mut self, list: &Postings<'_>, slot: usize, place: usize, k: u64) -> Option<u64>
        requires { list.now ≡ list_of J.version.slots slot place }
        ensures { result ≡ greatest_to list.now k }
    {
        if self.spans(list, slot, place, k) {
            let (found, behind) = greatest_in(&self.members[..self.count], self.at, k);
            self.at = behind;
            return found;
        }
        self.greatest_far(list, slot, place, k)
    }

    /// The same by the blocks' first addresses.
    #[inline(never)]
    fn greatest_far(
        &mut self,
        list: &Postings<'_>,
        slot: usize,
        place: usize,
        k: u64,
    ) -> Option<u64>
        requires { list.now ≡ list_of J.version.slots slot place }
        ensures { result ≡ greatest_to list.now k }
    {
        let near = blocks_up_to(list, self.block, k);
        let last = near.checked_sub(1)?;
        self.read(list, slot, place, last);
        let (found, behind) = greatest_in(&self.members[..self.count], self.at, k);
        self.at = behind;
        found
    }

    /// Whether `k` lies between the ends of the members that were read last, and they are of this list: then they have the answer, and
    /// no block is looked for.
    #[inline]
    fn spans(&self, list: &Postings<'_>, slot: usize, place: usize, k: u64) -> bool
        requires { list.now ≡ list_of J.version.slots slot place }
        ensures { IsTrue result → TellsNearest list.now (take self.now.count self.now.members) k }
    {
        // any call of the list ensures that it rises
        let _count = list.len();
        if self.slot != slot || self.place != place {
            return false;
        }
        reach_around(&self.members[..self.count], k)
    }

    /// Reads a block, unless it is the one that was read last.
    fn read(&mut self, list: &Postings<'_>, slot: usize, place: usize, block: usize)
        requires list { list.now ≡ list_of J.version.slots slot place }
        requires block { block < blocks_of list.now }
        ensures members { take self.new.count self.new.members ≡ block_of list.now block }
        ensures rising { ArePostings (block_of list.now block) }
    {
        // any call of the list ensures that it rises
        let _count = list.len();
        if self.count > 0 && self.slot == slot && self.place == place && self.block == block {
            return;
        }
        self.count = list.read_block(block, &mut self.members);
        self.slot = slot;
        self.place = place;
        self.block = block;
        self.at = 0;
    }
}

/// How many blocks begin at or before `k`: they are the first ones. The search starts at the block `hint`.
fn blocks_up_to(list: &Postings<'_>, hint: usize, k: u64) -> usize
    ensures within { result ≤ blocks_of list.now }
    ensures before { 0 < result → slice_index list.now (64 * (result - 1)) ≤ k }
    ensures after { result < blocks_of list.now → k < slice_index list.now (64 * result) }
    ensures rising { ArePostings list.now }
{
    border_near(&BlocksUpTo { list, k }, list.block_count(), hint)
}
