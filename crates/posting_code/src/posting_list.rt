ghost use Rattle.std.specs.Prelude.{◌≡◌, ◌+◌, ◌*◌, ◌^◌, ◌<◌, ◌≤◌, ◌++◌, ◌∷◌, [], length, get_or};
ghost use Rattle.std.specs.Prelude.{slice_index, take, drop, reverse, find, nat_lt, nat_le, IfOk, OnOk, OnErr};
ghost use Rattle.posting_code.specs.Postings.{ArePostings, RiseWithin, blocks_of, block_of};
ghost use Rattle.posting_code.specs.Packed.{IsHead, IsKeptTo, kept, last_of, packed_of};
ghost use Rattle.posting_code.specs.Cuts.{IsCut};
ghost use Rattle.posting_code.specs.Blocks.{count_in, first_in, heads_in};
ghost use Rattle.posting_code.specs.Moved.{moved_below_end};

use crate::blocks::Blocks;
use crate::head::{Head, head_of};
use crate::moving::{can_move, move_address};
use crate::number::{NUMBER_END, put_number};
use crate::unpack::{Cut, around_in, cut_before, member_before, unpack, walk};
use std::alloc::{AllocError, Global};
use std::marker::Model;

/// Addresses are below this.
pub const ADDRESS_END: u64 = NUMBER_END;

/// How many members a block has at most.
pub const BLOCK: usize = 64;

/// The addresses of one term.
// The first address of the whole list is stored separately, so that a list of one needs no further memory. The differences
// of all members are in one row, so that a list grows at its end, and a block is read starting at its head. The last member
// is kept too: an added member is stored as the difference from it.
#[derive(Drop)]
pub struct PostingList {
    packed: Vec<u8>,
    // 0 if there is no member
    last: u64,
    blocks: Blocks,
}

impl Model for PostingList {
    ghost use Rattle.std.specs.Prelude.{List, ℕ};
    ghost use Rattle.posting_code.specs.Packed.{kept, IsKeptTo};
    ghost use Rattle.posting_code.specs.Blocks.{count_in, first_in, heads_in};

    ghost Value = { List ℕ };

    ghost view = { λ l. kept (count_in l.blocks) (first_in l.blocks) l.packed.items };

    ghost invariant = { λ l. IsKeptTo l.last (count_in l.blocks) (first_in l.blocks) l.packed.items (heads_in l.blocks) };
}

impl PostingList {
    /// No addresses. It takes no memory.
    pub(crate) fn new(alloc: Global) -> Self
        ensures { result ≡ [] }
    {
        PostingList {
            packed: Vec::new(alloc),
            last: 0,
            blocks: Blocks::One { count: 0, first: 0 },
        }
    }

    /// A list of all its parts.
    pub(crate) fn of_parts(packed: Vec<u8>, last: u64, blocks: Blocks) -> Self
        requires { IsKeptTo last (count_in blocks) (first_in blocks) packed.items (heads_in blocks) }
        ensures { result ≡ kept (count_in blocks) (first_in blocks) packed.items }
    {
        PostingList {
            packed,
            last,
            blocks,
        }
    }

    /// Appends an address.
    pub(crate) fn push_behind(&mut self, address: u64) -> Result<(), AllocError>
        requires { ArePostings (self.old ++ address ∷ []) }
        ensures ok { OnOk result (self.new ≡ self.old ++ address ∷ []) }
        ensures err { OnErr result (self.new ≡ self.old) }
    {
        if self.blocks.count() == 0 {
            self.blocks = Blocks::One {
                count: 1,
                first: address,
            };
            self.last = address;
            return Ok(());
        }
        let alloc = self.alloc();
        let before = self.packed.len();
        put_number(&mut self.packed, address - self.last)?;
        let at = self.packed.len();
        let head = Head { first: address, at };
        match self.blocks.push(alloc, head) {
            Ok(()) => {
                self.last = address;
                Ok(())
            }
            Err(fault) => {
                self.packed.truncate(before);
                Err(fault)
            }
        }
    }

    /// Where its memory comes from.
    pub(crate) fn alloc(&self) -> Global {
        *self.packed.allocator()
    }

    /// An equal list.
    pub(crate) fn copy(&self) -> Result<PostingList, AllocError>
        ensures { IfOk result (λ list. list ≡ self.now) }
    {
        let alloc = self.alloc();
        Ok(PostingList {
            packed: Vec::from_slice(alloc, &self.packed)?,
            last: self.last,
            blocks: self.blocks.copy(alloc)?,
        })
    }

    /// Removes all members, and keeps their memory.
    pub(crate) fn clear(&mut self)
        ensures { self.new ≡ [] }
    {
        self.packed.clear();
        self.last = 0;
        self.blocks.clear();
    }

    /// Moves all members up without repacking them. If the last one would pass the end, none is left.
    pub(crate) fn move_up(&mut self, by: u64)
        ensures { self.new ≡ moved_below_end by self.old }
    {
        if !can_move(self.blocks.count(), self.last, by) {
            self.clear();
            return;
        }
        self.last = move_address(self.last, by);
        self.blocks.move_up(by);
    }

    /// The number of addresses.
    pub fn len(&self) -> usize
        ensures value { result ≡ length self.now }
        ensures rising { ArePostings self.now }
    {
        self.blocks.count()
    }

    /// The same list, lent to be read.
    #[inline(always)]
    pub fn as_postings(&self) -> Postings<'_>
        ensures { result ≡ self.now }
    {
        Postings {
            packed: &self.packed,
            heads: self.blocks.heads(),
            first: self.blocks.first(),
            last: self.last,
            count: self.blocks.count(),
        }
    }
}

/// The addresses of one term, lent to be read.
// Readers see where the parts are, and not who owns them.
#[derive(Drop)]
pub struct Postings<'a> {
    packed: &'a [u8],
    // of the blocks after the first
    heads: &'a [Head],
    first: u64,
    // 0 if there is no member
    last: u64,
    count: usize,
}

impl<'a> Model for Postings<'a> {
    ghost use Rattle.std.specs.Prelude.{List, ℕ};
    ghost use Rattle.posting_code.specs.Packed.{kept, IsKeptTo};

    ghost Value = { List ℕ };

    ghost view = { λ p. kept p.count p.first p.packed.now };

    ghost invariant = { λ p. IsKeptTo p.last p.count p.first p.packed.now p.heads.now };
}

impl<'a> Postings<'a> {
    /// A list of one block, by its packed differences, its ends and its length.
    pub fn of_block(packed: &'a [u8], first: u64, last: u64, count: usize) -> Self
        requires { IsKeptTo last count first packed.now [] }
        ensures { result ≡ kept count first packed.now }
    {
        Postings {
            packed,
            heads: &[],
            first,
            last,
            count,
        }
    }

    /// A list of all its parts.
    pub(crate) fn of_parts(
        packed: &'a [u8],
        heads: &'a [Head],
        first: u64,
        last: u64,
        count: usize,
    ) -> Self
        requires { IsKeptTo last count first packed.now heads.now }
        ensures { result ≡ kept count first packed.now }
    {
        Postings {
            packed,
            heads,
            first,
            last,
            count,
        }
    }

    /// How many bytes its packed differences take.
    pub fn packed_len(&self) -> usize
        ensures { result ≡ length (packed_of self.now) }
    {
        self.packed.len()
    }

    /// The packed differences after the first member.
    pub(crate) fn packed(&self) -> &'a [u8]
        ensures { result.now ≡ packed_of self.now }
    {
        self.packed
    }

    /// The first member, or an arbitrary number if there is none.
    pub fn first(&self) -> u64
        ensures { 0 < length self.now → result ≡ get_or self.now 0 0 }
    {
        self.first
    }

    /// The last member, or 0 if there is none.
    pub fn last(&self) -> u64
        ensures { result ≡ last_of self.now }
    {
        self.last
    }

    /// Where a member is.
    pub(crate) fn head(&self, place: usize) -> Head
        requires { place < length self.now }
        ensures { IsHead self.now (packed_of self.now) place result }
    {
        let head = head_of(self.first, self.heads, place / BLOCK);
        walk(self.packed, head, place % BLOCK)
    }

    /// The number of addresses.
    pub fn len(&self) -> usize
        ensures value { result ≡ length self.now }
        ensures rising { ArePostings self.now }
    {
        self.count
    }

    /// The number of blocks. None of them is empty, so an empty list has none.
    pub fn block_count(&self) -> usize
        ensures value { result ≡ blocks_of self.now }
        ensures rising { ArePostings self.now }
    {
        self.count.div_ceil(BLOCK)
    }

    /// The first address of a block.
    pub fn block_first(&self, block: usize) -> u64
        requires { block < blocks_of self.now }
        ensures value { result ≡ slice_index self.now (64 * block) }
        ensures rising { ArePostings self.now }
    {
        head_of(self.first, self.heads, block).first
    }

    /// Writes the members of a block to the front of `into`, and returns their number. It says nothing of the rest of `into`.
    pub fn read_block(&self, block: usize, into: &mut [u64; 64]) -> usize
        requires { block < blocks_of self.now }
        ensures count { result ≡ length (block_of self.now block) }
        ensures members { take result into.new ≡ block_of self.now block }
        ensures long { length into.new ≡ 64 }
        ensures rising { ArePostings self.now }
    {
        let count = BLOCK.min(self.count - BLOCK * block);
        let head = head_of(self.first, self.heads, block);
        unpack(self.packed, head.first, head.at, &mut into[..count]);
        count
    }

    /// A block by itself, lent as it is packed.
    pub fn block(&self, block: usize) -> Postings<'a>
        requires { block < blocks_of self.now }
        ensures value { result ≡ block_of self.now block }
        ensures rising { ArePostings self.now }
    {
        let head = head_of(self.first, self.heads, block);
        let count = self.count - BLOCK * block;
        // the last block ends with the list
        if count <= BLOCK {
            return Postings::of_block(&self.packed[head.at..], head.first, self.last, count);
        }
        let next = head_of(self.first, self.heads, block + 1);
        let end = member_before(self.packed, head, next);
        Postings::of_block(&self.packed[head.at..end.at], head.first, end.first, BLOCK)
    }

    /// The members of a list of one block below `k`, and those at or after `k`. Both are lent as they are packed.
    pub fn split(&self, k: u64) -> (Postings<'a>, Postings<'a>)
        requires { length self.now ≤ 64 }
        ensures whole { self.now ≡ result.0 ++ result.1 }
        ensures below { RiseWithin 0 k result.0 }
        ensures from { RiseWithin k (2 ^ 56) result.1 }
    {
        if self.count == 0 || k <= self.first {
            return (Postings::none(), self.whole());
        }
        // most often all are below
        if self.last < k {
            return (self.whole(), Postings::none());
        }
        let first = Head {
            first: self.first,
            at: 0,
        };
        match cut_before(self.packed, first, self.count - 1, k) {
            Some(cut) => self.cut_at(cut),
            None => (self.whole(), Postings::none()),
        }
    }

    /// The members of a list of one block up to a cut, and those after it.
    fn cut_at(&self, cut: Cut) -> (Postings<'a>, Postings<'a>)
        requires few { length self.now ≤ 64 }
        requires cut { IsCut self.now (packed_of self.now) cut }
        ensures before { result.0 ≡ take (cut.steps + 1) self.now }
        ensures behind { result.1 ≡ drop (cut.steps + 1) self.now }
    {
        let count = cut.steps + 1;
        let before = Postings::of_block(
            &self.packed[..cut.before.at],
            self.first,
            cut.before.first,
            count,
        );
        let behind = Postings::of_block(
            &self.packed[cut.behind.at..],
            cut.behind.first,
            self.last,
            self.count - count,
        );
        (before, behind)
    }

    /// No members.
    fn none() -> Postings<'a>
        ensures { result ≡ [] }
    {
        Postings::of_block(&[], 0, 0, 0)
    }

    /// All members of a list of one block.
    fn whole(&self) -> Postings<'a>
        requires { length self.now ≤ 64 }
        ensures { result ≡ self.now }
    {
        Postings::of_block(self.packed, self.first, self.last, self.count)
    }

    /// The greatest member of a block before `k`, and the least at or after `k`. It reads no further than the second.
    pub fn around(&self, block: usize, k: u64) -> (Option<u64>, Option<u64>)
        requires { block < blocks_of self.now }
        ensures below { result.0 ≡ find (λ p. nat_lt p k) (reverse (block_of self.now block)) }
        ensures from { result.1 ≡ find (λ p. nat_le k p) (block_of self.now block) }
        ensures rising { ArePostings self.now }
    {
        let behind = BLOCK.min(self.count - BLOCK * block) - 1;
        let head = head_of(self.first, self.heads, block);
        around_in(self.packed, head.first, head.at, behind, k)
    }
}
