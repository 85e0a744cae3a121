ghost use Rattle.std.specs.Prelude.{◌≡◌, ◌-◌, ◌^◌, ◌<◌, ◌≤◌, ◌++◌, ◌∷◌, [], length, IfOk, OnOk, OnErr};
ghost use Rattle.posting_code.specs.Numbers.{spelling};
ghost use Rattle.posting_code.specs.Packed.{last_of};
ghost use Rattle.posting_code.specs.Postings.{ArePostings};
ghost use Rattle.posting_code.specs.Taken.{front_of};

use crate::blocks::Blocks;
use crate::head::{Head, push_head};
use crate::posting_list::{PostingList, Postings};
use std::alloc::{AllocError, Global};
use std::marker::Model;

/// A list whose packed differences are in some bytes already. It is read member by member, and nothing is packed again.
#[derive(Drop)]
pub struct PackedMaker<'a> {
    // starting at the difference after the first member
    bytes: &'a [u8],
    // the part of them behind the last member
    rest: &'a [u8],
    first: u64,
    last: u64,
    count: usize,
    // of the blocks after the first
    heads: Vec<Head>,
}

impl<'a> Model for PackedMaker<'a> {
    ghost use Rattle.posting_code.specs.Packed.{kept};
    ghost use Rattle.posting_code.specs.Taken.{IsTaken, TakenList, front_of};

    ghost Value = { TakenList };

    ghost view = { λ m. record { list = kept m.count m.first (front_of m.bytes.now m.rest.now); rest = m.rest.now } };

    ghost invariant = { λ m. IsTaken m.last m.count m.first m.bytes.now m.rest.now m.heads.items };
}

impl<'a> PackedMaker<'a> {
    /// The first member alone, and the bytes behind it. It takes no memory.
    pub fn new(alloc: Global, first: u64, bytes: &'a [u8]) -> Self
        requires { first < 2 ^ 56 }
        ensures list { result.list ≡ first ∷ [] }
        ensures rest { result.rest ≡ bytes.now }
    {
        PackedMaker {
            bytes,
            rest: bytes,
            first,
            last: first,
            count: 1,
            heads: Vec::new(alloc),
        }
    }

    /// Takes the next member, whose packed difference comes right before this rest.
    #[inline(always)]
    pub fn pass(&mut self, address: u64, rest: &'a [u8]) -> Result<(), AllocError>
        requires rising { ArePostings (self.old.list ++ address ∷ []) }
        requires spelled { self.old.rest ≡ spelling (address - last_of self.old.list) ++ rest.now }
        ensures list { OnOk result (self.new.list ≡ self.old.list ++ address ∷ []) }
        ensures rest { OnOk result (self.new.rest ≡ rest.now) }
        ensures err { OnErr result (self.new ≡ self.old) }
    {
        let at = self.bytes.len() - rest.len();
        let head = Head { first: address, at };
        push_head(&mut self.heads, self.count, head)?;
        self.rest = rest;
        self.last = address;
        self.count += 1;
        Ok(())
    }

    /// The bytes behind the last member.
    #[inline(always)]
    pub fn rest(&self) -> &'a [u8]
        ensures { result.now ≡ self.now.rest }
    {
        self.rest
    }

    /// The number of members so far.
    pub fn len(&self) -> usize
        ensures value { result ≡ length self.now.list }
        ensures rising { ArePostings self.now.list }
    {
        self.count
    }

    /// The list, if it is one block. It is lent as it lies in the bytes.
    pub fn as_block(&self) -> Postings<'a>
        requires { length self.now.list ≤ 64 }
        ensures { result ≡ self.now.list }
    {
        let packed = before_rest(self.bytes, self.rest);
        Postings::of_block(packed, self.first, self.last, self.count)
    }

    /// The list in memory of its own, no more than it needs.
    pub fn finish(self, alloc: Global) -> Result<PostingList, AllocError>
        ensures { IfOk result (λ list. list ≡ self.entry.list) }
    {
        let packed = Vec::from_slice(alloc, before_rest(self.bytes, self.rest))?;
        let mut heads = self.heads;
        heads.shrink_to_fit();
        let blocks = Blocks::of(alloc, self.count, self.first, heads)?;
        Ok(PostingList::of_parts(packed, self.last, blocks))
    }
}

/// The bytes before the rest of them.
fn before_rest<'a>(bytes: &'a [u8], rest: &[u8]) -> &'a [u8]
    requires { length rest.now ≤ length bytes.now }
    ensures { result.now ≡ front_of bytes.now rest.now }
{
    let (front, _) = bytes.split_at(bytes.len() - rest.len());
    front
}
