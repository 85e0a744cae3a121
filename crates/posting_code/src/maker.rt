ghost use Rattle.std.specs.Prelude.{◌≡◌, ◌<◌, ◌++◌, ◌∷◌, [], length, OnOk, OnErr, IfOk};
ghost use Rattle.posting_code.specs.Postings.{ArePostings};

use crate::posting_list::{BLOCK, PostingList, Postings};
use std::alloc::{AllocError, Global};
use std::marker::Model;
use std::mem;

/// A list that grows address by address.
#[derive(Drop)]
pub struct PostingMaker {
    list: PostingList,
}

impl Model for PostingMaker {
    ghost use Rattle.std.specs.Prelude.{List, ℕ};

    ghost Value = { List ℕ };

    ghost view = { λ m. m.list };
}

impl PostingMaker {
    /// No addresses yet. It takes no memory.
    pub fn new(alloc: Global) -> Self
        ensures { result ≡ [] }
    {
        PostingMaker {
            list: PostingList::new(alloc),
        }
    }

    /// Appends an address.
    pub fn push(&mut self, address: u64) -> Result<(), AllocError>
        requires { ArePostings (self.old ++ address ∷ []) }
        ensures ok { OnOk result (self.new ≡ self.old ++ address ∷ []) }
        ensures err { OnErr result (self.new ≡ self.old) }
    {
        self.list.push_behind(address)
    }

    /// The number of addresses so far.
    pub fn len(&self) -> usize
        ensures { result ≡ length self.now }
    {
        self.list.len()
    }

    /// The list of the addresses so far, lent to be read.
    pub fn as_postings(&self) -> Postings<'_>
        ensures { result ≡ self.now }
    {
        self.list.as_postings()
    }

    /// Removes all addresses. Much of the memory is kept for later ones.
    pub fn clear(&mut self)
        ensures { self.new ≡ [] }
    {
        self.list.clear();
    }

    /// The list of the addresses so far, in no more memory than it needs.
    pub fn copy(&self) -> Result<PostingList, AllocError>
        ensures { IfOk result (λ list. list ≡ self.now) }
    {
        self.list.copy()
    }

    /// Takes the list of the addresses so far: none are left here, even after an Err.
    // A short list is copied, so that its memory is there for later addresses. A longer one is handed over.
    pub fn take(&mut self) -> Result<PostingList, AllocError>
        ensures value { IfOk result (λ list. list ≡ self.old) }
        ensures empty { self.new ≡ [] }
    {
        if self.list.len() <= BLOCK {
            let copy = self.list.copy();
            self.clear();
            return copy;
        }
        let alloc = self.list.alloc();
        Ok(mem::replace(&mut self.list, PostingList::new(alloc)))
    }

    /// The same, of a maker that is no longer needed.
    pub fn finish(self) -> PostingList
        ensures { result ≡ self }
    {
        self.list
    }
}

/// The list of exactly these addresses.
pub fn encode(alloc: Global, addresses: &[u64]) -> Result<PostingList, AllocError>
    requires { ArePostings addresses.now }
    ensures { IfOk result (λ list. list ≡ addresses.now) }
{
    let mut maker = PostingMaker::new(alloc);
    for address in addresses {
        maker.push(*address)?;
    }
    Ok(maker.finish())
}
