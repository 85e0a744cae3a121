ghost use Rattle.std.specs.Prelude.{◌≡◌, ◌+◌, ◌-◌, ◌/◌, ◌^◌, ◌<◌, ◌≤◌, ◌∷◌, [], length, IfOk, OnOk, OnErr};
ghost use Rattle.posting_code.specs.Moved.{moved_address, moved_heads};
ghost use Rattle.posting_code.specs.Packed.{heads_behind};
ghost use Rattle.posting_code.specs.Blocks.{count_in, first_in, heads_in, AreBlocks};

use crate::head::{Head, move_heads, push_head};
use crate::moving::move_address;
use crate::posting_list::BLOCK;
use std::alloc::{AllocError, Global};

/// The number of members, the first member, and where the blocks begin.
// Most lists have one block. They keep no heads, and take no memory for them.
pub(crate) enum Blocks {
    One { count: u8, first: u64 },
    Many(Box<ManyBlocks>),
}

/// The same if there are two blocks or more.
#[derive(Drop)]
pub(crate) struct ManyBlocks {
    count: usize,
    first: u64,
    // of the blocks after the first
    heads: Vec<Head>,
}

// Written out, so that the code that drops a list makes one call and does not distinguish the two cases.
impl Drop for Blocks {
    fn drop(self) {
        match self {
            Blocks::One { count: _, first: _ } => (),
            Blocks::Many(many) => drop(many),
        }
    }
}

impl Blocks {
    /// The blocks of `count` members.
    pub(crate) fn of(
        alloc: Global,
        count: usize,
        first: u64,
        heads: Vec<Head>,
    ) -> Result<Blocks, AllocError>
        requires { length heads.items ≡ (count + 63) / 64 - 1 }
        ensures { IfOk result (λ blocks. AreBlocks blocks count first heads.items) }
    {
        if heads.is_empty() {
            return Ok(Blocks::One {
                count: count as u8,
                first,
            });
        }
        let many = ManyBlocks {
            count,
            first,
            heads,
        };
        let many = Box::new(alloc, many)?;
        Ok(Blocks::Many(many))
    }

    /// The number of members.
    #[inline(always)]
    pub(crate) fn count(&self) -> usize
        ensures { result ≡ count_in self.now }
    {
        match self {
            Blocks::One { count, .. } => *count as usize,
            Blocks::Many(many) => many.count,
        }
    }

    /// The first member, or an arbitrary number if there is none.
    #[inline(always)]
    pub(crate) fn first(&self) -> u64
        ensures { result ≡ first_in self.now }
    {
        match self {
            Blocks::One { first, .. } => *first,
            Blocks::Many(many) => many.first,
        }
    }

    /// The heads of the blocks after the first.
    #[inline(always)]
    pub(crate) fn heads(&self) -> &[Head]
        ensures { result.now ≡ heads_in self.now }
    {
        match self {
            Blocks::One { .. } => &[],
            Blocks::Many(many) => &many.heads,
        }
    }

    /// Counts one more member, which has this head if it begins a block.
    pub(crate) fn push(&mut self, alloc: Global, head: Head) -> Result<(), AllocError>
        requires some { 0 < count_in self.old }
        requires marked { length (heads_in self.old) ≡ (count_in self.old + 63) / 64 - 1 }
        requires small { count_in self.old ≤ 2 ^ 56 }
        ensures ok { OnOk result (AreBlocks self.new (count_in self.old + 1) (first_in self.old)
            (heads_behind (count_in self.old) (heads_in self.old) head)) }
        ensures err { OnErr result (AreBlocks self.new (count_in self.old) (first_in self.old) (heads_in self.old)) }
    {
        match self {
            Blocks::One { count, first } => {
                if *count < 64 {
                    *count += 1;
                    return Ok(());
                }
                let many = two_blocks(alloc, *first, head)?;
                *self = Blocks::Many(many);
                Ok(())
            }
            Blocks::Many(many) => many.push(head),
        }
    }

    /// Equal blocks.
    pub(crate) fn copy(&self, alloc: Global) -> Result<Blocks, AllocError>
        requires { length (heads_in self.now) ≡ (count_in self.now + 63) / 64 - 1 }
        ensures { IfOk result (λ blocks. AreBlocks blocks (count_in self.now) (first_in self.now) (heads_in self.now)) }
    {
        let heads = Vec::from_slice(alloc, self.heads())?;
        Blocks::of(alloc, self.count(), self.first(), heads)
    }

    /// Moves the first members of all blocks up.
    pub(crate) fn move_up(&mut self, by: u64)
        ensures { AreBlocks self.new (count_in self.old) (moved_address by (first_in self.old)) (moved_heads by (heads_in self.old)) }
    {
        match self {
            Blocks::One { first, .. } => *first = move_address(*first, by),
            Blocks::Many(many) => many.move_up(by),
        }
    }

    /// Removes all members, and keeps the memory of the heads.
    pub(crate) fn clear(&mut self)
        ensures { AreBlocks self.new 0 (first_in self.old) [] }
    {
        match self {
            Blocks::One { count, .. } => *count = 0,
            Blocks::Many(many) => many.clear(),
        }
    }
}

impl ManyBlocks {
    /// Counts one more member, which has this head if it begins a block.
    fn push(&mut self, head: Head) -> Result<(), AllocError>
        requires { self.old.count ≤ 2 ^ 56 }
        ensures count { OnOk result (self.new.count ≡ self.old.count + 1) }
        ensures first { self.new.first ≡ self.old.first }
        ensures heads { OnOk result (self.new.heads.items ≡ heads_behind self.old.count self.old.heads.items head) }
        ensures same_count { OnErr result (self.new.count ≡ self.old.count) }
        ensures same_heads { OnErr result (self.new.heads.items ≡ self.old.heads.items) }
    {
        push_head(&mut self.heads, self.count, head)?;
        self.count += 1;
        Ok(())
    }

    /// Moves the first members of all blocks up.
    fn move_up(&mut self, by: u64)
        ensures count { self.new.count ≡ self.old.count }
        ensures first { self.new.first ≡ moved_address by self.old.first }
        ensures heads { self.new.heads.items ≡ moved_heads by self.old.heads.items }
    {
        self.first = move_address(self.first, by);
        move_heads(&mut self.heads, by);
    }

    /// Removes all members, and keeps the memory of the heads.
    fn clear(&mut self)
        ensures count { self.new.count ≡ 0 }
        ensures first { self.new.first ≡ self.old.first }
        ensures heads { self.new.heads.items ≡ [] }
    {
        self.count = 0;
        self.heads.clear();
    }
}

/// A full block, and one member with this head after it.
fn two_blocks(alloc: Global, first: u64, head: Head) -> Result<Box<ManyBlocks>, AllocError>
    ensures count { IfOk result (λ many. many.value.count ≡ 65) }
    ensures first { IfOk result (λ many. many.value.first ≡ first) }
    ensures heads { IfOk result (λ many. many.value.heads.items ≡ head ∷ []) }
{
    let mut heads = Vec::new(alloc);
    heads.push(head)?;
    let many = ManyBlocks {
        count: BLOCK + 1,
        first,
        heads,
    };
    Ok(Box::new(alloc, many)?)
}
