ghost use Rattle.std.specs.Prelude.{◌≡◌, ◌≤◌, length, OnOk, OnErr};
ghost use Rattle.posting_code.specs.Moved.{moved_heads};
ghost use Rattle.posting_code.specs.Packed.{head_at, heads_behind};

use crate::moving::move_address;
use std::alloc::AllocError;

/// Where a block begins: its first member, and the place of the packed differences after it.
#[derive(Clone, Copy, Debug)]
pub(crate) struct Head {
    pub(crate) first: u64,
    pub(crate) at: usize,
}

/// The head of a block in a list that begins with `first`.
#[inline(always)]
pub(crate) fn head_of(first: u64, heads: &[Head], block: usize) -> Head
    requires { block ≤ length heads.now }
    ensures { result ≡ head_at first heads.now block }
{
    if block == 0 {
        return Head { first, at: 0 };
    }
    heads[block - 1]
}

/// Appends a head if the member after `count` others begins a block.
pub(crate) fn push_head(heads: &mut Vec<Head>, count: usize, head: Head) -> Result<(), AllocError>
    ensures ok { OnOk result (heads.new.items ≡ heads_behind count heads.old.items head) }
    ensures err { OnErr result (heads.new.items ≡ heads.old.items) }
{
    if count % 64 == 0 {
        heads.push(head)?;
    }
    Ok(())
}

/// Moves the first members of some blocks up. A head that belongs to no list may have any number, so none is tested.
pub(crate) fn move_heads(heads: &mut [Head], by: u64)
    ensures { heads.new ≡ moved_heads by heads.old }
{
    for head in heads.iter_mut() {
        head.first = move_address(head.first, by);
    }
}
