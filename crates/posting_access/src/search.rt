ghost use Rattle.std.specs.Prelude.{◌≡◌, ◌+◌, ◌*◌, ◌-◌, ◌<◌, ◌≤◌, nat_lt, length, slice_index, slice_get};
ghost use Rattle.std.specs.List.{prefix_len};
ghost use Rattle.std.specs.Option.{option_to_list};
ghost use Rattle.posting_code.specs.Postings.{blocks_of, block_of, ArePostings};
ghost use Rattle.posting_access.specs.Search.{least_from, greatest_to, count_below, RisesByDigits};

use crate::halving::{Test, border};
use gcl_model::{Ledger, Steps};
use posting_code::{BLOCK, Postings};

/// The blocks of a list that begin at `k` or before.
#[derive(Drop)]
pub struct BlocksUpTo<'a> {
    pub list: &'a Postings<'a>,
    pub k: u64,
}

impl<'a> Test for BlocksUpTo<'a> {
    ghost use Rattle.std.specs.Prelude.{◌≡◌, ◌*◌, nat_le, slice_index};
    ghost use Rattle.posting_code.specs.Postings.{blocks_of};

    ghost places = { λ t. blocks_of t.list.now };

    ghost passes = { λ t i. nat_le (slice_index t.list.now (64 * i)) t.k };

    fn passes_at(&self, i: usize) -> bool {
        self.list.block_first(i) <= self.k
    }
}

/// The least address at or after `k`.
pub fn at_or_after<L: Ledger>(list: &Postings<'_>, k: u64, probes: &mut Steps<L>) -> Option<u64>
    ensures answer { result ≡ least_from list.now k }
    ensures probes { RisesByDigits (length list.now) probes.old probes.new }
{
    let near = blocks_up_to(list, k, probes);
    if list.len() == 0 {
        return None;
    }
    match least_in_block(list, near.saturating_sub(1), k) {
        Some(address) => Some(address),
        None => first_of_block(list, near, probes),
    }
}

/// The greatest address at or before `k`.
pub fn at_or_before<L: Ledger>(list: &Postings<'_>, k: u64, probes: &mut Steps<L>) -> Option<u64>
    ensures answer { result ≡ greatest_to list.now k }
    ensures probes { RisesByDigits (length list.now) probes.old probes.new }
{
    let near = blocks_up_to(list, k, probes);
    let last = near.checked_sub(1)?;
    list.around(last, k.saturating_add(1)).0
}

/// How many addresses are below `k`. Of `2, 5, 9` below 6 they are 2.
pub fn rank<L: Ledger>(list: &Postings<'_>, k: u64, probes: &mut Steps<L>) -> usize
    ensures value { result ≡ count_below list.now k }
    ensures probes { RisesByDigits (length list.now) probes.old probes.new }
{
    let near = blocks_up_to(list, k, probes);
    if near == 0 {
        return 0;
    }
    let last = near - 1;
    BLOCK * last + rank_in_block(list, last, k)
}

/// How many blocks begin at or before `k`: they are the first ones.
fn blocks_up_to<L: Ledger>(list: &Postings<'_>, k: u64, probes: &mut Steps<L>) -> usize
    ensures within { result ≤ blocks_of list.now }
    ensures before { 0 < result → slice_index list.now (64 * (result - 1)) ≤ k }
    ensures after { result < blocks_of list.now → k < slice_index list.now (64 * result) }
    ensures rising { ArePostings list.now }
    ensures probes { RisesByDigits (blocks_of list.now) probes.old probes.new }
{
    border(&BlocksUpTo { list, k }, 0, list.block_count(), probes)
}

/// The least address of a block at or after `k`.
fn least_in_block(list: &Postings<'_>, block: usize, k: u64) -> Option<u64>
    requires { block < blocks_of list.now }
    ensures { result ≡ least_from (block_of list.now block) k }
{
    list.around(block, k).1
}

/// The first address of a block, if there is such a block.
fn first_of_block<L: Ledger>(
    list: &Postings<'_>,
    block: usize,
    probes: &mut Steps<L>,
) -> Option<u64>
    requires { block ≤ blocks_of list.now }
    ensures answer { result ≡ slice_get list.now (64 * block) }
    ensures probe { probes.new ≡ probes.old + length (option_to_list result) }
{
    if block == list.block_count() {
        return None;
    }
    probes.tick();
    Some(list.block_first(block))
}

/// How many addresses of a block are below `k`.
fn rank_in_block(list: &Postings<'_>, block: usize, k: u64) -> usize
    requires { block < blocks_of list.now }
    ensures { result ≡ count_below (block_of list.now block) k }
{
    let mut members = [0; BLOCK];
    let count = list.read_block(block, &mut members);
    begin_below(&members[..count], k)
}

/// How many addresses come before the first one that is not below `k`.
fn begin_below(addresses: &[u64], k: u64) -> usize
    ensures { result ≡ prefix_len (λ p. nat_lt p k) addresses.now }
{
    addresses.iter().take_while(|address| **address < k).count()
}
