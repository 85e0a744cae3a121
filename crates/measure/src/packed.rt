ghost use Rattle.std.specs.Prelude.{◌≤◌, IfOk};
ghost use Rattle.gcl_model.specs.Limits.{address_end};
ghost use Rattle.posting_code.specs.Postings.{RiseWithin};

use crate::files::text_of;
use index_shard::Shard;
use posting_code::{ADDRESS_END, PostingList, PostingMaker, Postings};
use shard_build::build_from;
use std::alloc::{AllocError, Global};
use std::rt;

/// A list with fewer postings is left out.
const LONG: usize = 64;

/// What the long lists of a shard have together.
#[derive(Clone, Copy)]
struct Sizes {
    lists: usize,
    postings: usize,
    differences: u64,
}

/// How many bytes a number takes with 7 bits in each.
fn packed_size(n: u64) -> u64 {
    let unused = (n | 1).leading_zeros() as u64;
    70u64.saturating_sub(unused) / 7
}

/// How many bytes the differences of a list take, the first address counted as the difference from 0.
fn differences_of(list: &Postings<'_>) -> u64 {
    let mut size = 0u64;
    let mut before = 0;
    let mut members = [0; 64];
    for block in 0..list.block_count() {
        let count = list.read_block(block, &mut members);
        for p in members.iter().take(count) {
            size = size.saturating_add(packed_size(p.saturating_sub(before)));
            before = *p;
        }
    }
    size
}

/// Appends the members of a block, and returns the least address that may come next. It ends early if one does not rise, which no
/// list has.
fn put_block(maker: &mut PostingMaker, least: u64, members: &[u64]) -> Result<u64, AllocError>
    requires rising { RiseWithin 0 least maker.old }
    requires below { least ≤ address_end }
    ensures { IfOk result (λ next. RiseWithin 0 next maker.new × (next ≤ address_end)) }
{
    let mut next = least;
    for p in members {
        if *p < next || ADDRESS_END <= *p {
            return Ok(next);
        }
        maker.push(*p)?;
        next = *p + 1;
    }
    Ok(next)
}

/// The same list in memory of its own.
fn copied(alloc: Global, list: &Postings<'_>) -> Result<PostingList, AllocError> {
    let mut maker = PostingMaker::new(alloc);
    let mut next = 0;
    let mut members = [0; 64];
    for block in 0..list.block_count() {
        let count = list.read_block(block, &mut members);
        next = put_block(&mut maker, next, &members[..count])?;
    }
    Ok(maker.finish())
}

/// Appends a copy of each long list, and returns what they have together.
fn copy_long(
    alloc: Global,
    shard: &Shard,
    kept: &mut Vec<PostingList>,
) -> Result<Sizes, AllocError> {
    let mut sizes = Sizes {
        lists: 0,
        postings: 0,
        differences: 0,
    };
    for i in 0..shard.term_count() {
        let list = shard.postings(i);
        if list.len() >= LONG {
            kept.push(copied(alloc, &list)?)?;
            sizes.lists = sizes.lists.saturating_add(1);
            sizes.postings = sizes.postings.saturating_add(list.len());
            sizes.differences = sizes.differences.saturating_add(differences_of(&list));
        }
    }
    Ok(sizes)
}

/// Prints how many postings the lists of 64 or more have over a file, and how many bytes their packed differences. It keeps `times` more
/// copies of them: memory grows by these lists for each.
pub(crate) fn measure_packed<R: rt::Files + Print + AllocGlobal>(
    rt: &R,
    name: &[u8],
    times: u64,
) -> Option<()> {
    let text = text_of(rt, name)?;
    if text.len() >= 1 << 40 {
        return None;
    }
    let shard = build_from(rt.alloc(), 0, &text).ok()?;
    let mut kept = Vec::new(rt.alloc());
    for i in 0..times {
        let _ = i;
        let Sizes {
            lists,
            postings,
            differences,
        } = copy_long(rt.alloc(), &shard, &mut kept).ok()?;
        println!(rt;
            "{postings} postings in {lists} lists, {differences} bytes of differences"
        ).ok()?;
    }
    Some(())
}
