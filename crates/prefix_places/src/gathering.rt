ghost use Rattle.std.specs.Prelude.{◌≡◌, ◌++◌, filter, length, IfOk, IsTrue, OnOk};
ghost use Rattle.posting_code.specs.Postings.{ArePostings};
ghost use Rattle.index_shard.specs.Tables.{IsShard, words_of};
ghost use Rattle.live_version.specs.Contents.{live_of, live_words};
ghost use Rattle.live_version.specs.LookUps.{is_alive};
ghost use Rattle.prefix_places.specs.Runs.{prefix_places, run_addresses};

use delete_mask::SharedMask;
use index_shard::Shard;
use live_version::Slot;
use posting_code::{BLOCK, Postings};
use prefix_terms::run_of;
use std::alloc::{AllocError, Global};

/// The places of the live words of some slots that begin with the prefix. Slots are in rising order of address, so the places of one come
/// after those of the slots before it.
pub(crate) fn gathered(alloc: Global, slots: &[Slot], prefix: &[u8]) -> Result<Vec<u64>, AllocError>
    ensures { IfOk result (λ places. places.items ≡ prefix_places (live_of slots.now) prefix.now) }
{
    let mut places = Vec::new(alloc);
    for slot in slots {
        put_slot(alloc, slot, prefix, &mut places)?;
    }
    Ok(places)
}

/// Appends the places of a slot's live words that begin with the prefix.
fn put_slot(
    alloc: Global,
    slot: &Slot,
    prefix: &[u8],
    places: &mut Vec<u64>,
) -> Result<(), AllocError>
    ensures { OnOk result (places.new.items ≡ places.old.items ++ prefix_places (live_words slot.now) prefix.now) }
{
    let all = places_of(alloc, slot.shard(), prefix)?;
    put_live(all.as_slice(), slot.mask(), places)?;
    Ok(())
}

/// Appends the places that are not dead.
fn put_live(all: &[u64], mask: &SharedMask, places: &mut Vec<u64>) -> Result<(), AllocError>
    requires { ArePostings all.now }
    ensures { OnOk result (places.new.items ≡ places.old.items ++ filter (is_alive mask.now) all.now) }
{
    if is_whole(mask) {
        places.extend_from_slice(all)?;
        return Ok(());
    }
    put_each(all, mask, places)
}

/// Whether no range is dead.
fn is_whole(mask: &SharedMask) -> bool
    ensures { IsTrue result → length mask.now ≡ 0 }
{
    mask.range_count() == 0
}

/// The same; each dead range is looked up once, at the first place in it.
fn put_each(all: &[u64], mask: &SharedMask, places: &mut Vec<u64>) -> Result<(), AllocError>
    requires { ArePostings all.now }
    ensures { OnOk result (places.new.items ≡ places.old.items ++ filter (is_alive mask.now) all.now) }
{
    let mut alive_from = 0;
    for place in all {
        if *place >= alive_from {
            match mask.dead(*place) {
                Some(range) => alive_from = range.last + 1,
                None => places.push(*place)?,
            }
        }
    }
    Ok(())
}

/// The addresses of the words of an index that begin with the prefix.
fn places_of(alloc: Global, shard: &Shard, prefix: &[u8]) -> Result<Vec<u64>, AllocError>
    ensures places { IfOk result (λ places. places.items ≡ prefix_places (words_of shard.now) prefix.now) }
    ensures rising { IfOk result (λ places. ArePostings places.items) }
{
    let mut places = addresses_of_run(alloc, shard, prefix)?;
    places.sort_unstable();
    Ok(places)
}

/// The same term by term: no address comes twice.
fn addresses_of_run(alloc: Global, shard: &Shard, prefix: &[u8]) -> Result<Vec<u64>, AllocError>
    ensures addresses { IfOk result (λ addresses. addresses.items ≡ run_addresses prefix.now shard.now.table) }
    ensures shard { IsShard shard.now }
{
    let run = run_of(shard, prefix);
    let mut addresses = Vec::new(alloc);
    for place in run.from..run.end {
        put_all(&shard.postings(place), &mut addresses)?;
    }
    Ok(addresses)
}

/// Appends the postings to the addresses. Each block is read once.
fn put_all(list: &Postings<'_>, addresses: &mut Vec<u64>) -> Result<(), AllocError>
    ensures { OnOk result (addresses.new.items ≡ addresses.old.items ++ list.now) }
{
    let mut members = [0; BLOCK];
    for block in 0..list.block_count() {
        let count = list.read_block(block, &mut members);
        addresses.extend_from_slice(&members[..count])?;
    }
    Ok(())
}
