//! The lists of the names, by their numbers.
ghost use Rattle.std.specs.Prelude.{◌≡◌, ◌<◌, [], ◌∷◌, ◌++◌, length, nat_eq, IfOk, OnOk, OnErr};
ghost use Rattle.std.specs.Map.{keys_of};
ghost use Rattle.index_shard.specs.Tables.{IsTable};
ghost use Rattle.posting_code.specs.Postings.{ArePostings};
ghost use Rattle.shard_build.specs.Groups.{table_of};
ghost use Rattle.shard_build.specs.Handed.{ComesNext, entry_at};
ghost use Rattle.shard_build.specs.Met.{AreNames, IsNoted, list_at, name_at as name_of, names_of, rows_of, with_list};

use crate::name::Name;
use crate::seen::Seen;
use index_shard::ShardMaker;
use posting_code::{BLOCK, PostingList, PostingMaker};
use std::alloc::AllocError;

/// Names by their numbers, each with a list of addresses.
pub(crate) type NameLists = Vec<(Name, PostingMaker)>;

/// Appends an address to those of the name with this number, and returns whether it is the first.
pub(crate) fn push_at(
    lists: &mut NameLists,
    number: usize,
    address: u64,
) -> Result<bool, AllocError>
    requires within { number < length lists.old.items }
    requires rising { ArePostings (list_at lists.old.items number ++ address ∷ []) }
    ensures ok { OnOk result (lists.new.items ≡ with_list lists.old.items number (list_at lists.old.items number ++ address ∷ [])) }
    ensures first { IfOk result (λ first. first ≡ nat_eq (length (list_at lists.old.items number)) 0) }
    ensures err { OnErr result (lists.new.items ≡ lists.old.items) }
{
    let list = &mut lists[number].1;
    let is_first = list.len() == 0;
    list.push(address)?;
    Ok(is_first)
}

/// Takes the addresses of the name with this number. None are left there, even after an Err.
pub(crate) fn take_at(lists: &mut NameLists, number: usize) -> Result<PostingList, AllocError>
    requires { number < length lists.old.items }
    ensures value { IfOk result (λ list. list ≡ list_at lists.old.items number) }
    ensures entries { lists.new.items ≡ with_list lists.old.items number [] }
{
    lists[number].1.take()
}

/// Empties the list of the name with this number.
pub(crate) fn clear_at(lists: &mut NameLists, number: usize)
    requires { number < length lists.old.items }
    ensures { lists.new.items ≡ with_list lists.old.items number [] }
{
    lists[number].1.clear();
}

/// Empties the lists of all names that were seen.
pub(crate) fn clear_all(lists: &mut NameLists, seen: &mut Vec<Seen>)
    requires { AreNames (names_of lists.old.items seen.old.items) }
    ensures none { seen.new.items ≡ [] }
    ensures names { AreNames (names_of lists.new.items seen.new.items) }
    ensures kept { keys_of lists.new.items ≡ keys_of lists.old.items }
{
    while let Some(last) = seen.pop() {
        clear_at(lists, last.number);
    }
}

/// What is to be noted of the name with this number.
pub(crate) fn seen_at(lists: &NameLists, number: usize) -> Seen
    requires { number < length lists.now.items }
    ensures number { result.number ≡ number }
    ensures noted { IsNoted (keys_of lists.now.items) result }
{
    let head = match lists.get(number) {
        Some((name, _)) => name.head(),
        None => 0,
    };
    Seen { head, number }
}

/// Hands the names that were seen over to a shard that is being made, the last one first.
pub(crate) fn hand_over(
    lists: &mut NameLists,
    seen: &mut Vec<Seen>,
    maker: &mut ShardMaker,
) -> Result<(), AllocError>
    requires names { AreNames (names_of lists.old.items seen.old.items) }
    requires none { maker.old.table ≡ [] }
    requires table { IsTable maker.old.range (table_of (rows_of (names_of lists.old.items seen.old.items))) }
    ensures names { AreNames (names_of lists.new.items seen.new.items) }
    ensures kept { keys_of lists.new.items ≡ keys_of lists.old.items }
    ensures table { OnOk result (maker.new.table ≡ table_of (rows_of (names_of lists.old.items seen.old.items))) }
    ensures range { maker.new.range ≡ maker.old.range }
{
    while let Some(last) = seen.pop() {
        hand_one(lists, last, maker)?;
    }
    Ok(())
}

/// Hands one name over with its addresses. None are left there, even after an Err.
// A short list is lent to be copied once, so that no memory is allocated for it. A longer one takes its memory along.
fn hand_one(lists: &mut NameLists, last: Seen, maker: &mut ShardMaker) -> Result<(), AllocError>
    requires within { last.number < length lists.old.items }
    requires noted { IsNoted (keys_of lists.old.items) last }
    requires next { ComesNext maker.old.range maker.old.table (entry_at lists.old.items last) }
    ensures entries { lists.new.items ≡ with_list lists.old.items last.number [] }
    ensures ok { OnOk result (maker.new ≡ record maker.old { table = maker.old.table ++ entry_at lists.old.items last ∷ [] }) }
    ensures err { OnErr result (maker.new ≡ maker.old) }
{
    if lists[last.number].1.len() > BLOCK {
        let addresses = take_at(lists, last.number)?;
        maker.push_list(name_at(lists, last.number), addresses)?;
        return Ok(());
    }
    let done = lend(lists, last, maker);
    clear_at(lists, last.number);
    done
}

/// Appends a name with its addresses to the shard.
fn lend(lists: &NameLists, last: Seen, maker: &mut ShardMaker) -> Result<(), AllocError>
    requires within { last.number < length lists.now.items }
    requires noted { IsNoted (keys_of lists.now.items) last }
    requires next { ComesNext maker.old.range maker.old.table (entry_at lists.now.items last) }
    ensures ok { OnOk result (maker.new ≡ record maker.old { table = maker.old.table ++ entry_at lists.now.items last ∷ [] }) }
    ensures err { OnErr result (maker.new ≡ maker.old) }
{
    let list = lists[last.number].1.as_postings();
    maker.push_parts(last.head, name_at(lists, last.number), &[list])?;
    Ok(())
}

/// The name with this number, or no bytes if there is none.
pub(crate) fn name_at(lists: &NameLists, number: usize) -> &[u8]
    ensures { result.now ≡ name_of lists.now.items number }
{
    match lists.get(number) {
        Some((name, _)) => name.as_slice(),
        None => b"",
    }
}
