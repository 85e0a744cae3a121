ghost use Rattle.std.specs.Prelude.{◌≡◌, ◌<◌, ◌∷◌, [], length};
ghost use Rattle.std.specs.List.{concat};
ghost use Rattle.posting_code.specs.Postings.{ArePostings};

use crate::checks::{holds, same};
use crate::fixtures::addresses;
use posting_code::{
    ADDRESS_END, BLOCK, Number, PostingList, PostingMaker, PostingRows, Postings, encode,
    get_number, put_number,
};
use std::alloc::{AllocError, Global};
use std::fmt::Debug;
use std::process::Abort;

/// The block at this place of a list has these members, and is read as them.
fn has_block<R: Abort, C: Debug>(
    rt: &R,
    case: &C,
    list: &Postings<'_>,
    block: usize,
    members: &[u64],
) {
    if block < list.block_count() {
        let mut read = [7; 64];
        let found = list.read_block(block, &mut read);
        holds(
            rt,
            case,
            read.starts_with(members) && found == members.len(),
        );
        let first = list.block_first(block);
        same(rt, case, &Some(first), &members.first().copied());
    }
}

/// The blocks of a list are the chunks of these members.
fn has_blocks<R: Abort, C: Debug>(rt: &R, case: &C, list: &Postings<'_>, members: &[u64]) {
    let blocks = members.chunks(BLOCK).count();
    let want = (members.len(), blocks);
    same(rt, case, &(list.len(), list.block_count()), &want);
    for (block, chunk) in members.chunks(BLOCK).enumerate() {
        has_block(rt, &(case, block), list, block, chunk);
    }
}

/// The blocks of a list of some addresses are the chunks of their slice.
fn are_chunks<R: Abort>(rt: &R, alloc: Global, count: u16, gap: u64) -> Result<(), AllocError> {
    let addresses = addresses(alloc, 3, count, gap)?;
    let list = encode(alloc, &addresses)?;
    has_blocks(rt, &(count, gap), &list.as_postings(), &addresses);
    Ok(())
}

#[test]
fn the_blocks_of_a_list_are_the_chunks_of_its_slice(rt: HostRuntime) -> Result<(), AllocError> {
    for count in [0, 1, 63, 64, 65, 128, 129, 1000] {
        for gap in [1, 127, 128, 1 << 14, 1 << 47, 1 << 55] {
            are_chunks(&rt, rt.alloc(), count, gap)?;
        }
    }
    Ok(())
}

/// A list has one block, which has these members and these ends.
fn is_block<R: Abort, C: Debug>(rt: &R, case: &C, lent: &Postings<'_>, members: &[u64]) {
    same(rt, case, &lent.block_count(), &1);
    has_block(rt, case, lent, 0, members);
    let ends = (Some(lent.first()), Some(lent.last()));
    let want = (members.first().copied(), members.last().copied());
    same(rt, case, &ends, &want);
}

/// Each block of a list, lent by itself, has the members of the list there.
fn lends_blocks<R: Abort, C: Debug>(rt: &R, case: &C, list: &Postings<'_>, members: &[u64]) {
    for (block, chunk) in members.chunks(BLOCK).enumerate() {
        if block < list.block_count() {
            is_block(rt, &(case, block), &list.block(block), chunk);
        }
    }
}

/// The same for a list of some addresses.
fn are_lent<R: Abort>(rt: &R, alloc: Global, count: u16, gap: u64) -> Result<(), AllocError> {
    let addresses = addresses(alloc, 3, count, gap)?;
    let list = encode(alloc, &addresses)?;
    lends_blocks(rt, &(count, gap), &list.as_postings(), &addresses);
    Ok(())
}

#[test]
fn a_block_that_is_lent_by_itself_has_its_members_and_no_others(
    rt: HostRuntime,
) -> Result<(), AllocError> {
    for count in [1, 63, 64, 65, 128, 129, 200] {
        for gap in [1, 128, 1 << 40] {
            are_lent(&rt, rt.alloc(), count, gap)?;
        }
    }
    Ok(())
}

/// The first and the last member, and their number.
type Ends = (u64, u64, usize);

fn ends(list: &Postings<'_>) -> Ends {
    (list.first(), list.last(), list.len())
}

/// The ends and the numbers of the members below an address and of those at or after it.
fn split_ends(list: &Postings<'_>, k: u64) -> (Ends, Ends) {
    if list.len() > BLOCK {
        return ((7, 7, 7), (7, 7, 7));
    }
    let (below, from) = list.split(k);
    (ends(&below), ends(&from))
}

// An address, and the ends and the numbers of the members below it and of those at or after it.
const SPLITS: [(u64, (Ends, Ends)); 7] = [
    (0, ((0, 0, 0), (5, 301, 4))),
    (5, ((0, 0, 0), (5, 301, 4))),
    (6, ((5, 5, 1), (8, 301, 3))),
    (8, ((5, 5, 1), (8, 301, 3))),
    (9, ((5, 8, 2), (300, 301, 2))),
    (301, ((5, 300, 3), (301, 301, 1))),
    (302, ((5, 301, 4), (0, 0, 0))),
];

#[test]
fn a_list_is_split_before_the_first_member_that_is_not_below(
    rt: HostRuntime,
) -> Result<(), AllocError> {
    let list = encode(rt.alloc(), &[5, 8, 300, 301])?;
    let list = list.as_postings();
    for (k, want) in &SPLITS {
        same(&rt, k, &split_ends(&list, *k), want);
    }
    Ok(())
}

/// The greatest member before `k`, and the least at or after `k`, by looking at each.
fn plain_around(members: &[u64], k: u64) -> (Option<u64>, Option<u64>) {
    (
        members.iter().copied().rev().find(|p| *p < k),
        members.iter().copied().find(|p| k <= *p),
    )
}

/// A walk in a block of these members stops at the answer, next to each of them and at it.
fn stops_around<R: Abort, C: Debug>(
    rt: &R,
    case: &C,
    list: &Postings<'_>,
    block: usize,
    members: &[u64],
) {
    for member in members {
        for k in [member.wrapping_sub(1), *member, member.wrapping_add(1)] {
            if block < list.block_count() {
                let found = list.around(block, k);
                same(rt, &(case, k), &found, &plain_around(members, k));
            }
        }
    }
}

/// The same for each block of some addresses.
fn are_walked<R: Abort>(rt: &R, alloc: Global, gap: u64) -> Result<(), AllocError> {
    let addresses = addresses(alloc, 3, 65, gap)?;
    let list = encode(alloc, &addresses)?;
    for (block, chunk) in addresses.chunks(BLOCK).enumerate() {
        stops_around(rt, &(block, gap), &list.as_postings(), block, chunk);
    }
    Ok(())
}

#[test]
fn a_walk_in_a_block_stops_at_the_answer_on_either_side(rt: HostRuntime) -> Result<(), AllocError> {
    for gap in [1, 2, 127, 128, 1 << 14] {
        are_walked(&rt, rt.alloc(), gap)?;
    }
    Ok(())
}

#[test]
fn the_least_and_the_greatest_address_are_kept(rt: HostRuntime) -> Result<(), AllocError> {
    let members = [0, 5, ADDRESS_END - 1];
    let list = encode(rt.alloc(), &members)?;
    is_block(&rt, &"0 to the end", &list.as_postings(), &members);
    Ok(())
}

/// Puts three lists in rows, as one list that is there in one piece, too.
fn push_three(
    rows: &mut PostingRows,
    whole: &Postings<'_>,
    front: &PostingList,
    middle: &PostingList,
    behind: &PostingList,
) -> Result<(), AllocError>
    requires some { 0 < length whole.now }
    requires same { whole.now ≡ concat (front.now ∷ middle.now ∷ behind.now ∷ []) }
    requires rising { ArePostings whole.now }
{
    let lists = [
        front.as_postings(),
        middle.as_postings(),
        behind.as_postings(),
    ];
    rows.push_joined(&lists, whole.first(), whole.last(), whole.len())
}

/// The same for members that are first made lists of their own.
fn put_three(
    rows: &mut PostingRows,
    alloc: Global,
    whole: &Postings<'_>,
    front: &[u64],
    middle: &[u64],
    behind: &[u64],
) -> Result<(), AllocError>
    requires some { 0 < length whole.now }
    requires same { whole.now ≡ concat (front.now ∷ middle.now ∷ behind.now ∷ []) }
    requires rising { ArePostings whole.now }
    requires front { ArePostings front.now }
    requires middle { ArePostings middle.now }
    requires behind { ArePostings behind.now }
{
    let front = encode(alloc, front)?;
    let middle = encode(alloc, middle)?;
    let behind = encode(alloc, behind)?;
    push_three(rows, whole, &front, &middle, &behind)
}

/// Rows with some members that are put as those of three lists, and with the same ones as a list of its own.
fn rows_of_three(
    alloc: Global,
    members: &[u64],
    first: usize,
    second: usize,
) -> Result<PostingRows, AllocError>
    requires some { 0 < length members.now }
    requires rising { ArePostings members.now }
{
    let (front, rest) = members.split_at(first.min(members.len()));
    let (middle, behind) = rest.split_at(second.min(rest.len()));
    let whole = encode(alloc, members)?;
    let mut rows = PostingRows::new(alloc);
    put_three(
        &mut rows,
        alloc,
        &whole.as_postings(),
        front,
        middle,
        behind,
    )?;
    rows.push(whole)?;
    Ok(rows)
}

/// Some members that are put in rows as those of three lists have their blocks there.
fn have_blocks<R: Abort>(
    rt: &R,
    alloc: Global,
    case: (&str, u64),
    count: u16,
    (first, second): (usize, usize),
) -> Result<(), AllocError> {
    let members = addresses(alloc, 3, count, case.1)?;
    if members.is_empty() {
        return Ok(());
    }
    let rows = rows_of_three(alloc, &members, first, second)?;
    same(rt, &case, &rows.len(), &2);
    for place in 0..rows.len() {
        has_blocks(rt, &case, &rows.list(place), &members);
    }
    Ok(())
}

// How many members there are, and how many of them the first list and the second one have.
const THREES: [(&str, u16, (usize, usize)); 6] = [
    ("one block", 5, (2, 2)),
    ("none in front", 130, (0, 64)),
    ("none between", 130, (65, 0)),
    ("blocks that begin in the second", 200, (10, 150)),
    ("blocks that begin where a list does", 200, (64, 64)),
    ("a second that begins none", 200, (70, 5)),
];

#[test]
fn lists_that_are_put_in_rows_as_one_have_its_blocks(rt: HostRuntime) -> Result<(), AllocError> {
    for (name, count, parts) in &THREES {
        for gap in [1, 200, 1 << 40] {
            have_blocks(&rt, rt.alloc(), (*name, gap), *count, *parts)?;
        }
    }
    Ok(())
}

/// A number is put as these bytes after others, and is read from them, whatever follows.
fn is_spelled<R: Abort>(rt: &R, alloc: Global, value: u64, bytes: &[u8]) -> Result<(), AllocError> {
    let mut out = vec![in alloc; 9u8]?;
    assert!(rt; value < ADDRESS_END);
    put_number(&mut out, value)?;
    let after = bytes.len().wrapping_add(1);
    let is_put = out.as_slice().ends_with(bytes) && out.len() == after;
    holds(rt, &value, is_put);
    out.push(0)?;
    let want = Some(Number { value, after });
    same(rt, &value, &get_number(&out, 1), &want);
    Ok(())
}

const SPELLED: [(u64, &[u8]); 7] = [
    (0, &[0x00]),
    (7, &[0x07]),
    (128, &[0x80, 0x01]),
    (300, &[0xac, 0x02]),
    (16384, &[0x80, 0x80, 0x01]),
    (281474976710655, &[0xff, 0xff, 0xff, 0xff, 0xff, 0xff, 0x3f]),
    (
        ADDRESS_END - 1,
        &[0xff, 0xff, 0xff, 0xff, 0xff, 0xff, 0xff, 0x7f],
    ),
];

#[test]
fn a_number_has_the_bytes_of_the_table_and_is_read_from_them(
    rt: HostRuntime,
) -> Result<(), AllocError> {
    for (value, bytes) in &SPELLED {
        is_spelled(&rt, rt.alloc(), *value, bytes)?;
    }
    Ok(())
}

// Bytes, and the place in them from which a number is read.
const UNSPELLED: [(&str, &[u8], usize); 8] = [
    ("7, padded", &[0x87, 0x00], 0),
    ("0, padded", &[0x80, 0x00], 0),
    ("300, padded by two", &[0xac, 0x82, 0x00], 0),
    ("cut", &[0xac], 0),
    ("nothing", &[], 0),
    ("past the end", &[0x07], 2),
    (
        "2^56",
        &[0x80, 0x80, 0x80, 0x80, 0x80, 0x80, 0x80, 0x80, 0x01],
        0,
    ),
    (
        "no end",
        &[0xff, 0xff, 0xff, 0xff, 0xff, 0xff, 0xff, 0xff, 0xff, 0xff],
        0,
    ),
];

#[test]
fn bytes_that_spell_no_number_are_refused(rt: HostRuntime) {
    for (name, bytes, at) in &UNSPELLED {
        same(&rt, name, &get_number(bytes, *at), &None);
    }
}

/// Puts two addresses.
fn put_two(maker: &mut PostingMaker) -> Result<(), AllocError>
    requires { maker.old ≡ [] }
{
    maker.push(3)?;
    maker.push(9)
}

/// A maker hands out a list of this length, and has none left.
fn hands_out<R: Abort>(rt: &R, maker: &mut PostingMaker, len: usize) -> Result<(), AllocError>
    ensures { maker.new ≡ [] }
{
    same(rt, &"before", &maker.len(), &len);
    same(rt, &"taken", &maker.take()?.len(), &len);
    same(rt, &"after", &maker.len(), &0);
    Ok(())
}

#[test]
fn a_maker_hands_out_its_list_and_goes_on(rt: HostRuntime) -> Result<(), AllocError> {
    let mut maker = PostingMaker::new(rt.alloc());
    put_two(&mut maker)?;
    hands_out(&rt, &mut maker, 2)?;
    maker.push(4)?;
    hands_out(&rt, &mut maker, 1)
}
