ghost use Rattle.std.specs.Prelude.{◌≡◌, ◌+◌, ◌-◌, ◌*◌, ◌/◌, ◌<◌, ◌≤◌, ◌++◌, ◌∷◌, []};
ghost use Rattle.std.specs.Prelude.{List, ℕ, length, map, take, drop, get_or, OnErr, OnOk};
ghost use Rattle.std.specs.List.{concat};
ghost use Rattle.posting_code.specs.Moved.{moved_below_end, moved_part, moved_row};
ghost use Rattle.posting_code.specs.Packed.{kept, last_of, packed_of};
ghost use Rattle.posting_code.specs.Postings.{ArePostings};
ghost use Rattle.posting_code.specs.Rows.{ComesBehind, HasHeads, IsPartIn, between};

use crate::head::{Head, move_heads};
use crate::moving::{can_move, move_address};
use crate::posting_list::{BLOCK, PostingList, Postings};
use crate::room::{RowsRoom, is_roomy};
use crate::row::put_next;
use std::alloc::{AllocError, Global};
use std::marker::Model;

/// Lists of addresses, by their places in the order in which they were added. Those joined from others share their memory.
// The packed differences of all of these are in one row, and the heads of their blocks in another: so a thousand lists that a merge
// makes take three pieces of memory. A list that exists already keeps its own, since copying it would take as much again.
#[derive(Drop)]
pub struct PostingRows {
    packed: Vec<u8>,
    // of the blocks after the first of each list
    heads: Vec<Head>,
    lists: Vec<RowList>,
}

/// A list in the rows, or one with memory of its own.
#[derive(Drop)]
pub(crate) enum RowList {
    Shared(RowPart),
    Own(PostingList),
}

/// A list by its ends, its length, and where it is in the rows.
#[derive(Clone, Copy)]
pub(crate) struct RowPart {
    pub(crate) first: u64,
    pub(crate) last: u64,
    pub(crate) count: usize,
    pub(crate) start: usize,
    pub(crate) end: usize,
    pub(crate) heads_start: usize,
    pub(crate) heads_end: usize,
}

impl Model for PostingRows {
    ghost use Rattle.std.specs.Prelude.{List, ℕ};
    ghost use Rattle.posting_code.specs.Rows.{AreListsIn, lists_in};

    ghost Value = { List (List ℕ) };

    ghost view = { λ r. lists_in r.packed.items r.lists.items };

    ghost invariant = { λ r. AreListsIn r.packed.items r.heads.items r.lists.items };
}

impl PostingRows {
    /// No lists. It takes no memory.
    pub fn new(alloc: Global) -> Self
        ensures { result ≡ [] }
    {
        PostingRows {
            packed: Vec::new(alloc),
            heads: Vec::new(alloc),
            lists: Vec::new(alloc),
        }
    }

    /// The number of lists.
    pub fn len(&self) -> usize
        ensures { result ≡ length self.now }
    {
        self.lists.len()
    }

    /// The list at a place, lent to be read.
    #[inline]
    pub fn list(&self, place: usize) -> Postings<'_>
        requires { place < length self.now }
        ensures { result ≡ get_or self.now place [] }
    {
        match &self.lists[place] {
            RowList::Shared(part) => part.lent(&self.packed, &self.heads),
            RowList::Own(list) => list.as_postings(),
        }
    }

    /// Appends a list, which keeps its memory.
    pub fn push(&mut self, list: PostingList) -> Result<(), AllocError>
        ensures ok { OnOk result (self.new ≡ self.old ++ list ∷ []) }
        ensures err { OnErr result (self.new ≡ self.old) }
    {
        self.lists.push(RowList::Own(list))?;
        Ok(())
    }

    /// Appends the members of some lists as one list with these ends and `count` members. None is unpacked.
    pub fn push_joined(
        &mut self,
        lists: &[Postings<'_>],
        first: u64,
        last: u64,
        count: usize,
    ) -> Result<(), AllocError>
        requires rising { ArePostings (concat lists.now) }
        requires first { first ≡ get_or (concat lists.now) 0 0 }
        requires last { last ≡ last_of (concat lists.now) }
        requires count { count ≡ length (concat lists.now) }
        ensures ok { OnOk result (self.new ≡ self.old ++ concat lists.now ∷ []) }
        ensures err { OnErr result (self.new ≡ self.old) }
    {
        let start = self.packed.len();
        let heads_start = self.heads.len();
        put_lists(&mut self.packed, &mut self.heads, lists)?;
        let part = RowPart {
            first,
            last,
            count,
            start,
            end: self.packed.len(),
            heads_start,
            heads_end: self.heads.len(),
        };
        self.lists.push(RowList::Shared(part))?;
        Ok(())
    }

    /// Moves the members of all lists up without repacking them. Of a list whose last member would pass the end none is left.
    pub fn move_up(&mut self, by: u64)
        ensures { self.new ≡ map (moved_below_end by) self.old }
    {
        move_heads(&mut self.heads, by);
        move_lists(&mut self.lists, by);
    }

    /// The room they take, or would take if all of them were joined from others.
    pub fn room(&self) -> RowsRoom {
        let shared = RowsRoom {
            lists: self.lists.len(),
            packed: self.packed.len(),
            heads: self.heads.len(),
        };
        shared.and(own_room(&self.lists))
    }

    /// Reserves this much more room.
    pub fn reserve(&mut self, room: RowsRoom) -> Result<(), AllocError>
        ensures { self.new ≡ self.old }
    {
        self.packed.reserve(room.packed)?;
        self.heads.reserve(room.heads)?;
        self.lists.reserve(room.lists)?;
        Ok(())
    }

    /// Gives back the memory that growing took and no list needs, if that is much.
    pub fn fit(&mut self)
        ensures { self.new ≡ self.old }
    {
        fit_row(&mut self.packed);
        fit_row(&mut self.heads);
        fit_row(&mut self.lists);
    }
}

/// Gives back the memory of a row that growing took and no member needs, if that is much.
#[inline]
fn fit_row<T: Drop>(row: &mut Vec<T>)
    ensures { row.new.items ≡ row.old.items }
{
    if is_roomy(row.capacity(), row.len()) {
        row.shrink_to_fit();
    }
}

/// The bytes and the blocks of the lists with memory of their own.
fn own_room(lists: &[RowList]) -> RowsRoom {
    let mut room = RowsRoom::NONE;
    for list in lists {
        if let RowList::Own(list) = list {
            room.packed = room.packed.saturating_add(list.as_postings().packed_len());
            room.heads = room.heads.saturating_add(list.len() / BLOCK);
        }
    }
    room
}

/// Moves the members of some lists up. The heads of those in the rows are moved already.
fn move_lists(lists: &mut [RowList], by: u64)
    ensures { lists.new ≡ map (moved_row by) lists.old }
{
    for list in lists.iter_mut() {
        list.move_up(by);
    }
}

impl RowList {
    /// Moves its members up.
    fn move_up(&mut self, by: u64)
        ensures { self.new ≡ moved_row by self.old }
    {
        match self {
            RowList::Shared(part) => *part = part.moved(by),
            RowList::Own(list) => list.move_up(by),
        }
    }
}

impl RowPart {
    /// The same part with its ends moved up, or without members if the last one would pass the end.
    fn moved(self, by: u64) -> RowPart
        ensures { result ≡ moved_part by self }
    {
        if can_move(self.count, self.last, by) {
            return RowPart {
                first: move_address(self.first, by),
                last: move_address(self.last, by),
                ..self
            };
        }
        RowPart {
            last: 0,
            count: 0,
            end: self.start,
            heads_end: self.heads_start,
            ..self
        }
    }

    /// The list, lent to be read.
    #[inline]
    fn lent<'a>(&self, packed: &'a [u8], heads: &'a [Head]) -> Postings<'a>
        requires { IsPartIn packed.now heads.now self.now }
        ensures { result ≡ kept self.now.count self.now.first (between packed.now self.now.start self.now.end) }
    {
        Postings::of_parts(
            &packed[self.start..self.end],
            &heads[self.heads_start..self.heads_end],
            self.first,
            self.last,
            self.count,
        )
    }
}

/// Appends the packed differences of some lists to `packed`, as those of one list, and the heads of its blocks to `heads`. After an Err
/// some of them may have been appended.
fn put_lists(
    packed: &mut Vec<u8>,
    heads: &mut Vec<Head>,
    lists: &[Postings<'_>],
) -> Result<(), AllocError>
    requires { ArePostings (concat lists.now) }
    ensures packed { OnOk result (packed.new.items ≡ packed.old.items ++ packed_of (concat lists.now)) }
    ensures heads { OnOk result (HasHeads (concat lists.now) (drop (length heads.old.items) heads.new.items)) }
    ensures packed_before { take (length packed.old.items) packed.new.items ≡ packed.old.items }
    ensures heads_before { take (length heads.old.items) heads.new.items ≡ heads.old.items }
{
    let start = packed.len();
    let mut last = None;
    let mut count = 0;
    for list in lists {
        last = put_next(packed, last, list)?;
        let shift = packed.len() - start - list.packed_len();
        put_heads(heads, count, shift, list)?;
        count += list.len();
    }
    Ok(())
}

/// Appends the heads of the blocks that begin in `list`. It comes behind `front` members of the list that it is part of, and its packed
/// differences behind `shift` bytes of theirs.
fn put_heads(
    heads: &mut Vec<Head>,
    front: usize,
    shift: usize,
    list: &Postings<'_>,
) -> Result<(), AllocError>
    requires { (before : List ℕ) × ComesBehind before list.now front shift }
    ensures heads { (before : List ℕ) (start : ℕ) → ComesBehind before list.now front shift → start ≤ length heads.old.items →
        HasHeads before (drop start heads.old.items) → OnOk result (HasHeads (before ++ list.now) (drop start heads.new.items)) }
    ensures before { take (length heads.old.items) heads.new.items ≡ heads.old.items }
{
    let behind = list.len();
    if behind == 0 {
        return Ok(());
    }
    let mut place = until_block(front);
    while place < behind {
        let head = list.head(place);
        heads.push(Head {
            first: head.first,
            at: shift + head.at,
        })?;
        place += BLOCK;
    }
    Ok(())
}

/// How many members after `front` others come before the next block begins. The first block of all has no head.
fn until_block(front: usize) -> usize
    ensures { front + result ≡ 64 * ((front + 63) / 64 - 1 + 1) }
{
    if front == 0 {
        return BLOCK;
    }
    (BLOCK - front % BLOCK) % BLOCK
}
