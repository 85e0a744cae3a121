ghost use Rattle.std.specs.Prelude.{◌≡◌, get_or, map};
ghost use Rattle.index_shard.specs.Kept.{AreBytes, IsListIn, leading, list_in, moved_entry, moved_kept, part_of, order_in};

use posting_code::{PostingRows, Postings};
use std::cmp::Ordering;

/// Where a term is among the bytes of all terms, and where its postings are kept.
// The first eight bytes are stored here once more as one number: most comparisons end with it, and touch no other memory.
#[derive(Clone, Copy)]
pub(crate) struct Entry {
    pub(crate) head: u64,
    pub(crate) start: usize,
    pub(crate) size: usize,
    pub(crate) list: Kept,
}

/// Where the postings of a term are kept: up to 64 as packed differences among those of all terms, and more by the place of their list
/// among the long ones.
// Most terms have few postings, and a table of thousands of them takes six pieces of memory.
#[derive(Clone, Copy)]
pub(crate) enum Kept {
    Short {
        first: u64,
        last: u64,
        at: usize,
        size: u16,
        count: u8,
    },
    Long(usize),
}

impl Entry {
    /// The entry's term.
    #[inline]
    pub(crate) fn term<'a>(&self, bytes: &'a [u8]) -> &'a [u8]
        ensures { result.now ≡ part_of bytes.now self.now.start self.now.size }
    {
        part(bytes, self.start, self.size)
    }

    /// The first eight bytes of the term as a number.
    #[inline]
    pub(crate) fn head_in(&self, bytes: &[u8]) -> u64
        ensures value { result ≡ self.now.head }
        ensures bytes { AreBytes (part_of bytes.now self.now.start self.now.size) }
    {
        // what a slice has are bytes
        let _count = bytes.len();
        self.head
    }

    /// The order of the entry's term to another one with this head.
    pub(crate) fn compare(&self, bytes: &[u8], head: u64, term: &[u8]) -> Ordering
        ensures { result ≡ order_in bytes.now head term.now self.now }
    {
        match self.head.cmp(&head) {
            Ordering::Less => Ordering::Less,
            Ordering::Equal => self.term(bytes).cmp(term),
            Ordering::Greater => Ordering::Greater,
        }
    }
}

impl Kept {
    /// Where the same postings are kept once they are moved up. A long list keeps its place.
    fn moved(self, by: u64) -> Kept
        ensures { result ≡ moved_kept by self }
    {
        match self {
            Kept::Short {
                first,
                last,
                at,
                size,
                count,
            } => Kept::Short {
                first: first.saturating_add(by),
                last: last.saturating_add(by),
                at,
                size,
                count,
            },
            Kept::Long(place) => Kept::Long(place),
        }
    }
}

/// Moves the postings of some entries up, except those in long lists.
pub(crate) fn move_entries(entries: &mut [Entry], by: u64)
    ensures { entries.new ≡ map (moved_entry by) entries.old }
{
    for entry in entries.iter_mut() {
        entry.list = entry.list.moved(by);
    }
}

/// The postings that are kept at a place of the packed differences or of the lists.
#[inline]
pub(crate) fn lent<'a>(packed: &'a [u8], long: &'a PostingRows, list: Kept) -> Postings<'a>
    requires { IsListIn packed.now long.now list }
    ensures { result ≡ list_in packed.now long.now list }
{
    match list {
        Kept::Short {
            first,
            last,
            at,
            size,
            count,
        } => Postings::of_block(part(packed, at, size as usize), first, last, count as usize),
        Kept::Long(place) => long.list(place),
    }
}

/// `size` bytes starting at a place, as far as there are any.
#[inline]
fn part(bytes: &[u8], start: usize, size: usize) -> &[u8]
    ensures { result.now ≡ part_of bytes.now start size }
{
    let (_, rest) = bytes.split_at(start.min(bytes.len()));
    let (part, _) = rest.split_at(size.min(rest.len()));
    part
}

/// The first eight bytes of a term as a number. Terms are in the order of their numbers as far as these differ.
pub fn head_of(term: &[u8]) -> u64
    ensures { result ≡ leading 8 0 term.now }
{
    let mut head = 0;
    for i in 0..8usize {
        head = head * 256 + byte_at(term, i) as u64;
    }
    head
}

fn byte_at(bytes: &[u8], i: usize) -> u8
    ensures { result ≡ get_or bytes.now i 0 }
{
    if i < bytes.len() { bytes[i] } else { 0 }
}
