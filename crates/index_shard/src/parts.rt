ghost use Rattle.std.specs.Prelude.{◌≡◌, ◌≤◌, ◌++◌, ◌∷◌, [], List, ℕ, length, take, IfOk, OnOk, OnErr};
ghost use Rattle.std.specs.List.{concat};
ghost use Rattle.posting_code.specs.Postings.{ArePostings};
ghost use Rattle.index_shard.specs.Kept.{AreEndsOf, IsPutShort, kept_entry, leading};

use crate::entry::{Entry, Kept};
use posting_code::{Postings, put_joined};
use std::alloc::AllocError;

/// The first and the last member of some lists one after another, and how many they have.
#[derive(Clone, Copy)]
pub(crate) struct Ends {
    pub(crate) first: u64,
    pub(crate) last: u64,
    pub(crate) count: usize,
}

/// The ends of the lists.
#[inline]
pub(crate) fn ends_of(lists: &[Postings<'_>]) -> Ends
    requires { ArePostings (concat lists.now) }
    ensures { AreEndsOf result (concat lists.now) }
{
    let mut ends = Ends {
        first: 0,
        last: 0,
        count: 0,
    };
    if let [list] = lists {
        return ends_behind(ends, list);
    }
    for list in lists {
        ends = ends_behind(ends, list);
    }
    ends
}

/// The ends of some addresses and of those after them.
#[inline]
fn ends_behind(ends: Ends, list: &Postings<'_>) -> Ends
    requires { (front : List ℕ) × AreEndsOf ends front × ArePostings (front ++ list.now) }
    ensures { (front : List ℕ) → AreEndsOf ends front → ArePostings (front ++ list.now) → AreEndsOf result (front ++ list.now) }
{
    let count = list.len();
    if count == 0 {
        return ends;
    }
    let last = list.last();
    if ends.count == 0 {
        let first = list.first();
        return Ends { first, last, count };
    }
    Ends {
        first: ends.first,
        last,
        count: ends.count + count,
    }
}

/// Appends the packed differences of up to 64 addresses to those of others, and returns where they are kept.
#[inline]
pub(crate) fn put_short(
    packed: &mut Vec<u8>,
    ends: Ends,
    lists: &[Postings<'_>],
) -> Result<Kept, AllocError>
    requires ends { AreEndsOf ends (concat lists.now) }
    requires rising { ArePostings (concat lists.now) }
    requires few { length (concat lists.now) ≤ 64 }
    ensures kept { IfOk result (IsPutShort packed.new.items (concat lists.now)) }
    ensures before { take (length packed.old.items) packed.new.items ≡ packed.old.items }
{
    let at = packed.len();
    put_joined(packed, lists)?;
    let end = packed.len();
    Ok(Kept::Short {
        first: ends.first,
        last: ends.last,
        at,
        size: (end - at) as u16,
        count: ends.count as u8,
    })
}

/// Appends an entry, and its term to the bytes of the others.
#[inline(always)]
pub(crate) fn put_entry(
    bytes: &mut Vec<u8>,
    entries: &mut Vec<Entry>,
    head: u64,
    term: &[u8],
    list: Kept,
) -> Result<(), AllocError>
    requires head { head ≡ leading 8 0 term.now }
    ensures bytes { OnOk result (bytes.new.items ≡ bytes.old.items ++ term.now) }
    ensures entry { OnOk result (entries.new.items ≡ entries.old.items ++ kept_entry bytes.old.items term.now list ∷ []) }
    ensures err { OnErr result (entries.new.items ≡ entries.old.items) }
    ensures same_bytes { OnErr result (take (length bytes.old.items) bytes.new.items ≡ bytes.old.items) }
{
    let entry = Entry {
        head,
        start: bytes.len(),
        size: term.len(),
        list,
    };
    entries.reserve(1)?;
    bytes.extend_from_slice(term)?;
    entries.push(entry)?;
    Ok(())
}
