//! The order of the names, and of those that were seen.
//!
//! The names that were met are put in byte order now and then, so that the names of the next file are in order by their numbers, except
//! those that are new. A stable sort takes such a run as it is.
ghost use Rattle.std.specs.Prelude.{◌≡◌, []};
ghost use Rattle.std.specs.List.Sorted.{IsPermutation, IsSorted};
ghost use Rattle.std.specs.Map.{keys_of};
ghost use Rattle.shard_build.specs.Met.{AreNames, AreNumbered, falling, names_of};

use crate::lists::{NameLists, name_at, seen_at};
use crate::name::Name;
use crate::numbers::{Numbers, number_anew};
use crate::seen::Seen;
use std::alloc::AllocError;
use std::cmp::Ordering;

/// Puts the names in the order of their bytes and numbers them anew, while no list has addresses.
pub(crate) fn sort_names(lists: &mut NameLists, numbers: &mut Numbers)
    requires { AreNumbered numbers.old (names_of lists.old.items []) }
    ensures { AreNumbered numbers.new (names_of lists.new.items []) }
{
    lists.sort_unstable_by(|x, y| compare_names(&x.0, &y.0));
    number_anew(lists, numbers);
}

/// The order of two names.
// No contract says anything about it: names in another order would be sorted as well, only slower.
fn compare_names(x: &Name, y: &Name) -> Ordering {
    match x.head().cmp(&y.head()) {
        Ordering::Less => Ordering::Less,
        Ordering::Equal => x.as_slice().cmp(y.as_slice()),
        Ordering::Greater => Ordering::Greater,
    }
}

/// Sorts the names that were seen by their bytes, the last one first. It is quick if they have a run that is in order by their numbers.
pub(crate) fn sort_seen(lists: &NameLists, seen: &mut Vec<Seen>, has_run: bool)
    requires { AreNames (names_of lists.now.items seen.old.items) }
    ensures names { AreNames (names_of lists.now.items seen.new.items) }
    ensures sorted { IsSorted (falling (keys_of lists.now.items)) seen.new.items }
{
    if has_run {
        note_by_number(lists, seen);
        sort_with_run(lists, seen);
    } else {
        sort_without_run(lists, seen);
    }
}

/// Notes the names with addresses anew, by their numbers, the last one first. If an allocation fails, they stay as they were noted.
fn note_by_number(lists: &NameLists, seen: &mut Vec<Seen>)
    requires { AreNames (names_of lists.now.items seen.old.items) }
    ensures { AreNames (names_of lists.now.items seen.new.items) }
{
    let mut number = lists.len();
    if seen.reserve(number.saturating_sub(seen.len())).is_err() {
        return;
    }
    seen.clear();
    while number > 0 {
        number -= 1;
        if lists[number].1.len() > 0 {
            seen.push_reserved(seen_at(lists, number));
        }
    }
}

/// Sorts names of which many are in order. Without memory for it they are sorted like any others.
fn sort_with_run(lists: &NameLists, seen: &mut Vec<Seen>)
    ensures permutation { IsPermutation seen.old.items seen.new.items }
    ensures sorted { IsSorted (falling (keys_of lists.now.items)) seen.new.items }
{
    match seen.sort_by(|x, y| compare(lists, *y, *x)) {
        Ok(()) => {}
        Err(AllocError) => sort_without_run(lists, seen),
    }
}

/// Sorts names, whatever their order.
fn sort_without_run(lists: &NameLists, seen: &mut Vec<Seen>)
    ensures permutation { IsPermutation seen.old.items seen.new.items }
    ensures sorted { IsSorted (falling (keys_of lists.now.items)) seen.new.items }
{
    seen.sort_unstable_by(|x, y| compare(lists, *y, *x));
}

/// The order of two names that were seen.
// Their heads decide most comparisons, and touch no other memory.
fn compare(lists: &NameLists, x: Seen, y: Seen) -> Ordering
    ensures { result ≡ falling (keys_of lists.now.items) y x }
{
    match x.head.cmp(&y.head) {
        Ordering::Less => Ordering::Less,
        Ordering::Equal => name_at(lists, x.number).cmp(name_at(lists, y.number)),
        Ordering::Greater => Ordering::Greater,
    }
}
