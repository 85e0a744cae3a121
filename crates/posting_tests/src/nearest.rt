use crate::checks::{holds, same};
use crate::fixtures::addresses;
use gcl_model::{Ledger, Question, Steps, counted};
use posting_access::{at_or_after, at_or_before, rank};
use posting_code::{ADDRESS_END, PostingList, Postings, encode};
use std::alloc::{AllocError, Global};
use std::process::Abort;

/// One of the two look-ups.
#[derive(Clone, Copy)]
enum Side {
    AtOrAfter,
    AtOrBefore,
}

/// The address that is nearest to `k` on one side.
#[derive(Drop)]
struct Nearest<'a> {
    list: &'a Postings<'a>,
    k: u64,
    side: Side,
}

impl Question for Nearest<'_> {
    ghost use Rattle.std.specs.Prelude.{◌+◌, ◌*◌, ⊤, length};

    type Answer = Option<u64>;

    ghost can_ask = { λ _. ⊤ };

    ghost answers = { λ _ _. ⊤ };

    ghost most = { λ asked _. 2 * length asked.list.now + 1 };

    fn ask<L: Ledger>(&self, probes: &mut Steps<L>) -> Option<u64> {
        match self.side {
            Side::AtOrAfter => at_or_after(self.list, self.k, probes),
            Side::AtOrBefore => at_or_before(self.list, self.k, probes),
        }
    }
}

/// How many addresses are below `k`.
#[derive(Drop)]
struct Rank<'a> {
    list: &'a Postings<'a>,
    k: u64,
}

impl Question for Rank<'_> {
    ghost use Rattle.std.specs.Prelude.{◌+◌, ◌*◌, ⊤, length};

    type Answer = usize;

    ghost can_ask = { λ _. ⊤ };

    ghost answers = { λ _ _. ⊤ };

    ghost most = { λ asked _. 2 * length asked.list.now + 1 };

    fn ask<L: Ledger>(&self, probes: &mut Steps<L>) -> usize {
        rank(self.list, self.k, probes)
    }
}

/// Both look-ups at `k`, and how many probes each took.
fn look_up(list: &Postings<'_>, k: u64) -> ((Option<u64>, Option<u64>), (u64, u64)) {
    let (least, forward) = counted(&Nearest {
        list,
        k,
        side: Side::AtOrAfter,
    });
    let (greatest, backward) = counted(&Nearest {
        list,
        k,
        side: Side::AtOrBefore,
    });
    ((least, greatest), (forward, backward))
}

/// The least member at or after `k` and the greatest at or before `k`, by looking at each.
fn plain_look_up(members: &[u64], k: u64) -> (Option<u64>, Option<u64>) {
    (
        members.iter().copied().find(|p| k <= *p),
        members.iter().rev().copied().find(|p| *p <= k),
    )
}

/// An address, and those next to it.
fn around(address: u64) -> [u64; 3] {
    [address.wrapping_sub(1), address, address.wrapping_add(1)]
}

/// Look-ups next to each of these members and at it agree with looking at each, with no more probes than digits.
fn are_found<R: Abort>(
    rt: &R,
    list: &Postings<'_>,
    members: &[u64],
    (count, gap, digits): (u16, u64, u64),
) {
    for member in members {
        for k in around(*member) {
            let (found, probes) = look_up(list, k);
            same(rt, &(k, count, gap), &found, &plain_look_up(members, k));
            let few = probes.0 <= digits && probes.1 <= digits;
            holds(rt, &(k, count, gap), few);
        }
    }
}

/// The same for a list of some addresses.
fn are_found_in<R: Abort>(rt: &R, alloc: Global, case: (u16, u64, u64)) -> Result<(), AllocError> {
    let members = addresses(alloc, 3, case.0, case.1)?;
    let list = encode(alloc, &members)?;
    are_found(rt, &list.as_postings(), &members, case);
    Ok(())
}

// counts, and how many binary digits they have
const COUNTS: [(u16, u64); 8] = [
    (0, 0),
    (1, 1),
    (63, 6),
    (64, 7),
    (65, 7),
    (128, 8),
    (129, 8),
    (1000, 10),
];

#[test]
fn look_ups_are_those_of_a_look_at_each_address_within_the_digits_of_the_length(
    rt: HostRuntime,
) -> Result<(), AllocError> {
    for (count, digits) in &COUNTS {
        for gap in [1, 127, 128, 1 << 14, 1 << 46, 1 << 55] {
            are_found_in(&rt, rt.alloc(), (*count, gap, *digits))?;
        }
    }
    Ok(())
}

/// `want` members are below `k`, which is found with no more probes than digits.
fn has_rank<R: Abort>(
    rt: &R,
    list: &Postings<'_>,
    k: u64,
    (count, gap, digits): (u16, u64, u64),
    want: usize,
) {
    let (below, probes) = counted(&Rank { list, k });
    same(rt, &(k, count, gap), &below, &want);
    holds(rt, &(k, count, gap), probes <= digits);
}

/// The ranks of addresses next to each of these members, at it, and at both ends, agree with looking at each.
fn are_ranked<R: Abort>(rt: &R, list: &Postings<'_>, members: &[u64], case: (u16, u64, u64)) {
    for member in members {
        for k in around(*member) {
            let want = members.iter().filter(|p| **p < k).count();
            has_rank(rt, list, k, case, want);
        }
    }
    has_rank(rt, list, 0, case, 0);
    has_rank(rt, list, u64::MAX, case, members.len());
}

/// The same for a list of some addresses.
fn are_ranked_in<R: Abort>(rt: &R, alloc: Global, case: (u16, u64, u64)) -> Result<(), AllocError> {
    let members = addresses(alloc, 3, case.0, case.1)?;
    let list = encode(alloc, &members)?;
    are_ranked(rt, &list.as_postings(), &members, case);
    Ok(())
}

// counts, and how many binary digits their blocks have
const BLOCK_COUNTS: [(u16, u64); 7] = [
    (0, 0),
    (1, 1),
    (63, 1),
    (64, 1),
    (65, 2),
    (129, 2),
    (1000, 5),
];

#[test]
fn a_rank_is_the_number_of_addresses_below_within_the_digits_of_the_length(
    rt: HostRuntime,
) -> Result<(), AllocError> {
    for (count, digits) in &BLOCK_COUNTS {
        for gap in [1, 1 << 14, 1 << 46] {
            are_ranked_in(&rt, rt.alloc(), (*count, gap, *digits))?;
        }
    }
    Ok(())
}

const FAR: [(u64, (Option<u64>, Option<u64>)); 4] = [
    (0, (Some(1 << 55), None)),
    ((1 << 55) + 1, (Some(ADDRESS_END - 1), Some(1 << 55))),
    (ADDRESS_END, (None, Some(ADDRESS_END - 1))),
    (u64::MAX, (None, Some(ADDRESS_END - 1))),
];

#[test]
fn two_addresses_far_apart_are_found(rt: HostRuntime) -> Result<(), AllocError> {
    let list = encode(rt.alloc(), &[1 << 55, ADDRESS_END - 1])?;
    let list = list.as_postings();
    for (k, want) in &FAR {
        same(&rt, k, &look_up(&list, *k).0, want);
    }
    Ok(())
}

/// A look-up on either side takes this number of probes.
fn takes<R: Abort>(rt: &R, list: &PostingList, k: u64, probes: (u64, u64)) {
    same(rt, &k, &look_up(&list.as_postings(), k).1, &probes);
}

fn takes_one_each<R: Abort>(rt: &R, list: &PostingList) {
    for k in [0, 3, 9, 10] {
        takes(rt, list, k, (1, 1));
    }
}

/// Two blocks: after the first one and before the second, the first address of the second is read once more.
fn is_between_blocks<R: Abort>(rt: &R, alloc: Global) -> Result<(), AllocError> {
    let two = addresses(alloc, 3, 65, 10)?;
    let two = encode(alloc, &two)?;
    let found = look_up(&two.as_postings(), 640);
    same(rt, &640, &found, &((Some(643), Some(633)), (3, 2)));
    Ok(())
}

#[test]
fn each_reading_of_a_first_address_is_a_probe(rt: HostRuntime) -> Result<(), AllocError> {
    takes_one_each(&rt, &encode(rt.alloc(), &[2, 5, 9])?);
    takes(&rt, &encode(rt.alloc(), &[])?, 3, (0, 0));
    is_between_blocks(&rt, rt.alloc())
}
