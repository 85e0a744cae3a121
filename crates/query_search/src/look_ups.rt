//! About how many look-ups a query takes.
use gcl_model::{Expr, TokenList};
use index_shard::Shard;
use live_version::Version;
use wide_terms::is_prefix_term;

/// About how many look-ups the first `most` members of an expression take over a version, so that a caller can decide whether threads
/// pay. No clause speaks of it. It only reads lengths of lists, once for each term, so it does not know what is dead.
///
/// At each place of the rarest term that every member has, each leaf is looked up about twice; and no way of finding passes more than
/// all places of all leaves. Over `to be or not to be`, `"to" .. "or"` takes about 3 of these: `or` has one place and `to` two.
pub fn look_ups_of(version: &Version, expr: &Expr, most: u64) -> u64 {
    let reach = reach_of(version, expr);
    reach
        .members
        .min(most)
        .saturating_mul(2)
        .saturating_mul(reach.leaves)
        .min(reach.places)
}

/// What an expression covers.
#[derive(Clone, Copy)]
struct Reach {
    // About how many members it has at most.
    members: u64,
    // How many places its leaves have together.
    places: u64,
    // How many terms, phrases and widths it has.
    leaves: u64,
}

fn leaf(places: u64) -> Reach {
    Reach {
        members: places,
        places,
        leaves: 1,
    }
}

/// The reach of no operand yet, with this many members.
fn no_leaf(members: u64) -> Reach {
    Reach {
        members,
        places: 0,
        leaves: 0,
    }
}

/// The reach of two expressions together, with the given number of members.
fn together(a: Reach, b: Reach, members: u64) -> Reach {
    Reach {
        members,
        places: a.places.saturating_add(b.places),
        leaves: a.leaves.saturating_add(b.leaves),
    }
}

#[cycle(reach)]
fn reach_of(version: &Version, expr: &Expr) -> Reach {
    match expr {
        Expr::Term(token) => leaf(places_of_term(version, token.as_slice())),
        // a phrase comes no more often than the rarest of its words
        Expr::Phrase(tokens) => leaf(places_of_phrase(version, tokens)),
        Expr::Width(_) => leaf(addresses(version)),
        Expr::One(operands) => reach_of_one(version, operands),
        Expr::Both(operands) | Expr::Seq(operands) => reach_of_all(version, operands),
        Expr::Containing(a, b) => {
            let (a, b) = (reach_of(version, a), reach_of(version, b));
            together(a, b, a.members.min(b.members))
        }
        Expr::ContainedIn(a, b) | Expr::NotContaining(a, b) | Expr::NotContainedIn(a, b) => {
            let (a, b) = (reach_of(version, a), reach_of(version, b));
            together(a, b, a.members)
        }
    }
}

/// Members of one of these.
#[cycle(reach)]
fn reach_of_one(version: &Version, operands: &[Expr]) -> Reach {
    let mut all = no_leaf(0);
    for operand in operands {
        let one = reach_of(version, operand);
        all = together(all, one, all.members.saturating_add(one.members));
    }
    all
}

/// Members that have one of each of these.
#[cycle(reach)]
fn reach_of_all(version: &Version, operands: &[Expr]) -> Reach {
    let mut all = no_leaf(u64::MAX);
    for operand in operands {
        let one = reach_of(version, operand);
        all = together(all, one, all.members.min(one.members));
    }
    all
}

/// How many addresses there are at most.
fn addresses(version: &Version) -> u64 {
    version.next().saturating_sub(version.first())
}

/// What a prefix stands for is known only once it is expanded, so it is taken to be anywhere.
fn places_of_term(version: &Version, token: &[u8]) -> u64 {
    if is_prefix_term(token) {
        return addresses(version);
    }
    postings_of(version, token)
}

fn places_of_phrase(version: &Version, tokens: &TokenList) -> u64 {
    let mut least = u64::MAX;
    for token in tokens.as_slice() {
        least = postings_of(version, token.as_slice()).min(least);
    }
    least
}

/// How long the lists of a term are. What is dead in them is not taken off, since that takes a search for each dead range.
fn postings_of(version: &Version, token: &[u8]) -> u64 {
    let mut count = 0u64;
    for slot in version.slots() {
        count = count.saturating_add(postings_in(slot.shard(), token));
    }
    count
}

fn postings_in(shard: &Shard, token: &[u8]) -> u64 {
    match shard.place(token) {
        Some(place) => shard.postings(place).len() as u64,
        None => 0,
    }
}
