use crate::checks::same;
use crate::passes::query;
use gcl_model::{IntervalList, Leaves, Ledger, Question, Span, Steps, TokenList, counted};
use plain_text::{PlainText, of_tokens, slow_list};
use std::alloc::{AllocError, Global};
use std::process::Abort;
use std::test::Fail;

/// `to be or not to be` between the tokens of a file's boundary.
fn hamlet<R: Abort>(rt: &R, alloc: Global) -> Result<PlainText, AllocError> {
    let words = ["<file!>", "to", "be", "or", "not", "to", "be", "</file!>"];
    let tokens = TokenList::of(alloc, &words)?;
    assert!(rt; tokens.len() == 8);
    of_tokens(alloc, 0, &tokens)
}

/// Places of `to`: the next at or after 2 and 6, the previous at or before 4 and 0.
#[derive(Drop)]
struct PlacesOfTo<'a> {
    text: &'a PlainText,
}

impl Question for PlacesOfTo<'_> {
    ghost use Rattle.std.specs.Prelude.{⊤};

    type Answer = [Option<u64>; 4];

    ghost can_ask = { λ _. ⊤ };

    ghost answers = { λ _ _. ⊤ };

    ghost most = { λ _ _. 4 };

    fn ask<L: Ledger>(&self, steps: &mut Steps<L>) -> [Option<u64>; 4] {
        let next = self.text.next(b"to", 2, steps);
        let no_next = self.text.next(b"to", 6, steps);
        let prev = self.text.prev(b"to", 4, steps);
        let no_prev = self.text.prev(b"to", 0, steps);
        [next, no_next, prev, no_prev]
    }
}

/// The places of `to` are these, and were found in one step each.
fn has_places<R: Abort>(rt: &R, text: &PlainText, want: [Option<u64>; 4]) {
    same(rt, &"places", &counted(&PlacesOfTo { text }), &(want, 4));
}

#[test]
fn each_look_up_is_one_step(rt: HostRuntime) -> Result<(), Fail> {
    let text = hamlet(&rt, rt.alloc())?;
    has_places(&rt, &text, [Some(5), None, Some(1), None]);
    same(&rt, &"span", &text.span(), &Span { first: 0, next: 8 });
    Ok(())
}

#[test]
fn words_may_leave_addresses_free(rt: HostRuntime) -> Result<(), Fail> {
    let span = Span {
        first: 10,
        next: 20,
    };
    let mut text = PlainText::new(rt.alloc(), span);
    text.put(12, b"to")?;
    text.put(17, b"to")?;
    has_places(&rt, &text, [Some(12), Some(12), None, None]);
    Ok(())
}

/// The first and the last address of each member.
fn ends(alloc: Global, list: &IntervalList) -> Result<Vec<(u64, u64)>, AllocError> {
    let mut ends = Vec::new(alloc);
    for member in list.as_slice() {
        ends.push((member.start, member.end))?;
    }
    Ok(ends)
}

/// The members of the query, by looking at every pair of addresses, are these.
fn has<R: Abort>(
    rt: &R,
    alloc: Global,
    text: &PlainText,
    asked: &str,
    want: &[(u64, u64)],
) -> Result<(), AllocError> {
    let expr = query(rt, alloc, asked);
    let list = slow_list(alloc, &expr, text)?;
    same(rt, &asked, &ends(alloc, &list)?.as_slice(), &want);
    Ok(())
}

const QUERIES: [(&str, &[(u64, u64)]); 13] = [
    ("\"to\"..\"be\"", &[(1, 2), (5, 6)]),
    ("\"be\"..\"be\"", &[(2, 6)]),
    ("\"to\"^\"not\"", &[(1, 4), (4, 5)]),
    ("(\"to\"^\"not\")+\"be\"", &[(2, 2), (4, 5), (6, 6)]),
    ("(\"be\"..\"to\")>\"not\"", &[(2, 5)]),
    ("(\"be\"..\"to\")/>\"or\"", &[]),
    ("\"to\"<(\"be\"..\"to\")", &[(5, 5)]),
    ("\"to\"/<(\"be\"..\"to\")", &[(1, 1)]),
    ("[7]", &[(0, 6), (1, 7)]),
    ("[8]", &[(0, 7)]),
    ("[9]", &[]),
    ("(\"to\"^\"not\")<[3]", &[(4, 5)]),
    ("\"to be\"", &[(1, 2), (5, 6)]),
];

#[test]
fn members_are_found_by_a_look_at_every_pair(rt: HostRuntime) -> Result<(), Fail> {
    let text = hamlet(&rt, rt.alloc())?;
    for (asked, want) in &QUERIES {
        has(&rt, rt.alloc(), &text, asked, want)?;
    }
    Ok(())
}
