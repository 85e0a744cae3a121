ghost use Rattle.std.specs.Prelude.{◌<◌, IfSome};
ghost use Rattle.std.specs.Thread.{IsSync};
ghost use Rattle.gcl_model.specs.FormOf.{form_of};
ghost use Rattle.gcl_model.specs.Limits.{far};
ghost use Rattle.gcl_model.specs.WellFormed.{IsWellFormed};

use crate::checks::same;
use crate::publications::{added, shared};
use gcl_model::{Expr, IntervalList, Ledger, Question, Steps, counted, uncounted};
use gcl_parser::parse;
use live_version::Version;
use manifest_publish::{Pass, Publisher, Reader};
use reader_pass::{pass_count, pass_list, pass_list_from};
use std::alloc::{AllocError, Global};
use std::process::Abort;
use std::sync::Wait;
use std::test::*;
use std::thread::{Threads, join};

/// The expression of a query.
pub(crate) fn query<R: Abort>(rt: &R, alloc: Global, text: &str) -> Expr
    ensures { IsWellFormed (form_of result) }
{
    parse(alloc, text.as_bytes()).ok().expect(rt, "a query")
}

/// How many members there are.
#[derive(Drop)]
struct Counting<'a> {
    pass: &'a Pass,
    expr: &'a Expr,
}

impl Question for Counting<'_> {
    ghost use Rattle.std.specs.List.{sum_by};
    ghost use Rattle.gcl_model.specs.FormOf.{form_of};
    ghost use Rattle.gcl_model.specs.WellFormed.{IsWellFormed};
    ghost use Rattle.live_version.specs.Contents.{version_text};
    ghost use Rattle.reader_pass.specs.Members.{access_most, look_ups};

    type Answer = u64;

    ghost can_ask = { λ q. IsWellFormed (form_of q.expr.now) };

    ghost answers = { λ q answer. Unit {0} };

    ghost most = { λ q answer. sum_by (λ v. look_ups (version_text v) (access_most v) (form_of q.expr.now) answer) q.pass.now.history };

    fn ask<L: Ledger>(&self, steps: &mut Steps<L>) -> u64 {
        // this shows that the history has a last version, which bounds the look-ups
        let _version = self.pass.version();
        pass_count(self.pass, self.expr, steps)
    }
}

/// The first members, from the start or from an address.
#[derive(Drop)]
struct Listing<'a> {
    alloc: Global,
    pass: &'a Pass,
    expr: &'a Expr,
    from: Option<u64>,
    most: u64,
}

impl Question for Listing<'_> {
    ghost use Rattle.std.specs.Prelude.{◌<◌, IfSome};
    ghost use Rattle.std.specs.List.{sum_by};
    ghost use Rattle.gcl_model.specs.FormOf.{form_of};
    ghost use Rattle.gcl_model.specs.Limits.{far};
    ghost use Rattle.gcl_model.specs.WellFormed.{IsWellFormed};
    ghost use Rattle.live_version.specs.Contents.{version_text};
    ghost use Rattle.reader_pass.specs.Members.{access_most, look_ups};

    type Answer = Result<IntervalList, AllocError>;

    ghost can_ask = { λ q. IsWellFormed (form_of q.expr.now) × IfSome q.from (λ k. k < far) };

    ghost answers = { λ q answer. Unit {0} };

    ghost most = { λ q answer. sum_by (λ v. look_ups (version_text v) (access_most v) (form_of q.expr.now) q.most) q.pass.now.history };

    fn ask<L: Ledger>(&self, steps: &mut Steps<L>) -> Result<IntervalList, AllocError> {
        // this shows that the history has a last version, which bounds the look-ups
        let _version = self.pass.version();
        match self.from {
            None => pass_list(self.alloc, self.pass, self.expr, self.most, steps),
            Some(k) => pass_list_from(self.alloc, self.pass, self.expr, k, self.most, steps),
        }
    }
}

/// The first and the last address of each of the first members.
fn listed(
    alloc: Global,
    pass: &Pass,
    expr: &Expr,
    from: Option<u64>,
    most: u64,
) -> Result<Vec<(u64, u64)>, AllocError>
    requires below { IfSome from (λ k. k < far) }
    requires well_formed { IsWellFormed (form_of expr.now) }
{
    let list = uncounted(&Listing {
        alloc,
        pass,
        expr,
        from,
        most,
    })?;
    let mut members = Vec::new(alloc);
    for member in list.as_slice() {
        members.push((member.start, member.end))?;
    }
    Ok(members)
}

/// Whether the version with one more file, of these bytes, was published.
fn is_published<R: Wait>(rt: &R, alloc: Global, publisher: &mut Publisher, bytes: &[u8]) -> bool {
    match added(alloc, publisher, bytes) {
        Ok(Some(version)) => publisher.publish(rt, version).is_ok(),
        _ => false,
    }
}

/// A pass with one more file, of these bytes.
fn next_pass<R: Wait>(
    rt: &R,
    alloc: Global,
    publisher: &mut Publisher,
    bytes: &[u8],
) -> Option<Pass> {
    if is_published(rt, alloc, publisher, bytes) {
        publisher.pass().ok()
    } else {
        None
    }
}

/// A pass of one file of these bytes.
fn pass_on<R: Wait + Abort>(rt: &R, alloc: Global, bytes: &[u8]) -> Result<Pass, AllocError> {
    let opening = shared(alloc, Version::empty(alloc, 0))?;
    let (mut publisher, _readers) = Publisher::new(rt, alloc, opening, 0)?;
    let pass = next_pass(rt, alloc, &mut publisher, bytes);
    publisher.end(rt);
    Ok(pass.expect(rt, "one file"))
}

/// How many members the query has, and how many look-ups the count took.
fn count_of<R: Abort>(rt: &R, alloc: Global, pass: &Pass, text: &str) -> (u64, u64) {
    let expr = query(rt, alloc, text);
    counted(&Counting { pass, expr: &expr })
}

/// A hundred thousand `x`, with a `y` in their middle.
fn many_words(alloc: Global) -> Result<Vec<u8>, AllocError> {
    let mut bytes = Vec::new(alloc);
    for i in 0..100_001u32 {
        bytes.extend_from_slice(if i == 50_000 { b"y " } else { b"x " })?;
    }
    Ok(bytes)
}

#[test]
fn a_count_leaps_over_a_hundred_thousand_words(rt: HostRuntime) -> Result<(), Fail> {
    let pass = pass_on(&rt, rt.alloc(), &many_words(rt.alloc())?)?;
    let found = count_of(&rt, rt.alloc(), &pass, "\"x\"^\"y\"");
    same(&rt, &"members, and look-ups", &found, &(2, 10));
    Ok(())
}

const TERM_COUNTS: [(&str, u64); 5] = [
    ("\"to\"", 2),
    ("\"who\"", 0),
    ("\"to\"+\"be\"", 4),
    ("\"to\"+\"be\"+\"to\"", 4),
    ("\"who\"+\"not\"+\"who\"+\"not\"", 1),
];

#[test]
fn a_term_and_one_of_several_terms_are_counted_without_a_look_up(
    rt: HostRuntime,
) -> Result<(), Fail> {
    let pass = pass_on(&rt, rt.alloc(), b"to be or not to be")?;
    for (text, want) in &TERM_COUNTS {
        let found = count_of(&rt, rt.alloc(), &pass, text);
        same(&rt, text, &found, &(*want, 0));
    }
    let (members, _) = count_of(&rt, rt.alloc(), &pass, "\"to\"+\"not to\"");
    same(&rt, &"one of a term and a phrase", &members, &2);
    Ok(())
}

/// The first members, from the start or from an address, are these.
fn lists<R: Abort>(
    rt: &R,
    alloc: Global,
    pass: &Pass,
    expr: &Expr,
    from: Option<u64>,
    most: u64,
    want: &[(u64, u64)],
) -> Result<(), AllocError>
    requires below { IfSome from (λ k. k < far) }
    requires well_formed { IsWellFormed (form_of expr.now) }
{
    let members = listed(alloc, pass, expr, from, most)?;
    same(rt, &(from, most), &members.as_slice(), &want);
    Ok(())
}

const MEMBERS: [(u64, u64); 2] = [(1, 2), (5, 6)];

fn lists_as_many_as_are_wanted<R: Abort>(
    rt: &R,
    alloc: Global,
    pass: &Pass,
    expr: &Expr,
) -> Result<(), AllocError>
    requires { IsWellFormed (form_of expr.now) }
{
    for most in 0..4u64 {
        let want = &MEMBERS[..MEMBERS.len().min(most as usize)];
        lists(rt, alloc, pass, expr, None, most, want)?;
    }
    lists(rt, alloc, pass, expr, Some(2), 4, &MEMBERS[1..])
}

#[test]
fn the_first_members_are_listed(rt: HostRuntime) -> Result<(), Fail> {
    let pass = pass_on(&rt, rt.alloc(), b"to be or not to be")?;
    let expr = query(&rt, rt.alloc(), "\"to be\"");
    lists_as_many_as_are_wanted(&rt, rt.alloc(), &pass, &expr)?;
    Ok(())
}

/// Adds `times` files, and returns whether all were published.
fn add_all<R: Wait>(rt: &R, alloc: Global, publisher: &mut Publisher, times: u64) -> bool {
    for _ in 0..times {
        if !is_published(rt, alloc, publisher, b"to be or not to be") {
            return false;
        }
    }
    true
}

/// Counts the members on one pass after another, until there are `all`. Returns whether no count was below the previous one.
fn count_all(reader: &mut Reader, expr: &Expr, all: u64) -> bool
    requires { IsWellFormed (form_of expr.now) }
{
    let mut last = 0;
    for _ in 0..1u64 << 22 {
        let Ok(pass) = reader.enter() else {
            return false;
        };
        let members = uncounted(&Counting { pass: &pass, expr });
        if members < last {
            return false;
        }
        if members == all {
            return true;
        }
        last = members;
    }
    false
}

fn both_count<R: Threads + Sync>(
    rt: &R,
    first: &mut Reader,
    second: &mut Reader,
    expr: &Expr,
    all: u64,
) -> (bool, bool)
    requires { IsWellFormed (form_of expr.now) }
{
    join(
        rt,
        move || -> bool
            requires { IsWellFormed (form_of expr.now) }
        { count_all(first, expr, all) },
        move || -> bool
            requires { IsWellFormed (form_of expr.now) }
        { count_all(second, expr, all) },
    )
}

/// One thread adds files, each with two members, while two read.
fn add_beside_two<R: Threads + Wait + Sync>(
    rt: &R,
    alloc: Global,
    publisher: &mut Publisher,
    first: &mut Reader,
    second: &mut Reader,
    expr: &Expr,
) -> (bool, (bool, bool))
    requires { IsWellFormed (form_of expr.now) }
{
    join(
        rt,
        move || -> bool { add_all(rt, alloc, publisher, 30) },
        move || -> (bool, bool)
            requires { IsSync R.row × IsWellFormed (form_of expr.now) }
        { both_count(rt, first, second, expr, 60) },
    )
}

#[test]
fn one_thread_adds_while_two_read(rt: HostRuntime) -> Result<(), Fail> {
    let alloc = rt.alloc();
    let expr = query(&rt, alloc, "\"to be\"");
    let opening = shared(alloc, Version::empty(alloc, 0))?;
    let (mut publisher, mut readers) = Publisher::new(&rt, alloc, opening, 2)?;
    let done = match (readers.pop(), readers.pop()) {
        (Some(mut first), Some(mut second)) => {
            add_beside_two(&rt, alloc, &mut publisher, &mut first, &mut second, &expr)
        }
        _ => (false, (false, false)),
    };
    publisher.end(&rt);
    same(&rt, &"done", &done, &(true, (true, true)));
    Ok(())
}
