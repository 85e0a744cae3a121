ghost use Rattle.std.specs.Prelude.{◌≡◌, ◌≤◌, ◌<◌, length, IfOk};
ghost use Rattle.gcl_model.specs.FormOf.{form_of};
ghost use Rattle.gcl_model.specs.Limits.{most_readers};
ghost use Rattle.gcl_model.specs.WellFormed.{IsWellFormed};
ghost use Rattle.query_lanes.specs.Readers.{AreOf};

pub(crate) use crate::fixtures::opened;
use address_space::is_name;
use collection::{Engine, Opened};
use gcl_model::Expr;
use gcl_parser::{ParseFault, QueryFault, parse};
use manifest_publish::Reader;
use outside::{FreeGate, Gate, TurnGate};
use query_lanes::{Ask, Asked, Context, Found, answer_batch};
use query_search::Listing;
use std::alloc::{AllocError, Global};
use std::sync::{Arc, Wait};
use std::test::Fail;
use std::thread::Threads;

/// No test continues from a greater number.
pub(crate) const MOST: u64 = 1 << 61;

/// Queries over `to be or not to be`, starting at address 0, and what each finds: the first and last address of each member, their number,
/// or the place of a fault.
const TABLE: [(Asked, &[u8], &[u64]); 7] = [
    (Asked::All, b"\"to\"", &[1, 1, 5, 5]),
    (Asked::Number, b"\"be\"", &[2]),
    (Asked::First(1), b"\"to be\"", &[1, 2]),
    (Asked::All, b"\"to", &[0]),
    (Asked::All, b"\"or\"..\"be\"", &[3, 6]),
    (Asked::First(9), b"\"be\"", &[2, 2, 6, 6]),
    (Asked::Number, b"\"nobody\"", &[0]),
];

fn shared(alloc: Global, expr: Expr) -> Result<Arc<Expr>, AllocError>
    ensures { IfOk result (λ shared. shared.value ≡ expr) }
{
    match Arc::new(alloc, expr) {
        Ok(shared) => Ok(shared),
        Err(_) => Err(AllocError),
    }
}

pub(crate) fn query(alloc: Global, text: &[u8]) -> Result<Result<Arc<Expr>, QueryFault>, AllocError>
    ensures { IfOk result (λ query. IfOk query (λ expr. IsWellFormed (form_of expr.value))) }
{
    match parse(alloc, text) {
        Ok(expr) => {
            let expr = shared(alloc, expr)?;
            Ok(Ok(expr))
        }
        Err(ParseFault::Query(fault)) => Ok(Err(fault)),
        Err(ParseFault::NoMemory) => Err(AllocError),
    }
}

/// The queries of the table, numbered from 1.
fn asks(alloc: Global) -> Result<Vec<Ask>, AllocError> {
    let mut asks = Vec::new(alloc);
    for (i, (asked, text, _)) in TABLE.iter().enumerate() {
        let query = query(alloc, text)?;
        asks.push(Ask {
            number: i as u64 + 1,
            asked: *asked,
            query,
        })?;
    }
    Ok(asks)
}

/// Puts the first and last address of each member, of at most ten pages.
fn put_members(
    alloc: Global,
    listing: &mut Listing,
    numbers: &mut Vec<u64>,
) -> Result<(), AllocError> {
    for _ in 0..10 {
        let Some(page) = listing.next_page(alloc)? else {
            return Ok(());
        };
        for member in page.as_slice() {
            numbers.push(member.start)?;
            numbers.push(member.end)?;
        }
    }
    Ok(())
}

/// The numbers of an answer, as the table has them.
fn numbers(alloc: Global, found: &mut Found) -> Result<Vec<u64>, AllocError> {
    let mut numbers = Vec::new(alloc);
    match found {
        Found::List(listing) => put_members(alloc, listing, &mut numbers)?,
        Found::Total(count) => numbers.push(*count)?,
        Found::Refused(fault) => numbers.push(fault.at)?,
    }
    Ok(numbers)
}

fn added<R: Wait>(rt: &R, engine: &mut Engine) -> bool
    ensures { engine.new.publisher ≡ engine.old.publisher }
{
    is_name(b"a") && engine.add(rt, b"a", b"to be or not to be").is_ok()
}

/// The answers to the first `count` of the table's queries, in order.
fn answered<R: Threads + Wait + Sync, G: Gate + Sync>(
    rt: &R,
    alloc: Global,
    gate: &G,
    pending: bool,
    count: usize,
    engine: &mut Engine,
    readers: &mut [Reader],
) -> Result<Vec<Found>, AllocError>
    requires few { length readers.old ≤ most_readers }
    requires of { AreOf engine.old.publisher readers.old }
    ensures { AreOf engine.new.publisher readers.new }
{
    if engine.version().number() >= MOST {
        return Err(AllocError);
    }
    let asks = asks(alloc)?;
    let (asks, _) = asks.as_slice().split_at(count.min(asks.len()));
    let context = Context { rt, alloc, gate };
    let answers = answer_batch(&context, asks, pending, engine, readers)?;
    Ok(answers)
}

/// Whether these are the answers that the table has to its first `count` queries.
fn are_those_of_the_table(
    alloc: Global,
    count: usize,
    answers: &mut [Found],
) -> Result<bool, AllocError> {
    if answers.len() != count {
        return Ok(false);
    }
    for (found, (_, _, want)) in answers.iter_mut().zip(TABLE.iter()) {
        if numbers(alloc, found)?.as_slice() != *want {
            return Ok(false);
        }
    }
    Ok(true)
}

/// Whether batches of all queries, of one, and of none are answered as the table has it, concurrently with a merge and without one.
fn answers_batches<R: Threads + Wait + Sync>(
    rt: &R,
    alloc: Global,
    engine: &mut Engine,
    readers: &mut [Reader],
) -> Result<bool, AllocError>
    requires few { length readers.old ≤ most_readers }
    requires of { AreOf engine.old.publisher readers.old }
{
    for (pending, count) in [
        (false, 7),
        (true, 7),
        (false, 7),
        (true, 1),
        (false, 1),
        (true, 0),
    ] {
        let mut answers = answered(rt, alloc, &FreeGate, pending, count, engine, readers)?;
        if !are_those_of_the_table(alloc, count, answers.as_mut_slice())? {
            return Ok(false);
        }
    }
    Ok(true)
}

fn batches_are_answered<R: Threads + Wait + Sync>(
    rt: &R,
    alloc: Global,
    readers: usize,
) -> Result<bool, AllocError>
    requires { readers ≤ most_readers }
{
    let Opened {
        mut engine,
        mut readers,
        lines: _lines,
    } = opened(rt, alloc, readers)?;
    let answered = added(rt, &mut engine)
        && answers_batches(rt, alloc, &mut engine, readers.as_mut_slice()) == Ok(true);
    engine.end(rt);
    Ok(answered)
}

#[test]
fn any_number_of_readers_gives_the_same_answers(rt: HostRuntime) -> Result<(), Fail> {
    for readers in [0, 1, 4, 16] {
        let answered = batches_are_answered(&rt, rt.alloc(), readers)?;
        assert!(rt; answered, "{readers} readers");
    }
    Ok(())
}

/// On which versions the first two queries of a batch concurrent with a merge were answered, if the merge waits for the second and the
/// second for the merge, and all answers are those of the table.
fn take_turns<R: Threads + Wait + Sync>(
    rt: &R,
    alloc: Global,
) -> Result<Option<(u64, u64)>, AllocError> {
    let Opened {
        mut engine,
        mut readers,
        lines: _lines,
    } = opened(rt, alloc, 1)?;
    let gate = TurnGate::new();
    let answered = added(rt, &mut engine)
        && match answered(
            rt,
            alloc,
            &gate,
            true,
            7,
            &mut engine,
            readers.as_mut_slice(),
        ) {
            Ok(mut answers) => {
                are_those_of_the_table(alloc, 7, answers.as_mut_slice()) == Ok(true)
            }
            Err(_) => false,
        };
    engine.end(rt);
    if !answered || gate.ran_out() {
        return Ok(None);
    }
    Ok(Some((gate.answered_on(1), gate.answered_on(2))))
}

#[test]
fn a_merge_in_another_thread_comes_between_two_queries(rt: HostRuntime) -> Result<(), Fail> {
    let versions = take_turns(&rt, rt.alloc())?;
    assert_eq!(rt; versions, Some((1, 2)));
    Ok(())
}
