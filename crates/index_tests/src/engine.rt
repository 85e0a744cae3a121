ghost use Rattle.std.specs.Prelude.{◌≡◌, IfOk};
ghost use Rattle.collection.specs.Changes.{IsOpened};

use crate::checks::{holds, same};
use crate::fixtures::opened;
use address_space::{FileId, is_name};
use collection::{AddFault, AdoptFault, DeleteFault, Engine, OpenFault};
use gcl_model::ADDRESS_END;
use live_version::Version;
use manifest_publish::Reader;
use outside::{FreeGate, Gate};
use std::alloc::{AllocError, Global};
use std::cell::Cell;
use std::process::Abort;
use std::sync::Wait;
use std::test::*;

/// No test continues from a greater number.
const MOST: u64 = 1 << 61;

/// Adds a file, and returns its id, and its first and last address.
fn added<R: Wait>(rt: &R, engine: &mut Engine, bytes: &[u8]) -> Result<(FileId, u64, u64), AddFault>
    ensures { engine.new.publisher ≡ engine.old.publisher }
{
    if !is_name(b"b") {
        return Err(AddFault::NoMemory);
    }
    let added = engine.add(rt, b"b", bytes)?;
    Ok((added.id, added.first, added.last))
}

/// Merges, if there are numbers left for it, and returns whether it did.
fn merged<R: Wait, G: Gate>(rt: &R, engine: &mut Engine, gate: &G) -> bool {
    engine.version().number() < MOST && engine.merge_all(rt, gate).is_ok()
}

/// The number, the edition, the first and the next address, the next id and the deletions.
fn numbers(engine: &Engine) -> [u64; 6] {
    let version = engine.version();
    [
        version.number(),
        version.edition(),
        version.first(),
        version.next(),
        version.next_id(),
        version.dels(),
    ]
}

/// How many addresses each slot has.
fn widths(alloc: Global, version: &Version) -> Result<Vec<u64>, AllocError> {
    let mut widths = Vec::new(alloc);
    for slot in version.slots() {
        let range = slot.range();
        widths.push(range.last - range.first + 1)?;
    }
    Ok(widths)
}

/// A version of no file, from which two were deleted before it was saved.
fn image(alloc: Global) -> Result<Version, AllocError>
    ensures { IfOk result IsOpened }
{
    let version = Version::of_slot(alloc, 7, 12, 2, None)?;
    Ok(version)
}

/// Puts the image in the place of what is there, if there are numbers left for it.
fn adopted<R: Wait>(rt: &R, alloc: Global, engine: &mut Engine) -> Result<u64, AdoptFault> {
    let version = image(alloc)?;
    if MOST <= engine.version().number() {
        return Err(AdoptFault::NoMemory);
    }
    let receipt = engine.adopt(rt, version)?;
    Ok(receipt.number)
}

/// A call of an engine with what it answers, or what the engine has then.
#[derive(Clone, Copy)]
enum Step {
    Add(&'static [u8], Result<(FileId, u64, u64), AddFault>),
    Delete(u64, Result<u64, DeleteFault>),
    Merge,
    /// The image of no file is put in the place of what is there.
    Adopt(Result<u64, AdoptFault>),
    Numbers([u64; 6]),
}

/// An add, a deletion or a merge gives the answer of the step.
fn is_made<R: Wait + Abort>(rt: &R, engine: &mut Engine, place: usize, step: &Step) {
    match step {
        Step::Add(bytes, want) => same(rt, &place, &added(rt, engine, bytes), want),
        Step::Delete(id, want) => {
            let answer = engine.delete(rt, FileId(*id)).map(|receipt| receipt.number);
            same(rt, &place, &answer, want);
        }
        Step::Merge => holds(rt, &place, merged(rt, engine, &FreeGate)),
        _ => {}
    }
}

/// The step at a place gives its answer, or the engine has its numbers.
fn is_so<R: Wait + Abort>(rt: &R, alloc: Global, engine: &mut Engine, place: usize, step: &Step) {
    match step {
        Step::Adopt(want) => same(rt, &place, &adopted(rt, alloc, engine), want),
        Step::Numbers(want) => same(rt, &place, &numbers(engine), want),
        _ => is_made(rt, engine, place, step),
    }
}

/// An engine that is opened at this address passes these steps.
fn goes<R: Wait + Abort>(
    rt: &R,
    alloc: Global,
    first: u64,
    steps: &[Step],
) -> Result<(), OpenFault> {
    let (mut engine, _readers) = opened(rt, alloc, first, 1)?;
    for (place, step) in steps.iter().enumerate() {
        is_so(rt, alloc, &mut engine, place, step);
    }
    engine.end(rt);
    Ok(())
}

/// The slots have these widths, and these are the numbers.
fn has<R: Abort>(
    rt: &R,
    alloc: Global,
    engine: &Engine,
    widths_are: &[u64],
    numbers_are: [u64; 6],
) {
    let found = widths(alloc, engine.version()).expect(rt, "memory");
    same(rt, &numbers_are, &found.as_slice(), &widths_are);
    same(rt, &"numbers", &numbers(engine), &numbers_are);
}

#[test]
fn an_engine_opens_up_to_the_end_of_addresses(rt: HostRuntime) -> Result<(), Fail> {
    match opened(&rt, rt.alloc(), ADDRESS_END + 1, 1) {
        Err(fault) => same(
            &rt,
            &"a fault",
            &fault,
            &OpenFault::BadFirst(72_057_594_037_927_937),
        ),
        Ok((engine, _readers)) => {
            engine.end(&rt);
            holds(&rt, &"an engine above the end of addresses", false);
        }
    }
    Ok(())
}

const AT_END: [Step; 2] = [
    Step::Add(
        b"",
        Err(AddFault::AddressesSpent {
            next: 72_057_594_037_927_936,
            need: 2,
        }),
    ),
    Step::Numbers([0, 0, ADDRESS_END, ADDRESS_END, 0, 0]),
];

#[test]
fn no_address_is_left_at_the_end(rt: HostRuntime) -> Result<(), Fail> {
    goes(&rt, rt.alloc(), ADDRESS_END, &AT_END)?;
    Ok(())
}

const BEFORE_END: [Step; 2] = [
    Step::Add(
        b"to be or not to be",
        Ok((FileId(0), ADDRESS_END - 8, ADDRESS_END - 1)),
    ),
    Step::Add(
        b"",
        Err(AddFault::AddressesSpent {
            next: ADDRESS_END,
            need: 2,
        }),
    ),
];

#[test]
fn the_last_addresses_are_given(rt: HostRuntime) -> Result<(), Fail> {
    goes(&rt, rt.alloc(), ADDRESS_END - 8, &BEFORE_END)?;
    Ok(())
}

/// After `adds` adds of a file without words the slots have these widths, and each add was published once.
fn grows<R: Wait + Abort>(
    rt: &R,
    alloc: Global,
    adds: u64,
    next: u64,
    want: &[u64],
) -> Result<(), OpenFault> {
    let (mut engine, _readers) = opened(rt, alloc, 0, 1)?;
    for _ in 0..adds {
        let _ = added(rt, &mut engine, b"");
    }
    has(rt, alloc, &engine, want, [adds, adds, 0, next, adds, 0]);
    engine.end(rt);
    Ok(())
}

// How many files are added, the next address, and the widths of the slots.
const GROWN: [(u64, u64, &[u64]); 7] = [
    (0, 0, &[]),
    (1, 2, &[2]),
    (2, 4, &[4]),
    (5, 10, &[10]),
    (6, 12, &[10, 2]),
    (7, 14, &[14]),
    (33, 66, &[62, 4]),
];

#[test]
fn the_last_slots_are_made_one_and_each_add_publishes_once(rt: HostRuntime) -> Result<(), Fail> {
    for (adds, next, want) in &GROWN {
        grows(&rt, rt.alloc(), *adds, *next, want)?;
    }
    Ok(())
}

/// What a gate was called with: before a publication, and after one.
#[derive(Drop)]
struct Told {
    before: Cell<Option<u64>>,
    after: Cell<Option<u64>>,
    in_order: Cell<bool>,
}

impl Gate for Told {
    fn before_query(&self, _n: u64) {}

    fn after_query(&self, _n: u64, _version: u64) {}

    fn before_publish(&self, n: u64) {
        self.in_order.set(self.after.get().is_none());
        self.before.set(Some(n));
    }

    fn after_publish(&self, n: u64) {
        self.in_order
            .set(self.in_order.get() && self.before.get() == Some(n));
        self.after.set(Some(n));
    }
}

/// The number that a gate was called with after the merge made here. Returns None if it was called out of order.
fn told_of_merge<R: Wait>(rt: &R, engine: &mut Engine) -> Option<u64> {
    let gate = Told {
        before: Cell::new(None),
        after: Cell::new(None),
        in_order: Cell::new(false),
    };
    merged(rt, engine, &gate);
    if gate.in_order.get() {
        gate.after.get()
    } else {
        None
    }
}

/// Adds these files, and deletes the first `deletions` of them.
fn filled<R: Wait>(rt: &R, engine: &mut Engine, files: &[&[u8]], deletions: u64) {
    for bytes in files {
        let _ = added(rt, engine, bytes);
    }
    for id in 0..deletions {
        let _ = engine.delete(rt, FileId(id));
    }
}

/// After these files, this number of deletions and a merge, the slots and the numbers are these, and the gate was called.
fn merges<R: Wait + Abort>(
    rt: &R,
    alloc: Global,
    changes: (&[&[u8]], u64),
    want: (&[u64], [u64; 6]),
) -> Result<(), OpenFault> {
    let (mut engine, _readers) = opened(rt, alloc, 5, 1)?;
    filled(rt, &mut engine, changes.0, changes.1);
    let told = told_of_merge(rt, &mut engine);
    same(rt, &"told", &told, &Some(want.1[0]));
    has(rt, alloc, &engine, want.0, want.1);
    engine.end(rt);
    Ok(())
}

const LONG: &[u8] = b"to be or not to be";

// Files, how many of the first are deleted, and the widths of the slots and the numbers after a merge.
const MERGED: [(&[&[u8]], u64, &[u64], [u64; 6]); 6] = [
    (&[], 0, &[], [1, 0, 5, 5, 0, 0]),
    (&[LONG], 0, &[8], [2, 1, 5, 13, 1, 0]),
    (&[LONG], 1, &[], [3, 2, 5, 13, 1, 1]),
    (&[LONG, b"", b""], 0, &[12], [4, 3, 5, 17, 3, 0]),
    (&[LONG, b"", b""], 1, &[12], [5, 4, 5, 17, 3, 1]),
    (&[LONG, b"", b""], 3, &[], [7, 6, 5, 17, 3, 3]),
];

#[test]
fn a_merge_leaves_one_slot_or_none_and_tells_the_gate(rt: HostRuntime) -> Result<(), Fail> {
    for (files, deletions, widths, numbers) in &MERGED {
        merges(&rt, rt.alloc(), (*files, *deletions), (*widths, *numbers))?;
    }
    Ok(())
}

/// The numbers of the next pass.
fn entered(reader: &mut Reader) -> Option<[u64; 3]> {
    let pass = reader.enter().ok()?;
    let version = pass.version();
    Some([version.number(), version.edition(), version.next()])
}

/// The next pass is the first version, with one file.
fn enters<R: Abort>(rt: &R, reader: &mut Reader) {
    same(rt, &"entered", &entered(reader), &Some([1, 1, 8]));
}

/// A file is added. The first reader learns the receipt and enters, then the second, which learnt nothing, enters.
fn both_enter<R: Wait + Abort>(rt: &R, engine: &mut Engine, first: &mut Reader, second: &mut Reader)
    requires { first.old.publisher ≡ engine.old.publisher }
{
    let _ = added(rt, engine, b"to be or not to be");
    first.learn(engine.receipt());
    enters(rt, first);
    enters(rt, second);
}

/// The receipt and the pass are of the first version, with one file.
fn shows_one_file<R: Abort>(rt: &R, engine: &Engine) -> Result<(), AllocError> {
    let receipt = engine.receipt();
    let told = (receipt.number, receipt.edition);
    same(rt, &"receipt", &told, &(1, 1));
    same(rt, &"next", &engine.pass()?.version().next(), &8);
    Ok(())
}

#[test]
fn readers_see_what_was_published_whether_they_learn_it_or_not(
    rt: HostRuntime,
) -> Result<(), Fail> {
    let (mut engine, mut readers) = opened(&rt, rt.alloc(), 0, 2)?;
    same(&rt, &"readers", &readers.len(), &2);
    if let (Some(mut first), Some(mut second)) = (readers.pop(), readers.pop()) {
        both_enter(&rt, &mut engine, &mut first, &mut second);
    }
    let shown = shows_one_file(&rt, &engine);
    engine.end(&rt);
    shown?;
    Ok(())
}

const REFUSED: [Step; 8] = [
    Step::Add(b"to be", Ok((FileId(0), 3, 6))),
    Step::Numbers([1, 1, 3, 7, 1, 0]),
    Step::Delete(1, Err(DeleteFault::NotLive(FileId(1)))),
    Step::Numbers([1, 1, 3, 7, 1, 0]),
    Step::Delete(0, Ok(2)),
    Step::Numbers([2, 2, 3, 7, 1, 1]),
    Step::Delete(0, Err(DeleteFault::NotLive(FileId(0)))),
    Step::Numbers([2, 2, 3, 7, 1, 1]),
];

#[test]
fn a_refusal_leaves_all_as_it_was(rt: HostRuntime) -> Result<(), Fail> {
    goes(&rt, rt.alloc(), 3, &REFUSED)?;
    Ok(())
}

const OPENED: [Step; 6] = [
    Step::Merge,
    Step::Adopt(Ok(2)),
    Step::Numbers([2, 1, 7, 12, 2, 0]),
    Step::Adopt(Err(AdoptFault::NotEmpty(2))),
    Step::Add(b"", Ok((FileId(2), 12, 13))),
    Step::Numbers([3, 2, 7, 14, 3, 0]),
];

#[test]
fn an_image_is_opened_where_there_never_was_a_file(rt: HostRuntime) -> Result<(), Fail> {
    goes(&rt, rt.alloc(), 0, &OPENED)?;
    Ok(())
}
