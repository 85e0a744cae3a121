ghost use Rattle.std.specs.Prelude.{◌≡◌, ◌≤◌, ◌++◌, ◌∷◌, [], IfOk, IfSome};
ghost use Rattle.gcl_model.specs.Limits.{most_readers};
ghost use Rattle.manifest_publish.specs.Histories.{IsLawful};

use crate::checks::same;
use address_space::{FileId, FileRecord, is_name};
use gcl_model::{ADDRESS_END, Bytes};
use live_version::Version;
use manifest_publish::{EnterFault, Publisher, Reader, Receipt};
use shard_build::build;
use std::alloc::{AllocError, Global};
use std::marker::{Brand, PhantomData};
use std::process::Abort;
use std::sync::{Arc, Mutex, Wait};
use std::test::*;
use std::thread::{Threads, join};
use word_tokens::tokens;

/// No test continues from a greater number.
const MOST: u64 = 1 << 62;

pub(crate) fn shared(alloc: Global, version: Version) -> Result<Arc<Version>, AllocError>
    ensures { IfOk result (λ shared. shared.value ≡ version) }
{
    match Arc::new(alloc, version) {
        Ok(shared) => Ok(shared),
        Err(_) => Err(AllocError),
    }
}

/// The last version with one more file, of these bytes. Returns None if numbers, addresses or slots are spent.
pub(crate) fn added(
    alloc: Global,
    publisher: &Publisher,
    bytes: &[u8],
) -> Result<Option<Arc<Version>>, AllocError>
    ensures { IfOk result (λ next. IfSome next (λ version. IsLawful (publisher.now.history ++ version.value ∷ []))) }
{
    let last: &Version = publisher.current();
    let base = last.next();
    let id = last.next_id();
    let words = tokens(alloc, bytes)?;
    let count = words.len() as u64;
    if last.number() >= MOST
        || id >= MOST
        || last.slot_count() >= 32
        || count >= ADDRESS_END - 2
        || base > ADDRESS_END - 2 - count
    {
        return Ok(None);
    }
    if !is_name(b"a") {
        return Ok(None);
    }
    let shard = build(alloc, base, &words)?;
    let file = FileRecord {
        id: FileId(id),
        base,
        len: count + 2,
        name: Bytes::copy_of(alloc, b"a")?,
    };
    let version = last.with_file(file, shard)?;
    Ok(Some(shared(alloc, version)?))
}

/// A version of the same collection. Returns None if numbers are spent.
fn merged(alloc: Global, publisher: &Publisher) -> Result<Option<Arc<Version>>, AllocError>
    ensures { IfOk result (λ next. IfSome next (λ version. IsLawful (publisher.now.history ++ version.value ∷ []))) }
{
    let last: &Version = publisher.current();
    if last.number() >= MOST {
        return Ok(None);
    }
    let version = last.with_slot(0, 0, None)?;
    Ok(Some(shared(alloc, version)?))
}

/// The number and the edition of the next version that a reader enters.
fn entered(reader: &mut Reader) -> Result<(u64, u64), EnterFault>
    ensures { reader.new.publisher ≡ reader.old.publisher }
{
    let pass = reader.enter()?;
    Ok((pass.version().number(), pass.version().edition()))
}

/// One file is added. The first reader learns the receipt and enters, then the second, which learnt nothing, enters.
fn both_enter<R: Wait>(
    rt: &R,
    alloc: Global,
    publisher: &mut Publisher,
    first: &mut Reader,
    second: &mut Reader,
) -> Option<[(u64, u64); 3]>
    requires { first.old.publisher ≡ publisher.old.publisher }
{
    let version = added(alloc, publisher, b"").ok()??;
    let receipt = publisher.publish(rt, version).ok()?;
    let told = (receipt.number, receipt.edition);
    first.learn(receipt);
    Some([told, entered(first).ok()?, entered(second).ok()?])
}

#[test]
fn a_reader_that_learnt_nothing_sees_what_is_published(rt: HostRuntime) -> Result<(), Fail> {
    let opening = shared(rt.alloc(), Version::empty(rt.alloc(), 5))?;
    let (mut publisher, mut readers) = Publisher::new(&rt, rt.alloc(), opening, 2)?;
    let made = readers.len();
    let numbers = match (readers.pop(), readers.pop()) {
        (Some(mut first), Some(mut second)) => {
            both_enter(&rt, rt.alloc(), &mut publisher, &mut first, &mut second)
        }
        _ => None,
    };
    let receipt = publisher.receipt();
    let pass = publisher.pass();
    publisher.end(&rt);
    same(&rt, &"readers", &made, &2);
    same(&rt, &"numbers", &numbers, &Some([(1, 1); 3]));
    let told = (receipt.number, receipt.edition);
    same(&rt, &"receipt", &told, &(1, 1));
    same(&rt, &"next", &pass?.version().next(), &7);
    Ok(())
}

/// How many readers a publisher is made with if `readers` are asked for.
fn readers_made<R: Wait>(rt: &R, alloc: Global, readers: usize) -> Result<usize, AllocError>
    requires { readers ≤ most_readers }
{
    let opening = shared(alloc, Version::empty(alloc, 5))?;
    let (publisher, made) = Publisher::new(rt, alloc, opening, readers)?;
    publisher.end(rt);
    Ok(made.len())
}

#[test]
fn as_many_readers_are_made_as_are_asked_for(rt: HostRuntime) -> Result<(), Fail> {
    for readers in [0, 1, 16] {
        let made = readers_made(&rt, rt.alloc(), readers)?;
        same(&rt, &"readers", &made, &readers);
    }
    Ok(())
}

/// Publishes a version of the same collection, and lets the reader learn its receipt.
fn told<R: Wait>(
    rt: &R,
    alloc: Global,
    publisher: &mut Publisher,
    reader: &mut Reader,
) -> Option<u64>
    requires { reader.old.publisher ≡ publisher.old.publisher }
    ensures { reader.new.publisher ≡ reader.old.publisher }
{
    let version = merged(alloc, publisher).ok()??;
    let receipt = publisher.publish(rt, version).ok()?;
    let number = receipt.number;
    reader.learn(receipt);
    Some(number)
}

/// The number of the version whose receipt the first reader learnt, and both readers of its publisher, which has ended.
fn told_and_ended<R: Wait>(
    rt: &R,
    alloc: Global,
) -> Result<Option<(Option<u64>, Reader, Reader)>, AllocError> {
    let opening = shared(alloc, Version::empty(alloc, 5))?;
    let (mut publisher, mut readers) = Publisher::new(rt, alloc, opening, 2)?;
    let ends = match (readers.pop(), readers.pop()) {
        (Some(mut first), Some(second)) => {
            let number = told(rt, alloc, &mut publisher, &mut first);
            Some((number, first, second))
        }
        _ => None,
    };
    publisher.end(rt);
    Ok(ends)
}

/// The first reader is owed a version, and the second one gets its last pass.
fn are_left<R: Abort>(rt: &R, first: &mut Reader, second: &mut Reader) {
    let owed = Err(EnterFault::NoEntry(0));
    same(rt, &"first", &entered(first), &owed);
    same(rt, &"second", &entered(second), &Ok((0, 0)));
}

#[test]
fn once_the_publisher_has_ended_a_reader_gets_its_last_pass_or_is_owed_more(
    rt: HostRuntime,
) -> Result<(), Fail> {
    let ends = told_and_ended(&rt, rt.alloc())?;
    let (number, mut first, mut second) = ends.expect(&rt, "two readers");
    same(&rt, &"told", &number, &Some(1));
    are_left(&rt, &mut first, &mut second);
    Ok(())
}

/// Names one publisher.
pub trait Named {
    ghost use Rattle.logbook.specs.Pages.{Book};

    ghost publisher: { Book };
}

impl Named for Brand {
    ghost publisher = { record { number = 0; log_name = 0; cells_name = 0 } };
}

/// A receipt of the publisher of this name: what is under a lock is known only by its type.
#[derive(Drop)]
pub struct Posted<N: Named> {
    receipt: Receipt,
    of: PhantomData<N>,
    ghost named: { receipt.publisher ≡ N.publisher },
}

/// Publishes `times` versions, and posts the receipt of each. Returns how many it published.
fn write_all<N: Named, R: Wait>(
    rt: &R,
    alloc: Global,
    publisher: &mut Publisher,
    post: &Mutex<Option<Posted<N>>>,
    times: u64,
) -> u64
    requires { publisher.old.publisher ≡ N.publisher }
{
    for count in 0..times {
        let Ok(Some(version)) = merged(alloc, publisher) else {
            return count;
        };
        let Ok(receipt) = publisher.publish(rt, version) else {
            return count;
        };
        let posted = Posted {
            receipt,
            of: PhantomData,
        };
        *post.lock(rt) = Some(posted);
    }
    times
}

/// Enters `times` times, and each time first learns the last receipt, if there is one. Returns whether each number was at least
/// that of the receipt and that of the previous version.
fn read_all<N: Named, R: Wait>(
    rt: &R,
    reader: &mut Reader,
    post: &Mutex<Option<Posted<N>>>,
    times: u64,
) -> bool
    requires { reader.old.publisher ≡ N.publisher }
{
    let mut last = 0;
    for _ in 0..times {
        let mut least = last;
        if let Some(posted) = post.lock(rt).take() {
            let Posted { receipt, of: _of } = posted;
            least = least.max(receipt.number);
            reader.learn(receipt);
        }
        match entered(reader) {
            Ok((number, _)) if least <= number => last = number,
            _ => return false,
        }
    }
    true
}

/// One thread publishes while the other reads.
fn write_and_read<N: Named + Send + Sync, R: Threads + Wait + Sync>(
    rt: &R,
    alloc: Global,
    publisher: &mut Publisher,
    reader: &mut Reader,
    writes: u64,
    reads: u64,
) -> (u64, bool)
    requires publisher { publisher.old.publisher ≡ N.publisher }
    requires reader { reader.old.publisher ≡ N.publisher }
{
    let post: Mutex<Option<Posted<N>>> = Mutex::new(None);
    let lock = &post;
    join(
        rt,
        move || -> u64
            requires { publisher.now.publisher ≡ N.publisher }
        { write_all(rt, alloc, publisher, lock, writes) },
        move || -> bool
            requires { reader.now.publisher ≡ N.publisher }
        { read_all(rt, reader, lock, reads) },
    )
}

fn beside<R: Threads + Wait + Sync>(
    rt: &R,
    alloc: Global,
    publisher: &mut Publisher,
    reader: &mut Reader,
    writes: u64,
    reads: u64,
) -> (u64, bool)
    requires { reader.old.publisher ≡ publisher.old.publisher }
{
    write_and_read::<Brand, R>(rt, alloc, publisher, reader, writes, reads)
}

/// `writes` publications concurrently with `reads` enterings, and then one more entering. Returns how many were published,
/// whether no number fell, and the last number.
fn numbers_beside<R: Threads + Wait + Sync>(
    rt: &R,
    alloc: Global,
    writes: u64,
    reads: u64,
) -> Result<Option<(u64, bool, u64)>, AllocError> {
    let opening = shared(alloc, Version::empty(alloc, 5))?;
    let (mut publisher, mut readers) = Publisher::new(rt, alloc, opening, 1)?;
    let numbers = match readers.pop() {
        Some(mut reader) => {
            let (done, rises) = beside(rt, alloc, &mut publisher, &mut reader, writes, reads);
            entered(&mut reader)
                .ok()
                .map(|(number, _)| (done, rises, number))
        }
        None => None,
    };
    publisher.end(rt);
    Ok(numbers)
}

#[test]
fn no_reader_goes_back_beside_a_publisher_that_runs(rt: HostRuntime) -> Result<(), Fail> {
    for (writes, reads) in [(100, 100), (1_000, 10_000)] {
        let numbers = numbers_beside(&rt, rt.alloc(), writes, reads)?;
        same(&rt, &reads, &numbers, &Some((writes, true, writes)));
    }
    Ok(())
}
