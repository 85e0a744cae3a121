ghost use Rattle.std.specs.Prelude.{◌≡◌, [], Option, IfOk, OnOk};
ghost use Rattle.std.specs.List.{AllByRecursion};
ghost use Rattle.outside.specs.Contents.{Contents};
ghost use Rattle.gcl_model.specs.FormOf.{form_of};
ghost use Rattle.gcl_model.specs.WellFormed.{IsWellFormed};
ghost use Rattle.grep_run.specs.Requests.{Request, request_of};
ghost use Rattle.grep_run.specs.inner.Works.{AreReady, AreSound, IsReady, IsSound};

use crate::buffer::large_buffer;
use crate::context::Context;
use crate::hand::{Hand, go_to_taken};
use crate::shared_files::SharedFiles;
use crate::taking::Taking;
use crate::wish::Wish;
use crate::work::Work;
use gcl_model::Bytes;
use outside::Files;
use std::alloc::{AllocError, Global};
use std::thread::{Threads, for_each_mut};

/// After this many loaded bytes the first files are written, so that the first answers come soon. Each later round loads twice as many.
const FIRST_LOADED: u64 = 1 << 20;

/// The most that this number grows to.
const MOST_LOADED: u64 = 1 << 26;

/// What threads found in the files whose turn comes next, in reverse order.
#[derive(Drop)]
pub(crate) struct Ahead {
    pub(crate) ready: Vec<Option<Work>>,
    /// How many files were visited.
    gone: usize,
    most_loaded: u64,
}

/// Hands for `threads` threads, or fewer if the files give fewer handles.
pub(crate) fn hands_on<F: SharedFiles>(
    alloc: Global,
    files: &F,
    threads: usize,
) -> Result<Vec<Hand<F::Handle>>, AllocError>
    ensures { IfOk result (λ hands. AllByRecursion (λ hand. F.Handle.held hand.files ≡ F.held files.now) hands.items) }
{
    let mut hands = Vec::new(alloc);
    for _ in 0..threads {
        let Some(files) = files.handle() else {
            return Ok(hands);
        };
        hands.push(Hand {
            files,
            buffer: large_buffer(alloc),
            works: Vec::new(alloc),
            lacks_memory: false,
        })?;
    }
    Ok(hands)
}

/// Puts what was found in a file at its place.
fn put(ready: &mut Vec<Option<Work>>, work: Work)
    ensures { (told : Option Contents) (r : Request) → AreReady told r ready.old.items → IsSound told r work →
        AreReady told r ready.new.items }
{
    let place = work.place;
    if place < ready.len() {
        let at = ready.len() - 1 - place;
        ready[at] = Some(work);
    }
}

/// Puts what a thread found where it belongs.
fn put_all(ready: &mut Vec<Option<Work>>, works: &mut Vec<Work>)
    ensures { (told : Option Contents) (r : Request) → AreReady told r ready.old.items → AreSound told r works.old.items →
        AreReady told r ready.new.items }
{
    while let Some(work) = works.pop() {
        put(ready, work);
    }
}

/// Puts what all threads found where it belongs, and says whether one of them lacked memory.
#[cycle(gather)]
fn gather<D: Files>(ready: &mut Vec<Option<Work>>, hands: &mut [Hand<D>]) -> bool
    ensures ready { (told : Option Contents) (r : Request) → AreReady told r ready.old.items →
        AllByRecursion (λ hand. AreSound told r hand.works.items) hands.old →
        AreReady told r ready.new.items }
    ensures held { (told : Option Contents) → AllByRecursion (λ hand. D.held hand.files ≡ told) hands.old →
        AllByRecursion (λ hand. D.held hand.files ≡ told) hands.new }
{
    let Some((hand, others)) = hands.split_first_mut() else {
        return false;
    };
    put_all(ready, &mut hand.works);
    let lacks_memory = hand.lacks_memory;
    let others_lack = gather(ready, others);
    lacks_memory | others_lack
}

/// `count` files in which nothing is found.
fn nothing(alloc: Global, count: usize) -> Result<Vec<Option<Work>>, AllocError>
    ensures { IfOk result (λ ready. (told : Option Contents) (r : Request) → AreReady told r ready.items) }
{
    let mut ready = Vec::with_capacity(alloc, count)?;
    for _ in 0..count {
        ready.push(None)?;
    }
    Ok(ready)
}

/// Searches files in threads. Each takes the next file until `taking` has enough.
fn search_all<R: Threads + Sync, D: Files + Send>(
    context: &Context<'_, R>,
    wish: &Wish<'_>,
    names: &[Bytes],
    taking: &Taking,
    hands: &mut [Hand<D>],
)
    requires well_formed { IsWellFormed (form_of wish.now.asking.expr.now) }
    ensures held { (told : Option Contents) → AllByRecursion (λ hand. D.held hand.files ≡ told) hands.old →
        AllByRecursion (λ hand. D.held hand.files ≡ told) hands.new }
    ensures sound { (told : Option Contents) → AllByRecursion (λ hand. D.held hand.files ≡ told) hands.old →
        AllByRecursion (λ hand. AreSound told (request_of wish.now) hand.works.items) hands.new }
{
    let alloc = context.alloc;
    let search = |_i: usize, hand: &mut Hand<D>|
        requires { IsWellFormed (form_of wish.now.asking.expr.now) }
        ensures { (D.held hand.exit.now.files ≡ D.held hand.entry.now.files) ×
            AreSound (D.held hand.entry.now.files) (request_of wish.entry.now) hand.exit.now.works.items }
    { go_to_taken(alloc, wish, names, taking, hand) };
    let threads = hands.len().max(1);
    for_each_mut(context.rt, hands, threads, &search);
}

impl Ahead {
    /// Nothing has been searched yet.
    pub(crate) fn new(alloc: Global) -> Self
        ensures { result.ready.items ≡ [] }
    {
        Ahead {
            ready: Vec::new(alloc),
            gone: 0,
            most_loaded: FIRST_LOADED,
        }
    }
}

/// Searches the next of these files in threads.
fn search_ahead<R: Threads + Sync, D: Files + Send>(
    context: &Context<'_, R>,
    wish: &Wish<'_>,
    names: &[Bytes],
    ahead: &mut Ahead,
    hands: &mut [Hand<D>],
) -> Result<(), AllocError>
    requires well_formed { IsWellFormed (form_of wish.now.asking.expr.now) }
    ensures held { (told : Option Contents) → AllByRecursion (λ hand. D.held hand.files ≡ told) hands.old →
        AllByRecursion (λ hand. D.held hand.files ≡ told) hands.new }
    ensures ready { OnOk result ((told : Option Contents) → AllByRecursion (λ hand. D.held hand.files ≡ told) hands.old →
        AreReady told (request_of wish.now) ahead.new.ready.items) }
{
    let taking = Taking::new(ahead.most_loaded);
    ahead.most_loaded = ahead.most_loaded.saturating_mul(2).min(MOST_LOADED);
    let rest = &names[ahead.gone.min(names.len())..];
    search_all(context, wish, rest, &taking, hands);
    let count = taking.count().min(rest.len());
    ahead.gone = ahead.gone.saturating_add(count);
    ahead.ready = nothing(context.alloc, count)?;
    if gather(&mut ahead.ready, hands) {
        return Err(AllocError);
    }
    Ok(())
}

/// What was found in the next file. Returns None if the file is to be visited now.
fn next(ready: &mut Vec<Option<Work>>) -> Option<Work>
    ensures { (told : Option Contents) (r : Request) → AreReady told r ready.old.items →
        IsReady told r result × AreReady told r ready.new.items }
{
    let work = ready.pop()?;
    work
}

/// What was found in the next of these files. Searches more of them first if nothing is left.
pub(crate) fn take<R: Threads + Sync, D: Files + Send>(
    context: &Context<'_, R>,
    wish: &Wish<'_>,
    names: &[Bytes],
    ahead: &mut Ahead,
    hands: &mut [Hand<D>],
) -> Result<Option<Work>, AllocError>
    requires well_formed { IsWellFormed (form_of wish.now.asking.expr.now) }
    ensures held { (told : Option Contents) → AllByRecursion (λ hand. D.held hand.files ≡ told) hands.old →
        AllByRecursion (λ hand. D.held hand.files ≡ told) hands.new }
    ensures ready { IfOk result (λ work. (told : Option Contents) → AllByRecursion (λ hand. D.held hand.files ≡ told) hands.old →
        AreReady told (request_of wish.now) ahead.old.ready.items →
        IsReady told (request_of wish.now) work × AreReady told (request_of wish.now) ahead.new.ready.items) }
{
    if !ahead.ready.is_empty() {
        return Ok(next(&mut ahead.ready));
    }
    search_ahead(context, wish, names, ahead, hands)?;
    Ok(next(&mut ahead.ready))
}
