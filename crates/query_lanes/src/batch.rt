ghost use Rattle.std.specs.Prelude.{◌≡◌, ◌≤◌, ◌<◌, ◌⊎◌, length, map, IfOk, OnOk, OnErr};
ghost use Rattle.std.specs.Thread.{IsSync};
ghost use Rattle.gcl_model.specs.Collections.{Collection, text_of};
ghost use Rattle.gcl_model.specs.Limits.{merge_end, most_readers};
ghost use Rattle.live_version.specs.Contents.{version_text};
ghost use Rattle.live_version.specs.StandsFor.{StandsFor, Keeps};
ghost use Rattle.query_lanes.specs.Answers.{answer_in};
ghost use Rattle.query_lanes.specs.Merges.{IsMerged, IsMergedWhere};
ghost use Rattle.query_lanes.specs.Readers.{AreOf};
ghost use Rattle.query_lanes.specs.inner.Lanes.{AreRun};

use crate::asks::{Ask, Found};
use crate::context::{Context, Dealt};
use crate::find::answer_all;
use crate::gather::gather;
use crate::lane::Work;
use crate::lanes::run_lanes;
use crate::merging::{is_lawful, merge, merge_where};
use crate::settle::{settle_all, tell_all};
use collection::Engine;
use live_version::Version;
use manifest_publish::Reader;
use outside::Gate;
use std::alloc::AllocError;
use std::sync::Wait;
use std::thread::{Threads, join_mut};

/// The lanes on one side, and a merge on the other. The engine has this thread: if no other can be made, the merge comes first.
fn run_beside<R: Threads + Wait + Sync, G: Gate + Sync>(
    rt: &R,
    dealt: &Dealt<'_, G>,
    works: &mut [Work],
    readers: &mut [Reader],
    engine: &mut Engine,
) -> Result<(), AllocError>
    requires same { length works.old ≡ length readers.old }
    requires lanes { dealt.now.lanes ≡ length readers.old }
    requires few { dealt.now.lanes ≤ most_readers }
    requires number { engine.old.version.number < merge_end }
    ensures lanes { AreRun dealt.now.asks.now dealt.now.lanes 0 readers.old readers.new works.new }
    ensures merged { OnOk result (IsMerged engine.old engine.new) }
    ensures err { OnErr result (engine.new ≡ engine.old) }
{
    let mut lanes = ||
        requires { IsSync R.row × IsSync G.row × (length works.now ≡ length readers.now) × (dealt.now.lanes ≤ most_readers) ×
            (length readers.now ≤ dealt.now.lanes) }
        ensures { AreRun dealt.entry.now.asks.now dealt.entry.now.lanes 0 readers.entry.now readers.exit.now works.exit.now }
    { run_lanes(rt, dealt, 0, works, readers) };
    let mut merging = || -> Result<(), AllocError>
        requires { IsSync R.row × (engine.now.version.number < merge_end) }
        ensures merged { OnOk result (IsMerged engine.entry.now engine.exit.now) }
        ensures err { OnErr result (engine.exit.now ≡ engine.entry.now) }
    { merge(rt, dealt.gate, engine) };
    let (_, merged) = join_mut(rt, &mut lanes, &mut merging);
    merged
}

/// All lanes, and concurrently a merge if one is pending.
fn run_all<R: Threads + Wait + Sync, G: Gate + Sync>(
    rt: &R,
    dealt: &Dealt<'_, G>,
    pending: bool,
    engine: &mut Engine,
    works: &mut [Work],
    readers: &mut [Reader],
) -> Result<(), AllocError>
    requires same { length works.old ≡ length readers.old }
    requires lanes { dealt.now.lanes ≡ length readers.old }
    requires few { dealt.now.lanes ≤ most_readers }
    requires number { engine.old.version.number < merge_end }
    ensures lanes { AreRun dealt.now.asks.now dealt.now.lanes 0 readers.old readers.new works.new }
    ensures merged { OnOk result (IsMergedWhere pending engine.old engine.new) }
    ensures err { OnErr result (engine.new ≡ engine.old) }
{
    if pending {
        return run_beside(rt, dealt, works, readers, engine);
    }
    run_lanes(rt, dealt, 0, works, readers);
    Ok(())
}

// This many look-ups take half a millisecond, which is how late a thread may start.
const WORTH_THREADS: u64 = 16_384;

/// Whether threads can save this one more than they cost. All of them together take at least as long as the longest query, so what the
/// others need is all that can be saved.
fn is_worth_threads(version: &Version, asks: &[Ask]) -> bool {
    let mut all = 0u64;
    let mut longest = 0;
    for ask in asks {
        let look_ups = ask.look_ups(version);
        all = all.saturating_add(look_ups);
        longest = look_ups.max(longest);
        if all.saturating_sub(longest) >= WORTH_THREADS {
            return true;
        }
    }
    false
}

/// How many lanes a batch gets, `most` at most. One that is not worth threads gets one lane if a merge is pending, and else none.
fn lanes_of(version: &Version, asks: &[Ask], pending: bool, most: usize) -> usize
    ensures { result ≤ most }
{
    if most > 1 && is_worth_threads(version, asks) {
        return most;
    }
    if !pending {
        return 0;
    }
    most.min(1)
}

/// A batch that needs no lanes: the merge, if one is pending, and then each query on the engine's own pass.
fn answer_in_turn<R: Wait, G: Gate>(
    context: &Context<'_, R, G>,
    asks: &[Ask],
    pending: bool,
    engine: &mut Engine,
) -> Result<Vec<Found>, AllocError>
    requires number { engine.old.version.number < merge_end }
    ensures answers { (c : Collection) → StandsFor engine.old.version c →
        IfOk result (λ answers. answers.items ≡ map (answer_in (text_of c)) asks.now) }
    ensures here { IfOk result (λ answers. answers.items ≡ map (answer_in (version_text engine.new.version)) asks.now) }
    ensures merged { OnOk result (IsMergedWhere pending engine.old engine.new) }
    ensures err { OnErr result ((engine.new ≡ engine.old) ⊎ IsMergedWhere pending engine.old engine.new) }
    ensures stands { Keeps engine.old.version engine.new.version }
    ensures publisher { engine.new.publisher ≡ engine.old.publisher }
{
    merge_where(context.rt, context.gate, pending, engine)?;
    answer_all(context.alloc, context.gate, engine, asks)
}

/// A batch in lanes, one for each of these readers.
fn answer_in_lanes<R: Threads + Wait + Sync, G: Gate + Sync>(
    context: &Context<'_, R, G>,
    asks: &[Ask],
    pending: bool,
    engine: &mut Engine,
    works: &mut [Work],
    readers: &mut [Reader],
) -> Result<Vec<Found>, AllocError>
    requires same { length works.old ≡ length readers.old }
    requires few { length readers.old ≤ most_readers }
    requires of { AreOf engine.old.publisher readers.old }
    requires number { engine.old.version.number < merge_end }
    ensures answers { (c : Collection) → StandsFor engine.old.version c →
        IfOk result (λ answers. answers.items ≡ map (answer_in (text_of c)) asks.now) }
    ensures here { IfOk result (λ answers. answers.items ≡ map (answer_in (version_text engine.new.version)) asks.now) }
    ensures merged { OnOk result (IsMergedWhere pending engine.old engine.new) }
    ensures err { OnErr result ((engine.new ≡ engine.old) ⊎ IsMergedWhere pending engine.old engine.new) }
    ensures stands { Keeps engine.old.version engine.new.version }
    ensures of { AreOf engine.new.publisher readers.new }
{
    let dealt = Dealt {
        alloc: context.alloc,
        gate: context.gate,
        asks,
        lanes: readers.len(),
    };
    is_lawful(engine);
    tell_all(engine, readers);
    run_all(context.rt, &dealt, pending, engine, works, readers)?;
    settle_all(engine, works, readers);
    if works.iter().any(|work| work.is_short) {
        return Err(AllocError);
    }
    gather(context.alloc, engine, works, asks)
}

/// Answers a batch of queries in lanes, and merges concurrently if a merge is pending. The query at place `j`, counted from 0, goes to
/// lane `j` modulo the number of lanes. If there are several readers and the queries are worth threads, there is a lane for each reader,
/// but no more lanes than queries. Else one lane answers them alongside a merge; and with no merge, or no reader, each query is answered
/// on the engine's own pass. The answers come in the order of the queries. `Err` means out of memory: then the merge may have been made.
///
/// Over `to be or not to be` the batch `find "to"`, `count "be"` is answered by the listing 1 to 1, 5 to 5, and the total 2.
pub fn answer_batch<R: Threads + Wait + Sync, G: Gate + Sync>(
    context: &Context<'_, R, G>,
    asks: &[Ask],
    pending: bool,
    engine: &mut Engine,
    readers: &mut [Reader],
) -> Result<Vec<Found>, AllocError>
    requires few { length readers.old ≤ most_readers }
    requires of { AreOf engine.old.publisher readers.old }
    requires number { engine.old.version.number < merge_end }
    ensures answers { (c : Collection) → StandsFor engine.old.version c →
        IfOk result (λ answers. answers.items ≡ map (answer_in (text_of c)) asks.now) }
    ensures here { IfOk result (λ answers. answers.items ≡ map (answer_in (version_text engine.new.version)) asks.now) }
    ensures merged { OnOk result (IsMergedWhere pending engine.old engine.new) }
    ensures err { OnErr result ((engine.new ≡ engine.old) ⊎ IsMergedWhere pending engine.old engine.new) }
    ensures stands { Keeps engine.old.version engine.new.version }
    ensures of { AreOf engine.new.publisher readers.new }
{
    // a reader without a query is left as it is
    let most = readers.len().min(asks.len());
    let lanes = lanes_of(engine.version(), asks, pending, most);
    if lanes == 0 {
        return answer_in_turn(context, asks, pending, engine);
    }
    let mut works = Work::of_lanes(context.alloc, lanes)?;
    let (readers_used, _) = readers.split_at_mut(lanes);
    let slice = works.as_mut_slice();
    let answers = answer_in_lanes(context, asks, pending, engine, slice, readers_used);
    drop(works);
    answers
}
