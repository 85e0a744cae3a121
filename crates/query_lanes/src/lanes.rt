ghost use Rattle.std.specs.Prelude.{◌≡◌, ◌+◌, ◌≤◌, ◌<◌, length};
ghost use Rattle.std.specs.Thread.{IsSync};
ghost use Rattle.gcl_model.specs.Limits.{most_readers};
ghost use Rattle.query_lanes.specs.inner.Lanes.{AreRun};

use crate::context::Dealt;
use crate::lane::{Work, run_lane};
use manifest_publish::Reader;
use outside::Gate;
use std::thread::{Threads, join_mut};

/// One lane, or none.
fn run_one<G: Gate>(dealt: &Dealt<'_, G>, from: usize, works: &mut [Work], readers: &mut [Reader])
    requires one { length readers.old < 2 }
    requires same { length works.old ≡ length readers.old }
    requires few { dealt.now.lanes ≤ most_readers }
    requires inside { from + length readers.old ≤ dealt.now.lanes }
    ensures { AreRun dealt.now.asks.now dealt.now.lanes from readers.old readers.new works.new }
{
    if !readers.is_empty() {
        run_lane(dealt, from, &mut works[0], &mut readers[0]);
    }
}

/// Answers the queries of the lanes from `from` to the last one, each lane's in their order. At each step another thread takes the
/// first lane: so this thread makes all others, and none of them waits for the start of another one.
#[cycle(parts)]
pub fn run_lanes<R: Threads + Sync, G: Gate + Sync>(
    rt: &R,
    dealt: &Dealt<'_, G>,
    from: usize,
    works: &mut [Work],
    readers: &mut [Reader],
)
    requires same { length works.old ≡ length readers.old }
    requires few { dealt.now.lanes ≤ most_readers }
    requires inside { from + length readers.old ≤ dealt.now.lanes }
    ensures { AreRun dealt.now.asks.now dealt.now.lanes from readers.old readers.new works.new }
{
    if readers.len() < 2 {
        run_one(dealt, from, works, readers);
        return;
    }
    let (works_low, works_high) = works.split_at_mut(1);
    let (readers_low, readers_high) = readers.split_at_mut(1);
    run_parts(
        rt,
        dealt,
        from,
        works_low,
        works_high,
        readers_low,
        readers_high,
    );
}

// A function of its own, so that what the closures require is what it is given, and what they leave is what it leaves.
#[cycle(parts)]
fn run_parts<R: Threads + Sync, G: Gate + Sync>(
    rt: &R,
    dealt: &Dealt<'_, G>,
    from: usize,
    works_low: &mut [Work],
    works_high: &mut [Work],
    readers_low: &mut [Reader],
    readers_high: &mut [Reader],
)
    requires one { length readers_low.old ≡ 1 }
    requires same_low { length works_low.old ≡ length readers_low.old }
    requires same_high { length works_high.old ≡ length readers_high.old }
    requires few { dealt.now.lanes ≤ most_readers }
    requires inside { from + 1 + length readers_high.old ≤ dealt.now.lanes }
    ensures low { AreRun dealt.now.asks.now dealt.now.lanes from readers_low.old readers_low.new works_low.new }
    ensures high { AreRun dealt.now.asks.now dealt.now.lanes (from + 1) readers_high.old readers_high.new works_high.new }
{
    let up = from + 1;
    let mut low = ||
        requires { IsSync G.row × (length readers_low.now < 2) × (length works_low.now ≡ length readers_low.now) ×
            (dealt.now.lanes ≤ most_readers) × (from + length readers_low.now ≤ dealt.now.lanes) }
        ensures { AreRun dealt.entry.now.asks.now dealt.entry.now.lanes from readers_low.entry.now readers_low.exit.now works_low.exit.now }
    { run_one(dealt, from, works_low, readers_low) };
    let mut high = ||
        requires { IsSync R.row × IsSync G.row × (length works_high.now ≡ length readers_high.now) × (dealt.now.lanes ≤ most_readers) ×
            (up + length readers_high.now ≤ dealt.now.lanes) }
        ensures { AreRun dealt.entry.now.asks.now dealt.entry.now.lanes up
            readers_high.entry.now readers_high.exit.now works_high.exit.now }
    { run_lanes(rt, dealt, up, works_high, readers_high) };
    join_mut(rt, &mut low, &mut high);
}
