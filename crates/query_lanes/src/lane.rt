ghost use Rattle.std.specs.Prelude.{◌≡◌, ◌≤◌, ◌<◌, length, IfOk, IfSome};
ghost use Rattle.gcl_model.specs.Limits.{most_readers};
ghost use Rattle.query_lanes.specs.Readers.{IsLater};
ghost use Rattle.query_lanes.specs.inner.Lanes.{AreMadeOn, IsMadeOn, IsRun};

use crate::asks::{Ask, Found};
use crate::context::Dealt;
use crate::find::find;
use crate::settle::enter;
use manifest_publish::Reader;
use outside::Gate;
use std::alloc::{AllocError, Global};

/// An answer, and the number of the version that it was made on.
#[derive(Drop)]
pub(crate) struct Made {
    pub number: u64,
    pub found: Found,
}

/// What a lane has done.
#[derive(Drop)]
pub(crate) struct Work {
    // The answers to its queries in turn, None if none was made.
    pub made: Vec<Option<Made>>,
    // Whether it was out of memory.
    pub is_short: bool,
    // Whether its reader entered once more after the batch.
    pub is_settled: bool,
}

impl Work {
    /// One for each lane, with nothing done yet.
    pub fn of_lanes(alloc: Global, lanes: usize) -> Result<Vec<Work>, AllocError>
        ensures { IfOk result (λ works. length works.items ≡ lanes) }
    {
        let mut works = Vec::with_capacity(alloc, lanes)?;
        for _ in 0..lanes {
            works.push(Work {
                made: Vec::new(alloc),
                is_short: false,
                is_settled: false,
            })?;
        }
        Ok(works)
    }
}

/// Enters anew and answers a query. Returns None if there was no pass, or if the query is refused.
fn make<G: Gate>(
    dealt: &Dealt<'_, G>,
    ask: &Ask,
    reader: &mut Reader,
) -> Result<Option<Made>, AllocError>
    ensures later { IsLater reader.old reader.new }
    ensures made { IfOk result (λ some. IfSome some (IsMadeOn ask.now reader.old reader.new)) }
{
    dealt.gate.before_query(ask.number);
    let Ok(expr) = &ask.query else {
        return Ok(None);
    };
    let Some(pass) = enter(reader) else {
        return Ok(None);
    };
    let number = pass.version().number();
    let found = find(dealt.alloc, pass, ask.asked, expr)?;
    dealt.gate.after_query(ask.number, number);
    Ok(Some(Made { number, found }))
}

/// Answers the queries of lane `at`: every `lanes`-th query, starting with the one at `at`.
fn make_all<G: Gate>(
    dealt: &Dealt<'_, G>,
    at: usize,
    made: &mut Vec<Option<Made>>,
    reader: &mut Reader,
) -> Result<(), AllocError>
    requires few { dealt.now.lanes ≤ most_readers }
    requires at { at < dealt.now.lanes }
    ensures later { IsLater reader.old reader.new }
    ensures made { AreMadeOn dealt.now.asks.now dealt.now.lanes at reader.old reader.new made.new.items }
{
    made.clear();
    let mut next = at;
    while next < dealt.asks.len() {
        let one = make(dealt, &dealt.asks[next], reader)?;
        made.push(one)?;
        next += dealt.lanes;
    }
    Ok(())
}

/// Answers the queries of one lane, and notes whether it was out of memory.
pub fn run_lane<G: Gate>(dealt: &Dealt<'_, G>, at: usize, work: &mut Work, reader: &mut Reader)
    requires few { dealt.now.lanes ≤ most_readers }
    requires at { at < dealt.now.lanes }
    ensures { IsRun dealt.now.asks.now dealt.now.lanes at reader.old reader.new work.new }
{
    let made = make_all(dealt, at, &mut work.made, reader);
    work.is_short = made.is_err();
}
