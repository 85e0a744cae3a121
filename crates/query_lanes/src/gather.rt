ghost use Rattle.std.specs.Prelude.{◌≡◌, ◌↔◌, ◌<◌, ℕ, map, slice_get, Some, IfOk, IfSome, IsTrue};
ghost use Rattle.gcl_model.specs.Texts.{Text};
ghost use Rattle.live_version.specs.Contents.{version_text};
ghost use Rattle.query_lanes.specs.declared.asks.Ask.{Ask};
ghost use Rattle.query_lanes.specs.declared.lane.Made.{Made};
ghost use Rattle.query_lanes.specs.Answers.{answer_in};
ghost use Rattle.query_lanes.specs.inner.Lanes.{AreTrusted, Counts};

use crate::asks::{Ask, Found};
use crate::find::answer_alone;
use crate::lane::{Made, Work};
use collection::Engine;
use std::alloc::{AllocError, Global};

/// Takes the answer at a place, if there is one.
fn take_made(made: &mut Vec<Option<Made>>, k: usize) -> Option<Made>
    ensures taken { IfSome result (λ one. slice_get made.old.items k ≡ Some (Some one)) }
    ensures rest { (i : ℕ) (one : Made) → slice_get made.new.items i ≡ Some (Some one) → slice_get made.old.items i ≡ Some (Some one) }
{
    if k >= made.len() {
        return None;
    }
    made[k].take()
}

/// Whether an answer that a lane made on the version of this number counts, if the engine's last version has the number `last`.
fn counts(last: u64, is_settled: bool, number: u64) -> bool
    ensures { IsTrue result ↔ Counts is_settled last number }
{
    is_settled && number <= last
}

/// An answer, if it counts. A function of its own, so that what is not taken is dropped here.
fn kept(last: u64, is_settled: bool, made: Made) -> Option<Found>
    ensures { IfSome result (λ found. (found ≡ made.found) × Counts is_settled last made.number) }
{
    counts(last, is_settled, made.number).then_some(made.found)
}

/// Takes the answer that a lane made to the query at `j`, if it counts.
fn take_kept(last: u64, works: &mut [Work], asks: &[Ask], j: usize) -> Option<Found>
    ensures trusted { (text : Text) → AreTrusted asks.now last text works.old → AreTrusted asks.now last text works.new }
    ensures found { (text : Text) (ask : Ask) → AreTrusted asks.now last text works.old → slice_get asks.now j ≡ Some ask →
        IfSome result (λ found. found ≡ answer_in text ask) }
{
    if works.is_empty() {
        return None;
    }
    let lanes = works.len();
    let work = &mut works[j % lanes];
    let made = take_made(&mut work.made, j / lanes)?;
    kept(last, work.is_settled, made)
}

/// The answers to all queries, in their order: those that the lanes made, if they count, and else made again.
pub fn gather(
    alloc: Global,
    engine: &Engine,
    works: &mut [Work],
    asks: &[Ask],
) -> Result<Vec<Found>, AllocError>
    requires { AreTrusted asks.now engine.now.version.number (version_text engine.now.version) works.old }
    ensures { IfOk result (λ answers. answers.items ≡ map (answer_in (version_text engine.now.version)) asks.now) }
{
    let last = engine.version().number();
    let mut answers = Vec::with_capacity(alloc, asks.len())?;
    for j in 0..asks.len() {
        if let Some(found) = take_kept(last, works, asks, j) {
            answers.push(found)?;
            continue;
        }
        let found = answer_alone(alloc, engine, &asks[j])?;
        answers.push(found)?;
    }
    Ok(answers)
}
