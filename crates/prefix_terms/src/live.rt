ghost use Rattle.std.specs.Prelude.{◌≡◌, ◌+◌, ◌*◌, ◌<◌, ◌≤◌, filter, length, IfOk};
ghost use Rattle.std.specs.List.{list_any};
ghost use Rattle.gcl_model.specs.Wide.{begins_with};
ghost use Rattle.gcl_model.specs.declared.direction.Direction.TheVariants.{Forward};
ghost use Rattle.index_shard.specs.Searched.{nearest};
ghost use Rattle.index_shard.specs.Tables.{addresses_at, postings_of};
ghost use Rattle.live_version.specs.Contents.{live_words};
ghost use Rattle.live_version.specs.LookUps.{is_alive};
ghost use Rattle.prefix_terms.specs.Runs.{names, tokens_in};
ghost use Rattle.wide_terms.specs.Vocabulary.{matching_words};

use crate::rows::run_of;
use gcl_model::{Direction, Ledger, Steps};
use live_version::Slot;
use std::alloc::{AllocError, Global};

/// The words of a slot that begin with the prefix and have a posting that is not dead.
pub(crate) fn live_run<'a, S: Ledger>(
    alloc: Global,
    slot: &'a Slot,
    prefix: &[u8],
    steps: &mut Steps<S>,
) -> Result<Vec<&'a [u8]>, AllocError>
    ensures words { IfOk result (λ words. tokens_in words.items ≡ matching_words (live_words slot.now) prefix.now) }
    ensures counted { steps.old ≤ steps.new }
    ensures cost { steps.new ≤ steps.old +
        length (filter (begins_with prefix.now) (names slot.now.shard.table)) * (1 + length slot.now.mask) }
{
    let run = run_of(slot.shard(), prefix);
    let mut words = Vec::with_capacity(alloc, run.end - run.from)?;
    for place in run.from..run.end {
        if is_live(slot, place, steps) {
            words.push(slot.shard().term(place))?;
        }
    }
    Ok(words)
}

/// Whether the term at a place of the slot's index has a posting that is not dead.
fn is_live<S: Ledger>(slot: &Slot, place: usize, steps: &mut Steps<S>) -> bool
    requires { place < length slot.now.shard.table }
    ensures value { result ≡ list_any (is_alive slot.now.mask) (addresses_at slot.now.shard.table place) }
    ensures counted { steps.old ≤ steps.new }
    ensures cost { steps.new ≤ steps.old + (1 + length slot.now.mask) }
{
    let ranges = slot.mask().range_count();
    if ranges == 0 {
        return true;
    }
    first_alive(slot, slot.shard().term(place), steps).is_some()
}

/// The first posting of the term in the slot that is not dead. A dead range is passed as a whole.
fn first_alive<S: Ledger>(slot: &Slot, term: &[u8], steps: &mut Steps<S>) -> Option<u64>
    ensures answer { result ≡ nearest Forward (filter (is_alive slot.now.mask) (postings_of slot.now.shard.table term.now)) 0 }
    ensures counted { steps.old ≤ steps.new }
    ensures cost { steps.new ≤ steps.old + (1 + length slot.now.mask) }
{
    let shard = slot.shard();
    let mask = slot.mask();
    let range = slot.range();
    let mut from = 0;
    loop {
        let p = shard.look_up(term, from, Direction::Forward, steps)?;
        match mask.dead(p) {
            None => return Some(p),
            Some(dead) => {
                if range.last <= dead.last {
                    return None;
                }
                from = dead.last + 1;
            }
        }
    }
}
