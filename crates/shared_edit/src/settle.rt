ghost use Rattle.std.specs.Prelude.{◌≡◌, ◌<◌, ◌≤◌, ◌⊎◌, [], length, IfOk, IfSome, IfNone, OnErr, IsErrOf, IsErr};
ghost use mathlib.Core.List.{IsPrefix};
ghost use Rattle.gcl_model.specs.Limits.{merge_end};
ghost use Rattle.collection.specs.Engines.{published};
ghost use Rattle.shared_edit.specs.Plans.{MergesFirst};
ghost use Rattle.shared_edit.specs.Settling.{AreInPlace, GoesByItself, HasEntered, HasNoTwo, HasSeenAll};
ghost use Rattle.shared_edit.specs.Settling.{IsFirstStale, IsStaleFor, IsUnusable, MergesOwn, TakesPlan};
ghost use Rattle.shared_edit.specs.declared.faults.StaleSlot.{StaleSlot};
ghost use Rattle.shared_edit.specs.declared.faults.SettleFault.TheVariants.{Stale};

use crate::faults::{SettleFault, StaleSlot};
use crate::plan::{Plan, SlotName};
use collection::Engine;
use live_version::Slot;
use manifest_publish::{EnterFault, Pass, Reader, Receipt};
use shard_merge::merge;
use std::alloc::{AllocError, Global};
use std::sync::Wait;

/// Lets the reader learn the engine's receipt and enter. Returns the pass if it is for the engine's last version.
fn enter_last(engine: &Engine, reader: &mut Reader) -> Result<Option<Pass>, AllocError>
    requires { reader.old.publisher ≡ engine.now.publisher }
    ensures entered { HasEntered reader.old engine.now.history reader.new }
    ensures some { IfOk result (λ found. IfSome found (λ pass. (pass ≡ published engine.now) × HasSeenAll engine.now reader.new ×
        IsPrefix reader.old.seen engine.now.history)) }
    ensures none { IfOk result (λ found. IfNone found (IsUnusable engine.now reader.new)) }
{
    reader.learn(engine.receipt());
    match reader.enter() {
        Ok(pass) => {
            if pass.version().number() > engine.version().number() {
                return Ok(None);
            }
            Ok(Some(pass))
        }
        Err(EnterFault::NoEntry(_number)) => Ok(None),
        Err(EnterFault::NoMemory) => Err(AllocError),
    }
}

/// The first of the names that the slots do not have in its place. Returns None if all are in place.
fn first_stale(names: &[SlotName], slots: &[Slot]) -> Option<(usize, SlotName)>
    ensures some { IfSome result (λ found. IsFirstStale names.now slots.now found.0 found.1) }
    ensures none { IfNone result (AreInPlace names.now slots.now) }
{
    for i in 0..names.len() {
        if i >= slots.len() || SlotName::of(&slots[i]) != names[i] {
            return Some((i, names[i]));
        }
    }
    None
}

/// The first two slots of the engine as one.
fn first_two(alloc: Global, engine: &Engine) -> Result<Slot, AllocError>
    requires { 2 ≤ length engine.now.version.slots }
    ensures { IfOk result (MergesFirst engine.now.version.slots 2) }
{
    let slot = merge(alloc, engine.version(), 0, 2)?;
    Ok(slot)
}

/// Makes the first two slots one, if there are two.
fn merge_own<R: Wait>(rt: &R, alloc: Global, engine: &mut Engine) -> Result<Receipt, AllocError>
    requires number { engine.old.version.number < merge_end }
    ensures ok { IfOk result (λ receipt. MergesOwn engine.old engine.new receipt ⊎ HasNoTwo engine.old engine.new receipt) }
    ensures err { OnErr result (engine.new ≡ engine.old) }
{
    if engine.version().slot_count() < 2 {
        return Ok(engine.receipt());
    }
    let slot = first_two(alloc, engine)?;
    let receipt = engine.put_merged(rt, 2, slot)?;
    Ok(receipt)
}

/// Settles a plan in the engine by what the reader finds once it has learnt the engine's receipt.
pub(crate) fn settle_in<R: Wait>(
    rt: &R,
    alloc: Global,
    engine: &mut Engine,
    reader: &mut Reader,
    plan: Plan,
) -> Result<Receipt, SettleFault>
    requires reader { reader.old.publisher ≡ engine.old.publisher }
    requires plan { IsPrefix plan.list reader.old.seen }
    requires number { engine.old.version.number < merge_end }
    ensures entered { HasEntered reader.old engine.old.history reader.new }
    ensures ok { IfOk result (λ receipt. TakesPlan engine.old engine.new reader.new plan receipt ⊎
        GoesByItself engine.old engine.new reader.new receipt) }
    ensures stale { (stale : StaleSlot) → IsErrOf result (Stale stale) → IsStaleFor engine.old reader.new plan stale }
    ensures err { OnErr result (engine.new ≡ engine.old) }
{
    let Some(seen) = enter_last(engine, reader)? else {
        let receipt = merge_own(rt, alloc, engine)?;
        return Ok(receipt);
    };
    if let Some((at, name)) = first_stale(plan.all_names(), engine.version().slots()) {
        return Err(SettleFault::Stale(StaleSlot { at, name, seen }));
    }
    let count = plan.names();
    let receipt = engine.put_merged(rt, count, plan.into_slot())?;
    Ok(receipt)
}
