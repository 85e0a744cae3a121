//! A step through the lists of two sides.
ghost use Rattle.std.specs.Prelude.{◌≡◌, ◌+◌, ◌≤◌, [], ◌∷◌, IfOk, IfSome, IsNone, OnErr, OnOk};
ghost use Rattle.standing_query.specs.Changes.{changes, comes_before};
ghost use Rattle.change_search.specs.inner.Sides.{IsSide, look_ups, to_come};
ghost use Rattle.change_search.specs.inner.Steps.{IsStep};

use crate::side::Side;
use gcl_model::{Interval, Ledger, Steps};
use standing_query::Change;
use std::alloc::{AllocError, Global};

/// The result of comparing the first members of two sides.
#[derive(Drop)]
pub enum Step {
    /// The lesser member is in one list alone, and is passed.
    Tells(Change),
    /// They are the same, and are passed.
    Skips,
    /// There is no member.
    Ends,
}

/// Whether an interval comes before another: it starts before it, or starts there and ends before it.
fn comes_before(a: Interval, b: Interval) -> bool
    ensures { result ≡ comes_before a b }
{
    a.start < b.start || (a.start == b.start && a.end < b.end)
}

/// Moves past the lesser first member, or past both if they are the same.
fn advance<S: Ledger>(
    alloc: Global,
    before: &mut Side,
    after: &mut Side,
    steps: &mut Steps<S>,
) -> Result<Step, AllocError>
    requires old { IsSide before.old }
    requires new { IsSide after.old }
    ensures ok { IfOk result (IsStep (to_come before.old) (to_come after.old) (to_come before.new) (to_come after.new)) }
    ensures old { IsSide before.new }
    ensures new { IsSide after.new }
    ensures err { OnErr result ((to_come before.new ≡ to_come before.old) × (to_come after.new ≡ to_come after.old)) }
    ensures cost { OnOk result (steps.new + (look_ups before.new + look_ups after.new) ≤
        steps.old + (look_ups before.old + look_ups after.old)) }
    ensures stopped { OnErr result (steps.new ≤ steps.old + (look_ups before.old + look_ups after.old)) }
{
    let old = before.first(alloc, steps)?;
    let new = after.first(alloc, steps)?;
    match (old, new) {
        (None, None) => Ok(Step::Ends),
        (Some(went), None) => {
            before.pass();
            Ok(Step::Tells(Change::Went(went)))
        }
        (None, Some(came)) => {
            after.pass();
            Ok(Step::Tells(Change::Came(came)))
        }
        (Some(a), Some(b)) => {
            if comes_before(a, b) {
                before.pass();
                return Ok(Step::Tells(Change::Went(a)));
            }
            if comes_before(b, a) {
                after.pass();
                return Ok(Step::Tells(Change::Came(b)));
            }
            before.pass();
            after.pass();
            Ok(Step::Skips)
        }
    }
}

/// The first change between what is to come of two sides. `Err` means out of memory.
pub fn next_change<S: Ledger>(
    alloc: Global,
    before: &mut Side,
    after: &mut Side,
    steps: &mut Steps<S>,
) -> Result<Option<Change>, AllocError>
    requires old { IsSide before.old }
    requires new { IsSide after.old }
    ensures some { IfOk result (λ next. IfSome next (λ change.
        changes (to_come before.old) (to_come after.old) ≡ change ∷ changes (to_come before.new) (to_come after.new))) }
    ensures none { IfOk result (λ next. IsNone next → changes (to_come before.old) (to_come after.old) ≡ []) }
    ensures err { OnErr result (changes (to_come before.new) (to_come after.new) ≡ changes (to_come before.old) (to_come after.old)) }
    ensures old { IsSide before.new }
    ensures new { IsSide after.new }
    ensures cost { OnOk result (steps.new + (look_ups before.new + look_ups after.new) ≤
        steps.old + (look_ups before.old + look_ups after.old)) }
    ensures stopped { OnErr result (steps.new ≤ steps.old + (look_ups before.old + look_ups after.old)) }
{
    loop {
        match advance(alloc, before, after, steps)? {
            Step::Tells(change) => return Ok(Some(change)),
            Step::Skips => continue,
            Step::Ends => return Ok(None),
        }
    }
}
