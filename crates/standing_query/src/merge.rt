ghost use Rattle.std.specs.Prelude.{◌≡◌, ◌+◌, ◌≤◌, true, false, [], ◌∷◌, IfSome, IsNone};
ghost use Rattle.gcl_model.specs.Extents.{IsRising};
ghost use Rattle.standing_query.specs.Changes.{changes};
ghost use Rattle.standing_query.specs.inner.Sides.{first_of};
ghost use Rattle.standing_query.specs.inner.Steps.{PassesBoth, are_same};

use crate::change::Change;
use crate::order::{comes_before, is_same};
use crate::side::Side;
use gcl_model::{Ledger, Steps};

/// Passes the first member of both sides, if it is the same.
fn pass_same<S: Ledger>(old: &mut Side<'_>, new: &mut Side<'_>, steps: &mut Steps<S>) -> bool
    ensures passed { result ≡ true → PassesBoth old.old.left new.old.left old.new.left new.new.left }
    ensures old_stays { result ≡ false → old.new.left ≡ old.old.left }
    ensures new_stays { result ≡ false → new.new.left ≡ new.old.left }
    ensures differ { result ≡ false → are_same (first_of old.old.left) (first_of new.old.left) ≡ false }
    ensures cost { steps.new + (old.new.look_ups + new.new.look_ups) ≤ steps.old + (old.old.look_ups + new.old.look_ups) }
{
    let Some(went) = old.first(steps) else {
        return false;
    };
    let Some(came) = new.first(steps) else {
        return false;
    };
    if !is_same(went, came) {
        return false;
    }
    old.pass(went);
    new.pass(came);
    true
}

/// Removes and returns the first change between two sides. What is on both sides is passed.
pub fn next_change<S: Ledger>(
    old: &mut Side<'_>,
    new: &mut Side<'_>,
    steps: &mut Steps<S>,
) -> Option<Change>
    requires old_rises { IsRising old.old.left }
    requires new_rises { IsRising new.old.left }
    ensures old_rises { IsRising old.new.left }
    ensures new_rises { IsRising new.new.left }
    ensures some { IfSome result (λ change. changes old.old.left new.old.left ≡ change ∷ changes old.new.left new.new.left) }
    ensures none { IsNone result → changes old.old.left new.old.left ≡ [] }
    ensures empty { IsNone result → changes old.new.left new.new.left ≡ [] }
    ensures cost { steps.new + (old.new.look_ups + new.new.look_ups) ≤ steps.old + (old.old.look_ups + new.old.look_ups) }
{
    while pass_same(old, new, steps) {}
    first_change(old, new, steps)
}

/// The same if the first members of both sides differ.
fn first_change<S: Ledger>(
    old: &mut Side<'_>,
    new: &mut Side<'_>,
    steps: &mut Steps<S>,
) -> Option<Change>
    requires old_rises { IsRising old.old.left }
    requires new_rises { IsRising new.old.left }
    requires differ { are_same (first_of old.old.left) (first_of new.old.left) ≡ false }
    ensures old_rises { IsRising old.new.left }
    ensures new_rises { IsRising new.new.left }
    ensures some { IfSome result (λ change. changes old.old.left new.old.left ≡ change ∷ changes old.new.left new.new.left) }
    ensures none { IsNone result → changes old.old.left new.old.left ≡ [] }
    ensures empty { IsNone result → changes old.new.left new.new.left ≡ [] }
    ensures cost { steps.new + (old.new.look_ups + new.new.look_ups) ≤ steps.old + (old.old.look_ups + new.old.look_ups) }
{
    let first_old = old.first(steps);
    let first_new = new.first(steps);
    match (first_old, first_new) {
        (None, None) => None,
        (Some(went), None) => {
            old.pass(went);
            Some(Change::Went(went))
        }
        (None, Some(came)) => {
            new.pass(came);
            Some(Change::Came(came))
        }
        (Some(went), Some(came)) => {
            if comes_before(went, came) {
                old.pass(went);
                return Some(Change::Went(went));
            }
            new.pass(came);
            Some(Change::Came(came))
        }
    }
}
