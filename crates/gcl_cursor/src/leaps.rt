//! Leaping, while look-ups are left.

ghost use Rattle.std.specs.Prelude.{◌≡◌, ◌+◌, ◌*◌, ◌<◌, ◌≤◌, length, take, IfOk, IfSome};
ghost use Rattle.gcl_model.specs.Limits.{far};
ghost use Rattle.gcl_model.specs.FormOf.{form_of};
ghost use Rattle.gcl_model.specs.Meaning.{concordance};
ghost use Rattle.gcl_model.specs.WellFormed.{IsWellFormed};
ghost use Rattle.gcl_eval.specs.Members.{members_from};

use gcl_eval::{Page, count_within, list_within};
use gcl_model::{Expr, IntervalList, Leaves, Steps, Tally};
use std::alloc::{AllocError, Global};
use std::mem;
use std::sync::ledger::Ledger;

/// The members of the page, or None if that takes more look-ups than are left.
pub(crate) fn leap<L: Leaves, B: Ledger>(
    alloc: Global,
    expr: &Expr,
    leaves: &L,
    page: Page,
    left: &mut u64,
    steps: &mut Steps<Tally<B>>,
) -> Result<Option<IntervalList>, AllocError>
    requires well_formed { IsWellFormed (form_of expr.now) }
    requires below { page.from < far }
    ensures ok { IfOk result (λ found. IfSome found (λ members.
        members ≡ take page.most (members_from (concordance (L.text leaves.now) (form_of expr.now)) page.from))) }
    ensures cost { steps.new ≤ steps.old + left.old + 3 * L.most leaves.now }
    ensures left { 0 < left.new → steps.new + left.new ≤ steps.old + left.old }
{
    let before = steps.count();
    let limit = before.saturating_add(mem::take(left));
    if limit == before {
        return Ok(None);
    }
    let Ok(members) = list_within(alloc, expr, leaves, page, limit, steps)? else {
        return Ok(None);
    };
    *left = limit.saturating_sub(steps.count());
    Ok(Some(members))
}

/// The number of all members, or None if that takes more look-ups than are left.
pub(crate) fn leap_count<L: Leaves, B: Ledger>(
    expr: &Expr,
    leaves: &L,
    left: &mut u64,
    steps: &mut Steps<Tally<B>>,
) -> Option<u64>
    requires well_formed { IsWellFormed (form_of expr.now) }
    ensures value { IfSome result (λ members. members ≡ length (concordance (L.text leaves.now) (form_of expr.now))) }
    ensures cost { steps.new ≤ steps.old + left.old + 3 * L.most leaves.now }
    ensures left { 0 < left.new → steps.new + left.new ≤ steps.old + left.old }
{
    let before = steps.count();
    let limit = before.saturating_add(mem::take(left));
    if limit == before {
        return None;
    }
    let Ok(members) = count_within(expr, leaves, limit, steps) else {
        return None;
    };
    *left = limit.saturating_sub(steps.count());
    Some(members)
}
