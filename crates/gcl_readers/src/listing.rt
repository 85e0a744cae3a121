ghost use Rattle.std.specs.Prelude.{◌≡◌, ◌+◌, ◌<◌, ◌≤◌, length, take, IfOk};
ghost use Rattle.gcl_model.specs.Limits.{far};
ghost use Rattle.gcl_model.specs.FormOf.{form_of};
ghost use Rattle.gcl_model.specs.WellFormed.{IsWellFormed};
ghost use Rattle.gcl_eval.specs.Members.{members_from};
ghost use Rattle.gcl_readers.specs.Standing.{Stands, left_to, start_at};
ghost use Rattle.gcl_readers.specs.Reading.{behind_page};
ghost use Rattle.gcl_readers.specs.MergeCost.{cost_left};

use crate::readers::Readers;
use gcl_model::{Expr, Interval, IntervalList, Leaves, Ledger, Steps};
use std::alloc::{AllocError, Global};

/// The first `most` members that are left and start at or after `k`, or all of these if there are fewer. If a page is full, the next one
/// begins after the start of its last member.
pub fn read_list_from<L: Leaves, S: Ledger>(
    alloc: Global,
    readers: &mut Readers,
    expr: &Expr,
    leaves: &L,
    k: u64,
    most: u64,
    steps: &mut Steps<S>,
) -> Result<IntervalList, AllocError>
    requires well_formed { IsWellFormed (form_of expr.now) }
    requires below { k < far }
    requires stands { Stands (L.text leaves.now) (form_of expr.now) readers.old }
    ensures ok { IfOk result (λ members. members ≡ take most (members_from
        (left_to (L.text leaves.now) (form_of expr.now) readers.old) k)) }
    ensures left { IfOk result (λ members. start_at readers.old ≤ k → length members ≡ most → start_at readers.new ≤
        behind_page k members) }
    ensures stands { Stands (L.text leaves.now) (form_of expr.now) readers.new }
    ensures counted { steps.old ≤ steps.new }
    ensures cost { steps.new + cost_left (L.text leaves.now) (L.most leaves.now) (form_of expr.now) readers.new ≤ steps.old +
        cost_left (L.text leaves.now) (L.most leaves.now) (form_of expr.now) readers.old }
{
    // the contract of `span` gives that the words rise
    let _span = leaves.span();
    let mut members = IntervalList::new(alloc);
    let mut from = k;
    while (members.len() as u64) < most {
        let Some(member) = readers.next(expr, leaves, from, steps) else {
            break;
        };
        members.push(member)?;
        from = behind(member);
    }
    Ok(members)
}

/// The number of members that are left and start at or after `k`.
pub fn read_count<L: Leaves, S: Ledger>(
    readers: &mut Readers,
    expr: &Expr,
    leaves: &L,
    k: u64,
    steps: &mut Steps<S>,
) -> u64
    requires well_formed { IsWellFormed (form_of expr.now) }
    requires below { k < far }
    requires stands { Stands (L.text leaves.now) (form_of expr.now) readers.old }
    ensures value { result ≡ length (members_from (left_to (L.text leaves.now) (form_of expr.now) readers.old) k) }
    ensures stands { Stands (L.text leaves.now) (form_of expr.now) readers.new }
    ensures counted { steps.old ≤ steps.new }
    ensures cost { steps.new + cost_left (L.text leaves.now) (L.most leaves.now) (form_of expr.now) readers.new ≤ steps.old +
        cost_left (L.text leaves.now) (L.most leaves.now) (form_of expr.now) readers.old }
{
    // the contract of `span` gives that the words rise
    let _span = leaves.span();
    let mut members = 0;
    let mut from = k;
    while let Some(member) = readers.next(expr, leaves, from, steps) {
        members += 1;
        from = behind(member);
    }
    members
}

/// The address after the start of a member.
fn behind(member: Interval) -> u64
    requires { member.end < far }
    ensures { result ≡ member.start + 1 }
{
    member.start + 1
}
