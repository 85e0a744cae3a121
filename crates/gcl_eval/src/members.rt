ghost use Rattle.std.specs.Prelude.{◌≡◌, ◌+◌, ◌*◌, ◌<◌, ◌≤◌, length, take, IfOk, ℕ};
ghost use Rattle.gcl_model.specs.Limits.{far};
ghost use Rattle.gcl_model.specs.FormOf.{form_of};
ghost use Rattle.gcl_model.specs.Meaning.{concordance};
ghost use Rattle.gcl_model.specs.Cost.{cost};
ghost use Rattle.gcl_model.specs.WellFormed.{IsWellFormed};
ghost use Rattle.gcl_eval.specs.Costs.{near_cost};
ghost use Rattle.gcl_eval.specs.Members.{members_from};
ghost use Rattle.gcl_eval.specs.inner.Stops.{UnlessStopped};

use crate::apart::next_from;
use crate::onward::{MOST_KNOWN, next_member};
use crate::two_widths::count_at_once;
use gcl_model::{
    CountedLeaves, Expr, IntervalList, Leaves, Ledger, LentLeaves, LimitedLeaves, Spent, Steps,
    Tally,
};
use std::alloc::{AllocError, Global};
use std::sync::ledger::Ledger as Brand;

/// The number of members. Those of one width are not visited, nor those of a containment of two widths.
pub fn count<L: Leaves, S: Ledger>(expr: &Expr, leaves: &L, steps: &mut Steps<S>) -> u64
    requires well_formed { IsWellFormed (form_of expr.now) }
    ensures value { result ≡ length (concordance (L.text leaves.now) (form_of expr.now)) }
    ensures counted { steps.old ≤ steps.new }
    ensures cost { steps.new ≤ steps.old + (result + 1) * cost (L.text leaves.now) (L.most leaves.now) (form_of expr.now) }
    ensures near_cost { steps.new ≤ steps.old + (result + 1) * near_cost (L.text leaves.now) (L.most leaves.now) (form_of expr.now) }
{
    if let Some(count) = count_at_once(expr, leaves.span()) {
        return count;
    }
    let source = LentLeaves::<L, S>::new(leaves);
    let Ok(members) = number_of_members(expr, &source, steps);
    members
}

fn number_of_members<C: CountedLeaves>(
    expr: &Expr,
    source: &C,
    counter: &mut C::Counter,
) -> Result<u64, C::Stop>
    requires well_formed { IsWellFormed (form_of expr.now) }
    ensures value { IfOk result (λ found. found ≡ length (concordance (C.text source.now) (form_of expr.now))) }
    ensures counted { C.count counter.old ≤ C.count counter.new }
    ensures cost { IfOk result (λ found. C.count counter.new ≤
        C.count counter.old + (found + 1) * cost (C.text source.now) (C.most source.now) (form_of expr.now)) }
    ensures near_cost { IfOk result (λ found. C.count counter.new ≤
        C.count counter.old + (found + 1) * near_cost (C.text source.now) (C.most source.now) (form_of expr.now)) }
    ensures capped { (cap : ℕ) → C.Caps source.now cap → C.count counter.old ≤ cap → C.count counter.new ≤ cap }
{
    // the contract of `span` gives that the words rise
    let _span = source.span();
    let mut known = [None; MOST_KNOWN];
    let mut members = 0;
    let mut from = 0;
    while let Some(member) = next_member(expr, source, from, &mut known, counter)? {
        members += 1;
        from = next_from(expr, member);
    }
    Ok(members)
}

/// The number of members, unless that takes more look-ups than `limit` lets the counter show. The last one may exceed that, as that of an
/// element does.
pub fn count_within<L: Leaves, B: Brand>(
    expr: &Expr,
    leaves: &L,
    limit: u64,
    steps: &mut Steps<Tally<B>>,
) -> Result<u64, Spent>
    requires well_formed { IsWellFormed (form_of expr.now) }
    ensures value { IfOk result (λ members. members ≡ length (concordance (L.text leaves.now) (form_of expr.now))) }
    ensures counted { steps.old ≤ steps.new }
    ensures limit { steps.old ≤ limit → steps.new ≤ limit + 3 * L.most leaves.now }
{
    if let Some(count) = count_at_once(expr, leaves.span()) {
        return Ok(count);
    }
    number_of_members(expr, &LimitedLeaves::<L, B>::new(leaves, limit), steps)
}

/// The first `most` members, or all if there are fewer.
pub fn list<L: Leaves, S: Ledger>(
    alloc: Global,
    expr: &Expr,
    leaves: &L,
    most: u64,
    steps: &mut Steps<S>,
) -> Result<IntervalList, AllocError>
    requires well_formed { IsWellFormed (form_of expr.now) }
    ensures ok { IfOk result (λ members. members ≡ take most (concordance (L.text leaves.now) (form_of expr.now))) }
    ensures counted { steps.old ≤ steps.new }
    ensures cost { steps.new ≤ steps.old +
        (length (take most (concordance (L.text leaves.now) (form_of expr.now))) + 1) *
        cost (L.text leaves.now) (L.most leaves.now) (form_of expr.now) }
    ensures near_cost { steps.new ≤ steps.old +
        (length (take most (concordance (L.text leaves.now) (form_of expr.now))) + 1) *
        near_cost (L.text leaves.now) (L.most leaves.now) (form_of expr.now) }
{
    list_from(alloc, expr, leaves, 0, most, steps)
}

/// The first `most` members that start at or after `k`, or all of these if there are fewer.
pub fn list_from<L: Leaves, S: Ledger>(
    alloc: Global,
    expr: &Expr,
    leaves: &L,
    k: u64,
    most: u64,
    steps: &mut Steps<S>,
) -> Result<IntervalList, AllocError>
    requires well_formed { IsWellFormed (form_of expr.now) }
    requires below { k < far }
    ensures ok { IfOk result (λ members. members ≡ take most (members_from (concordance (L.text leaves.now) (form_of expr.now)) k)) }
    ensures counted { steps.old ≤ steps.new }
    ensures cost { steps.new ≤ steps.old +
        (length (take most (members_from (concordance (L.text leaves.now) (form_of expr.now)) k)) + 1) *
        cost (L.text leaves.now) (L.most leaves.now) (form_of expr.now) }
    ensures near_cost { steps.new ≤ steps.old +
        (length (take most (members_from (concordance (L.text leaves.now) (form_of expr.now)) k)) + 1) *
        near_cost (L.text leaves.now) (L.most leaves.now) (form_of expr.now) }
{
    let source = LentLeaves::<L, S>::new(leaves);
    let Ok(members) = members_of(alloc, expr, &source, Page { from: k, most }, steps)?;
    Ok(members)
}

/// The members that start at or after `from`, and no more than `most` of them.
#[derive(Clone, Copy)]
pub struct Page {
    pub from: u64,
    pub most: u64,
}

/// The members of the page, unless that takes more look-ups than `limit` lets the counter show. The last one may exceed that, by those of
/// an element.
pub fn list_within<L: Leaves, B: Brand>(
    alloc: Global,
    expr: &Expr,
    leaves: &L,
    page: Page,
    limit: u64,
    steps: &mut Steps<Tally<B>>,
) -> Result<Result<IntervalList, Spent>, AllocError>
    requires well_formed { IsWellFormed (form_of expr.now) }
    requires below { page.from < far }
    ensures ok { IfOk result (λ found. IfOk found (λ members.
        members ≡ take page.most (members_from (concordance (L.text leaves.now) (form_of expr.now)) page.from))) }
    ensures counted { steps.old ≤ steps.new }
    ensures limit { steps.old ≤ limit → steps.new ≤ limit + 3 * L.most leaves.now }
{
    let source = LimitedLeaves::<L, B>::new(leaves, limit);
    members_of(alloc, expr, &source, page, steps)
}

fn members_of<C: CountedLeaves>(
    alloc: Global,
    expr: &Expr,
    source: &C,
    page: Page,
    counter: &mut C::Counter,
) -> Result<Result<IntervalList, C::Stop>, AllocError>
    requires well_formed { IsWellFormed (form_of expr.now) }
    requires below { page.from < far }
    ensures ok { IfOk result (λ found. IfOk found (λ members.
        members ≡ take page.most (members_from (concordance (C.text source.now) (form_of expr.now)) page.from))) }
    ensures counted { C.count counter.old ≤ C.count counter.new }
    ensures cost { UnlessStopped result (C.count counter.new ≤ C.count counter.old +
        (length (take page.most (members_from (concordance (C.text source.now) (form_of expr.now)) page.from)) + 1) *
        cost (C.text source.now) (C.most source.now) (form_of expr.now)) }
    ensures near_cost { UnlessStopped result (C.count counter.new ≤ C.count counter.old +
        (length (take page.most (members_from (concordance (C.text source.now) (form_of expr.now)) page.from)) + 1) *
        near_cost (C.text source.now) (C.most source.now) (form_of expr.now)) }
    ensures capped { (cap : ℕ) → C.Caps source.now cap → C.count counter.old ≤ cap → C.count counter.new ≤ cap }
{
    // the contract of `span` gives that the words rise
    let _span = source.span();
    let mut known = [None; MOST_KNOWN];
    let mut members = IntervalList::new(alloc);
    let mut from = page.from;
    while (members.len() as u64) < page.most {
        match next_member(expr, source, from, &mut known, counter) {
            Err(stop) => return Ok(Err(stop)),
            Ok(None) => break,
            Ok(Some(member)) => {
                members.push(member)?;
                from = next_from(expr, member);
            }
        }
    }
    Ok(Ok(members))
}
