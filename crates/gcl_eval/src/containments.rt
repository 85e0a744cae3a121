ghost use Rattle.std.specs.Prelude.{◌≡◌, ◌+◌, ◌<◌, ◌≤◌, Some, IfSome, MatchOption, ℕ, IfOk};
ghost use Rattle.gcl_model.specs.Limits.{address_end, far};
ghost use Rattle.gcl_model.specs.Forms.{containing};
ghost use Rattle.gcl_model.specs.FormOf.{form_of};
ghost use Rattle.gcl_model.specs.Meaning.{concordance};
ghost use Rattle.gcl_model.specs.Cost.{cost};
ghost use Rattle.gcl_model.specs.WellFormed.{IsWellFormed};
ghost use Rattle.gcl_eval.specs.Containments.{IsContainment, IsBeginning, MayBegin};
ghost use Rattle.gcl_eval.specs.Costs.{cost_in, near_cost, ahead_cost, rounds};
ghost use Rattle.gcl_eval.specs.KnownAnswers.{IsKnown, KnowsSecond};
ghost use Rattle.gcl_eval.specs.declared.direction.Access.TheVariants.{FirstStart};
ghost use Rattle.gcl_eval.specs.Directions.{access_of, direction_of};

use crate::access::access;
use crate::containment::{goes_by, operands, question, turn};
use crate::direction::Access;
use crate::elements::{element_tokens, element_up_to};
use crate::known::{Known, known_access, was_leap};
use gcl_contain::Turn;
use gcl_model::{Containment, CountedLeaves, Expr, Interval};

/// An access of a containment: from member to member of the first operand, each with one access of the second, which is
/// not asked again while its last answer still holds.
#[cycle(access)]
pub(crate) fn containment_access<C: CountedLeaves>(
    expr: &Expr,
    wanted: Access,
    source: &C,
    k: u64,
    known: &mut Option<Known>,
    counter: &mut C::Counter,
) -> Result<Option<Interval>, C::Stop>
    requires containment { IsContainment (form_of expr.now) }
    requires well_formed { IsWellFormed (form_of expr.now) }
    requires below { k < far }
    requires known { KnowsSecond (direction_of wanted) (C.text source.now) (form_of expr.now) known.old }
    ensures answer { IfOk result (λ found. found ≡ access_of wanted (concordance (C.text source.now) (form_of expr.now)) k) }
    ensures within { IfOk result (λ found. IfSome found (λ a. a.end < address_end)) }
    ensures known { IfOk result (λ _. KnowsSecond (direction_of wanted) (C.text source.now) (form_of expr.now) known.new) }
    ensures counted { C.count counter.old ≤ C.count counter.new }
    ensures cost { IfOk result (λ _. C.count counter.new ≤
        C.count counter.old + cost (C.text source.now) (C.most source.now) (form_of expr.now)) }
    ensures capped { (cap : ℕ) → C.Caps source.now cap → C.count counter.old ≤ cap → C.count counter.new ≤ cap }
{
    let ahead = element_ahead(expr, wanted, source, k, known, counter)?;
    access_from_ahead(expr, wanted, source, k, ahead, known, counter)
}

/// The same once the element ahead is known, if there is one.
#[inline(always)]
#[cycle(access)]
fn access_from_ahead<C: CountedLeaves>(
    expr: &Expr,
    wanted: Access,
    source: &C,
    k: u64,
    ahead: Option<Interval>,
    known: &mut Option<Known>,
    counter: &mut C::Counter,
) -> Result<Option<Interval>, C::Stop>
    requires containment { IsContainment (form_of expr.now) }
    requires well_formed { IsWellFormed (form_of expr.now) }
    requires below { k < far }
    requires begins { IfSome ahead (MayBegin wanted (C.text source.now) (form_of expr.now) k) }
    requires within { IfSome ahead (λ a. a.end < address_end) }
    requires known { KnowsSecond (direction_of wanted) (C.text source.now) (form_of expr.now) known.old }
    ensures answer { IfOk result (λ found. found ≡ access_of wanted (concordance (C.text source.now) (form_of expr.now)) k) }
    ensures within { IfOk result (λ found. IfSome found (λ a. a.end < address_end)) }
    ensures known { IfOk result (λ _. KnowsSecond (direction_of wanted) (C.text source.now) (form_of expr.now) known.new) }
    ensures counted { C.count counter.old ≤ C.count counter.new }
    ensures cost { IfOk result (λ _. C.count counter.new + ahead_cost wanted (C.text source.now) (C.most source.now) (form_of expr.now) ≤
        C.count counter.old + cost (C.text source.now) (C.most source.now) (form_of expr.now)) }
    ensures capped { (cap : ℕ) → C.Caps source.now cap → C.count counter.old ≤ cap → C.count counter.new ≤ cap }
{
    let (containment, first, second) = operands(expr);
    let direction = wanted.direction();
    let onward = goes_by(containment, direction);
    let Some(mut member) = first_member(ahead, first, wanted, source, k, counter)? else {
        return Ok(None);
    };
    loop {
        let (asked, at) = question(containment, direction, member);
        let answer = known_access(second, asked, source, at, known, counter)?;
        match turn(containment, direction, member, answer) {
            Turn::Accept => return Ok(Some(member)),
            Turn::Finish => return Ok(None),
            Turn::GoTo(next) => {
                let Some(later) = access(first, onward, source, next, counter)? else {
                    return Ok(None);
                };
                member = later;
            }
        }
    }
}

/// The member of the first operand at which the loop begins: the one ahead, else that of the access.
#[inline(always)]
#[cycle(access)]
fn first_member<C: CountedLeaves>(
    ahead: Option<Interval>,
    first: &Expr,
    wanted: Access,
    source: &C,
    k: u64,
    counter: &mut C::Counter,
) -> Result<Option<Interval>, C::Stop>
    requires well_formed { IsWellFormed (form_of first.now) }
    requires below { k < far }
    requires within { IfSome ahead (λ a. a.end < address_end) }
    ensures answer { IfOk result (λ found. MatchOption ahead (found ≡
        access_of wanted (concordance (C.text source.now) (form_of first.now)) k) (λ a. found ≡ Some a)) }
    ensures within { IfOk result (λ found. IfSome found (λ a. a.end < address_end)) }
    ensures counted { C.count counter.old ≤ C.count counter.new }
    ensures cost { IfOk result (λ _. C.count counter.new ≤
        C.count counter.old + cost_in (rounds wanted) (C.text source.now) (C.most source.now) (form_of first.now)) }
    ensures capped { (cap : ℕ) → C.Caps source.now cap → C.count counter.old ≤ cap → C.count counter.new ≤ cap }
{
    match ahead {
        Some(member) => Ok(Some(member)),
        None => access(first, wanted, source, k, counter),
    }
}

/// If "containing" is asked by starts: an element at which its loop may begin, ahead of the first operand's next member.
/// Returns None if three look-ups find none, or if nothing was asked further back.
#[inline(always)]
#[cycle(access)]
fn element_ahead<C: CountedLeaves>(
    expr: &Expr,
    wanted: Access,
    source: &C,
    k: u64,
    known: &mut Option<Known>,
    counter: &mut C::Counter,
) -> Result<Option<Interval>, C::Stop>
    requires containment { IsContainment (form_of expr.now) }
    requires well_formed { IsWellFormed (form_of expr.now) }
    requires below { k < far }
    requires known { KnowsSecond (direction_of wanted) (C.text source.now) (form_of expr.now) known.old }
    ensures begins { IfOk result (λ found. IfSome found (MayBegin wanted (C.text source.now) (form_of expr.now) k)) }
    ensures within { IfOk result (λ found. IfSome found (λ a. a.end < address_end)) }
    ensures known { IfOk result (λ _. KnowsSecond (direction_of wanted) (C.text source.now) (form_of expr.now) known.new) }
    ensures counted { C.count counter.old ≤ C.count counter.new }
    ensures cost { IfOk result (λ _. C.count counter.new ≤
        C.count counter.old + ahead_cost wanted (C.text source.now) (C.most source.now) (form_of expr.now)) }
    ensures capped { (cap : ℕ) → C.Caps source.now cap → C.count counter.old ≤ cap → C.count counter.new ≤ cap }
{
    let (containment, first, second) = operands(expr);
    match (containment, wanted) {
        (Containment::Containing, Access::FirstStart) => {
            element_behind_answer(first, second, source, k, known, counter)
        }
        _ => Ok(None),
    }
}

/// The first element that ends where the second operand's first answer at or after `k` does, or later. Each member of
/// "containing" at or after `k` holds an answer at or after `k`, so it ends there or later, too.
#[inline]
#[cycle(access)]
fn element_behind_answer<C: CountedLeaves>(
    first: &Expr,
    second: &Expr,
    source: &C,
    k: u64,
    known: &mut Option<Known>,
    counter: &mut C::Counter,
) -> Result<Option<Interval>, C::Stop>
    requires well_formed { IsWellFormed (form_of second.now) }
    requires below { k < far }
    requires known { IsKnown FirstStart (concordance (C.text source.now) (form_of second.now)) known.old }
    ensures begins { IfOk result (λ found. IfSome found (IsBeginning
        (concordance (C.text source.now) (form_of first.now)) (concordance (C.text source.now)
        (containing (form_of first.now) (form_of second.now))) k)) }
    ensures within { IfOk result (λ found. IfSome found (λ a. a.end < address_end)) }
    ensures known { IfOk result (λ _. IsKnown FirstStart (concordance (C.text source.now) (form_of second.now)) known.new) }
    ensures counted { C.count counter.old ≤ C.count counter.new }
    ensures cost { IfOk result (λ _. C.count counter.new + near_cost (C.text source.now) (C.most source.now) (form_of first.now) ≤
        C.count counter.old +
        cost (C.text source.now) (C.most source.now) (form_of first.now) +
        cost (C.text source.now) (C.most source.now) (form_of second.now)) }
    ensures capped { (cap : ℕ) → C.Caps source.now cap → C.count counter.old ≤ cap → C.count counter.new ≤ cap }
{
    if !was_leap(known, k) {
        return Ok(None);
    }
    // no other first operand is found by three look-ups
    let Some(_tokens) = element_tokens(first) else {
        return Ok(None);
    };
    let Some(answer) = known_access(second, Access::FirstStart, source, k, known, counter)? else {
        return Ok(None);
    };
    let Some(element) = element_up_to(first, source, answer.end, counter)? else {
        return Ok(None);
    };
    if k <= element.start {
        Ok(Some(element))
    } else {
        Ok(None)
    }
}
