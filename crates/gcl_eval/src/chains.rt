ghost use Rattle.std.specs.Prelude.{◌≡◌, ◌+◌, ◌*◌, ◌<◌, ◌≤◌, IfSome, ℕ, IfOk};
ghost use Rattle.gcl_model.specs.Limits.{address_end, far};
ghost use Rattle.gcl_model.specs.Forms.{both, one, seq};
ghost use Rattle.gcl_model.specs.FormOf.{form_of};
ghost use Rattle.gcl_model.specs.Meaning.{concordance};
ghost use Rattle.gcl_model.specs.Cost.{cost};
ghost use Rattle.gcl_model.specs.WellFormed.{IsWellFormed, AreWellFormed};
ghost use Rattle.gcl_eval.specs.Costs.{cost_in, near_cost, rounds};
ghost use Rattle.gcl_eval.specs.Operands.{operand_forms, operand_lists, operand_costs, IsChain, AreOperands};
ghost use Rattle.gcl_model.specs.Directions.{near_access, far_access};
ghost use Rattle.gcl_combine.specs.Directions.{farthest};
ghost use Rattle.gcl_eval.specs.Directions.{access_of, walk, passed, next_past};

use crate::access::access;
use crate::direction::{
    Access, access_by_far_sides, access_by_near_sides, better, between, beyond, farther, join,
    next_operand, opposite, outside, reaches, resume,
};
use gcl_model::{CountedLeaves, Direction, Expr, Interval};

/// An access of a chain: by two rounds of its operands' near accesses at most, or by four.
#[inline]
#[cycle(access)]
pub(crate) fn chain_access<C: CountedLeaves>(
    expr: &Expr,
    access: Access,
    source: &C,
    k: u64,
    counter: &mut C::Counter,
) -> Result<Option<Interval>, C::Stop>
    requires chain { IsChain (form_of expr.now) }
    requires well_formed { IsWellFormed (form_of expr.now) }
    requires below { k < far }
    ensures answer { IfOk result (λ found. found ≡ access_of access (concordance (C.text source.now) (form_of expr.now)) k) }
    ensures counted { C.count counter.old ≤ C.count counter.new }
    ensures cost { IfOk result (λ _. C.count counter.new ≤
        C.count counter.old + cost_in (rounds access) (C.text source.now) (C.most source.now) (form_of expr.now)) }
    ensures capped { (cap : ℕ) → C.Caps source.now cap → C.count counter.old ≤ cap → C.count counter.new ≤ cap }
{
    match access {
        Access::FirstStart => near_access(expr, Direction::Forward, source, k, counter),
        Access::FirstEnd => far_access(expr, Direction::Forward, source, k, counter),
        Access::LastEnd => near_access(expr, Direction::Backward, source, k, counter),
        Access::LastStart => far_access(expr, Direction::Backward, source, k, counter),
    }
}

/// The access by the far sides.
#[inline]
#[cycle(access)]
fn far_access<C: CountedLeaves>(
    expr: &Expr,
    direction: Direction,
    source: &C,
    k: u64,
    counter: &mut C::Counter,
) -> Result<Option<Interval>, C::Stop>
    requires chain { IsChain (form_of expr.now) }
    requires well_formed { IsWellFormed (form_of expr.now) }
    requires below { k < far }
    ensures answer { IfOk result (λ found. found ≡ far_access direction (concordance (C.text source.now) (form_of expr.now)) k) }
    ensures counted { C.count counter.old ≤ C.count counter.new }
    ensures cost { IfOk result (λ _. C.count counter.new ≤
        C.count counter.old + cost (C.text source.now) (C.most source.now) (form_of expr.now)) }
    ensures capped { (cap : ℕ) → C.Caps source.now cap → C.count counter.old ≤ cap → C.count counter.new ≤ cap }
{
    match expr {
        Expr::Seq(operands) => followed_by_far_sides(operands, direction, source, k, counter),
        _ => past_passed(expr, direction, source, k, counter),
    }
}

/// The access by the far sides of any chain: on from the nearest member that it passes over.
#[cycle(access)]
fn past_passed<C: CountedLeaves>(
    expr: &Expr,
    direction: Direction,
    source: &C,
    k: u64,
    counter: &mut C::Counter,
) -> Result<Option<Interval>, C::Stop>
    requires chain { IsChain (form_of expr.now) }
    requires well_formed { IsWellFormed (form_of expr.now) }
    requires below { k < far }
    ensures answer { IfOk result (λ found. found ≡ far_access direction (concordance (C.text source.now) (form_of expr.now)) k) }
    ensures counted { C.count counter.old ≤ C.count counter.new }
    ensures cost { IfOk result (λ _. C.count counter.new ≤
        C.count counter.old + cost (C.text source.now) (C.most source.now) (form_of expr.now)) }
    ensures capped { (cap : ℕ) → C.Caps source.now cap → C.count counter.old ≤ cap → C.count counter.new ≤ cap }
{
    let span = source.span();
    let passed = passed_member(expr, direction, source, k, counter)?;
    let Some(from) = resume(direction, span, passed) else {
        return Ok(None);
    };
    near_access(expr, direction, source, from, counter)
}

/// The nearest member in this direction that the access by the far sides passes over.
#[cycle(access)]
fn passed_member<C: CountedLeaves>(
    expr: &Expr,
    direction: Direction,
    source: &C,
    k: u64,
    counter: &mut C::Counter,
) -> Result<Option<Interval>, C::Stop>
    requires chain { IsChain (form_of expr.now) }
    requires well_formed { IsWellFormed (form_of expr.now) }
    requires below { k < far }
    ensures answer { IfOk result (λ found. found ≡
        passed direction (concordance (C.text source.now) (form_of expr.now)) (C.text source.now).next k) }
    ensures within { IfOk result (λ found. IfSome found (λ a. a.end < address_end)) }
    ensures counted { C.count counter.old ≤ C.count counter.new }
    ensures cost { IfOk result (λ _. C.count counter.new ≤
        C.count counter.old + near_cost (C.text source.now) (C.most source.now) (form_of expr.now)) }
    ensures capped { (cap : ℕ) → C.Caps source.now cap → C.count counter.old ≤ cap → C.count counter.new ≤ cap }
{
    let Some(outside) = outside(direction, source.span(), k) else {
        return Ok(None);
    };
    near_access(expr, opposite(direction), source, outside, counter)
}

/// The access by the near sides.
#[inline]
#[cycle(access)]
fn near_access<C: CountedLeaves>(
    expr: &Expr,
    direction: Direction,
    source: &C,
    k: u64,
    counter: &mut C::Counter,
) -> Result<Option<Interval>, C::Stop>
    requires chain { IsChain (form_of expr.now) }
    requires well_formed { IsWellFormed (form_of expr.now) }
    requires below { k < far }
    ensures answer { IfOk result (λ found. found ≡ near_access direction (concordance (C.text source.now) (form_of expr.now)) k) }
    ensures counted { C.count counter.old ≤ C.count counter.new }
    ensures cost { IfOk result (λ _. C.count counter.new ≤
        C.count counter.old + near_cost (C.text source.now) (C.most source.now) (form_of expr.now)) }
    ensures capped { (cap : ℕ) → C.Caps source.now cap → C.count counter.old ≤ cap → C.count counter.new ≤ cap }
{
    match expr {
        Expr::Both(operands) => both_of(operands, direction, source, k, counter),
        Expr::One(operands) => one_of(operands, direction, source, k, counter),
        Expr::Seq(operands) => followed_by(operands, direction, source, k, counter),
        _ => unreachable!(),
    }
}

/// "Both of": to the farthest side of the operands' answers, and back from it.
#[cycle(access)]
fn both_of<C: CountedLeaves>(
    operands: &[Expr],
    direction: Direction,
    source: &C,
    k: u64,
    counter: &mut C::Counter,
) -> Result<Option<Interval>, C::Stop>
    requires operands { AreOperands (operand_forms operands.now) }
    requires below { k < far }
    ensures answer { IfOk result (λ found. found ≡
        near_access direction (concordance (C.text source.now) (both (operand_forms operands.now))) k) }
    ensures counted { C.count counter.old ≤ C.count counter.new }
    ensures cost { IfOk result (λ _. C.count counter.new ≤
        C.count counter.old + 2 * operand_costs (C.text source.now) (C.most source.now) operands.now) }
    ensures capped { (cap : ℕ) → C.Caps source.now cap → C.count counter.old ≤ cap → C.count counter.new ≤ cap }
{
    let Some(far) = farthest(operands, direction, source, k, counter)? else {
        return Ok(None);
    };
    let Some(near) = farthest(operands, opposite(direction), source, far, counter)? else {
        return Ok(None);
    };
    Ok(Some(between(direction, near, far)))
}

/// The farthest side of the operands' answers at `k`, or `k` if that is farther.
#[cycle(access)]
fn farthest<C: CountedLeaves>(
    operands: &[Expr],
    direction: Direction,
    source: &C,
    k: u64,
    counter: &mut C::Counter,
) -> Result<Option<u64>, C::Stop>
    requires operands { AreWellFormed (operand_forms operands.now) }
    requires below { k < far }
    ensures answer { IfOk result (λ found. found ≡ farthest direction (operand_lists (C.text source.now) operands.now) k k) }
    ensures below { IfOk result (λ found. IfSome found (λ side. side < far)) }
    ensures counted { C.count counter.old ≤ C.count counter.new }
    ensures cost { IfOk result (λ _. C.count counter.new ≤
        C.count counter.old + operand_costs (C.text source.now) (C.most source.now) operands.now) }
    ensures capped { (cap : ℕ) → C.Caps source.now cap → C.count counter.old ≤ cap → C.count counter.new ≤ cap }
{
    let mut side = k;
    for operand in operands {
        let Some(answer) = access(operand, access_by_near_sides(direction), source, k, counter)?
        else {
            return Ok(None);
        };
        side = farther(direction, side, answer);
    }
    Ok(Some(side))
}

/// "One of": the best of the operands' answers.
#[cycle(access)]
fn one_of<C: CountedLeaves>(
    operands: &[Expr],
    direction: Direction,
    source: &C,
    k: u64,
    counter: &mut C::Counter,
) -> Result<Option<Interval>, C::Stop>
    requires operands { AreOperands (operand_forms operands.now) }
    requires below { k < far }
    ensures answer { IfOk result (λ found. found ≡
        near_access direction (concordance (C.text source.now) (one (operand_forms operands.now))) k) }
    ensures counted { C.count counter.old ≤ C.count counter.new }
    ensures cost { IfOk result (λ _. C.count counter.new ≤
        C.count counter.old + operand_costs (C.text source.now) (C.most source.now) operands.now) }
    ensures capped { (cap : ℕ) → C.Caps source.now cap → C.count counter.old ≤ cap → C.count counter.new ≤ cap }
{
    let mut best = None;
    for operand in operands {
        let answer = access(operand, access_by_near_sides(direction), source, k, counter)?;
        best = better(direction, best, answer);
    }
    Ok(best)
}

/// "Followed by": through all operands, and back from the answer of the last through the others.
#[cycle(access)]
fn followed_by<C: CountedLeaves>(
    operands: &[Expr],
    direction: Direction,
    source: &C,
    k: u64,
    counter: &mut C::Counter,
) -> Result<Option<Interval>, C::Stop>
    requires operands { AreOperands (operand_forms operands.now) }
    requires below { k < far }
    ensures answer { IfOk result (λ found. found ≡
        near_access direction (concordance (C.text source.now) (seq (operand_forms operands.now))) k) }
    ensures counted { C.count counter.old ≤ C.count counter.new }
    ensures cost { IfOk result (λ _. C.count counter.new ≤
        C.count counter.old + 2 * operand_costs (C.text source.now) (C.most source.now) operands.now) }
    ensures capped { (cap : ℕ) → C.Caps source.now cap → C.count counter.old ≤ cap → C.count counter.new ≤ cap }
{
    let Some((nearest, after_nearest)) = next_operand(direction, operands) else {
        return Ok(None);
    };
    let Some((_, before_farthest)) = next_operand(opposite(direction), operands) else {
        return Ok(None);
    };
    let Some(found) = access(nearest, access_by_near_sides(direction), source, k, counter)? else {
        return Ok(None);
    };
    let Some(far) = walk(after_nearest, direction, source, found, counter)? else {
        return Ok(None);
    };
    let Some(near) = walk(before_farthest, opposite(direction), source, far, counter)? else {
        return Ok(None);
    };
    Ok(Some(join(direction, near, far)))
}

/// "Followed by", by the far sides: from the last operand's answer back through the others, and on again. A way on that
/// reaches `k` ends where the way back began, and is the member; else the member is the next one past its near side.
#[cycle(access)]
fn followed_by_far_sides<C: CountedLeaves>(
    operands: &[Expr],
    direction: Direction,
    source: &C,
    k: u64,
    counter: &mut C::Counter,
) -> Result<Option<Interval>, C::Stop>
    requires operands { AreOperands (operand_forms operands.now) }
    requires below { k < far }
    ensures answer { IfOk result (λ found. found ≡
        far_access direction (concordance (C.text source.now) (seq (operand_forms operands.now))) k) }
    ensures counted { C.count counter.old ≤ C.count counter.new }
    ensures cost { IfOk result (λ _. C.count counter.new ≤
        C.count counter.old + 4 * operand_costs (C.text source.now) (C.most source.now) operands.now) }
    ensures capped { (cap : ℕ) → C.Caps source.now cap → C.count counter.old ≤ cap → C.count counter.new ≤ cap }
{
    let Some((_, after_nearest)) = next_operand(direction, operands) else {
        return Ok(None);
    };
    let Some((farthest, before_farthest)) = next_operand(opposite(direction), operands) else {
        return Ok(None);
    };
    let Some(found) = access(farthest, access_by_far_sides(direction), source, k, counter)? else {
        return Ok(None);
    };
    match walk(before_farthest, opposite(direction), source, found, counter)? {
        None => next_past(operands, direction, source, None, counter),
        Some(near) => {
            let Some(far) = walk(after_nearest, direction, source, near, counter)? else {
                return Ok(None);
            };
            if reaches(direction, k, far) {
                Ok(Some(join(direction, near, far)))
            } else {
                next_past(operands, direction, source, Some(near), counter)
            }
        }
    }
}

/// "Followed by": the next member past the near side of this one, or from the text's edge.
#[cycle(access)]
fn next_past<C: CountedLeaves>(
    operands: &[Expr],
    direction: Direction,
    source: &C,
    near: Option<Interval>,
    counter: &mut C::Counter,
) -> Result<Option<Interval>, C::Stop>
    requires operands { AreOperands (operand_forms operands.now) }
    requires within { IfSome near (λ a. a.end < address_end) }
    ensures answer { IfOk result (λ found. found ≡
        next_past direction (concordance (C.text source.now) (seq (operand_forms operands.now))) (C.text source.now).first
        (C.text source.now).next near) }
    ensures counted { C.count counter.old ≤ C.count counter.new }
    ensures cost { IfOk result (λ _. C.count counter.new ≤
        C.count counter.old + 2 * operand_costs (C.text source.now) (C.most source.now) operands.now) }
    ensures capped { (cap : ℕ) → C.Caps source.now cap → C.count counter.old ≤ cap → C.count counter.new ≤ cap }
{
    let Some(from) = resume(direction, source.span(), near) else {
        return Ok(None);
    };
    followed_by(operands, direction, source, from, counter)
}

/// On from an answer: each operand's answer beyond that of the one before it, up to the last one's.
#[cycle(access)]
fn walk<C: CountedLeaves>(
    operands: &[Expr],
    direction: Direction,
    source: &C,
    start: Interval,
    counter: &mut C::Counter,
) -> Result<Option<Interval>, C::Stop>
    requires operands { AreWellFormed (operand_forms operands.now) }
    requires within { start.end < address_end }
    ensures answer { IfOk result (λ found. found ≡ walk direction (operand_lists (C.text source.now) operands.now) start) }
    ensures within { IfOk result (λ found. IfSome found (λ a. a.end < address_end)) }
    ensures counted { C.count counter.old ≤ C.count counter.new }
    ensures cost { IfOk result (λ _. C.count counter.new ≤
        C.count counter.old + operand_costs (C.text source.now) (C.most source.now) operands.now) }
    ensures capped { (cap : ℕ) → C.Caps source.now cap → C.count counter.old ≤ cap → C.count counter.new ≤ cap }
{
    let mut answer = start;
    let mut rest = operands;
    while let Some((operand, others)) = next_operand(direction, rest) {
        let Some(from) = beyond(direction, answer) else {
            return Ok(None);
        };
        let near = access_by_near_sides(direction);
        let Some(next) = access(operand, near, source, from, counter)? else {
            return Ok(None);
        };
        answer = next;
        rest = others;
    }
    Ok(Some(answer))
}
