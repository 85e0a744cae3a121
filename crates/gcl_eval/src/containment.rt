ghost use Rattle.std.specs.Prelude.{◌≡◌, ◌<◌, List, IfSome};
ghost use Rattle.gcl_model.specs.Limits.{address_end, far};
ghost use Rattle.gcl_model.specs.declared.expr.Expr.{size-Expr};
ghost use Rattle.gcl_model.specs.Extents.{Extent};
ghost use Rattle.gcl_model.specs.FormOf.{form_of, containment_form};
ghost use Rattle.gcl_contain.specs.Moves.{move_of};
ghost use Rattle.gcl_eval.specs.Directions.{access_of};
ghost use Rattle.gcl_eval.specs.Containments.{IsContainment, loop_of, goes_by, asks};

use crate::direction::Access;
use gcl_contain::{
    Turn, has_turn, has_turn_back, in_turn, in_turn_back, not_has_turn, not_has_turn_back,
    not_in_turn, not_in_turn_back,
};
use gcl_model::{Containment, Direction, Expr, Interval};

/// The kind of a containment, and its first and its second operand.
#[inline(always)]
pub(crate) fn operands(expr: &Expr) -> (Containment, &Expr, &Expr)
    requires { IsContainment (form_of expr.now) }
    ensures form { form_of expr.now ≡ containment_form result.0 (form_of result.1.now) (form_of result.2.now) }
    ensures first { size-Expr result.1.now < size-Expr expr.now }
    ensures second { size-Expr result.2.now < size-Expr expr.now }
{
    match expr {
        Expr::Containing(a, b) => (Containment::Containing, a, b),
        Expr::ContainedIn(a, b) => (Containment::ContainedIn, a, b),
        Expr::NotContaining(a, b) => (Containment::NotContaining, a, b),
        Expr::NotContainedIn(a, b) => (Containment::NotContainedIn, a, b),
        _ => unreachable!(),
    }
}

/// The access by which the loop goes through the first operand.
#[inline(always)]
pub(crate) fn goes_by(containment: Containment, direction: Direction) -> Access
    ensures { access_of result ≡ goes_by direction (loop_of direction containment) }
{
    match (direction, containment) {
        (Direction::Forward, Containment::Containing) => Access::FirstEnd,
        (Direction::Forward, Containment::ContainedIn) => Access::FirstStart,
        (Direction::Forward, Containment::NotContaining) => Access::FirstStart,
        (Direction::Forward, Containment::NotContainedIn) => Access::FirstEnd,
        (Direction::Backward, Containment::Containing) => Access::LastStart,
        (Direction::Backward, Containment::ContainedIn) => Access::LastEnd,
        (Direction::Backward, Containment::NotContaining) => Access::LastEnd,
        (Direction::Backward, Containment::NotContainedIn) => Access::LastStart,
    }
}

/// What the loop asks of the second operand at a member of the first: an access and its position.
#[inline(always)]
pub(crate) fn question(
    containment: Containment,
    direction: Direction,
    member: Interval,
) -> (Access, u64)
    requires { member.end < address_end }
    ensures access { result.0 ≡ asks direction containment }
    ensures asks { (list : List Extent) → access_of result.0 list result.1 ≡ (loop_of direction containment).ask list member }
    ensures below { result.1 < far }
{
    match (direction, containment) {
        (Direction::Forward, Containment::Containing) => (Access::FirstStart, member.start),
        (Direction::Forward, Containment::ContainedIn) => (Access::FirstEnd, member.end),
        (Direction::Forward, Containment::NotContaining) => (Access::FirstStart, member.start),
        (Direction::Forward, Containment::NotContainedIn) => (Access::FirstEnd, member.end),
        (Direction::Backward, Containment::Containing) => (Access::LastEnd, member.end),
        (Direction::Backward, Containment::ContainedIn) => (Access::LastStart, member.start),
        (Direction::Backward, Containment::NotContaining) => (Access::LastEnd, member.end),
        (Direction::Backward, Containment::NotContainedIn) => (Access::LastStart, member.start),
    }
}

/// What the loop does at a member of the first operand, by the second operand's answer there.
#[inline]
pub(crate) fn turn(
    containment: Containment,
    direction: Direction,
    member: Interval,
    answer: Option<Interval>,
) -> Turn
    requires member_below { member.end < far }
    requires answer_below { IfSome answer (λ b. b.end < far) }
    ensures { move_of result ≡ (loop_of direction containment).move member answer }
{
    match (direction, containment) {
        (Direction::Forward, Containment::Containing) => has_turn(member, answer),
        (Direction::Forward, Containment::ContainedIn) => in_turn(member, answer),
        (Direction::Forward, Containment::NotContaining) => not_has_turn(member, answer),
        (Direction::Forward, Containment::NotContainedIn) => not_in_turn(member, answer),
        (Direction::Backward, Containment::Containing) => has_turn_back(member, answer),
        (Direction::Backward, Containment::ContainedIn) => in_turn_back(member, answer),
        (Direction::Backward, Containment::NotContaining) => not_has_turn_back(member, answer),
        (Direction::Backward, Containment::NotContainedIn) => not_in_turn_back(member, answer),
    }
}
