//! The containments, by the readers of their two operands.

ghost use Rattle.std.specs.Prelude.{◌≡◌, ◌+◌, ◌<◌, ◌≤◌, length, IfSome};
ghost use Rattle.gcl_model.specs.Limits.{address_end, far};
ghost use Rattle.gcl_model.specs.Access.{first_start};
ghost use Rattle.gcl_model.specs.Texts.{IsText};
ghost use Rattle.gcl_model.specs.FormOf.{form_of, containment_form};
ghost use Rattle.gcl_model.specs.Meaning.{concordance};
ghost use Rattle.gcl_model.specs.WellFormed.{IsWellFormed};
ghost use Rattle.gcl_model.specs.declared.direction.Direction.TheVariants.{Forward};
ghost use Rattle.gcl_contain.specs.Moves.{move_of};
ghost use Rattle.gcl_contain.specs.Kinds.{first_from};
ghost use Rattle.gcl_eval.specs.Containments.{IsContainment, loop_of};
ghost use Rattle.gcl_readers.specs.Fronts.{front_at, start_or_end};
ghost use Rattle.gcl_readers.specs.Standing.{Stands, StandBelow, Tell, TellsFrom, left_to, start_at};
ghost use Rattle.gcl_readers.specs.MergeCost.{member_cost, cost_below, cost_left};

use crate::front::{Place, size_of};
use crate::reading::{end, start};
use gcl_contain::{Turn, has_turn, in_turn, not_has_turn, not_in_turn};
use gcl_model::{Containment, CountedLeaves, Expr, Interval};
use std::convert::Infallible;

/// A containment: from member to member of the first operand, each of which asks the second operand once.
#[cycle(reading)]
pub(crate) fn containment_find<C: CountedLeaves<Stop = Infallible>>(
    expr: &Expr,
    places: &mut [Place],
    source: &C,
    k: u64,
    counter: &mut C::Counter,
) -> Option<Interval>
    requires containment { IsContainment (form_of expr.now) }
    requires well_formed { IsWellFormed (form_of expr.now) }
    requires below { k < far }
    requires sound { IsText (C.text source.now) }
    requires stands { StandBelow (C.text source.now) (form_of expr.now) places.old }
    requires tells { TellsFrom (C.text source.now) (form_of expr.now) places.old k }
    ensures answer { result ≡ first_start (concordance (C.text source.now) (form_of expr.now)) k }
    ensures stands { StandBelow (C.text source.now) (form_of expr.now) places.new }
    ensures tells { Tell (C.text source.now) (form_of expr.now) (front_at result) places.new }
    ensures len { length places.new ≡ length places.old }
    ensures counted { C.count counter.old ≤ C.count counter.new }
    ensures cost { C.count counter.new + cost_below (C.text source.now) (C.most source.now) (form_of expr.now) places.new ≤
        C.count counter.old + cost_below (C.text source.now) (C.most source.now) (form_of expr.now) places.old +
        member_cost (C.text source.now) (C.most source.now) (form_of expr.now) }
{
    let (containment, first, second) = operands(expr);
    let size = size_of(places);
    let (first_places, second_places) = places.split_at_mut(size);
    let mut member = start(first, first_places, source, k, counter)?;
    loop {
        let answer = ask(containment, second, second_places, source, member, counter);
        match turn(containment, member, answer) {
            Turn::Accept => return Some(member),
            Turn::Finish => return None,
            Turn::GoTo(next) => {
                member = go_on(containment, first, first_places, source, next, counter)?;
            }
        }
    }
}

/// What a member of the first operand asks of the second.
#[cycle(reading)]
fn ask<C: CountedLeaves<Stop = Infallible>>(
    containment: Containment,
    second: &Expr,
    places: &mut [Place],
    source: &C,
    member: Interval,
    counter: &mut C::Counter,
) -> Option<Interval>
    requires well_formed { IsWellFormed (form_of second.now) }
    requires below { member.end < address_end }
    requires sound { IsText (C.text source.now) }
    requires stands { Stands (C.text source.now) (form_of second.now) places.old }
    ensures answer { result ≡ (loop_of Forward containment).ask (left_to (C.text source.now) (form_of second.now) places.old) member }
    ensures moved { start_at places.new ≤ start_or_end result }
    ensures within { IfSome result (λ a. a.end < address_end) }
    ensures stands { Stands (C.text source.now) (form_of second.now) places.new }
    ensures counted { C.count counter.old ≤ C.count counter.new }
    ensures cost { C.count counter.new + cost_left (C.text source.now) (C.most source.now) (form_of second.now) places.new ≤
        C.count counter.old + cost_left (C.text source.now) (C.most source.now) (form_of second.now) places.old }
{
    match containment {
        Containment::Containing => start(second, places, source, member.start, counter),
        Containment::ContainedIn => end(second, places, source, member.end, counter),
        Containment::NotContaining => start(second, places, source, member.start, counter),
        Containment::NotContainedIn => end(second, places, source, member.end, counter),
    }
}

/// The first operand's next member, by the side that the loop goes by.
#[cycle(reading)]
fn go_on<C: CountedLeaves<Stop = Infallible>>(
    containment: Containment,
    first: &Expr,
    places: &mut [Place],
    source: &C,
    next: u64,
    counter: &mut C::Counter,
) -> Option<Interval>
    requires well_formed { IsWellFormed (form_of first.now) }
    requires below { next < far }
    requires sound { IsText (C.text source.now) }
    requires stands { Stands (C.text source.now) (form_of first.now) places.old }
    ensures answer { result ≡ first_from (loop_of Forward containment) (left_to (C.text source.now) (form_of first.now) places.old) next }
    ensures moved { start_at places.new ≤ start_or_end result }
    ensures within { IfSome result (λ a. a.end < address_end) }
    ensures stands { Stands (C.text source.now) (form_of first.now) places.new }
    ensures counted { C.count counter.old ≤ C.count counter.new }
    ensures cost { C.count counter.new + cost_left (C.text source.now) (C.most source.now) (form_of first.now) places.new ≤
        C.count counter.old + cost_left (C.text source.now) (C.most source.now) (form_of first.now) places.old }
{
    match containment {
        Containment::Containing => end(first, places, source, next, counter),
        Containment::ContainedIn => start(first, places, source, next, counter),
        Containment::NotContaining => start(first, places, source, next, counter),
        Containment::NotContainedIn => end(first, places, source, next, counter),
    }
}

/// The kind of a containment, and its first and its second operand.
fn operands(expr: &Expr) -> (Containment, &Expr, &Expr)
    requires { IsContainment (form_of expr.now) }
    ensures { form_of expr.now ≡ containment_form result.0 (form_of result.1.now) (form_of result.2.now) }
{
    match expr {
        Expr::Containing(a, b) => (Containment::Containing, a, b),
        Expr::ContainedIn(a, b) => (Containment::ContainedIn, a, b),
        Expr::NotContaining(a, b) => (Containment::NotContaining, a, b),
        Expr::NotContainedIn(a, b) => (Containment::NotContainedIn, a, b),
        _ => unreachable!(),
    }
}

/// What the loop does at a member of the first operand, by the second operand's answer there.
fn turn(containment: Containment, member: Interval, answer: Option<Interval>) -> Turn
    requires member_below { member.end < far }
    requires answer_below { IfSome answer (λ b. b.end < far) }
    ensures { move_of result ≡ (loop_of Forward containment).move member answer }
{
    match containment {
        Containment::Containing => has_turn(member, answer),
        Containment::ContainedIn => in_turn(member, answer),
        Containment::NotContaining => not_has_turn(member, answer),
        Containment::NotContainedIn => not_in_turn(member, answer),
    }
}
