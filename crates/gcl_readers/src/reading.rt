//! The questions that a reader is asked. Each goes forward in the list of its node, and no further than its answer.

ghost use Rattle.std.specs.Prelude.{◌≡◌, ◌+◌, ◌*◌, ◌<◌, ◌≤◌, length, IfSome, Some};
ghost use Rattle.gcl_model.specs.Limits.{address_end, far};
ghost use Rattle.gcl_model.specs.Access.{first_start, first_end, last_end};
ghost use Rattle.gcl_model.specs.Texts.{IsText};
ghost use Rattle.gcl_model.specs.Forms.{term};
ghost use Rattle.gcl_model.specs.FormOf.{form_of};
ghost use Rattle.gcl_model.specs.Meaning.{concordance};
ghost use Rattle.gcl_model.specs.WellFormed.{IsWellFormed};
ghost use Rattle.gcl_readers.specs.Fronts.{IsUnknown, front_at, member_of, start_or_end};
ghost use Rattle.gcl_readers.specs.Reading.{GoesOn};
ghost use Rattle.gcl_readers.specs.Standing.{Stands, StandBelow, Tell, TellsFrom, IsKept, IsNode, left_to, start_at, front_of};
ghost use Rattle.gcl_readers.specs.MergeCost.{find_cost, cost_below, cost_left};

use crate::chains::{both_find, one_find, seq_find, seq_onward};
use crate::containments::containment_find;
use crate::front::{
    Front, Place, front_at, front_between, front_of, member_of, put_front, start_left, told,
};
use crate::look_ups::{element_at_hand, next_place, phrase_find, previous_place};
use fixed_width::{width_first_end, width_first_start, width_last_end};
use gcl_model::{Bytes, CountedLeaves, Expr, Interval};
use std::convert::Infallible;

/// The first member that is left and starts at or after `k`.
#[cycle(reading)]
pub(crate) fn start<C: CountedLeaves<Stop = Infallible>>(
    expr: &Expr,
    places: &mut [Place],
    source: &C,
    k: u64,
    counter: &mut C::Counter,
) -> Option<Interval>
    requires well_formed { IsWellFormed (form_of expr.now) }
    requires below { k < far }
    requires sound { IsText (C.text source.now) }
    requires stands { Stands (C.text source.now) (form_of expr.now) places.old }
    ensures answer { result ≡ first_start (left_to (C.text source.now) (form_of expr.now) places.old) k }
    ensures moved { start_at places.new ≤ start_or_end result }
    ensures within { IfSome result (λ a. a.end < address_end) }
    ensures stands { Stands (C.text source.now) (form_of expr.now) places.new }
    ensures on { IsNode (form_of expr.now) → member_of (front_of places.new) ≡ result }
    ensures counted { C.count counter.old ≤ C.count counter.new }
    ensures cost { C.count counter.new + cost_left (C.text source.now) (C.most source.now) (form_of expr.now) places.new ≤
        C.count counter.old + cost_left (C.text source.now) (C.most source.now) (form_of expr.now) places.old }
{
    if let Expr::Width(width) = expr {
        return width_first_start(*width, source.span(), k);
    }
    match told(front_of(places), k) {
        Some(front) => {
            let member = member_of(&front);
            put_front(places, front);
            member
        }
        None => look(expr, places, source, k, counter),
    }
}

/// The first member at or after `k`, if no answer is known that far.
#[cycle(reading)]
fn look<C: CountedLeaves<Stop = Infallible>>(
    expr: &Expr,
    places: &mut [Place],
    source: &C,
    k: u64,
    counter: &mut C::Counter,
) -> Option<Interval>
    requires well_formed { IsWellFormed (form_of expr.now) }
    requires below { k < far }
    requires sound { IsText (C.text source.now) }
    requires stands { Stands (C.text source.now) (form_of expr.now) places.old }
    requires kept { IsKept (form_of expr.now) }
    requires unknown { IsUnknown (front_of places.old) k }
    ensures answer { result ≡ first_start (concordance (C.text source.now) (form_of expr.now)) k }
    ensures front { front_of places.new ≡ front_at result }
    ensures stands { Stands (C.text source.now) (form_of expr.now) places.new }
    ensures counted { C.count counter.old ≤ C.count counter.new }
    ensures cost { C.count counter.new + cost_left (C.text source.now) (C.most source.now) (form_of expr.now) places.new
        ≤ C.count counter.old + cost_left (C.text source.now) (C.most source.now) (form_of expr.now) places.old }
{
    let (_, below) = places.split_at_mut(1);
    let found = find(expr, below, source, k, counter);
    let front = front_at(&found);
    put_front(places, front);
    found
}

/// The first member at or after `k`, by the readers of the operands.
#[cycle(reading)]
fn find<C: CountedLeaves<Stop = Infallible>>(
    expr: &Expr,
    places: &mut [Place],
    source: &C,
    k: u64,
    counter: &mut C::Counter,
) -> Option<Interval>
    requires well_formed { IsWellFormed (form_of expr.now) }
    requires below { k < far }
    requires sound { IsText (C.text source.now) }
    requires kept { IsKept (form_of expr.now) }
    requires stands { StandBelow (C.text source.now) (form_of expr.now) places.old }
    requires tells { TellsFrom (C.text source.now) (form_of expr.now) places.old k }
    ensures answer { result ≡ first_start (concordance (C.text source.now) (form_of expr.now)) k }
    ensures stands { StandBelow (C.text source.now) (form_of expr.now) places.new }
    ensures tells { Tell (C.text source.now) (form_of expr.now) (front_at result) places.new }
    ensures len { length places.new ≡ length places.old }
    ensures counted { C.count counter.old ≤ C.count counter.new }
    ensures cost { C.count counter.new + cost_below (C.text source.now) (C.most source.now) (form_of expr.now) places.new ≤
        C.count counter.old + cost_below (C.text source.now) (C.most source.now) (form_of expr.now) places.old +
        find_cost (C.text source.now) (C.most source.now) (form_of expr.now) k result }
{
    if let Some(element) = element_at_hand(expr, source, k, counter) {
        return Some(element);
    }
    match expr {
        Expr::Term(token) => term_find(token, source, k, counter),
        Expr::Phrase(tokens) => phrase_find(tokens, source, k, counter),
        Expr::Both(operands) => both_find(operands, places, source, k, counter),
        Expr::One(operands) => one_find(operands, places, source, k, None, counter),
        Expr::Seq(operands) => seq_find(operands, places, source, k, counter),
        Expr::Containing(_, _)
        | Expr::ContainedIn(_, _)
        | Expr::NotContaining(_, _)
        | Expr::NotContainedIn(_, _) => containment_find(expr, places, source, k, counter),
        Expr::Width(_) => unreachable!(),
    }
}

fn term_find<C: CountedLeaves<Stop = Infallible>>(
    token: &Bytes,
    source: &C,
    k: u64,
    counter: &mut C::Counter,
) -> Option<Interval>
    ensures answer { result ≡ first_start (concordance (C.text source.now) (term token.now)) k }
    ensures counted { C.count counter.old ≤ C.count counter.new }
    ensures cost { C.count counter.new ≤ C.count counter.old + C.most source.now }
{
    let place = next_place(token.as_slice(), source, k, counter)?;
    Some(Interval::new(place, place))
}

/// The first member that is left and ends at or after `k`.
#[cycle(reading)]
pub(crate) fn end<C: CountedLeaves<Stop = Infallible>>(
    expr: &Expr,
    places: &mut [Place],
    source: &C,
    k: u64,
    counter: &mut C::Counter,
) -> Option<Interval>
    requires well_formed { IsWellFormed (form_of expr.now) }
    requires below { k < far }
    requires sound { IsText (C.text source.now) }
    requires stands { Stands (C.text source.now) (form_of expr.now) places.old }
    ensures answer { result ≡ first_end (left_to (C.text source.now) (form_of expr.now) places.old) k }
    ensures moved { start_at places.new ≤ start_or_end result }
    ensures within { IfSome result (λ a. a.end < address_end) }
    ensures stands { Stands (C.text source.now) (form_of expr.now) places.new }
    ensures counted { C.count counter.old ≤ C.count counter.new }
    ensures cost { C.count counter.new + cost_left (C.text source.now) (C.most source.now) (form_of expr.now) places.new ≤
        C.count counter.old + cost_left (C.text source.now) (C.most source.now) (form_of expr.now) places.old }
{
    match expr {
        Expr::Width(width) => width_first_end(*width, source.span(), k),
        Expr::Term(_) => start(expr, places, source, k, counter),
        _ => node_end(expr, places, source, k, counter),
    }
}

#[cycle(reading)]
fn node_end<C: CountedLeaves<Stop = Infallible>>(
    expr: &Expr,
    places: &mut [Place],
    source: &C,
    k: u64,
    counter: &mut C::Counter,
) -> Option<Interval>
    requires node { IsNode (form_of expr.now) }
    requires well_formed { IsWellFormed (form_of expr.now) }
    requires below { k < far }
    requires sound { IsText (C.text source.now) }
    requires stands { Stands (C.text source.now) (form_of expr.now) places.old }
    ensures answer { result ≡ first_end (left_to (C.text source.now) (form_of expr.now) places.old) k }
    ensures moved { start_at places.new ≤ start_or_end result }
    ensures within { IfSome result (λ a. a.end < address_end) }
    ensures stands { Stands (C.text source.now) (form_of expr.now) places.new }
    ensures counted { C.count counter.old ≤ C.count counter.new }
    ensures cost { C.count counter.new + cost_left (C.text source.now) (C.most source.now) (form_of expr.now) places.new
        ≤ C.count counter.old + cost_left (C.text source.now) (C.most source.now) (form_of expr.now) places.old }
{
    let mut member = start(expr, places, source, 0, counter)?;
    while member.end < k {
        member = onward(expr, places, source, member, k, counter)?;
    }
    Some(member)
}

/// Goes on from the first member that is left, which ends before `k`, towards the first one that ends there or later: to the next member,
/// or past elements, none of which ends there.
#[cycle(reading)]
fn onward<C: CountedLeaves<Stop = Infallible>>(
    expr: &Expr,
    places: &mut [Place],
    source: &C,
    member: Interval,
    k: u64,
    counter: &mut C::Counter,
) -> Option<Interval>
    requires node { IsNode (form_of expr.now) }
    requires well_formed { IsWellFormed (form_of expr.now) }
    requires below { k < far }
    requires sound { IsText (C.text source.now) }
    requires stands { Stands (C.text source.now) (form_of expr.now) places.old }
    requires on { member_of (front_of places.old) ≡ Some member }
    requires short { member.end < k }
    ensures onward { GoesOn (concordance (C.text source.now) (form_of expr.now)) k member result }
    ensures on { member_of (front_of places.new) ≡ result }
    ensures stands { Stands (C.text source.now) (form_of expr.now) places.new }
    ensures counted { C.count counter.old ≤ C.count counter.new }
    ensures cost { C.count counter.new + cost_left (C.text source.now) (C.most source.now) (form_of expr.now) places.new
        ≤ C.count counter.old + cost_left (C.text source.now) (C.most source.now) (form_of expr.now) places.old }
{
    match (expr, front_of(places)) {
        (Expr::Seq(operands), Front::On(_)) => {
            seq_onward(expr, operands, places, source, member, k, counter)
        }
        _ => start(expr, places, source, member.start + 1, counter),
    }
}

/// The last member that is left and ends at or before `k`.
#[cycle(reading)]
pub(crate) fn back<C: CountedLeaves<Stop = Infallible>>(
    expr: &Expr,
    places: &mut [Place],
    source: &C,
    k: u64,
    counter: &mut C::Counter,
) -> Option<Interval>
    requires well_formed { IsWellFormed (form_of expr.now) }
    requires below { k < far }
    requires sound { IsText (C.text source.now) }
    requires stands { Stands (C.text source.now) (form_of expr.now) places.old }
    ensures answer { result ≡ last_end (left_to (C.text source.now) (form_of expr.now) places.old) k }
    ensures moved { IfSome result (λ a. start_at places.new ≤ a.start) }
    ensures within { IfSome result (λ a. a.end < address_end) }
    ensures stands { Stands (C.text source.now) (form_of expr.now) places.new }
    ensures counted { C.count counter.old ≤ C.count counter.new }
    ensures cost { C.count counter.new + cost_left (C.text source.now) (C.most source.now) (form_of expr.now) places.new ≤
        C.count counter.old + cost_left (C.text source.now) (C.most source.now) (form_of expr.now) places.old + 2 * C.most source.now }
{
    match expr {
        Expr::Width(width) => width_last_end(*width, source.span(), k),
        Expr::Term(token) => term_back(token, places, source, k, counter),
        _ => node_back(expr, places, source, k, counter),
    }
}

fn term_back<C: CountedLeaves<Stop = Infallible>>(
    token: &Bytes,
    places: &mut [Place],
    source: &C,
    k: u64,
    counter: &mut C::Counter,
) -> Option<Interval>
    requires stands { Stands (C.text source.now) (term token.now) places.old }
    ensures answer { result ≡ last_end (left_to (C.text source.now) (term token.now) places.old) k }
    ensures moved { IfSome result (λ a. start_at places.new ≤ a.start) }
    ensures within { IfSome result (λ a. a.end < address_end) }
    ensures stands { Stands (C.text source.now) (term token.now) places.new }
    ensures counted { C.count counter.old ≤ C.count counter.new }
    ensures cost { C.count counter.new + cost_left (C.text source.now) (C.most source.now) (term token.now) places.new ≤
        C.count counter.old + cost_left (C.text source.now) (C.most source.now) (term token.now) places.old + 2 * C.most source.now }
{
    let address = previous_place(token.as_slice(), source, k, counter)?;
    if address < start_left(front_of(places)) {
        return None;
    }
    let member = Interval::new(address, address);
    put_front(places, Front::On(member));
    Some(member)
}

#[cycle(reading)]
fn node_back<C: CountedLeaves<Stop = Infallible>>(
    expr: &Expr,
    places: &mut [Place],
    source: &C,
    k: u64,
    counter: &mut C::Counter,
) -> Option<Interval>
    requires node { IsNode (form_of expr.now) }
    requires well_formed { IsWellFormed (form_of expr.now) }
    requires below { k < far }
    requires sound { IsText (C.text source.now) }
    requires stands { Stands (C.text source.now) (form_of expr.now) places.old }
    ensures answer { result ≡ last_end (left_to (C.text source.now) (form_of expr.now) places.old) k }
    ensures moved { IfSome result (λ a. start_at places.new ≤ a.start) }
    ensures within { IfSome result (λ a. a.end < address_end) }
    ensures stands { Stands (C.text source.now) (form_of expr.now) places.new }
    ensures counted { C.count counter.old ≤ C.count counter.new }
    ensures cost { C.count counter.new + cost_left (C.text source.now) (C.most source.now) (form_of expr.now) places.new
        ≤ C.count counter.old + cost_left (C.text source.now) (C.most source.now) (form_of expr.now) places.old }
{
    let mut member = start(expr, places, source, 0, counter)?;
    if k < member.end {
        return None;
    }
    while let Some(next) = peek(expr, places, source, member, counter) {
        if k < next.end {
            break;
        }
        put_front(places, Front::On(next));
        member = next;
    }
    Some(member)
}

/// The member after the first one that is left.
#[cycle(reading)]
fn peek<C: CountedLeaves<Stop = Infallible>>(
    expr: &Expr,
    places: &mut [Place],
    source: &C,
    member: Interval,
    counter: &mut C::Counter,
) -> Option<Interval>
    requires node { IsNode (form_of expr.now) }
    requires well_formed { IsWellFormed (form_of expr.now) }
    requires below { member.end < address_end }
    requires sound { IsText (C.text source.now) }
    requires stands { Stands (C.text source.now) (form_of expr.now) places.old }
    requires on { member_of (front_of places.old) ≡ Some member }
    ensures answer { result ≡ first_start (concordance (C.text source.now) (form_of expr.now)) (member.start + 1) }
    ensures front { front_of places.new ≡ Front.Between member result }
    ensures stands { Stands (C.text source.now) (form_of expr.now) places.new }
    ensures counted { C.count counter.old ≤ C.count counter.new }
    ensures cost { C.count counter.new + cost_left (C.text source.now) (C.most source.now) (form_of expr.now) places.new
        ≤ C.count counter.old + cost_left (C.text source.now) (C.most source.now) (form_of expr.now) places.old }
{
    if let Front::Between(_, next) = front_of(places) {
        return next;
    }
    let next = look(expr, places, source, member.start + 1, counter);
    let front = front_between(member, &next);
    put_front(places, front);
    next
}
