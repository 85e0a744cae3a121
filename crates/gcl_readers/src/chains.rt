//! The chains, by the readers of their operands.

ghost use Rattle.std.specs.Prelude.{◌≡◌, ◌+◌, ◌*◌, ◌<◌, ◌≤◌, length, IfSome};
ghost use Rattle.gcl_model.specs.Limits.{address_end, far};
ghost use Rattle.gcl_model.specs.Access.{first_start};
ghost use Rattle.gcl_model.specs.Texts.{IsText};
ghost use Rattle.gcl_model.specs.Forms.{both, seq, forms_count};
ghost use Rattle.gcl_model.specs.FormOf.{form_of};
ghost use Rattle.gcl_model.specs.Meaning.{concordance};
ghost use Rattle.gcl_model.specs.WellFormed.{AreWellFormed, IsWellFormed};
ghost use Rattle.gcl_combine.specs.Farthest.{end_so_far, start_so_far};
ghost use Rattle.gcl_combine.specs.Better.{best_forward};
ghost use Rattle.gcl_eval.specs.Operands.{operand_forms, operand_lists, AreOperands};
ghost use Rattle.gcl_readers.specs.Fronts.{front_at};
ghost use Rattle.gcl_readers.specs.Agreement.{AllAnswerFrom, AllAnswerInOrder, all_left, HaveMoved, HaveMovedBack};
ghost use Rattle.gcl_readers.specs.Reading.{GoesOn};
ghost use Rattle.gcl_readers.specs.Standing.{AllStand, Stands, Tell, TellsFrom, front_of, starts_at};
ghost use Rattle.gcl_readers.specs.MergeCost.{cost_left, costs_left};

use crate::front::{Front, Place, front_at, put_front, size_of};
use crate::look_ups::element_onward;
use crate::reading::{back, start};
use gcl_combine::{both_forward_end, both_forward_start, one_forward};
use gcl_model::{CountedLeaves, Expr, Interval};
use gcl_order::{after, seq_join};
use std::convert::Infallible;

/// "One of": the best of an answer and of the operands' answers.
#[cycle(reading)]
pub(crate) fn one_find<C: CountedLeaves<Stop = Infallible>>(
    operands: &[Expr],
    places: &mut [Place],
    source: &C,
    k: u64,
    best: Option<Interval>,
    counter: &mut C::Counter,
) -> Option<Interval>
    requires well_formed { AreWellFormed (operand_forms operands.now) }
    requires below { k < far }
    requires sound { IsText (C.text source.now) }
    requires stands { AllStand (C.text source.now) (operand_forms operands.now) places.old }
    requires tells { AllAnswerFrom (operand_lists (C.text source.now) operands.now) (starts_at (operand_forms operands.now) places.old) k }
    ensures answer { result ≡ best_forward (operand_lists (C.text source.now) operands.now) k best }
    ensures stands { AllStand (C.text source.now) (operand_forms operands.now) places.new }
    ensures len { length places.new ≡ length places.old }
    ensures tells { AllAnswerFrom (operand_lists (C.text source.now) operands.now) (starts_at (operand_forms operands.now) places.new) k }
    ensures counted { C.count counter.old ≤ C.count counter.new }
    ensures cost { C.count counter.new + costs_left (C.text source.now) (C.most source.now) (operand_forms operands.now) places.new ≤
        C.count counter.old + costs_left (C.text source.now) (C.most source.now) (operand_forms operands.now) places.old }
{
    let Some((operand, others)) = operands.split_first() else {
        return best;
    };
    let size = size_of(places);
    let (mine, later) = places.split_at_mut(size);
    let answer = start(operand, mine, source, k, counter);
    one_find(others, later, source, k, one_forward(best, answer), counter)
}

/// "Both of": on to the greatest end, and back from it to the least start.
#[cycle(reading)]
pub(crate) fn both_find<C: CountedLeaves<Stop = Infallible>>(
    operands: &[Expr],
    places: &mut [Place],
    source: &C,
    k: u64,
    counter: &mut C::Counter,
) -> Option<Interval>
    requires operands { AreOperands (operand_forms operands.now) }
    requires below { k < far }
    requires sound { IsText (C.text source.now) }
    requires stands { AllStand (C.text source.now) (operand_forms operands.now) places.old }
    requires tells { TellsFrom (C.text source.now) (both (operand_forms operands.now)) places.old k }
    ensures answer { result ≡ first_start (concordance (C.text source.now) (both (operand_forms operands.now))) k }
    ensures stands { AllStand (C.text source.now) (operand_forms operands.now) places.new }
    ensures len { length places.new ≡ length places.old }
    ensures tells { Tell (C.text source.now) (both (operand_forms operands.now)) (front_at result) places.new }
    ensures counted { C.count counter.old ≤ C.count counter.new }
    ensures cost { C.count counter.new + costs_left (C.text source.now) (C.most source.now) (operand_forms operands.now) places.new ≤
        C.count counter.old + costs_left (C.text source.now) (C.most source.now) (operand_forms operands.now) places.old +
        forms_count (operand_forms operands.now) * (2 * C.most source.now) }
{
    let end = both_ends(operands, places, source, k, k, counter)?;
    let start = both_starts(operands, places, source, end, end, counter)?;
    Some(Interval::new(start, end))
}

/// The greatest of an end and of those of the operands' answers at or after `k`.
#[cycle(reading)]
fn both_ends<C: CountedLeaves<Stop = Infallible>>(
    operands: &[Expr],
    places: &mut [Place],
    source: &C,
    k: u64,
    so_far: u64,
    counter: &mut C::Counter,
) -> Option<u64>
    requires well_formed { AreWellFormed (operand_forms operands.now) }
    requires below { k < far }
    requires sound { IsText (C.text source.now) }
    requires stands { AllStand (C.text source.now) (operand_forms operands.now) places.old }
    requires so_far { so_far < far }
    ensures answer { result ≡ end_so_far (all_left (operand_lists (C.text source.now) operands.now)
        (starts_at (operand_forms operands.now) places.old)) k so_far }
    ensures below { IfSome result (λ end. end < far) }
    ensures stands { AllStand (C.text source.now) (operand_forms operands.now) places.new }
    ensures len { length places.new ≡ length places.old }
    ensures moved { IfSome result (λ _. HaveMoved (operand_lists (C.text source.now) operands.now)
        (starts_at (operand_forms operands.now) places.old) (starts_at (operand_forms operands.now) places.new) k) }
    ensures counted { C.count counter.old ≤ C.count counter.new }
    ensures cost { C.count counter.new + costs_left (C.text source.now) (C.most source.now) (operand_forms operands.now) places.new ≤
        C.count counter.old + costs_left (C.text source.now) (C.most source.now) (operand_forms operands.now) places.old }
{
    let Some((operand, others)) = operands.split_first() else {
        return Some(so_far);
    };
    let size = size_of(places);
    let (mine, later) = places.split_at_mut(size);
    let answer = start(operand, mine, source, k, counter)?;
    let so_far = both_forward_end(so_far, answer);
    both_ends(others, later, source, k, so_far, counter)
}

/// The least of a start and of those of the operands' answers up to `k`.
#[cycle(reading)]
fn both_starts<C: CountedLeaves<Stop = Infallible>>(
    operands: &[Expr],
    places: &mut [Place],
    source: &C,
    k: u64,
    so_far: u64,
    counter: &mut C::Counter,
) -> Option<u64>
    requires well_formed { AreWellFormed (operand_forms operands.now) }
    requires below { k < far }
    requires sound { IsText (C.text source.now) }
    requires stands { AllStand (C.text source.now) (operand_forms operands.now) places.old }
    ensures answer { result ≡ start_so_far (all_left (operand_lists (C.text source.now) operands.now)
        (starts_at (operand_forms operands.now) places.old)) k so_far }
    ensures stands { AllStand (C.text source.now) (operand_forms operands.now) places.new }
    ensures len { length places.new ≡ length places.old }
    ensures moved { IfSome result (λ _. HaveMovedBack (operand_lists (C.text source.now) operands.now)
        (starts_at (operand_forms operands.now) places.old) (starts_at (operand_forms operands.now) places.new) k) }
    ensures counted { C.count counter.old ≤ C.count counter.new }
    ensures cost { C.count counter.new + costs_left (C.text source.now) (C.most source.now) (operand_forms operands.now) places.new ≤
        C.count counter.old + costs_left (C.text source.now) (C.most source.now) (operand_forms operands.now) places.old +
        forms_count (operand_forms operands.now) * (2 * C.most source.now) }
{
    let Some((operand, others)) = operands.split_first() else {
        return Some(so_far);
    };
    let size = size_of(places);
    let (mine, later) = places.split_at_mut(size);
    let answer = back(operand, mine, source, k, counter)?;
    let so_far = both_forward_start(so_far, answer);
    both_starts(others, later, source, k, so_far, counter)
}

/// "Followed by": on from operand to operand, and back from the last, which is asked only once, to the first.
#[cycle(reading)]
pub(crate) fn seq_find<C: CountedLeaves<Stop = Infallible>>(
    operands: &[Expr],
    places: &mut [Place],
    source: &C,
    k: u64,
    counter: &mut C::Counter,
) -> Option<Interval>
    requires some { 0 < length operands.now }
    requires well_formed { AreWellFormed (operand_forms operands.now) }
    requires below { k < far }
    requires sound { IsText (C.text source.now) }
    requires stands { AllStand (C.text source.now) (operand_forms operands.now) places.old }
    requires tells { AllAnswerInOrder (operand_lists (C.text source.now) operands.now)
        (starts_at (operand_forms operands.now) places.old) k }
    ensures answer { result ≡ first_start (concordance (C.text source.now) (seq (operand_forms operands.now))) k }
    ensures within { IfSome result (λ a. a.end < address_end) }
    ensures stands { AllStand (C.text source.now) (operand_forms operands.now) places.new }
    ensures len { length places.new ≡ length places.old }
    ensures tells { IfSome result (λ a. AllAnswerInOrder (operand_lists (C.text source.now) operands.now)
        (starts_at (operand_forms operands.now) places.new) (a.start + 1)) }
    ensures counted { C.count counter.old ≤ C.count counter.new }
    ensures cost { C.count counter.new + costs_left (C.text source.now) (C.most source.now) (operand_forms operands.now) places.new +
        2 * C.most source.now
        ≤ C.count counter.old + costs_left (C.text source.now) (C.most source.now) (operand_forms operands.now) places.old +
        forms_count (operand_forms operands.now) * (2 * C.most source.now) }
{
    let (operand, others) = operands.split_first()?;
    let size = size_of(places);
    let (mine, later) = places.split_at_mut(size);
    let first = start(operand, mine, source, k, counter)?;
    if others.is_empty() {
        return Some(first);
    }
    let tail = seq_find(others, later, source, after(first), counter)?;
    let head = back(operand, mine, source, tail.start - 1, counter)?;
    Some(seq_join(head, tail))
}

/// Goes on from a member of "followed by" that ends before `k` towards the first one that ends there or later: to an element on the way,
/// and else to the next member.
#[cycle(reading)]
pub(crate) fn seq_onward<C: CountedLeaves<Stop = Infallible>>(
    expr: &Expr,
    operands: &[Expr],
    places: &mut [Place],
    source: &C,
    member: Interval,
    k: u64,
    counter: &mut C::Counter,
) -> Option<Interval>
    requires form { form_of expr.now ≡ seq (operand_forms operands.now) }
    requires well_formed { IsWellFormed (form_of expr.now) }
    requires below { k < far }
    requires sound { IsText (C.text source.now) }
    requires stands { Stands (C.text source.now) (form_of expr.now) places.old }
    requires on { front_of places.old ≡ Front.On member }
    requires short { member.end < k }
    ensures onward { GoesOn (concordance (C.text source.now) (form_of expr.now)) k member result }
    ensures front { front_of places.new ≡ front_at result }
    ensures stands { Stands (C.text source.now) (form_of expr.now) places.new }
    ensures counted { C.count counter.old ≤ C.count counter.new }
    ensures cost { C.count counter.new + cost_left (C.text source.now) (C.most source.now) (form_of expr.now) places.new
        ≤ C.count counter.old + cost_left (C.text source.now) (C.most source.now) (form_of expr.now) places.old }
{
    if let Some(found) = element_onward(expr, source, member.start + 1, k, counter) {
        put_front(places, front_at(&found));
        return found;
    }
    let (_, below) = places.split_at_mut(1);
    let found = seq_find(operands, below, source, member.start + 1, counter);
    put_front(places, front_at(&found));
    found
}
