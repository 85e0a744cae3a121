//! Look-ups, none of which is refused.

ghost use Rattle.std.specs.Prelude.{◌≡◌, ◌+◌, ◌*◌, ◌<◌, ◌≤◌, length, None, Some, IfSome, IsNone};
ghost use Rattle.gcl_model.specs.Limits.{far};
ghost use Rattle.gcl_model.specs.Access.{first_end, first_start};
ghost use Rattle.gcl_model.specs.Forms.{phrase};
ghost use Rattle.gcl_model.specs.FormOf.{form_of};
ghost use Rattle.gcl_model.specs.Meaning.{concordance};
ghost use Rattle.gcl_model.specs.Texts.{IsText, next_place, previous_place};
ghost use Rattle.phrase_walk.specs.Rounds.{passed_cost};
ghost use Rattle.gcl_eval.specs.Elements.{IsElement, IsOnTheWay};

use gcl_model::{CountedLeaves, Expr, Interval, TokenList};
use std::convert::Infallible;

/// The least address at or after `k` that holds the term.
#[inline(always)]
pub(crate) fn next_place<C: CountedLeaves<Stop = Infallible>>(
    term: &[u8],
    source: &C,
    k: u64,
    counter: &mut C::Counter,
) -> Option<u64>
    ensures answer { result ≡ next_place (C.text source.now).words term.now k }
    ensures sound { IsText (C.text source.now) }
    ensures counted { C.count counter.old ≤ C.count counter.new }
    ensures cost { C.count counter.new ≤ C.count counter.old + C.most source.now }
{
    let Ok(place) = source.next(term, k, counter);
    place
}

/// The greatest address up to `k` that holds the term.
#[inline(always)]
pub(crate) fn previous_place<C: CountedLeaves<Stop = Infallible>>(
    term: &[u8],
    source: &C,
    k: u64,
    counter: &mut C::Counter,
) -> Option<u64>
    ensures answer { result ≡ previous_place (C.text source.now).words term.now k }
    ensures sound { IsText (C.text source.now) }
    ensures counted { C.count counter.old ≤ C.count counter.new }
    ensures cost { C.count counter.new ≤ C.count counter.old + C.most source.now }
{
    let Ok(place) = source.prev(term, k, counter);
    place
}

/// The first interval of the phrase that starts at or after `k`.
#[inline(always)]
pub(crate) fn phrase_find<C: CountedLeaves<Stop = Infallible>>(
    tokens: &TokenList,
    source: &C,
    k: u64,
    counter: &mut C::Counter,
) -> Option<Interval>
    requires tokens { 2 ≤ length tokens.now }
    requires address { k < far }
    ensures answer { result ≡ first_start (concordance (C.text source.now) (phrase tokens.now)) k }
    ensures counted { C.count counter.old ≤ C.count counter.new }
    ensures passed { C.count counter.new ≤ C.count counter.old + passed_cost (C.text source.now) (C.most source.now) tokens.now k result }
{
    let Ok(found) = phrase_walk::counted_first_start(tokens, source, k, counter);
    found
}

/// The first element that starts at or after `k`, if it is available.
#[inline(always)]
pub(crate) fn element_at_hand<C: CountedLeaves<Stop = Infallible>>(
    expr: &Expr,
    source: &C,
    k: u64,
    counter: &mut C::Counter,
) -> Option<Interval>
    ensures answer { IfSome result (λ a. Some a ≡ first_start (concordance (C.text source.now) (form_of expr.now)) k) }
    ensures counted { C.count counter.old ≤ C.count counter.new }
    ensures steps { C.count counter.new ≤ C.count counter.old + 3 * C.most source.now }
    ensures element { IfSome result (λ _. IsElement (form_of expr.now)) }
    ensures none { IsNone result → C.count counter.new ≡ C.count counter.old }
{
    let Ok(found) = gcl_eval::element_at_hand(expr, source, k, counter);
    found
}

/// An element on the way to the first one that ends at or after `k`, by three look-ups.
#[inline(always)]
pub(crate) fn element_onward<C: CountedLeaves<Stop = Infallible>>(
    expr: &Expr,
    source: &C,
    from: u64,
    k: u64,
    counter: &mut C::Counter,
) -> Option<Option<Interval>>
    ensures end { IfSome result (λ found. found ≡ None → first_end (concordance (C.text source.now) (form_of expr.now)) k ≡ None) }
    ensures onward { IfSome result (λ found. IfSome found (IsOnTheWay (concordance (C.text source.now) (form_of expr.now)) from k)) }
    ensures element { IfSome result (λ _. IsElement (form_of expr.now)) }
    ensures counted { C.count counter.old ≤ C.count counter.new }
    ensures steps { C.count counter.new ≤ C.count counter.old + 3 * C.most source.now }
    ensures few { IsNone result → C.count counter.new ≤ C.count counter.old + 2 * C.most source.now }
{
    let Ok(found) = gcl_eval::element_onward(expr, source, from, k, counter);
    found
}
