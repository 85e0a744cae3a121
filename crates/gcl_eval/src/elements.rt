//! Elements: intervals from one token to another, such as the tags of a line, which the leaves may have available.

ghost use Rattle.std.specs.Prelude.{◌≡◌, ◌+◌, ◌*◌, ◌<◌, ◌≤◌, None, Some, IfSome, IsNone, ℕ, IfOk};
ghost use Rattle.gcl_model.specs.Forms.{term, no_forms, more_forms};
ghost use Rattle.gcl_model.specs.Texts.{IsText, next_place};
ghost use Rattle.gcl_model.specs.Elements.{IsElementUpTo};
ghost use Rattle.gcl_model.specs.Access.{first_end, first_start};
ghost use Rattle.gcl_model.specs.Meaning.{concordance};
ghost use Rattle.gcl_model.specs.Limits.{address_end};
ghost use Rattle.gcl_model.specs.FormOf.{form_of};
ghost use Rattle.gcl_eval.specs.Costs.{cost_in, rounds};
ghost use Rattle.gcl_eval.specs.Elements.{IsElement, IsOnTheWay, LeadsTo};
ghost use Rattle.gcl_eval.specs.Directions.{access_of};
ghost use Rattle.gcl_eval.specs.Operands.{operand_forms, element_form};

use crate::direction::Access;
use gcl_model::{Bytes, CountedLeaves, Expr, Interval};

/// The tokens of two operands that are terms, if there are no others.
#[inline(always)]
fn two_terms(operands: &[Expr]) -> Option<(&Bytes, &Bytes)>
    ensures { IfSome result (λ p. operand_forms operands.now ≡ more_forms (term p.0.now) (more_forms (term p.1.now) no_forms)) }
{
    match operands {
        [Expr::Term(first), Expr::Term(second)] => Some((first, second)),
        _ => None,
    }
}

/// The tokens of "followed by" for two terms.
#[inline(always)]
pub(crate) fn element_tokens(expr: &Expr) -> Option<(&Bytes, &Bytes)>
    ensures { IfSome result (λ p. form_of expr.now ≡ element_form p.0.now p.1.now) }
{
    match expr {
        Expr::Seq(operands) => {
            let (first, second) = two_terms(operands)?;
            Some((first, second))
        }
        _ => None,
    }
}

/// An access of "followed by" for two terms, if its answer is available. Going backward, and for any other expression,
/// none is.
#[inline(always)]
pub(crate) fn element_access<C: CountedLeaves>(
    expr: &Expr,
    wanted: Access,
    source: &C,
    k: u64,
    counter: &mut C::Counter,
) -> Result<Option<Interval>, C::Stop>
    ensures answer { IfOk result (λ found. IfSome found (λ a. Some a ≡
        access_of wanted (concordance (C.text source.now) (form_of expr.now)) k)) }
    ensures within { IfOk result (λ found. IfSome found (λ a. a.end < address_end)) }
    ensures counted { C.count counter.old ≤ C.count counter.new }
    ensures steps { C.count counter.new ≤ C.count counter.old + 3 * C.most source.now }
    ensures cost { IfOk result (λ _. C.count counter.new ≤
        C.count counter.old + cost_in (rounds wanted) (C.text source.now) (C.most source.now) (form_of expr.now)) }
    ensures none { IfOk result (λ found. IsNone found → C.count counter.new ≡ C.count counter.old) }
    ensures capped { (cap : ℕ) → C.Caps source.now cap → C.count counter.old ≤ cap → C.count counter.new ≤ cap }
{
    let Some((first, second)) = element_tokens(expr) else {
        return Ok(None);
    };
    // the contract of `span` gives that the words rise
    let _span = source.span();
    match wanted {
        Access::FirstStart => source.element_from(first.as_slice(), second.as_slice(), k, counter),
        Access::FirstEnd => source.element_up_to(first.as_slice(), second.as_slice(), k, counter),
        Access::LastEnd | Access::LastStart => Ok(None),
    }
}

/// The first element that ends at or after `k`: the available one, else by its three look-ups. Returns None also if these
/// lead to one that ends before `k`, and for any other expression.
#[inline]
pub(crate) fn element_up_to<C: CountedLeaves>(
    expr: &Expr,
    source: &C,
    k: u64,
    counter: &mut C::Counter,
) -> Result<Option<Interval>, C::Stop>
    ensures answer { IfOk result (λ found. IfSome found (λ a. Some a ≡ first_end (concordance (C.text source.now) (form_of expr.now)) k)) }
    ensures within { IfOk result (λ found. IfSome found (λ a. a.end < address_end)) }
    ensures counted { C.count counter.old ≤ C.count counter.new }
    ensures steps { C.count counter.new ≤ C.count counter.old + 3 * C.most source.now }
    ensures capped { (cap : ℕ) → C.Caps source.now cap → C.count counter.old ≤ cap → C.count counter.new ≤ cap }
{
    if let Some(element) = element_access(expr, Access::FirstEnd, source, k, counter)? {
        return Ok(Some(element));
    }
    let Some((first, second)) = element_tokens(expr) else {
        return Ok(None);
    };
    three_look_ups(first.as_slice(), second.as_slice(), source, k, counter)
}

/// The element from the last `first` before the next `second` at or after `k`, up to the next `second` after that `first`,
/// if this is at or after `k`, too.
fn three_look_ups<C: CountedLeaves>(
    first: &[u8],
    second: &[u8],
    source: &C,
    k: u64,
    counter: &mut C::Counter,
) -> Result<Option<Interval>, C::Stop>
    ensures answer { IfOk result (λ found. IfSome found (IsElementUpTo (C.text source.now).words first.now second.now k)) }
    ensures sound { IsText (C.text source.now) }
    ensures counted { C.count counter.old ≤ C.count counter.new }
    ensures steps { C.count counter.new ≤ C.count counter.old + 3 * C.most source.now }
    ensures capped { (cap : ℕ) → C.Caps source.now cap → C.count counter.old ≤ cap → C.count counter.new ≤ cap }
{
    let Some(found) = source.next(second, k, counter)? else {
        return Ok(None);
    };
    let Some(behind) = found.checked_sub(1) else {
        return Ok(None);
    };
    let Some(start) = source.prev(first, behind, counter)? else {
        return Ok(None);
    };
    let Some(end) = source.next(second, start + 1, counter)? else {
        return Ok(None);
    };
    if k <= end {
        Ok(Some(Interval::new(start, end)))
    } else {
        Ok(None)
    }
}

/// The first element that starts at or after `k`, if it is available: its three look-ups are counted then, and none otherwise. Returns
/// None also for any other expression.
pub fn element_at_hand<C: CountedLeaves>(
    expr: &Expr,
    source: &C,
    k: u64,
    counter: &mut C::Counter,
) -> Result<Option<Interval>, C::Stop>
    ensures answer { IfOk result (λ found. IfSome found (λ a. Some a ≡
        first_start (concordance (C.text source.now) (form_of expr.now)) k)) }
    ensures counted { C.count counter.old ≤ C.count counter.new }
    ensures steps { C.count counter.new ≤ C.count counter.old + 3 * C.most source.now }
    ensures element { IfOk result (λ found. IfSome found (λ _. IsElement (form_of expr.now))) }
    ensures none { IfOk result (λ found. IsNone found → C.count counter.new ≡ C.count counter.old) }
    ensures capped { (cap : ℕ) → C.Caps source.now cap → C.count counter.old ≤ cap → C.count counter.new ≤ cap }
{
    let Some(_tokens) = element_tokens(expr) else {
        return Ok(None);
    };
    element_access(expr, Access::FirstStart, source, k, counter)
}

/// An element on the way to the first one that ends at or after `k`, by three look-ups: no element before it ends there. `Some(None)`
/// means that none ends at `k` or later. Returns None if these look-ups lead to no element that starts at `from` or later, and for any
/// other expression.
///
/// With `first` at 1, 2 and 7 and `second` at 4 and 9 it is (7, 9) if `from` is 3 and `k` is 5.
pub fn element_onward<C: CountedLeaves>(
    expr: &Expr,
    source: &C,
    from: u64,
    k: u64,
    counter: &mut C::Counter,
) -> Result<Option<Option<Interval>>, C::Stop>
    ensures end { IfOk result (λ found. IfSome found (λ found. found ≡
        None → first_end (concordance (C.text source.now) (form_of expr.now)) k ≡ None)) }
    ensures onward { IfOk result (λ found. IfSome found (λ found. IfSome found (IsOnTheWay (concordance (C.text source.now) (form_of
        expr.now)) from k))) }
    ensures element { IfOk result (λ found. IfSome found (λ _. IsElement (form_of expr.now))) }
    ensures counted { C.count counter.old ≤ C.count counter.new }
    ensures steps { C.count counter.new ≤ C.count counter.old + 3 * C.most source.now }
    ensures few { IfOk result (λ found. IsNone found → C.count counter.new ≤ C.count counter.old + 2 * C.most source.now) }
    ensures capped { (cap : ℕ) → C.Caps source.now cap → C.count counter.old ≤ cap → C.count counter.new ≤ cap }
{
    let Some((first, second)) = element_tokens(expr) else {
        return Ok(None);
    };
    if let Some(element) = element_access(expr, Access::FirstEnd, source, k, counter)? {
        return Ok(Some(Some(element)));
    }
    onward_by_look_ups(
        first.as_slice(),
        second.as_slice(),
        source,
        from,
        k,
        counter,
    )
}

/// The interval from the last `first` before the next `second` at or after `k`, up to the next `second` after that `first`, if it starts
/// at `from` or later. `Some(None)` means that no `second` is at `k` or later.
fn onward_by_look_ups<C: CountedLeaves>(
    first: &[u8],
    second: &[u8],
    source: &C,
    from: u64,
    k: u64,
    counter: &mut C::Counter,
) -> Result<Option<Option<Interval>>, C::Stop>
    ensures end { IfOk result (λ found. IfSome found (λ found. found ≡ None → None ≡ next_place (C.text source.now).words second.now k)) }
    ensures onward { IfOk result (λ found. IfSome found (λ found. IfSome found (LeadsTo (C.text source.now).words first.now second.now
        from k))) }
    ensures sound { IsText (C.text source.now) }
    ensures counted { C.count counter.old ≤ C.count counter.new }
    ensures steps { C.count counter.new ≤ C.count counter.old + 3 * C.most source.now }
    ensures few { IfOk result (λ found. IsNone found → C.count counter.new ≤ C.count counter.old + 2 * C.most source.now) }
    ensures capped { (cap : ℕ) → C.Caps source.now cap → C.count counter.old ≤ cap → C.count counter.new ≤ cap }
{
    let Some(found) = source.next(second, k, counter)? else {
        return Ok(Some(None));
    };
    let Some(behind) = found.checked_sub(1) else {
        return Ok(None);
    };
    let Some(start) = source.prev(first, behind, counter)? else {
        return Ok(None);
    };
    if start < from {
        return Ok(None);
    }
    let Some(end) = source.next(second, start + 1, counter)? else {
        return Ok(None);
    };
    Ok(Some(Some(Interval::new(start, end))))
}
