//! An access of any expression.
//!
//! An access goes in a direction, and by one side of the members. Going forward, a member's start is its near side and
//! its end the far one; going backward it is the other way round. So `first_start` and `last_end` are the near accesses,
//! `first_end` and `last_start` the far ones. A chain has its near accesses by those of its operands, and "both of" and
//! "one of" have their far ones by their own near ones: first the nearest member that lies before `k`, and then the next
//! one. Of (2, 2), (4, 5) and (6, 6) the first that ends at 3 or later is found as follows: (2, 2) is the last that ends
//! before 3, and (4, 5) the first that starts after it does. "Followed by" asks its last operand first, from where the way
//! leads back: of "or" and "be" at 3 and 6, (6, 6) leads back to (3, 3), and (3, 6) is the member.

ghost use Rattle.std.specs.Prelude.{◌≡◌, ◌+◌, ◌<◌, ◌≤◌, IfSome, ℕ, IfOk};
ghost use Rattle.gcl_model.specs.Limits.{address_end, far};
ghost use Rattle.gcl_model.specs.FormOf.{form_of};
ghost use Rattle.gcl_model.specs.Meaning.{concordance};
ghost use Rattle.gcl_model.specs.Cost.{cost};
ghost use Rattle.gcl_model.specs.WellFormed.{IsWellFormed};
ghost use Rattle.gcl_eval.specs.Costs.{cost_in, rounds};
ghost use Rattle.gcl_eval.specs.Directions.{access_of};

use crate::chains::chain_access;
use crate::containments::containment_access;
use crate::direction::Access;
use crate::elements::element_access;
use crate::phrase::phrase_access;
use crate::term::term_access;
use crate::width::width_access;
use gcl_model::{CountedLeaves, Expr, Interval};

/// An access of an expression: the element that is available, else by its operands' accesses.
#[inline(always)]
#[cycle(access)]
pub(crate) fn access<C: CountedLeaves>(
    expr: &Expr,
    wanted: Access,
    source: &C,
    k: u64,
    counter: &mut C::Counter,
) -> Result<Option<Interval>, C::Stop>
    requires well_formed { IsWellFormed (form_of expr.now) }
    requires below { k < far }
    ensures answer { IfOk result (λ found. found ≡ access_of wanted (concordance (C.text source.now) (form_of expr.now)) k) }
    ensures within { IfOk result (λ found. IfSome found (λ a. a.end < address_end)) }
    ensures counted { C.count counter.old ≤ C.count counter.new }
    ensures cost { IfOk result (λ _. C.count counter.new ≤
        C.count counter.old + cost (C.text source.now) (C.most source.now) (form_of expr.now)) }
    ensures cost_by_access { IfOk result (λ _. C.count counter.new ≤
        C.count counter.old + cost_in (rounds wanted) (C.text source.now) (C.most source.now) (form_of expr.now)) }
    ensures capped { (cap : ℕ) → C.Caps source.now cap → C.count counter.old ≤ cap → C.count counter.new ≤ cap }
{
    if let Some(element) = element_access(expr, wanted, source, k, counter)? {
        return Ok(Some(element));
    }
    access_by_operands(expr, wanted, source, k, counter)
}

/// An access of an expression, by its operands' accesses.
#[cycle(access)]
fn access_by_operands<C: CountedLeaves>(
    expr: &Expr,
    access: Access,
    source: &C,
    k: u64,
    counter: &mut C::Counter,
) -> Result<Option<Interval>, C::Stop>
    requires well_formed { IsWellFormed (form_of expr.now) }
    requires below { k < far }
    ensures answer { IfOk result (λ found. found ≡ access_of access (concordance (C.text source.now) (form_of expr.now)) k) }
    ensures within { IfOk result (λ found. IfSome found (λ a. a.end < address_end)) }
    ensures counted { C.count counter.old ≤ C.count counter.new }
    ensures cost { IfOk result (λ _. C.count counter.new ≤
        C.count counter.old + cost (C.text source.now) (C.most source.now) (form_of expr.now)) }
    ensures cost_by_access { IfOk result (λ _. C.count counter.new ≤
        C.count counter.old + cost_in (rounds access) (C.text source.now) (C.most source.now) (form_of expr.now)) }
    ensures capped { (cap : ℕ) → C.Caps source.now cap → C.count counter.old ≤ cap → C.count counter.new ≤ cap }
{
    let span = source.span();
    match expr {
        Expr::Term(token) => term_access(token, access, source, k, counter),
        Expr::Phrase(tokens) => phrase_access(tokens, access, source, k, counter),
        Expr::Width(width) => Ok(width_access(*width, access, span, k)),
        Expr::Both(_) | Expr::One(_) | Expr::Seq(_) => chain_access(
            expr, access, source, k, counter,
        ),
        Expr::Containing(_, _)
        | Expr::ContainedIn(_, _)
        | Expr::NotContaining(_, _)
        | Expr::NotContainedIn(_, _) => {
            let mut known = None;
            containment_access(expr, access, source, k, &mut known, counter)
        }
    }
}
