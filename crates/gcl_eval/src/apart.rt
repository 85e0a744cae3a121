//! Elements, no two of which overlap: the search for the next one goes on where the last one ends.

ghost use Rattle.std.specs.Prelude.{◌≡◌, ℕ, ◌+◌, ◌<◌, ◌≤◌, Some, IsTrue};
ghost use Rattle.gcl_model.specs.Limits.{address_end};
ghost use Rattle.gcl_model.specs.Texts.{Text, IsText};
ghost use Rattle.gcl_model.specs.FormOf.{form_of};
ghost use Rattle.gcl_model.specs.Meaning.{concordance};
ghost use Rattle.gcl_model.specs.Access.{first_start};
ghost use Rattle.gcl_eval.specs.Containments.{IsContainment};
ghost use Rattle.gcl_eval.specs.Members.{AreApart, members_from};

use crate::containment::operands;
use crate::elements::element_tokens;
use gcl_model::{Expr, Interval};

/// Where the search goes on after a member: past its start, and at its end if no two members overlap.
#[inline]
pub(crate) fn next_from(expr: &Expr, member: Interval) -> u64
    requires { member.end < address_end }
    ensures onward { (text : Text) (k : ℕ) → IsText text → Some member ≡ first_start (concordance text (form_of expr.now)) k →
        members_from (concordance text (form_of expr.now)) result ≡ members_from (concordance text (form_of expr.now)) (member.start + 1) }
    ensures past { member.start < result }
    ensures within { result ≤ member.end + 1 }
{
    if member.start < member.end && are_apart(expr) {
        return member.end;
    }
    member.start + 1
}

/// Whether the members are elements: intervals from one token to another, or such intervals that a containment keeps.
#[inline]
fn are_apart(expr: &Expr) -> bool
    ensures { IsTrue result → (text : Text) → IsText text → AreApart (concordance text (form_of expr.now)) }
{
    match expr {
        Expr::Containing(_, _)
        | Expr::ContainedIn(_, _)
        | Expr::NotContaining(_, _)
        | Expr::NotContainedIn(_, _) => are_kept_apart(expr),
        _ => element_tokens(expr).is_some(),
    }
}

/// The same of a containment.
fn are_kept_apart(expr: &Expr) -> bool
    requires { IsContainment (form_of expr.now) }
    ensures { IsTrue result → (text : Text) → IsText text → AreApart (concordance text (form_of expr.now)) }
{
    let (_containment, first, _second) = operands(expr);
    element_tokens(first).is_some()
}
