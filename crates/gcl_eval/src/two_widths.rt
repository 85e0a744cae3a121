//! Counts of widths, and of containments of one width and another, which visit no member.

ghost use Rattle.std.specs.Prelude.{◌≡◌, ◌≤◌, length, IfSome};
ghost use Rattle.gcl_model.specs.Texts.{Text};
ghost use Rattle.gcl_model.specs.Forms.{width};
ghost use Rattle.gcl_model.specs.FormOf.{form_of, containment_form};
ghost use Rattle.gcl_model.specs.Meaning.{concordance};
ghost use Rattle.gcl_model.specs.WellFormed.{IsWellFormed};
ghost use Rattle.fixed_width.specs.Widths.{HasSpan};
ghost use Rattle.gcl_eval.specs.Containments.{IsContainment};
ghost use Rattle.gcl_eval.specs.TwoWidths.{keeps_all};

use crate::containment::operands;
use fixed_width::width_count;
use gcl_model::{Containment, Expr, Span};

/// How many members a width has, or a containment of two; None for any other expression.
pub(crate) fn count_at_once(expr: &Expr, span: Span) -> Option<u64>
    requires { IsWellFormed (form_of expr.now) }
    ensures { IfSome result (λ count. (text : Text) → HasSpan text span.first span.next → count ≡
        length (concordance text (form_of expr.now))) }
{
    if let Expr::Width(n) = expr {
        return Some(width_count(*n, span));
    }
    let widths = widths_of(expr)?;
    Some(count_of_widths(widths, span))
}

/// A containment of intervals of one width and of another.
#[derive(Clone, Copy)]
struct TwoWidths {
    containment: Containment,
    first: u64,
    second: u64,
}

/// The containment of two widths that the expression is, or None.
fn widths_of(expr: &Expr) -> Option<TwoWidths>
    ensures { IfSome result (λ w. form_of expr.now ≡ containment_form w.containment (width w.first) (width w.second)) }
{
    match expr {
        Expr::Containing(_, _)
        | Expr::ContainedIn(_, _)
        | Expr::NotContaining(_, _)
        | Expr::NotContainedIn(_, _) => widths_in(expr),
        _ => None,
    }
}

/// The same of a containment.
fn widths_in(expr: &Expr) -> Option<TwoWidths>
    requires { IsContainment (form_of expr.now) }
    ensures { IfSome result (λ w. form_of expr.now ≡ containment_form w.containment (width w.first) (width w.second)) }
{
    let (containment, first, second) = operands(expr);
    let Expr::Width(first) = first else {
        return None;
    };
    let Expr::Width(second) = second else {
        return None;
    };
    Some(TwoWidths {
        containment,
        first: *first,
        second: *second,
    })
}

/// How many members the containment has: as many as its first width, or none.
fn count_of_widths(widths: TwoWidths, span: Span) -> u64
    requires first { 1 ≤ widths.first }
    requires second { 1 ≤ widths.second }
    ensures { (text : Text) → HasSpan text span.first span.next →
        result ≡ length (concordance text (containment_form widths.containment (width widths.first) (width widths.second))) }
{
    if keeps_all(widths, span.next - span.first) {
        width_count(widths.first, span)
    } else {
        0
    }
}

/// Whether the containment keeps each interval of the first width in `room` addresses, rather than none of them.
fn keeps_all(widths: TwoWidths, room: u64) -> bool
    ensures { result ≡ keeps_all widths.containment widths.first widths.second room }
{
    let covers = widths.second <= widths.first;
    let is_inside = widths.first <= widths.second && widths.second <= room;
    match widths.containment {
        Containment::Containing => covers,
        Containment::ContainedIn => is_inside,
        Containment::NotContaining => !covers,
        Containment::NotContainedIn => !is_inside,
    }
}
