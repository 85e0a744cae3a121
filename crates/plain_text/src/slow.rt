ghost use Rattle.std.specs.Prelude.{◌≡◌, map, IfOk};
ghost use Rattle.gcl_model.specs.FormOf.{form_of, forms_from, containment_form};
ghost use Rattle.gcl_model.specs.WellFormed.{IsWellFormed, AreWellFormed};
ghost use Rattle.gcl_model.specs.Meaning.{concordance, operands};

use crate::filters::{
    both_list, kept_list, one_list, phrase_list, seq_list, term_list, width_list,
};
use crate::text::PlainText;
use gcl_model::{Containment, Expr, IntervalList};
use std::alloc::{AllocError, Global};

/// The concordance list of the expression, by looking at every pair of addresses of the text.
/// It is the plain program that faster ones are compared with.
#[cycle(slow)]
pub fn slow_list(alloc: Global, expr: &Expr, text: &PlainText) -> Result<IntervalList, AllocError>
    requires { IsWellFormed (form_of expr.now) }
    ensures { IfOk result (λ list. list ≡ concordance text.now (form_of expr.now)) }
{
    match expr {
        Expr::Term(token) => term_list(alloc, text, token.as_slice()),
        Expr::Phrase(tokens) => phrase_list(alloc, text, tokens.as_slice()),
        Expr::Width(width) => width_list(alloc, text, *width),
        Expr::Both(operands) => {
            let lists = operand_lists(alloc, operands.as_slice(), text)?;
            both_list(alloc, text, lists.as_slice())
        }
        Expr::One(operands) => {
            let lists = operand_lists(alloc, operands.as_slice(), text)?;
            one_list(alloc, text, lists.as_slice())
        }
        Expr::Seq(operands) => {
            let lists = operand_lists(alloc, operands.as_slice(), text)?;
            seq_list(alloc, text, lists.as_slice())
        }
        Expr::Containing(a, b) => slow_containment(alloc, Containment::Containing, a, b, text),
        Expr::ContainedIn(a, b) => slow_containment(alloc, Containment::ContainedIn, a, b, text),
        Expr::NotContaining(a, b) => {
            slow_containment(alloc, Containment::NotContaining, a, b, text)
        }
        Expr::NotContainedIn(a, b) => {
            slow_containment(alloc, Containment::NotContainedIn, a, b, text)
        }
    }
}

/// The list of a containment of two expressions.
#[cycle(slow)]
fn slow_containment(
    alloc: Global,
    containment: Containment,
    first: &Expr,
    second: &Expr,
    text: &PlainText,
) -> Result<IntervalList, AllocError>
    requires first { IsWellFormed (form_of first.now) }
    requires second { IsWellFormed (form_of second.now) }
    ensures { IfOk result (λ list. list ≡ concordance text.now (containment_form containment (form_of first.now) (form_of second.now))) }
{
    let first = slow_list(alloc, first, text)?;
    let second = slow_list(alloc, second, text)?;
    kept_list(alloc, containment, first.as_slice(), second.as_slice())
}

/// The list of each operand.
#[cycle(slow)]
fn operand_lists(
    alloc: Global,
    exprs: &[Expr],
    text: &PlainText,
) -> Result<Vec<IntervalList>, AllocError>
    requires { AreWellFormed (forms_from (map form_of exprs.now)) }
    ensures { IfOk result (λ lists. lists.items ≡ operands text.now (forms_from (map form_of exprs.now))) }
{
    let mut lists = Vec::new(alloc);
    for expr in exprs {
        lists.push(slow_list(alloc, expr, text)?)?;
    }
    Ok(lists)
}
