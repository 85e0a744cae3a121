ghost use Rattle.std.specs.Prelude.{◌≡◌, map};
ghost use Rattle.gcl_model.specs.FormOf.{form_of, forms_from};
ghost use Rattle.standing_query.specs.inner.Walks.{chain_operands, first_operand, second_operand};

use gcl_model::Expr;

/// The first operand of a containment; any other expression as it is.
pub fn first_operand(expr: &Expr) -> &Expr
    ensures { form_of result.now ≡ first_operand (form_of expr.now) }
{
    match expr {
        Expr::Containing(a, _)
        | Expr::ContainedIn(a, _)
        | Expr::NotContaining(a, _)
        | Expr::NotContainedIn(a, _) => a,
        _ => expr,
    }
}

/// The second operand of a containment; any other expression as it is.
pub fn second_operand(expr: &Expr) -> &Expr
    ensures { form_of result.now ≡ second_operand (form_of expr.now) }
{
    match expr {
        Expr::Containing(_, b)
        | Expr::ContainedIn(_, b)
        | Expr::NotContaining(_, b)
        | Expr::NotContainedIn(_, b) => b,
        _ => expr,
    }
}

/// The operands of a chain. Nothing else has any.
pub fn chain_operands(expr: &Expr) -> &[Expr]
    ensures { forms_from (map form_of result.now) ≡ chain_operands (form_of expr.now) }
{
    match expr {
        Expr::Both(operands) | Expr::One(operands) | Expr::Seq(operands) => operands,
        _ => &[],
    }
}
