ghost use Rattle.std.specs.Prelude.{◌≡◌, map};
ghost use Rattle.gcl_model.specs.FormOf.{form_of, forms_from};
ghost use Rattle.gcl_model.specs.Wide.{is_prefix_term};
ghost use Rattle.wide_terms.specs.Expansion.{has_prefix_term, any_has_prefix_term};

use gcl_model::Expr;

/// Whether some term of the expression is a prefix term, as in `t* ^ be`: without one there is nothing to expand.
#[cycle(ask)]
pub fn has_prefix_terms(expr: &Expr) -> bool
    ensures { result ≡ has_prefix_term (form_of expr.now) }
{
    match expr {
        Expr::Term(token) => is_prefix_term(token.as_slice()),
        Expr::Phrase(_) | Expr::Width(_) => false,
        Expr::Both(operands) | Expr::One(operands) | Expr::Seq(operands) => {
            any_has_prefix_terms(operands)
        }
        Expr::Containing(first, second)
        | Expr::ContainedIn(first, second)
        | Expr::NotContaining(first, second)
        | Expr::NotContainedIn(first, second) => {
            has_prefix_terms(first) || has_prefix_terms(second)
        }
    }
}

#[cycle(ask)]
fn any_has_prefix_terms(operands: &[Expr]) -> bool
    ensures { result ≡ any_has_prefix_term (forms_from (map form_of operands.now)) }
{
    for operand in operands {
        if has_prefix_terms(operand) {
            return true;
        }
    }
    false
}

/// Whether the term is a prefix term: whether it ends with `*`.
pub fn is_prefix_term(token: &[u8]) -> bool
    ensures { result ≡ is_prefix_term token.now }
{
    matches!(token, [.., b'*'])
}
