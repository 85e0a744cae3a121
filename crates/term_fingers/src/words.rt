ghost use Rattle.std.specs.Prelude.{◌≡◌};

use crate::fingers::Fingers;
use crate::naming::Naming;
use gcl_model::Expr;

/// Finds the words of an expression, in the order in which they occur in it.
#[cycle(add)]
pub(crate) fn add_words<'a, J: Naming>(fingers: &mut Fingers<'a, J>, expr: &'a Expr)
    ensures { fingers.new ≡ fingers.old }
{
    match expr {
        Expr::Term(token) => fingers.add(token.as_slice()),
        Expr::Phrase(tokens) => {
            for token in tokens.as_slice() {
                fingers.add(token.as_slice());
            }
        }
        Expr::Width(_) => {}
        Expr::Both(operands) | Expr::One(operands) | Expr::Seq(operands) => {
            add_each(fingers, operands);
        }
        Expr::Containing(first, second)
        | Expr::ContainedIn(first, second)
        | Expr::NotContaining(first, second)
        | Expr::NotContainedIn(first, second) => {
            add_words(fingers, first);
            add_words(fingers, second);
        }
    }
}

#[cycle(add)]
fn add_each<'a, J: Naming>(fingers: &mut Fingers<'a, J>, operands: &'a [Expr])
    ensures { fingers.new ≡ fingers.old }
{
    for operand in operands {
        add_words(fingers, operand);
    }
}
