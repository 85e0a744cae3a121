ghost use Rattle.std.specs.Prelude.{◌≡◌, IfOk};
ghost use Rattle.gcl_model.specs.FormOf.{form_of};
ghost use Rattle.gcl_model.specs.Meaning.{concordance};
ghost use Rattle.gcl_model.specs.WellFormed.{IsWellFormed};
ghost use Rattle.gcl_model.specs.Wide.{wide};
ghost use Rattle.text_search.specs.FileTexts.{file_text};
ghost use Rattle.wide_terms.specs.Expansion.{expansion};

use crate::file_words::FileWords;
use gcl_model::Expr;
use std::alloc::{AllocError, Global};
use wide_terms::expand;

/// An expression over a file with these bytes, with each prefix term replaced by "one of" the file's words that begin with its prefix: an
/// evaluator of plain terms gives it the answers of the expression. Err means out of memory.
///
/// For `"n"* ^ "o"*` over `to be or not to be` it is `not ^ or`. Without a prefix term it is a copy.
pub fn expanded(alloc: Global, bytes: &[u8], expr: &Expr) -> Result<Expr, AllocError>
    requires { IsWellFormed (form_of expr.now) }
    ensures form { IfOk result (λ expanded. form_of expanded ≡ expansion (file_text bytes.now) (form_of expr.now)) }
    ensures wide { IfOk result (λ expanded. concordance (file_text bytes.now) (form_of expanded) ≡
        wide (file_text bytes.now) (form_of expr.now)) }
    ensures well_formed { IfOk result (λ expanded. IsWellFormed (form_of expanded)) }
{
    let words = FileWords::new(bytes);
    expand(alloc, &words, expr, &mut ())
}
