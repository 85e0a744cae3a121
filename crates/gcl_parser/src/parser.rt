ghost use Rattle.std.specs.Prelude.{◌≡◌, ◌↔◌, Some, IfOk, IsErrOf};
ghost use Rattle.gcl_model.specs.FormOf.{form_of};
ghost use Rattle.gcl_model.specs.WellFormed.{IsWellFormed};
ghost use Rattle.gcl_parser.specs.declared.fault.QueryFault.{QueryFault};
ghost use Rattle.gcl_parser.specs.Grammar.{IsQueryWithin};
ghost use Rattle.gcl_parser.specs.Refusal.{refused};

use crate::fault::ParseFault;
use crate::read::query;
use crate::refusal::refusal;
use gcl_model::Expr;
use std::alloc::Global;

/// The expression of a query. `Query` has the first place at which the text is no query, and what is wrong there;
/// finding these allocates nothing. `NoMemory` comes only from `alloc`.
///
/// Of `"to" .. "be"` it is `to` followed by `be`; `("to"` is refused at 5, where an operator or `)` is expected.
pub fn parse(alloc: Global, text: &[u8]) -> Result<Expr, ParseFault>
    ensures ok { IfOk result (λ expr. IsQueryWithin text.now (form_of expr)) }
    ensures well_formed { IfOk result (λ expr. IsWellFormed (form_of expr)) }
    ensures query { (fault : QueryFault) → IsErrOf result (ParseFault.Query fault) ↔ (refused text.now ≡ Some fault) }
{
    if let Some(fault) = refusal(text) {
        return Err(ParseFault::Query(fault));
    }
    let whole = query(alloc, text, 0)?;
    Ok(whole.expr)
}
