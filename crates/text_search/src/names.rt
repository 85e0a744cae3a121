ghost use Rattle.std.specs.Prelude.{map, OnOk};
ghost use Rattle.gcl_model.specs.FormOf.{form_of, forms_from};
ghost use Rattle.text_search.specs.Names.{names_of, names_in};
ghost use Rattle.text_search.specs.Tables.{tokens_in, AreEmpty, Names};

use crate::table::TermTable;
use gcl_model::{Bytes, Expr};
use std::alloc::{AllocError, Global};

/// Puts the tokens that an expression names into a table.
#[cycle(put)]
pub(crate) fn put_names(alloc: Global, expr: &Expr, table: &mut TermTable) -> Result<(), AllocError>
    ensures named { OnOk result (Names (tokens_in table.old) (tokens_in table.new) (names_of (form_of expr.now))) }
    ensures empty { AreEmpty table.old → AreEmpty table.new }
{
    match expr {
        Expr::Term(token) => table.put(alloc, token.as_slice()),
        Expr::Phrase(tokens) => put_tokens(alloc, tokens.as_slice(), table),
        Expr::Width(_) => Ok(()),
        Expr::Both(operands) => put_each(alloc, operands, table),
        Expr::One(operands) => put_each(alloc, operands, table),
        Expr::Seq(operands) => put_each(alloc, operands, table),
        Expr::Containing(first, second)
        | Expr::ContainedIn(first, second)
        | Expr::NotContaining(first, second)
        | Expr::NotContainedIn(first, second) => {
            put_names(alloc, first, table)?;
            put_names(alloc, second, table)
        }
    }
}

/// Puts the tokens that all operands name into the table.
#[cycle(put)]
fn put_each(alloc: Global, operands: &[Expr], table: &mut TermTable) -> Result<(), AllocError>
    ensures named { OnOk result (Names (tokens_in table.old) (tokens_in table.new) (names_in (forms_from (map form_of operands.now)))) }
    ensures empty { AreEmpty table.old → AreEmpty table.new }
{
    for operand in operands {
        put_names(alloc, operand, table)?;
    }
    Ok(())
}

/// Puts these tokens into the table.
fn put_tokens(alloc: Global, tokens: &[Bytes], table: &mut TermTable) -> Result<(), AllocError>
    ensures named { OnOk result (Names (tokens_in table.old) (tokens_in table.new) tokens.now) }
    ensures empty { AreEmpty table.old → AreEmpty table.new }
{
    for token in tokens {
        table.put(alloc, token.as_slice())?;
    }
    Ok(())
}
