//! The prefix terms of an expression.
ghost use Rattle.std.specs.Prelude.{◌≡◌, true, IfOk, IfSome};
ghost use Rattle.std.specs.List.{list_all};
ghost use Rattle.gcl_model.specs.FormOf.{form_of};
ghost use Rattle.gcl_model.specs.Wide.{is_prefix_term};
ghost use Rattle.prefix_leaves.specs.Renaming.{are_alone, is_apart};

use crate::apart::{are_alone, is_among, is_apart};
use gcl_model::{Bytes, Expr, TokenList};
use std::alloc::{AllocError, Global};
use std::marker::Model;
use wide_terms::is_prefix_term;

/// The most prefix terms that are used: each token is compared with each of them.
const MOST_PREFIXES: usize = 8;

/// Some prefix terms, of which no two overlap. Contracts see them as a list.
#[derive(Drop)]
pub struct PrefixTerms {
    tokens: TokenList,
}

impl Model for PrefixTerms {
    ghost use Rattle.std.specs.Prelude.{◌≡◌, true, List, ℕ};
    ghost use Rattle.std.specs.List.{list_all};
    ghost use Rattle.gcl_model.specs.Wide.{is_prefix_term};
    ghost use Rattle.prefix_leaves.specs.Renaming.{are_alone};

    ghost Value = { List (List ℕ) };

    ghost view = { λ t. t.tokens };

    ghost invariant = { λ t. (list_all is_prefix_term t.tokens ≡ true) × (are_alone t.tokens ≡ true) };
}

impl PrefixTerms {
    /// Those of an expression, or None if a word is meant by two of its names or if there are too many. `Err` means out of memory.
    ///
    /// For `t* ^ be` it is `t*`; for `t* ^ to` it is None.
    pub fn of(alloc: Global, expr: &Expr) -> Result<Option<PrefixTerms>, AllocError>
        ensures { IfOk result (λ terms. IfSome terms (λ prefixes. is_apart prefixes (form_of expr.now) ≡ true)) }
    {
        let mut tokens = TokenList::new(alloc);
        gather(alloc, expr, &mut tokens)?;
        if tokens.len() > MOST_PREFIXES {
            return Ok(None);
        }
        if !are_alone(tokens.as_slice()) {
            return Ok(None);
        }
        if !is_apart(tokens.as_slice(), expr) {
            return Ok(None);
        }
        Ok(Some(PrefixTerms { tokens }))
    }

    /// All of them.
    pub fn as_slice(&self) -> &[Bytes]
        ensures all { result.now ≡ self.now }
        ensures terms { list_all is_prefix_term self.now ≡ true }
        ensures alone { are_alone self.now ≡ true }
    {
        self.tokens.as_slice()
    }
}

/// Adds the prefix terms of the expression to the others, each once.
#[cycle(gather)]
fn gather(alloc: Global, expr: &Expr, tokens: &mut TokenList) -> Result<(), AllocError>
    requires { list_all is_prefix_term tokens.old ≡ true }
    ensures { list_all is_prefix_term tokens.new ≡ true }
{
    match expr {
        Expr::Term(token) => put(alloc, token.as_slice(), tokens),
        Expr::Phrase(_) | Expr::Width(_) => Ok(()),
        Expr::Both(operands) | Expr::One(operands) | Expr::Seq(operands) => {
            gather_each(alloc, operands, tokens)
        }
        Expr::Containing(first, second)
        | Expr::ContainedIn(first, second)
        | Expr::NotContaining(first, second)
        | Expr::NotContainedIn(first, second) => {
            gather(alloc, first, tokens)?;
            gather(alloc, second, tokens)
        }
    }
}

#[cycle(gather)]
fn gather_each(alloc: Global, operands: &[Expr], tokens: &mut TokenList) -> Result<(), AllocError>
    requires { list_all is_prefix_term tokens.old ≡ true }
    ensures { list_all is_prefix_term tokens.new ≡ true }
{
    for operand in operands {
        gather(alloc, operand, tokens)?;
    }
    Ok(())
}

fn put(alloc: Global, token: &[u8], tokens: &mut TokenList) -> Result<(), AllocError>
    requires { list_all is_prefix_term tokens.old ≡ true }
    ensures { list_all is_prefix_term tokens.new ≡ true }
{
    if !is_prefix_term(token) || is_among(tokens.as_slice(), token) {
        return Ok(());
    }
    if tokens.len() > MOST_PREFIXES {
        return Ok(());
    }
    tokens.push(Bytes::copy_of(alloc, token)?)
}
