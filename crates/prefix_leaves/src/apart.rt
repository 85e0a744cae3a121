//! Whether no word has two names in an expression.
ghost use Rattle.std.specs.Prelude.{◌≡◌, map, not};
ghost use Rattle.std.specs.List.{list_all};
ghost use Rattle.gcl_model.specs.FormOf.{form_of, forms_from};
ghost use Rattle.prefix_leaves.specs.Renaming.{are_alone, do_overlap, is_alone, is_among, is_meant_among};
ghost use Rattle.prefix_leaves.specs.Renaming.{are_apart, is_apart, is_apart_token};

use crate::meant::{begins_with, front, is_meant_by};
use gcl_model::{Bytes, Expr};
use wide_terms::is_prefix_term;

/// Whether each name of the expression means words that no other name means, given that these are its prefix terms.
#[cycle(apart)]
pub(crate) fn is_apart(prefixes: &[Bytes], expr: &Expr) -> bool
    ensures { result ≡ is_apart prefixes.now (form_of expr.now) }
{
    match expr {
        Expr::Term(token) => is_apart_token(prefixes, token.as_slice()),
        Expr::Phrase(tokens) => are_unmeant(prefixes, tokens.as_slice()),
        Expr::Width(_) => true,
        Expr::Both(operands) | Expr::One(operands) | Expr::Seq(operands) => {
            are_apart(prefixes, operands)
        }
        Expr::Containing(first, second)
        | Expr::ContainedIn(first, second)
        | Expr::NotContaining(first, second)
        | Expr::NotContainedIn(first, second) => {
            is_apart(prefixes, first) && is_apart(prefixes, second)
        }
    }
}

#[cycle(apart)]
fn are_apart(prefixes: &[Bytes], operands: &[Expr]) -> bool
    ensures { result ≡ are_apart prefixes.now (forms_from (map form_of operands.now)) }
{
    for operand in operands {
        if !is_apart(prefixes, operand) {
            return false;
        }
    }
    true
}

/// Whether no two of these prefix terms overlap.
pub(crate) fn are_alone(prefixes: &[Bytes]) -> bool
    ensures { result ≡ are_alone prefixes.now }
{
    for prefix in prefixes {
        if !is_alone(prefixes, prefix.as_slice()) {
            return false;
        }
    }
    true
}

fn is_apart_token(prefixes: &[Bytes], token: &[u8]) -> bool
    ensures { result ≡ is_apart_token prefixes.now token.now }
{
    if is_prefix_term(token) {
        is_among(prefixes, token) && is_alone(prefixes, token)
    } else {
        !is_meant_among(prefixes, token)
    }
}

fn are_unmeant(prefixes: &[Bytes], tokens: &[Bytes]) -> bool
    ensures { result ≡ list_all (λ token. not (is_meant_among prefixes.now token)) tokens.now }
{
    for token in tokens {
        if is_meant_among(prefixes, token.as_slice()) {
            return false;
        }
    }
    true
}

fn is_meant_among(prefixes: &[Bytes], token: &[u8]) -> bool
    ensures { result ≡ is_meant_among prefixes.now token.now }
{
    for prefix in prefixes {
        if is_meant_by(token, prefix.as_slice()) {
            return true;
        }
    }
    false
}

pub(crate) fn is_among(prefixes: &[Bytes], token: &[u8]) -> bool
    ensures { result ≡ is_among prefixes.now token.now }
{
    for prefix in prefixes {
        if prefix.as_slice() == token {
            return true;
        }
    }
    false
}

fn is_alone(prefixes: &[Bytes], token: &[u8]) -> bool
    ensures { result ≡ is_alone prefixes.now token.now }
{
    for prefix in prefixes {
        if prefix.as_slice() != token && do_overlap(prefix.as_slice(), token) {
            return false;
        }
    }
    true
}

fn do_overlap(first: &[u8], second: &[u8]) -> bool
    ensures { result ≡ do_overlap first.now second.now }
{
    let first = front(first);
    let second = front(second);
    begins_with(second, first) || begins_with(first, second)
}
