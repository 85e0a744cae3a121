ghost use Rattle.std.specs.Prelude.{◌≡◌, ◌≤◌, [], length, map, slice_index_or, IfOk};
ghost use Rattle.gcl_model.specs.Tokens.{tokens_of};
ghost use Rattle.gcl_model.specs.Forms.{term, width as width_form};
ghost use Rattle.gcl_model.specs.FormOf.{form_of, forms_from, containment_form};
ghost use Rattle.gcl_parser.specs.Grammar.{chain_form};
ghost use Rattle.gcl_parser.specs.QueryTokens.{quoted_form, prefix_form, terms_of};

use crate::scan::is_boundary;
use crate::token::Joint;
use gcl_model::{Bytes, Containment, Expr, TokenList};
use std::alloc::{AllocError, Global};
use word_tokens::tokens;

/// The node of a chain.
pub fn chain_node(joint: Joint, members: Vec<Expr>) -> Expr
    ensures { form_of result ≡ chain_form joint (forms_from (map form_of members.items)) }
{
    match joint {
        Joint::FollowedBy => Expr::Seq(members),
        Joint::BothOf => Expr::Both(members),
        Joint::OneOf => Expr::One(members),
    }
}

/// The node of a containment.
pub fn containment_node(
    alloc: Global,
    containment: Containment,
    left: Expr,
    right: Expr,
) -> Result<Expr, AllocError>
    ensures { IfOk result (λ expr. form_of expr ≡ containment_form containment (form_of left) (form_of right)) }
{
    let left = Box::new(alloc, left)?;
    let right = Box::new(alloc, right)?;
    Ok(match containment {
        Containment::Containing => Expr::Containing(left, right),
        Containment::ContainedIn => Expr::ContainedIn(left, right),
        Containment::NotContaining => Expr::NotContaining(left, right),
        Containment::NotContainedIn => Expr::NotContainedIn(left, right),
    })
}

/// The node of a width.
pub fn width_node(width: u64) -> Expr
    ensures { form_of result ≡ width_form width }
{
    Expr::Width(width)
}

/// The prefix term of the bytes between two quotes.
pub fn prefix_node(alloc: Global, content: &[u8]) -> Result<Expr, AllocError>
    requires { 1 ≤ length (tokens_of content.now) }
    ensures { IfOk result (λ expr. form_of expr ≡ prefix_form (tokens_of content.now)) }
{
    let mut term = first_token(alloc, content)?;
    term.push(b'*')?;
    Ok(Expr::Term(term))
}

/// The first token of some bytes.
fn first_token(alloc: Global, content: &[u8]) -> Result<Bytes, AllocError>
    requires { 1 ≤ length (tokens_of content.now) }
    ensures { IfOk result (λ token. token ≡ slice_index_or (tokens_of content.now) 0 []) }
{
    let words = tokens(alloc, content)?;
    words.get(0).copy()
}

/// The term or the phrase of the bytes between two quotes.
pub fn quoted_node(alloc: Global, content: &[u8]) -> Result<Expr, AllocError>
    ensures { IfOk result (λ expr. form_of expr ≡ quoted_form (terms_of content.now)) }
{
    if is_boundary(content) {
        return term_node(alloc, content);
    }
    let terms = tokens(alloc, content)?;
    terms_node(terms)
}

/// The term of some bytes.
fn term_node(alloc: Global, token: &[u8]) -> Result<Expr, AllocError>
    ensures { IfOk result (λ expr. form_of expr ≡ term token.now) }
{
    Ok(Expr::Term(Bytes::copy_of(alloc, token)?))
}

/// The term of one token, or the phrase of several.
fn terms_node(terms: TokenList) -> Result<Expr, AllocError>
    ensures { IfOk result (λ expr. form_of expr ≡ quoted_form terms) }
{
    if terms.len() == 1 {
        return Ok(Expr::Term(terms.get(0).copy()?));
    }
    Ok(Expr::Phrase(terms))
}
