ghost use Rattle.std.specs.Prelude.{◌≡◌, ◌<◌, ◌≤◌, ◌∷◌, length, IfOk, IfNone, IfSome};
ghost use Rattle.gcl_model.specs.FormOf.{form_of, containment_form};
ghost use Rattle.gcl_parser.specs.declared.token.Joint.TheVariants.{OneOf};
ghost use Rattle.gcl_parser.specs.Grammar.{single, joined as joined_level, below};
ghost use Rattle.gcl_parser.specs.QueryTokens.{joint as joint_token, containment as containment_token};
ghost use Rattle.gcl_parser.specs.Scanned.{bare_from};
ghost use Rattle.gcl_parser.specs.Reading.{CanRead, CanReadInside, IsNotNext, IsNoContainment, rank};
ghost use Rattle.gcl_parser.specs.Parsed.{IsParsed, IsQueryParsed, IsBracketParsed};

use crate::node::{chain_node, containment_node, prefix_node, quoted_node, width_node};
use crate::parsed::Parsed;
use crate::scan::next_placed;
use crate::token::{Joint, Token};
use gcl_model::{Containment, Expr};
use std::alloc::{AllocError, Global};

/// The query at a place of a text that is not refused.
#[cycle(read)]
pub fn query(alloc: Global, text: &[u8], at: usize) -> Result<Parsed, AllocError>
    requires within { at ≤ length text.now }
    requires can { CanRead (bare_from text.now at) }
    ensures { IfOk result (λ parsed. IsQueryParsed text.now at parsed) }
{
    let mut whole = chain(alloc, text, at, Joint::OneOf)?;
    while let Some((containment, next)) = compared(text, whole.end) {
        let part = right_side(alloc, text, next)?;
        whole = contained(alloc, containment, whole.expr, part)?;
    }
    Ok(whole)
}

/// A containment of what is on both sides of it, which ends where the right side does.
fn contained(
    alloc: Global,
    containment: Containment,
    left: Expr,
    right: Parsed,
) -> Result<Parsed, AllocError>
    ensures form { IfOk result (λ parsed. form_of parsed.expr ≡ containment_form containment (form_of left) (form_of right.expr)) }
    ensures end { IfOk result (λ parsed. parsed.end ≡ right.end) }
{
    Ok(Parsed {
        expr: containment_node(alloc, containment, left, right.expr)?,
        end: right.end,
    })
}

/// What a containment takes on its right: one chain, so that containments group from the left.
#[cycle(read)]
fn right_side(alloc: Global, text: &[u8], at: usize) -> Result<Parsed, AllocError>
    requires within { at ≤ length text.now }
    requires can { CanRead (bare_from text.now at) }
    ensures { IfOk result (λ parsed. IsParsed (joined_level OneOf) text.now at parsed) }
{
    chain(alloc, text, at, Joint::OneOf)
}

/// The members that the joint joins, starting at a place; one member alone is itself.
#[cycle(read)]
fn chain(alloc: Global, text: &[u8], at: usize, joint: Joint) -> Result<Parsed, AllocError>
    requires within { at ≤ length text.now }
    requires can { CanRead (bare_from text.now at) }
    ensures { IfOk result (λ parsed. IsParsed (joined_level joint) text.now at parsed) }
{
    let first = member(alloc, text, at, joint)?;
    let Some(mut next) = joined(text, first.end, joint) else {
        return Ok(first);
    };
    let mut members = Vec::new(alloc);
    members.push(first.expr)?;
    loop {
        let member = member(alloc, text, next, joint)?;
        members.push(member.expr)?;
        match joined(text, member.end, joint) {
            None => {
                return Ok(Parsed {
                    expr: chain_node(joint, members),
                    end: member.end,
                });
            }
            Some(place) => next = place,
        }
    }
}

/// A member of a chain.
#[cycle(read)]
fn member(alloc: Global, text: &[u8], at: usize, joint: Joint) -> Result<Parsed, AllocError>
    requires within { at ≤ length text.now }
    requires can { CanRead (bare_from text.now at) }
    ensures { IfOk result (λ parsed. IsParsed (below joint) text.now at parsed) }
{
    match tighter(joint) {
        None => operand(alloc, text, at),
        Some(tighter) => chain(alloc, text, at, tighter),
    }
}

/// The joint that binds next tighter than this one, or None if this one joins single operands.
fn tighter(joint: Joint) -> Option<Joint>
    ensures none { IfNone result (below joint ≡ single) }
    ensures some { IfSome result (λ tighter. below joint ≡ joined_level tighter) }
    ensures rank { IfSome result (λ tighter. rank tighter < rank joint) }
{
    match joint {
        Joint::FollowedBy => None,
        Joint::BothOf => Some(Joint::FollowedBy),
        Joint::OneOf => Some(Joint::BothOf),
    }
}

/// A quoted text, with a `*` or without, a width or a query in brackets.
#[cycle(read)]
fn operand(alloc: Global, text: &[u8], at: usize) -> Result<Parsed, AllocError>
    requires within { at ≤ length text.now }
    requires can { CanRead (bare_from text.now at) }
    ensures { IfOk result (λ parsed. IsParsed single text.now at parsed) }
{
    let Some(placed) = next_placed(text, at) else {
        unreachable!()
    };
    match placed.token {
        Token::Quoted(from, to) => Ok(Parsed {
            expr: quoted_node(alloc, &text[from..to])?,
            end: placed.end,
        }),
        Token::Prefix(from, to) => Ok(Parsed {
            expr: prefix_node(alloc, &text[from..to])?,
            end: placed.end,
        }),
        Token::Width(width) => Ok(Parsed {
            expr: width_node(width),
            end: placed.end,
        }),
        Token::Open => bracketed(alloc, text, placed.end),
        _ => unreachable!(),
    }
}

/// The query after an open bracket, up to and including the bracket that closes it.
#[cycle(read)]
fn bracketed(alloc: Global, text: &[u8], at: usize) -> Result<Parsed, AllocError>
    requires within { at ≤ length text.now }
    requires can { CanReadInside (bare_from text.now at) }
    ensures { IfOk result (λ parsed. IsBracketParsed text.now at parsed) }
{
    let inside = query(alloc, text, at)?;
    let Some(close) = next_placed(text, inside.end) else {
        unreachable!()
    };
    Ok(Parsed {
        expr: inside.expr,
        end: close.end,
    })
}

/// The place after the joint, if it comes next.
fn joined(text: &[u8], from: usize, joint: Joint) -> Option<usize>
    requires { from ≤ length text.now }
    ensures next { IfSome result (λ place. bare_from text.now from ≡ joint_token joint ∷ bare_from text.now place) }
    ensures later { IfSome result (λ place. from < place) }
    ensures within { IfSome result (λ place. place ≤ length text.now) }
    ensures none { IfNone result (IsNotNext (joint_token joint) (bare_from text.now from)) }
{
    let placed = next_placed(text, from)?;
    match placed.token {
        Token::Joint(found) if found == joint => Some(placed.end),
        _ => None,
    }
}

/// The containment that comes next, and the place after it.
fn compared(text: &[u8], from: usize) -> Option<(Containment, usize)>
    requires { from ≤ length text.now }
    ensures next { IfSome result (λ found. bare_from text.now from ≡ containment_token found.0 ∷ bare_from text.now found.1) }
    ensures later { IfSome result (λ found. from < found.1) }
    ensures within { IfSome result (λ found. found.1 ≤ length text.now) }
    ensures none { IfNone result (IsNoContainment (bare_from text.now from)) }
{
    let placed = next_placed(text, from)?;
    match placed.token {
        Token::Containment(containment) => Some((containment, placed.end)),
        _ => None,
    }
}
