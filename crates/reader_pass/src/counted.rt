ghost use Rattle.std.specs.Prelude.{◌≡◌, ◌+◌, ◌++◌, ◌∷◌, ◌≤◌, ℕ, List, [], length, map, true, IfSome};
ghost use Rattle.std.specs.List.{list_any};
ghost use Rattle.gcl_model.specs.FormOf.{form_of, forms_from};
ghost use Rattle.gcl_model.specs.Forms.{one};
ghost use Rattle.gcl_model.specs.Meaning.{concordance};
ghost use Rattle.gcl_model.specs.WellFormed.{IsWellFormed};
ghost use Rattle.live_version.specs.Contents.{version_text};
ghost use Rattle.reader_pass.specs.Members.{access_most, is_the_term, look_ups};
ghost use Rattle.reader_pass.specs.Sums.{IsSumOf};
ghost use Rattle.wide_terms.specs.Trees.{all_leaf_tokens, are_term_trees, is_term_tree, leaf_tokens};

use crate::fingered;
use gcl_model::{Expr, Ledger, Steps};
use live_version::Version;
use std::cmp::Ordering;
use std::marker::Brand;

/// Up to this many operands, each term is searched for among all before it, to see whether it comes again.
const FEW: usize = 16;

/// The number of members. That of a term, and of one of several terms, is known from the lengths of lists, without a look-up.
pub(crate) fn count<S: Ledger>(expr: &Expr, version: &Version, steps: &mut Steps<S>) -> u64
    requires well_formed { IsWellFormed (form_of expr.now) }
    ensures value { result ≡ length (concordance (version_text version.now) (form_of expr.now)) }
    ensures cost { steps.new ≤ steps.old + look_ups (version_text version.now) (access_most version.now) (form_of expr.now) result }
{
    match listed_count(version, expr) {
        Some(count) => count,
        None => fingered::count::<Brand, S>(expr, version, steps),
    }
}

/// The number of members, if it is known from the lengths of lists: of a tree of terms that rise from left to right, as the words of a
/// prefix do, and of one of a few terms.
pub(crate) fn listed_count(version: &Version, expr: &Expr) -> Option<u64>
    ensures { IfSome result (λ count. count ≡ length (concordance (version_text version.now) (form_of expr.now))) }
{
    match tree_count(version, expr) {
        Some(count) => Some(count),
        None => few_count(version, expr),
    }
}

/// The number of members of a tree of terms that rise.
fn tree_count(version: &Version, expr: &Expr) -> Option<u64>
    ensures { IfSome result (λ count. count ≡ length (concordance (version_text version.now) (form_of expr.now))) }
{
    let sum = tree_sum(version, expr, 0, b"")?;
    Some(sum.0)
}

/// The sum of `count` and the number of members of a tree of terms, and its last term, if each of its terms comes after the one before it
/// in byte order, and the first one after `last`. Terms that rise are different, and an address has one token, so no member is of two of
/// them.
#[cycle(trees)]
fn tree_sum<'a>(
    version: &Version,
    expr: &'a Expr,
    count: u64,
    last: &'a [u8],
) -> Option<(u64, &'a [u8])>
    ensures tree { IfSome result (λ _. is_term_tree (form_of expr.now) ≡ true) }
    ensures sum { IfSome result (λ sum. (seen : List (List ℕ)) → IsSumOf (version_text version.now) seen count last.now →
        IsSumOf (version_text version.now) (seen ++ leaf_tokens (form_of expr.now)) sum.0 sum.1.now) }
{
    match expr {
        Expr::Term(token) => {
            let one = term_sum(version, token.as_slice(), count, last)?;
            Some(one)
        }
        Expr::One(operands) => {
            let all = trees_sum(version, operands, count, last)?;
            Some(all)
        }
        _ => None,
    }
}

/// The same of several trees.
#[cycle(trees)]
fn trees_sum<'a>(
    version: &Version,
    operands: &'a [Expr],
    count: u64,
    last: &'a [u8],
) -> Option<(u64, &'a [u8])>
    ensures tree { IfSome result (λ _. are_term_trees (forms_from (map form_of operands.now)) ≡ true) }
    ensures sum { IfSome result (λ sum. (seen : List (List ℕ)) → IsSumOf (version_text version.now) seen count last.now →
        IsSumOf (version_text version.now) (seen ++ all_leaf_tokens (forms_from (map form_of operands.now))) sum.0 sum.1.now) }
{
    let mut sum = (count, last);
    for operand in operands {
        let next = tree_sum(version, operand, sum.0, sum.1)?;
        sum = next;
    }
    Some(sum)
}

/// The same of a term.
fn term_sum<'a>(
    version: &Version,
    token: &'a [u8],
    count: u64,
    last: &'a [u8],
) -> Option<(u64, &'a [u8])>
    ensures { IfSome result (λ sum. (seen : List (List ℕ)) → IsSumOf (version_text version.now) seen count last.now →
        IsSumOf (version_text version.now) (seen ++ token.now ∷ []) sum.0 sum.1.now) }
{
    let places = version.count_of_term(token);
    if u64::MAX - count < places {
        return None;
    }
    match last.cmp(token) {
        Ordering::Less => Some((count + places, token)),
        _ => None,
    }
}

/// The number of members of one of a few terms.
fn few_count(version: &Version, expr: &Expr) -> Option<u64>
    ensures { IfSome result (λ count. count ≡ length (concordance (version_text version.now) (form_of expr.now))) }
{
    match expr {
        Expr::One(operands) => {
            if FEW < operands.len() {
                return None;
            }
            count_of_one(version, operands.as_slice())
        }
        _ => None,
    }
}

/// The number of members of one of these operands, if they are terms. An address has one token, so no two different terms have a
/// member in common; a term that comes again adds none.
fn count_of_one(version: &Version, operands: &[Expr]) -> Option<u64>
    ensures { IfSome result
        (λ count. count ≡ length (concordance (version_text version.now) (one (forms_from (map form_of operands.now))))) }
{
    // any call on a version ensures that it is one
    let _ = version.slot_count();
    let mut count = 0;
    for i in 0..operands.len() {
        let Expr::Term(token) = &operands[i] else {
            return None;
        };
        if !has_term(&operands[..i], token.as_slice()) {
            count += version.count_of_term(token.as_slice());
        }
    }
    Some(count)
}

/// Whether the term is one of these.
fn has_term(operands: &[Expr], token: &[u8]) -> bool
    ensures { result ≡ list_any (is_the_term token.now) (map form_of operands.now) }
{
    for operand in operands {
        if is_term(operand, token) {
            return true;
        }
    }
    false
}

fn is_term(expr: &Expr, token: &[u8]) -> bool
    ensures { result ≡ is_the_term token.now (form_of expr.now) }
{
    match expr {
        Expr::Term(other) => other.as_slice() == token,
        _ => false,
    }
}
