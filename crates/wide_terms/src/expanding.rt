ghost use Rattle.std.specs.Prelude.{◌≡◌, ◌+◌, ◌≤◌, map, IfOk};
ghost use Rattle.gcl_model.specs.FormOf.{form_of, forms_from, containment_form};
ghost use Rattle.gcl_model.specs.Forms.{more_forms, no_forms, one, term};
ghost use Rattle.gcl_model.specs.Meaning.{concordance};
ghost use Rattle.gcl_model.specs.WellFormed.{IsWellFormed};
ghost use Rattle.gcl_model.specs.Wide.{is_prefix_term, wide};
ghost use Rattle.wide_terms.specs.Expansion.{expansion, expansions, one_of_words, sum_of_prefixes, sums_of_prefixes, tree_of_words};

use crate::asking::is_prefix_term;
use crate::table::WordTable;
use gcl_model::{Bytes, Containment, Expr, TokenList};
use std::alloc::{AllocError, Global};

/// The most words that one node of a tree holds.
const NODE_WORDS: usize = 8;

/// The expression with each prefix term replaced by "one of" the words that begin with its prefix, or by the word itself if there is
/// just one; a term without such a word stays. All else is copied. The result depends on the text and the expression, not on the table.
///
/// Over `to be or not to be` it turns `t* .. b*` into `to .. be`. With a table of `not` and `or` it turns the prefix term `*` into one of
/// these two.
pub fn expand<T: WordTable>(
    alloc: Global,
    table: &T,
    expr: &Expr,
    counter: &mut T::Counter,
) -> Result<Expr, AllocError>
    requires { IsWellFormed (form_of expr.now) }
    ensures value { IfOk result (λ expanded. form_of expanded ≡ expansion (T.text table.now) (form_of expr.now)) }
    ensures wide { IfOk result (λ expanded.
        concordance (T.text table.now) (form_of expanded) ≡ wide (T.text table.now) (form_of expr.now)) }
    ensures well_formed { IfOk result (λ expanded. IsWellFormed (form_of expanded)) }
    ensures counted { T.count counter.old ≤ T.count counter.new }
    ensures cost { T.count counter.new ≤ T.count counter.old + sum_of_prefixes (T.most table.now) (form_of expr.now) }
{
    let expanded = expanded(alloc, table, expr, counter)?;
    Ok(expanded)
}

/// The same for any expression.
#[cycle(expand)]
fn expanded<T: WordTable>(
    alloc: Global,
    table: &T,
    expr: &Expr,
    counter: &mut T::Counter,
) -> Result<Expr, AllocError>
    ensures value { IfOk result (λ expanded. form_of expanded ≡ expansion (T.text table.now) (form_of expr.now)) }
    ensures counted { T.count counter.old ≤ T.count counter.new }
    ensures cost { T.count counter.new ≤ T.count counter.old + sum_of_prefixes (T.most table.now) (form_of expr.now) }
{
    match expr {
        Expr::Term(token) => expanded_term(alloc, table, token.as_slice(), counter),
        Expr::Phrase(tokens) => tokens.copy().map(Expr::Phrase),
        Expr::Width(width) => Ok(Expr::Width(*width)),
        Expr::Both(operands) => expanded_each(alloc, table, operands, counter).map(Expr::Both),
        Expr::One(operands) => expanded_each(alloc, table, operands, counter).map(Expr::One),
        Expr::Seq(operands) => expanded_each(alloc, table, operands, counter).map(Expr::Seq),
        Expr::Containing(a, b) => {
            expanded_pair(alloc, table, Containment::Containing, a, b, counter)
        }
        Expr::ContainedIn(a, b) => {
            expanded_pair(alloc, table, Containment::ContainedIn, a, b, counter)
        }
        Expr::NotContaining(a, b) => {
            expanded_pair(alloc, table, Containment::NotContaining, a, b, counter)
        }
        Expr::NotContainedIn(a, b) => {
            expanded_pair(alloc, table, Containment::NotContainedIn, a, b, counter)
        }
    }
}

/// The containment of two expressions that are expanded first.
#[cycle(expand)]
fn expanded_pair<T: WordTable>(
    alloc: Global,
    table: &T,
    containment: Containment,
    first: &Expr,
    second: &Expr,
    counter: &mut T::Counter,
) -> Result<Expr, AllocError>
    ensures value { IfOk result (λ expanded. form_of expanded ≡ containment_form containment
        (expansion (T.text table.now) (form_of first.now)) (expansion (T.text table.now) (form_of second.now))) }
    ensures counted { T.count counter.old ≤ T.count counter.new }
    ensures cost { T.count counter.new ≤ T.count counter.old
        + (sum_of_prefixes (T.most table.now) (form_of first.now) + sum_of_prefixes (T.most table.now) (form_of second.now)) }
{
    let first = expanded(alloc, table, first, counter)?;
    let second = expanded(alloc, table, second, counter)?;
    contained(alloc, containment, first, second)
}

#[cycle(expand)]
fn expanded_each<T: WordTable>(
    alloc: Global,
    table: &T,
    operands: &[Expr],
    counter: &mut T::Counter,
) -> Result<Vec<Expr>, AllocError>
    ensures value { IfOk result (λ exprs.
        forms_from (map form_of exprs.items) ≡ expansions (T.text table.now) (forms_from (map form_of operands.now))) }
    ensures counted { T.count counter.old ≤ T.count counter.new }
    ensures cost { T.count counter.new ≤ T.count counter.old + sums_of_prefixes (T.most table.now) (forms_from (map form_of operands.now)) }
{
    let mut exprs = Vec::with_capacity(alloc, operands.len())?;
    for operand in operands {
        exprs.push(expanded(alloc, table, operand, counter)?)?;
    }
    Ok(exprs)
}

/// The containment of two expressions.
fn contained(
    alloc: Global,
    containment: Containment,
    first: Expr,
    second: Expr,
) -> Result<Expr, AllocError>
    ensures { IfOk result (λ expr. form_of expr ≡ containment_form containment (form_of first) (form_of second)) }
{
    let first = Box::new(alloc, first)?;
    let second = Box::new(alloc, second)?;
    Ok(match containment {
        Containment::Containing => Expr::Containing(first, second),
        Containment::ContainedIn => Expr::ContainedIn(first, second),
        Containment::NotContaining => Expr::NotContaining(first, second),
        Containment::NotContainedIn => Expr::NotContainedIn(first, second),
    })
}

/// A term: itself, or the words that a prefix term stands for.
fn expanded_term<T: WordTable>(
    alloc: Global,
    table: &T,
    token: &[u8],
    counter: &mut T::Counter,
) -> Result<Expr, AllocError>
    ensures value { IfOk result (λ expanded. form_of expanded ≡ expansion (T.text table.now) (term token.now)) }
    ensures counted { T.count counter.old ≤ T.count counter.new }
    ensures cost { T.count counter.new ≤ T.count counter.old + sum_of_prefixes (T.most table.now) (term token.now) }
{
    if !is_prefix_term(token) {
        return term(alloc, token);
    }
    let prefix = &token[..token.len() - 1];
    let words = table.matching(alloc, prefix, counter)?;
    one_of_words(alloc, token, words.as_slice())
}

/// One of these words, or the word alone if there is one, or the term if there is none.
fn one_of_words(alloc: Global, token: &[u8], words: &[Bytes]) -> Result<Expr, AllocError>
    ensures { IfOk result (λ expr. form_of expr ≡ one_of_words token.now words.now) }
{
    match words {
        [] => term(alloc, token),
        [word] => term(alloc, word.as_slice()),
        _ => tree_of_words(alloc, words, words.len() / NODE_WORDS),
    }
}

/// One of these words. More than `NODE_WORDS` become one of two halves: a reader that asks for the next place of any of them
/// then asks few nodes again. Each level halves the number of words, so as many levels as there are full nodes are always
/// enough.
fn tree_of_words(alloc: Global, words: &[Bytes], levels: usize) -> Result<Expr, AllocError>
    ensures { IfOk result (λ expr. form_of expr ≡ tree_of_words levels words.now) }
{
    if levels == 0 || words.len() <= NODE_WORDS {
        return Ok(Expr::One(terms(alloc, words)?));
    }
    let (front, behind) = words.split_at(words.len() / 2);
    let first = tree_of_words(alloc, front, levels - 1)?;
    let second = tree_of_words(alloc, behind, levels - 1)?;
    one_of_two(alloc, first, second)
}

/// One of two expressions.
fn one_of_two(alloc: Global, first: Expr, second: Expr) -> Result<Expr, AllocError>
    ensures { IfOk result (λ expr. form_of expr ≡ one (more_forms (form_of first) (more_forms (form_of second) no_forms))) }
{
    let operands = Vec::from_array(alloc, [first, second])?;
    Ok(Expr::One(operands))
}

/// Each word as a term.
fn terms(alloc: Global, words: &[Bytes]) -> Result<Vec<Expr>, AllocError>
    ensures { IfOk result (λ exprs. map form_of exprs.items ≡ map term words.now) }
{
    let mut exprs = Vec::with_capacity(alloc, words.len())?;
    for word in words {
        exprs.push(term(alloc, word.as_slice())?)?;
    }
    Ok(exprs)
}

fn term(alloc: Global, token: &[u8]) -> Result<Expr, AllocError>
    ensures { IfOk result (λ expr. form_of expr ≡ term token.now) }
{
    Ok(Expr::Term(Bytes::copy_of(alloc, token)?))
}
