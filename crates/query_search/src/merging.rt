//! What is needed to switch to the places of prefix terms.
ghost use Rattle.std.specs.Prelude.{◌≡◌, ◌≤◌, List, length, IfOk, IfSome};
ghost use Rattle.gcl_model.specs.Extents.{Extent};
ghost use Rattle.gcl_model.specs.FormOf.{form_of};
ghost use Rattle.gcl_model.specs.Limits.{address_end};
ghost use Rattle.gcl_model.specs.WellFormed.{IsWellFormed};
ghost use Rattle.gcl_model.specs.Wide.{wide};
ghost use Rattle.live_version.specs.Contents.{version_text};
ghost use Rattle.collection.specs.Engines.{last_of};

use crate::query::Query;
use crate::query_pages::QueryPages;
use crate::shapes::is_wide;
use gcl_model::Expr;
use manifest_publish::Pass;
use prefix_leaves::PrefixTerms;
use std::alloc::{AllocError, Global};
use std::marker::Model;
use std::sync::Arc;
use wide_terms::has_prefix_terms;

/// An expression each of whose prefix terms can be looked up like a single word, over a version. Contracts see its wide list.
#[derive(Drop)]
pub(crate) struct Merging {
    alloc: Global,
    pass: Pass,
    expr: Arc<Expr>,
    terms: PrefixTerms,
}

impl Model for Merging {
    ghost use Rattle.std.specs.Prelude.{◌≡◌, true, List};
    ghost use Rattle.gcl_model.specs.Extents.{Extent};
    ghost use Rattle.gcl_model.specs.FormOf.{form_of};
    ghost use Rattle.gcl_model.specs.WellFormed.{IsWellFormed};
    ghost use Rattle.gcl_model.specs.Wide.{wide};
    ghost use Rattle.live_version.specs.Contents.{version_text};
    ghost use Rattle.collection.specs.Engines.{last_of};
    ghost use Rattle.prefix_leaves.specs.Renaming.{is_apart};

    ghost Value = { List Extent };

    ghost view = { λ m. wide (version_text (last_of m.pass.history)) (form_of m.expr.value) };

    ghost invariant = { λ m. IsWellFormed (form_of m.expr.value) × (is_apart m.terms (form_of m.expr.value) ≡ true) };
}

impl Merging {
    /// Of an expression over the version of a pass, or None if some word has two names in it or it has too many prefix terms. `Err` means
    /// out of memory.
    pub fn of(alloc: Global, pass: &Pass, expr: &Arc<Expr>) -> Result<Option<Merging>, AllocError>
        requires { IsWellFormed (form_of expr.now.value) }
        ensures { IfOk result (λ merging.
            IfSome merging (λ list. list ≡ wide (version_text (last_of pass.now.history)) (form_of expr.now.value))) }
    {
        let Some(terms) = PrefixTerms::of(alloc, expr)? else {
            return Ok(None);
        };
        let pass = pass.again()?;
        let expr = Arc::try_clone(expr)?;
        Ok(Some(Merging {
            alloc,
            pass,
            expr,
            terms,
        }))
    }

    /// Whether the expression is a prefix term and no more.
    pub fn is_lone(&self) -> bool {
        matches!(&*self.expr, Expr::Term(_))
    }

    /// All its members over the places of its prefix terms, which are gathered here. `Err` means out of memory.
    pub fn pages(&self) -> Result<QueryPages, AllocError>
        ensures all { IfOk result (λ pages. pages.all ≡ self.now) }
        ensures to_come { IfOk result (λ pages. pages.to_come ≡ self.now) }
        ensures few { IfOk result (λ pages. length pages.all ≤ address_end) }
    {
        let pass = self.pass.again()?;
        let expr = Arc::try_clone(&self.expr)?;
        let query = Query::over_places(self.alloc, pass, expr, &self.terms)?;
        Ok(QueryPages::of(self.alloc, query))
    }
}

/// The same for an expression with prefix terms, and None also if there is no memory for it.
pub(crate) fn merging_of(alloc: Global, pass: &Pass, expr: &Arc<Expr>) -> Option<Merging>
    requires { IsWellFormed (form_of expr.now.value) }
    ensures { IfSome result (λ list. list ≡ wide (version_text (last_of pass.now.history)) (form_of expr.now.value)) }
{
    if !has_prefix_terms(expr) {
        return None;
    }
    match Merging::of(alloc, pass, expr) {
        Ok(merging) => merging,
        Err(_) => None,
    }
}

/// The same if an expansion has a wide "one of", else None: few words have a finger each, and then there is nothing to gain.
pub(crate) fn where_wide(merging: Option<Merging>, expansion: &Expr) -> Option<Merging>
    ensures { (members : List Extent) → IfSome merging (λ list. list ≡ members) → IfSome result (λ list. list ≡ members) }
{
    if !is_wide(expansion) {
        return None;
    }
    merging
}
