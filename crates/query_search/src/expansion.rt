ghost use Rattle.std.specs.Prelude.{◌≡◌, ◌<◌, IfOk};
ghost use Rattle.gcl_model.specs.FormOf.{form_of};
ghost use Rattle.gcl_model.specs.Meaning.{concordance};
ghost use Rattle.gcl_model.specs.WellFormed.{IsWellFormed};
ghost use Rattle.gcl_model.specs.Wide.{wide};
ghost use Rattle.live_version.specs.Contents.{version_text};

use gcl_model::{Expr, NoLedger, Steps};
use live_version::Version;
use prefix_terms::expand;
use std::alloc::{AllocError, Global};
use std::marker::Brand;
use std::sync::ledger::Blank;
use std::sync::{Arc, ledger};
use wide_terms::{has_prefix_terms, others_stay};

/// An expression whose concordance list over the version is the wide list of this expression. One without prefix terms is not copied.
pub fn expanded(alloc: Global, version: &Version, expr: Arc<Expr>) -> Result<Arc<Expr>, AllocError>
    requires { IsWellFormed (form_of expr.value) }
    ensures wide { IfOk result (λ expanded.
        concordance (version_text version.now) (form_of expanded.value) ≡ wide (version_text version.now) (form_of expr.value)) }
    ensures well_formed { IfOk result (λ expanded. IsWellFormed (form_of expanded.value)) }
{
    others_stay();
    if !has_prefix_terms(&expr) {
        return Ok(expr);
    }
    let expansion = expansion_of(alloc, version, &expr)?;
    match Arc::new(alloc, expansion) {
        Ok(expansion) => Ok(expansion),
        Err(_) => Err(AllocError),
    }
}

/// The expansion of an expression over a version, as a tree of its own: each prefix term is one of the live words that begin with its
/// prefix. Its look-ups are not counted. `Err` means out of memory.
///
/// Over `to be or not to be`, that of `"t"*` is `"to"` alone.
pub fn expansion_of(alloc: Global, version: &Version, expr: &Expr) -> Result<Expr, AllocError>
    requires { IsWellFormed (form_of expr.now) }
    ensures wide { IfOk result (λ expanded.
        concordance (version_text version.now) (form_of expanded) ≡ wide (version_text version.now) (form_of expr.now)) }
    ensures well_formed { IfOk result (λ expanded. IsWellFormed (form_of expanded)) }
{
    expand_uncounted::<Brand>(alloc, version, expr, Blank::new(1))
}

fn expand_uncounted<B: ledger::Ledger>(
    alloc: Global,
    version: &Version,
    expr: &Expr,
    blank: Blank,
) -> Result<Expr, AllocError>
    requires well_formed { IsWellFormed (form_of expr.now) }
    requires name { blank.name ≡ B.name }
    requires parts { blank.parts ≡ B.parts }
    requires some { 0 < blank.parts }
    ensures wide { IfOk result (λ expanded.
        concordance (version_text version.now) (form_of expanded) ≡ wide (version_text version.now) (form_of expr.now)) }
    ensures well_formed { IfOk result (λ expanded. IsWellFormed (form_of expanded)) }
{
    let mut steps = Steps::<NoLedger<B>>::open(blank);
    expand(alloc, version, expr, &mut steps)
}
