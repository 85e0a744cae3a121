//! What is done before the members of two lists are compared: a query is expanded, and the addresses between which they lie are found.
ghost use Rattle.std.specs.Prelude.{◌≡◌, ◌+◌, ◌<◌, ◌≤◌, IfOk};
ghost use Rattle.gcl_locality.specs.Agreement.{AgreeOutside};
ghost use Rattle.gcl_locality.specs.Changed.{changed_from, changed_upto};
ghost use Rattle.gcl_model.specs.FormOf.{form_of};
ghost use Rattle.gcl_model.specs.Limits.{address_end};
ghost use Rattle.gcl_model.specs.WellFormed.{IsWellFormed};
ghost use Rattle.live_version.specs.Contents.{version_text};
ghost use Rattle.collection.specs.Engines.{last_of};
ghost use Rattle.prefix_terms.specs.Costs.{prefix_cost};
ghost use Rattle.standing_query.specs.Edits.{finding_cost};
ghost use Rattle.wide_terms.specs.Expansion.{expansion, sum_of_prefixes};

use address_space::Range;
use gcl_model::{Expr, Ledger, Steps};
use manifest_publish::Pass;
use prefix_terms::expand;
use standing_query::{Addresses, changed_addresses};
use std::alloc::{AllocError, Global};

/// The expansion of an expression over the version of a pass.
pub fn expanded_over<S: Ledger>(
    alloc: Global,
    pass: &Pass,
    expr: &Expr,
    steps: &mut Steps<S>,
) -> Result<Expr, AllocError>
    requires { IsWellFormed (form_of expr.now) }
    ensures value { IfOk result (λ expanded.
        form_of expanded ≡ expansion (version_text (last_of pass.now.history)) (form_of expr.now)) }
    ensures well_formed { IfOk result (λ expanded. IsWellFormed (form_of expanded)) }
    ensures in_range { (last_of pass.now.history).next ≤ address_end }
    ensures cost { steps.new ≤ steps.old + sum_of_prefixes (prefix_cost (last_of pass.now.history)) (form_of expr.now) }
{
    let version = pass.version();
    // the end of the version shows that its addresses are in range
    let _end = version.next();
    expand(alloc, version, expr, steps)
}

/// The two addresses of an expression over the versions of two passes; `old_expr` and `new_expr` are its expansions over these.
pub fn addresses_over<S: Ledger>(
    expr: &Expr,
    old_expr: &Expr,
    before: &Pass,
    new_expr: &Expr,
    after: &Pass,
    edited: Range,
    steps: &mut Steps<S>,
) -> Addresses
    requires well_formed { IsWellFormed (form_of expr.now) }
    requires old_is { form_of old_expr.now ≡ expansion (version_text (last_of before.now.history)) (form_of expr.now) }
    requires new_is { form_of new_expr.now ≡ expansion (version_text (last_of after.now.history)) (form_of expr.now) }
    requires agree { AgreeOutside (version_text (last_of before.now.history)) (version_text (last_of after.now.history))
        edited.first edited.last }
    ensures low { result.low ≡ changed_from (version_text (last_of before.now.history)) (version_text (last_of after.now.history))
        edited.first (form_of expr.now) }
    ensures high { result.high ≡ changed_upto (version_text (last_of before.now.history)) (version_text (last_of after.now.history))
        edited.last (form_of expr.now) }
    ensures low_within { result.low < address_end }
    ensures high_within { result.high < address_end }
    ensures ordered { result.low ≤ result.high }
    ensures cost { steps.new ≤ steps.old + finding_cost (last_of before.now.history) (last_of after.now.history) (form_of expr.now) }
{
    // reading a field of a range shows that its addresses are in order
    let _ = &edited.first;
    let old = before.version();
    let new = after.version();
    changed_addresses(expr, old_expr, old, new_expr, new, edited, steps)
}
