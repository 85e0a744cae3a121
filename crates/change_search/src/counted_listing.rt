ghost use Rattle.std.specs.Prelude.{◌≡◌, ◌+◌, ◌≤◌, [], ◌∷◌, filter, length, IfOk, IfSome, IsNone, OnErr, OnOk};
ghost use Rattle.gcl_model.specs.FormOf.{form_of};
ghost use Rattle.gcl_model.specs.Limits.{address_end};
ghost use Rattle.gcl_model.specs.WellFormed.{IsWellFormed};
ghost use Rattle.gcl_model.specs.Wide.{wide};
ghost use Rattle.gcl_locality.specs.Agreement.{AgreeOutside};
ghost use Rattle.gcl_locality.specs.Changed.{touches};
ghost use Rattle.live_version.specs.Contents.{version_text};
ghost use Rattle.collection.specs.Engines.{last_of};
ghost use Rattle.near_search.specs.Costs.{near_listing_cost, near_opening_cost};
ghost use Rattle.query_search.specs.Pages.{reads};
ghost use Rattle.standing_query.specs.Changes.{changes, members};
ghost use Rattle.change_search.specs.Costs.{change_cost, edit_opening_cost, expanded, whole_cost, whole_listing_cost, words_cost};
ghost use Rattle.change_search.specs.inner.Sides.{IsSide, look_ups, to_come};

use crate::opening::{addresses_over, expanded_over};
use crate::side::Side;
use crate::step::next_change;
use address_space::Range;
use gcl_locality::changes_are_local;
use gcl_model::{ADDRESS_END, Expr, Ledger, Steps};
use manifest_publish::Pass;
use near_search::NearPages;
use standing_query::{Addresses, Change};
use std::alloc::{AllocError, Global};
use std::marker::Model;
use std::sync::Arc;
use wide_terms::expansions_are_wide;

/// What an edit changed of the list of a query, change by change: intervals that went and that came, in rising start and then in rising
/// end. It keeps one page of each of the two lists, however long they are. Contracts see the changes that are still to come, how many
/// look-ups may be made for them, and whether readers find the members of either list.
#[derive(Drop)]
pub struct CountedListing {
    before: Side,
    after: Side,
}

impl Model for CountedListing {
    ghost use Rattle.std.specs.Prelude.{◌+◌};
    ghost use Rattle.query_search.specs.Pages.{reads};
    ghost use Rattle.standing_query.specs.Changes.{changes};
    ghost use Rattle.change_search.specs.Listings.{ListingContent, listing_content};
    ghost use Rattle.change_search.specs.inner.Sides.{IsSide, look_ups, to_come};

    ghost Value = { ListingContent };

    ghost view = { λ l. listing_content (changes (to_come l.before) (to_come l.after)) (look_ups l.before + look_ups l.after)
        (reads l.before.rest.way) (reads l.after.rest.way) };

    ghost invariant = { λ l. IsSide l.before × IsSide l.after };
}

/// All members over the version of a pass.
fn whole_side(alloc: Global, pass: Pass, expr: Expr) -> Result<Side, AllocError>
    requires well_formed { IsWellFormed (form_of expr) }
    requires in_range { (last_of pass.history).next ≤ address_end }
    ensures side { IfOk result IsSide }
    ensures members { IfOk result (λ side. to_come side ≡ members (last_of pass.history) (form_of expr)) }
    ensures look_ups { IfOk result (λ side. look_ups side ≤
        whole_listing_cost (last_of pass.history) (form_of expr) (reads side.rest.way) (length (to_come side))) }
{
    match Arc::new(alloc, expr) {
        Ok(expr) => {
            let members = NearPages::whole(alloc, pass, expr);
            // no member starts after it
            Ok(Side::of(alloc, members, ADDRESS_END))
        }
        Err(_) => Err(AllocError),
    }
}

/// All members over the version of a pass, of any expression.
fn whole_over<S: Ledger>(
    alloc: Global,
    pass: Pass,
    expr: &Expr,
    steps: &mut Steps<S>,
) -> Result<Side, AllocError>
    requires { IsWellFormed (form_of expr.now) }
    ensures side { IfOk result IsSide }
    ensures members { IfOk result (λ side. to_come side ≡ wide (version_text (last_of pass.history)) (form_of expr.now)) }
    ensures cost { IfOk result (λ side. steps.new + look_ups side ≤ steps.old + (words_cost (last_of pass.history) (form_of expr.now) +
        whole_listing_cost (last_of pass.history) (expanded (last_of pass.history) (form_of expr.now)) (reads side.rest.way)
        (length (wide (version_text (last_of pass.history)) (form_of expr.now))))) }
    ensures opening { steps.new ≤ steps.old + words_cost (last_of pass.history) (form_of expr.now) }
{
    expansions_are_wide();
    let expanded = expanded_over(alloc, &pass, expr, steps)?;
    whole_side(alloc, pass, expanded)
}

/// The members over the version of a pass that touch the addresses: from the first that ends at or after the lower address, which one
/// access finds, to the last that starts at or before the upper address.
fn near_side<S: Ledger>(
    alloc: Global,
    pass: Pass,
    expr: Expr,
    near: Addresses,
    steps: &mut Steps<S>,
) -> Result<Side, AllocError>
    requires well_formed { IsWellFormed (form_of expr) }
    requires low_below { near.low ≤ address_end }
    requires high_below { near.high ≤ address_end }
    requires ordered { near.low ≤ near.high + 1 }
    ensures side { IfOk result IsSide }
    ensures members { IfOk result (λ side. to_come side ≡
        filter (touches near.low near.high) (members (last_of pass.history) (form_of expr))) }
    ensures cost { IfOk result (λ side. steps.new + look_ups side ≤ steps.old +
        (near_opening_cost (last_of pass.history) near.low near.high (form_of expr) +
        near_listing_cost (last_of pass.history) near.low near.high (form_of expr))) }
    ensures stopped { steps.new ≤ steps.old + near_opening_cost (last_of pass.history) near.low near.high (form_of expr) }
{
    match Arc::new(alloc, expr) {
        Ok(expr) => {
            let members = NearPages::of(pass, expr, near, steps);
            Ok(Side::of(alloc, members, near.high))
        }
        Err(_) => Err(AllocError),
    }
}

/// The changes that lie between the addresses, of two expressions without prefix terms.
fn within<S: Ledger>(
    alloc: Global,
    before: Pass,
    old_expr: Expr,
    after: Pass,
    new_expr: Expr,
    near: Addresses,
    steps: &mut Steps<S>,
) -> Result<CountedListing, AllocError>
    requires old { IsWellFormed (form_of old_expr) }
    requires new { IsWellFormed (form_of new_expr) }
    requires low_below { near.low ≤ address_end }
    requires high_below { near.high ≤ address_end }
    requires ordered { near.low ≤ near.high + 1 }
    ensures to_come { IfOk result (λ listing. listing.to_come ≡ changes
        (filter (touches near.low near.high) (members (last_of before.history) (form_of old_expr)))
        (filter (touches near.low near.high) (members (last_of after.history) (form_of new_expr)))) }
    ensures cost { IfOk result (λ listing. steps.new + listing.look_ups ≤ steps.old +
        (near_opening_cost (last_of before.history) near.low near.high (form_of old_expr) +
        near_listing_cost (last_of before.history) near.low near.high (form_of old_expr) +
        (near_opening_cost (last_of after.history) near.low near.high (form_of new_expr) +
        near_listing_cost (last_of after.history) near.low near.high (form_of new_expr)))) }
    ensures stopped { steps.new ≤ steps.old + (near_opening_cost (last_of before.history) near.low near.high (form_of old_expr) +
        near_opening_cost (last_of after.history) near.low near.high (form_of new_expr)) }
{
    let before = near_side(alloc, before, old_expr, near, steps)?;
    let after = near_side(alloc, after, new_expr, near, steps)?;
    Ok(CountedListing { before, after })
}

impl CountedListing {
    /// The changes between the versions of two passes. `Err` means out of memory.
    pub fn of<S: Ledger>(
        alloc: Global,
        before: Pass,
        after: Pass,
        expr: &Expr,
        steps: &mut Steps<S>,
    ) -> Result<CountedListing, AllocError>
        requires { IsWellFormed (form_of expr.now) }
        ensures to_come { IfOk result (λ listing. listing.to_come ≡ changes
            (wide (version_text (last_of before.history)) (form_of expr.now))
            (wide (version_text (last_of after.history)) (form_of expr.now))) }
        ensures cost { IfOk result (λ listing. steps.new + listing.look_ups ≤ steps.old +
            whole_cost (last_of before.history) (last_of after.history) listing.before_reads listing.after_reads (form_of expr.now)) }
        ensures opening { steps.new ≤ steps.old +
            (words_cost (last_of before.history) (form_of expr.now) + words_cost (last_of after.history) (form_of expr.now)) }
    {
        let before = whole_over(alloc, before, expr, steps)?;
        let after = whole_over(alloc, after, expr, steps)?;
        Ok(CountedListing { before, after })
    }

    /// The same for two versions whose texts differ only at the addresses of an edit, as they do before and after the file there is
    /// added, or deleted. Only members that touch the two addresses of the expression are looked for: these are the addresses of the
    /// edit, except for `<` and `/<`, where what contains a member may reach further. The look-ups follow from what lies there, however
    /// long the lists are: if accesses find the members, a certain number for each of these and for each operator. Readers find the
    /// members of a query for which accesses may ask again and again what they have asked before; they read only the window of the
    /// expression: the words that determine which members touch the addresses. `Err` means out of memory.
    ///
    /// If a file `x` is added at 8 to 10 after `to be or not to be`, the one change of `"be" /< ("to".."x")` is that 6 to 6 went.
    pub fn between<S: Ledger>(
        alloc: Global,
        before: Pass,
        after: Pass,
        expr: &Expr,
        edited: Range,
        steps: &mut Steps<S>,
    ) -> Result<CountedListing, AllocError>
        requires well_formed { IsWellFormed (form_of expr.now) }
        requires agree { AgreeOutside (version_text (last_of before.history)) (version_text (last_of after.history))
            edited.first edited.last }
        ensures to_come { IfOk result (λ listing. listing.to_come ≡ changes
            (wide (version_text (last_of before.history)) (form_of expr.now))
            (wide (version_text (last_of after.history)) (form_of expr.now))) }
        ensures cost { IfOk result (λ listing. steps.new + listing.look_ups ≤ steps.old +
            change_cost (last_of before.history) (last_of after.history) edited (form_of expr.now)) }
        ensures opening { steps.new ≤ steps.old +
            edit_opening_cost (last_of before.history) (last_of after.history) edited (form_of expr.now) }
    {
        expansions_are_wide();
        changes_are_local();
        let old_expr = expanded_over(alloc, &before, expr, steps)?;
        let new_expr = expanded_over(alloc, &after, expr, steps)?;
        let addresses = addresses_over(expr, &old_expr, &before, &new_expr, &after, edited, steps);
        within(alloc, before, old_expr, after, new_expr, addresses, steps)
    }

    /// The next change, or None if none is left. `Err` means out of memory, and then the same one can be asked for again: what was
    /// asked for it in vain is asked again, and readers are dropped.
    ///
    /// Between `to be or not to be` and no file, the first change of `"or"` is that 3 to 3 went, and then comes None.
    pub fn next<S: Ledger>(
        &mut self,
        alloc: Global,
        steps: &mut Steps<S>,
    ) -> Result<Option<Change>, AllocError>
        ensures some { IfOk result (λ next. IfSome next (λ change. self.old.to_come ≡ change ∷ self.new.to_come)) }
        ensures none { IfOk result (λ next. IsNone next → self.old.to_come ≡ []) }
        ensures err { OnErr result (self.new.to_come ≡ self.old.to_come) }
        ensures cost { OnOk result (steps.new + self.new.look_ups ≤ steps.old + self.old.look_ups) }
        ensures stopped { OnErr result (steps.new ≤ steps.old + self.old.look_ups) }
    {
        next_change(alloc, &mut self.before, &mut self.after, steps)
    }
}
