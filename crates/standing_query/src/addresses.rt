//! Between which addresses the list of an expression may differ, if two versions are the same at all addresses except those of an edit.

ghost use Rattle.std.specs.Prelude.{◌≡◌, ◌+◌, ◌*◌, ◌<◌, ◌≤◌, max, map, min};
ghost use Rattle.gcl_locality.specs.Changed.{back_to, changed_from, changed_upto, greatest_changed, least_changed, on_to};
ghost use Rattle.gcl_model.specs.FormOf.{form_of, forms_from};
ghost use Rattle.gcl_model.specs.Limits.{address_end};
ghost use Rattle.gcl_model.specs.WellFormed.{AreWellFormed, IsWellFormed};
ghost use Rattle.live_version.specs.Contents.{version_text};
ghost use Rattle.standing_query.specs.Changes.{members};
ghost use Rattle.standing_query.specs.Edits.{finding_cost, finding_costs};
ghost use Rattle.standing_query.specs.inner.Sides.{access_cost};
ghost use Rattle.wide_terms.specs.Expansion.{expansion, expansions};

use crate::operands::{chain_operands, first_operand, second_operand};
use address_space::Range;
use gcl_eval::{first_end, last_start};
use gcl_locality::{earlier_start, later_end};
use gcl_model::{Expr, Leaves, Ledger, Steps};
use live_version::Version;
use wide_terms::{expansions_are_well_formed, expansions_are_wide};

/// What differs ends at or after `low`, and starts at or before `high`.
#[derive(Clone, Copy)]
pub struct Addresses {
    pub low: u64,
    pub high: u64,
}

impl Addresses {
    /// Those of the edit.
    fn of(edited: Range) -> Addresses
        ensures low { result.low ≡ edited.first }
        ensures high { result.high ≡ edited.last }
        ensures low_within { result.low < address_end }
        ensures high_within { result.high < address_end }
    {
        Addresses {
            low: edited.first,
            high: edited.last,
        }
    }

    /// From the lower of the two lower addresses to the upper of the two upper ones.
    pub fn with(self, other: Addresses) -> Addresses
        ensures low { result.low ≡ min self.low other.low }
        ensures high { result.high ≡ max self.high other.high }
    {
        Addresses {
            low: self.low.min(other.low),
            high: self.high.max(other.high),
        }
    }

    /// These, extended to what is reached by the members of an expression that touch the others.
    fn reached<S: Ledger>(
        self,
        expr: &Expr,
        version: &Version,
        others: Addresses,
        steps: &mut Steps<S>,
    ) -> Addresses
        requires well_formed { IsWellFormed (form_of expr.now) }
        requires low_below { others.low < address_end }
        requires high_below { others.high < address_end }
        ensures low { result.low ≡ back_to self.low (members version.now (form_of expr.now)) others.low }
        ensures high { result.high ≡ on_to self.high (members version.now (form_of expr.now)) others.high }
        ensures low_within { result.low ≤ self.low }
        ensures high_within { self.high < address_end → result.high < address_end }
        ensures cost { steps.new ≤ steps.old + 2 * access_cost version.now (form_of expr.now) }
    {
        // the span shows that the words rise
        let _span = version.span();
        let first = first_end(expr, version, others.low, steps);
        let last = last_start(expr, version, others.high, steps);
        Addresses {
            low: earlier_start(self.low, first),
            high: later_end(self.high, last),
        }
    }
}

/// The addresses of an expression, whose expansions over the versions are the other two: without `<` and `/<` in it, those of the edit.
/// They are found by two accesses to the second operand of each `<` and `/<` over each version.
#[cycle(changed)]
pub fn changed_addresses<S: Ledger>(
    expr: &Expr,
    old_expr: &Expr,
    old: &Version,
    new_expr: &Expr,
    new: &Version,
    edited: Range,
    steps: &mut Steps<S>,
) -> Addresses
    requires well_formed { IsWellFormed (form_of expr.now) }
    requires old_is { form_of old_expr.now ≡ expansion (version_text old.now) (form_of expr.now) }
    requires new_is { form_of new_expr.now ≡ expansion (version_text new.now) (form_of expr.now) }
    ensures low { result.low ≡ changed_from (version_text old.now) (version_text new.now) edited.first (form_of expr.now) }
    ensures high { result.high ≡ changed_upto (version_text old.now) (version_text new.now) edited.last (form_of expr.now) }
    ensures low_within { result.low < address_end }
    ensures high_within { result.high < address_end }
    ensures cost { steps.new ≤ steps.old + finding_cost old.now new.now (form_of expr.now) }
{
    expansions_are_wide();
    expansions_are_well_formed();
    let old_first = first_operand(old_expr);
    let old_second = second_operand(old_expr);
    let new_first = first_operand(new_expr);
    let new_second = second_operand(new_expr);
    match expr {
        Expr::Term(_) | Expr::Phrase(_) | Expr::Width(_) => Addresses::of(edited),
        Expr::Both(exprs) | Expr::One(exprs) | Expr::Seq(exprs) => {
            let old_exprs = chain_operands(old_expr);
            let new_exprs = chain_operands(new_expr);
            all_changed(exprs, old_exprs, old, new_exprs, new, edited, steps)
        }
        Expr::Containing(a, b) | Expr::NotContaining(a, b) => {
            let first = changed_addresses(a, old_first, old, new_first, new, edited, steps);
            let second = changed_addresses(b, old_second, old, new_second, new, edited, steps);
            first.with(second)
        }
        Expr::ContainedIn(a, b) | Expr::NotContainedIn(a, b) => {
            let first = changed_addresses(a, old_first, old, new_first, new, edited, steps);
            let second = changed_addresses(b, old_second, old, new_second, new, edited, steps);
            let over_old = first.reached(old_second, old, second, steps);
            over_old.reached(new_second, new, second, steps)
        }
    }
}

/// The addresses of several expressions together.
#[cycle(changed)]
fn all_changed<S: Ledger>(
    exprs: &[Expr],
    old_exprs: &[Expr],
    old: &Version,
    new_exprs: &[Expr],
    new: &Version,
    edited: Range,
    steps: &mut Steps<S>,
) -> Addresses
    requires well_formed { AreWellFormed (forms_from (map form_of exprs.now)) }
    requires old_are { forms_from (map form_of old_exprs.now) ≡ expansions (version_text old.now) (forms_from (map form_of exprs.now)) }
    requires new_are { forms_from (map form_of new_exprs.now) ≡ expansions (version_text new.now) (forms_from (map form_of exprs.now)) }
    ensures low { result.low ≡
        least_changed (version_text old.now) (version_text new.now) edited.first (forms_from (map form_of exprs.now)) }
    ensures high { result.high ≡
        greatest_changed (version_text old.now) (version_text new.now) edited.last (forms_from (map form_of exprs.now)) }
    ensures low_within { result.low < address_end }
    ensures high_within { result.high < address_end }
    ensures cost { steps.new ≤ steps.old + finding_costs old.now new.now (forms_from (map form_of exprs.now)) }
{
    let mut all = Addresses::of(edited);
    let mut left = exprs.len();
    while left > 0 {
        left -= 1;
        let one = changed_addresses(
            &exprs[left],
            &old_exprs[left],
            old,
            &new_exprs[left],
            new,
            edited,
            steps,
        );
        all = one.with(all);
    }
    all
}
