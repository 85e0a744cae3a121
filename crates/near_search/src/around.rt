//! Which part of the text of a version determines the members that touch two addresses.
ghost use Rattle.std.specs.Prelude.{◌≡◌, ◌+◌, ◌*◌, ◌-◌, ◌<◌, ◌≤◌, length, map, max, min};
ghost use Rattle.gcl_locality.specs.Windows.{all_reach_from, all_reach_upto, end_behind, has_width, reach_from, reach_upto, start_before};
ghost use Rattle.gcl_locality.specs.Windows.{all_told_from, all_told_upto, told_from, told_upto, window_from, window_upto};
ghost use Rattle.gcl_model.specs.FormOf.{form_of, forms_from};
ghost use Rattle.gcl_model.specs.Limits.{address_end, far};
ghost use Rattle.gcl_model.specs.Meaning.{concordance};
ghost use Rattle.gcl_model.specs.WellFormed.{AreWellFormed, IsWellFormed};
ghost use Rattle.live_version.specs.Contents.{version_text};
ghost use Rattle.near_search.specs.Costs.{one_access, reach_cost, reach_costs, surround_cost, surround_costs, window_cost};

use gcl_eval::{first_start, last_end};
use gcl_locality::{end_behind, start_before};
use gcl_model::{Expr, Leaves, Ledger, Steps};
use live_version::Version;
use standing_query::Addresses;

/// From the start of the last member before the addresses to the end of the first member after them: each member that touches them
/// lies between.
fn around<S: Ledger>(
    expr: &Expr,
    version: &Version,
    inner: Addresses,
    steps: &mut Steps<S>,
) -> Addresses
    requires well_formed { IsWellFormed (form_of expr.now) }
    requires low_below { inner.low < far }
    requires high_below { inner.high ≤ address_end }
    ensures low { result.low ≡
        start_before (version_text version.now) (concordance (version_text version.now) (form_of expr.now)) inner.low }
    ensures high { result.high ≡
        end_behind (version_text version.now) (concordance (version_text version.now) (form_of expr.now)) inner.high }
    ensures low_within { result.low ≤ inner.low }
    ensures high_within { result.high ≤ address_end }
    ensures cost { steps.new ≤ steps.old + 2 * one_access version.now (form_of expr.now) }
{
    let span = version.span();
    let before = last_end(expr, version, inner.low.saturating_sub(1), steps);
    let behind = first_start(expr, version, inner.high + 1, steps);
    Addresses {
        low: start_before(span.first, inner.low, before),
        high: end_behind(span.next, inner.high, behind),
    }
}

/// The same for a phrase, by its length.
fn beside(version: &Version, inner: Addresses, tokens: usize) -> Addresses
    requires low_below { inner.low < far }
    requires high_below { inner.high ≤ address_end }
    ensures low { result.low ≡ inner.low - (tokens - 1) }
    ensures high { result.high ≡ max inner.high (min (version_text version.now).next (inner.high + (tokens - 1))) }
    ensures low_within { result.low ≤ inner.low }
    ensures high_within { result.high ≤ address_end }
{
    let others = (tokens as u64).saturating_sub(1);
    let end = version.next().min(inner.high.saturating_add(others));
    Addresses {
        low: inner.low.saturating_sub(others),
        high: inner.high.max(end),
    }
}

/// Whether all members have the same width.
fn has_width(expr: &Expr) -> bool
    ensures { result ≡ has_width (form_of expr.now) }
{
    matches!(expr, Expr::Width(_))
}

/// Between which addresses each member lies that touches two addresses. Those of a phrase are as long as it is, those within a width are no
/// longer, and those of another containment are members of its first operand: so only members of "both of", "followed by" and widths are
/// looked for, which are found near by.
#[cycle(reach)]
fn reach<S: Ledger>(
    expr: &Expr,
    version: &Version,
    inner: Addresses,
    steps: &mut Steps<S>,
) -> Addresses
    requires well_formed { IsWellFormed (form_of expr.now) }
    requires low_below { inner.low < far }
    requires high_below { inner.high ≤ address_end }
    ensures low { result.low ≡ reach_from (version_text version.now) inner.low (form_of expr.now) }
    ensures high { result.high ≡ reach_upto (version_text version.now) inner.high (form_of expr.now) }
    ensures low_within { result.low ≤ inner.low }
    ensures high_within { result.high ≤ address_end }
    ensures cost { steps.new ≤ steps.old + reach_cost version.now (form_of expr.now) }
{
    match expr {
        Expr::Term(_) => inner,
        Expr::Phrase(tokens) => beside(version, inner, tokens.len()),
        Expr::One(operands) => all_reach(operands, version, inner, steps),
        Expr::Width(_) | Expr::Both(_) | Expr::Seq(_) => around(expr, version, inner, steps),
        Expr::ContainedIn(_, second) if has_width(second) => reach(second, version, inner, steps),
        Expr::Containing(first, _)
        | Expr::ContainedIn(first, _)
        | Expr::NotContaining(first, _)
        | Expr::NotContainedIn(first, _) => reach(first, version, inner, steps),
    }
}

/// The same for several expressions together.
#[cycle(reach)]
fn all_reach<S: Ledger>(
    exprs: &[Expr],
    version: &Version,
    inner: Addresses,
    steps: &mut Steps<S>,
) -> Addresses
    requires well_formed { AreWellFormed (forms_from (map form_of exprs.now)) }
    requires low_below { inner.low < far }
    requires high_below { inner.high ≤ address_end }
    ensures low { result.low ≡ all_reach_from (version_text version.now) inner.low (forms_from (map form_of exprs.now)) }
    ensures high { result.high ≡ all_reach_upto (version_text version.now) inner.high (forms_from (map form_of exprs.now)) }
    ensures low_within { result.low ≤ inner.low }
    ensures high_within { result.high ≤ address_end }
    ensures cost { steps.new ≤ steps.old + reach_costs version.now (forms_from (map form_of exprs.now)) }
{
    let mut all = inner;
    let mut left = exprs.len();
    while left > 0 {
        left -= 1;
        let one = reach(&exprs[left], version, inner, steps);
        all = one.with(all);
    }
    all
}

/// Where the text must have its words to determine the members that lie between two addresses: there, and around that for what `<` and
/// `/<` look at.
#[cycle(told)]
fn told<S: Ledger>(
    expr: &Expr,
    version: &Version,
    inner: Addresses,
    steps: &mut Steps<S>,
) -> Addresses
    requires well_formed { IsWellFormed (form_of expr.now) }
    requires low_below { inner.low < far }
    requires high_below { inner.high ≤ address_end }
    ensures low { result.low ≡ told_from (version_text version.now) inner.low inner.high (form_of expr.now) }
    ensures high { result.high ≡ told_upto (version_text version.now) inner.low inner.high (form_of expr.now) }
    ensures cost { steps.new ≤ steps.old + surround_cost version.now (form_of expr.now) }
{
    match expr {
        Expr::Term(_) | Expr::Phrase(_) | Expr::Width(_) => inner,
        Expr::Both(operands) | Expr::One(operands) | Expr::Seq(operands) => {
            all_told(operands, version, inner, steps)
        }
        Expr::Containing(a, b) | Expr::NotContaining(a, b) => {
            let first = told(a, version, inner, steps);
            let second = told(b, version, inner, steps);
            first.with(second)
        }
        Expr::ContainedIn(a, b) | Expr::NotContainedIn(a, b) => {
            let first = told(a, version, inner, steps);
            let outer = reach(b, version, inner, steps);
            let second = told(b, version, outer, steps);
            first.with(second)
        }
    }
}

/// The same for several expressions together.
#[cycle(told)]
fn all_told<S: Ledger>(
    exprs: &[Expr],
    version: &Version,
    inner: Addresses,
    steps: &mut Steps<S>,
) -> Addresses
    requires well_formed { AreWellFormed (forms_from (map form_of exprs.now)) }
    requires low_below { inner.low < far }
    requires high_below { inner.high ≤ address_end }
    ensures low { result.low ≡
        all_told_from (version_text version.now) inner.low inner.high (forms_from (map form_of exprs.now)) }
    ensures high { result.high ≡
        all_told_upto (version_text version.now) inner.low inner.high (forms_from (map form_of exprs.now)) }
    ensures cost { steps.new ≤ steps.old + surround_costs version.now (forms_from (map form_of exprs.now)) }
{
    let mut all = inner;
    let mut left = exprs.len();
    while left > 0 {
        left -= 1;
        let one = told(&exprs[left], version, inner, steps);
        all = one.with(all);
    }
    all
}

/// The window of an expression without prefix terms: evaluated over it, the expression has the same members that touch two addresses. It
/// is found by what the members of the expression, and of the second operand of each `<` and `/<`, can reach.
///
/// Over `to be or not to be` from address 0, that of `"to"` at 3 to 4 is from 3 to 4, and that of `"to".."be"` from 1 to 6.
pub fn window_of<S: Ledger>(
    expr: &Expr,
    version: &Version,
    near: Addresses,
    steps: &mut Steps<S>,
) -> Addresses
    requires well_formed { IsWellFormed (form_of expr.now) }
    requires low_below { near.low < far }
    requires high_below { near.high ≤ address_end }
    ensures low { result.low ≡ window_from (version_text version.now) near.low near.high (form_of expr.now) }
    ensures high { result.high ≡ window_upto (version_text version.now) near.low near.high (form_of expr.now) }
    ensures cost { steps.new ≤ steps.old + window_cost version.now (form_of expr.now) }
{
    let inner = reach(expr, version, near, steps);
    told(expr, version, inner, steps)
}
