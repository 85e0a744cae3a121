ghost use Rattle.std.specs.Prelude.{◌≡◌, ◌+◌, ◌<◌, ◌≤◌, length, IfOk, IfSome};
ghost use Rattle.gcl_model.specs.Collections.{Collection, text_of};
ghost use Rattle.gcl_model.specs.FormOf.{form_of};
ghost use Rattle.gcl_model.specs.Limits.{far};
ghost use Rattle.gcl_model.specs.Meaning.{concordance};
ghost use Rattle.gcl_model.specs.WellFormed.{IsWellFormed};
ghost use Rattle.live_version.specs.Contents.{VersionContent, version_text};
ghost use Rattle.live_version.specs.StandsFor.{StandsFor};
ghost use Rattle.manifest_publish.specs.Histories.{IsLatest};
ghost use Rattle.reader_pass.specs.Members.{first_members, first_members_from, look_ups, access_most};

use crate::counted::{count, listed_count};
use crate::fingered::list_from;
use gcl_model::{Expr, IntervalList, Ledger, Steps};
use manifest_publish::Pass;
use std::alloc::{AllocError, Global};
use std::marker::Brand;

/// The first `most` members of the expression's list over the version of the pass, or all if there are fewer.
pub fn pass_list<S: Ledger>(
    alloc: Global,
    pass: &Pass,
    expr: &Expr,
    most: u64,
    steps: &mut Steps<S>,
) -> Result<IntervalList, AllocError>
    requires well_formed { IsWellFormed (form_of expr.now) }
    ensures version { (v : VersionContent) → IsLatest pass.now.history v →
        IfOk result (λ members. members ≡ first_members (version_text v) (form_of expr.now) most) }
    ensures collection { (v : VersionContent) (c : Collection) → IsLatest pass.now.history v → StandsFor v c →
        IfOk result (λ members. members ≡ first_members (text_of c) (form_of expr.now) most) }
    ensures cost { (v : VersionContent) → IsLatest pass.now.history v →
        steps.new ≤ steps.old + look_ups (version_text v) (access_most v) (form_of expr.now)
        (length (first_members (version_text v) (form_of expr.now) most)) }
{
    pass_list_from(alloc, pass, expr, 0, most, steps)
}

/// The first `most` of those members that start at or after `k`, or all of these if there are fewer.
pub fn pass_list_from<S: Ledger>(
    alloc: Global,
    pass: &Pass,
    expr: &Expr,
    k: u64,
    most: u64,
    steps: &mut Steps<S>,
) -> Result<IntervalList, AllocError>
    requires well_formed { IsWellFormed (form_of expr.now) }
    requires below { k < far }
    ensures version { (v : VersionContent) → IsLatest pass.now.history v →
        IfOk result (λ members. members ≡ first_members_from (version_text v) (form_of expr.now) k most) }
    ensures collection { (v : VersionContent) (c : Collection) → IsLatest pass.now.history v → StandsFor v c →
        IfOk result (λ members. members ≡ first_members_from (text_of c) (form_of expr.now) k most) }
    ensures cost { (v : VersionContent) → IsLatest pass.now.history v →
        steps.new ≤ steps.old + look_ups (version_text v) (access_most v) (form_of expr.now)
        (length (first_members_from (version_text v) (form_of expr.now) k most)) }
{
    list_from::<Brand, S>(alloc, expr, pass.version(), k, most, steps)
}

/// How many members the expression's list over the version of the pass has. It takes no memory.
pub fn pass_count<S: Ledger>(pass: &Pass, expr: &Expr, steps: &mut Steps<S>) -> u64
    requires well_formed { IsWellFormed (form_of expr.now) }
    ensures version { (v : VersionContent) → IsLatest pass.now.history v →
        result ≡ length (concordance (version_text v) (form_of expr.now)) }
    ensures collection { (v : VersionContent) (c : Collection) → IsLatest pass.now.history v → StandsFor v c →
        result ≡ length (concordance (text_of c) (form_of expr.now)) }
    ensures cost { (v : VersionContent) → IsLatest pass.now.history v →
        steps.new ≤ steps.old + look_ups (version_text v) (access_most v) (form_of expr.now) result }
{
    count(expr, pass.version(), steps)
}

/// How many members there are, if the lengths of lists show it without a look-up: of a term, of one of a few terms, and of what a prefix
/// term stands for. It takes no memory, and counts each term at most twice. None says nothing about the number.
pub fn pass_listed_count(pass: &Pass, expr: &Expr) -> Option<u64>
    ensures version { (v : VersionContent) → IsLatest pass.now.history v →
        IfSome result (λ count. count ≡ length (concordance (version_text v) (form_of expr.now))) }
    ensures collection { (v : VersionContent) (c : Collection) → IsLatest pass.now.history v → StandsFor v c →
        IfSome result (λ count. count ≡ length (concordance (text_of c) (form_of expr.now))) }
{
    listed_count(pass.version(), expr)
}
