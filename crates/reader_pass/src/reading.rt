//! The same pages, found by readers, which only go forward.

ghost use Rattle.std.specs.Prelude.{◌≡◌, ◌+◌, ◌<◌, ◌≤◌, length, IfOk};
ghost use Rattle.gcl_model.specs.FormOf.{form_of};
ghost use Rattle.gcl_model.specs.Limits.{far};
ghost use Rattle.gcl_model.specs.WellFormed.{IsWellFormed};
ghost use Rattle.gcl_readers.specs.MergeCost.{cost_left};
ghost use Rattle.gcl_readers.specs.Reading.{behind_page};
ghost use Rattle.gcl_readers.specs.Standing.{Stands, start_at};
ghost use Rattle.live_version.specs.Contents.{VersionContent, version_text};
ghost use Rattle.manifest_publish.specs.Histories.{IsLatest};
ghost use Rattle.reader_pass.specs.Members.{access_most, first_members_from};

use gcl_model::{Expr, IntervalList, Ledger, Steps};
use gcl_readers::{Readers, read_list_from};
use live_version::Version;
use manifest_publish::Pass;
use std::alloc::{AllocError, Global};
use std::marker::Brand;
use term_fingers::{Fingers, Naming};

/// The first `most` of the members that start at or after `k`, by readers that have passed none of these, over a version.
fn read_from<J: Naming, S: Ledger>(
    alloc: Global,
    readers: &mut Readers,
    expr: &Expr,
    version: &Version,
    k: u64,
    most: u64,
    steps: &mut Steps<S>,
) -> Result<IntervalList, AllocError>
    requires named { version.now ≡ J.version }
    requires well_formed { IsWellFormed (form_of expr.now) }
    requires below { k < far }
    requires stands { Stands (version_text version.now) (form_of expr.now) readers.old }
    requires behind { start_at readers.old ≤ k }
    ensures ok { IfOk result (λ members. members ≡ first_members_from (version_text version.now) (form_of expr.now) k most) }
    ensures behind { IfOk result (λ members. length members ≡ most → start_at readers.new ≤ behind_page k members) }
    ensures stands { Stands (version_text version.now) (form_of expr.now) readers.new }
    ensures cost { steps.new + cost_left (version_text version.now) (access_most version.now) (form_of expr.now) readers.new ≤
        steps.old + cost_left (version_text version.now) (access_most version.now) (form_of expr.now) readers.old }
{
    let fingers = Fingers::<J>::of(version, expr);
    read_list_from(alloc, readers, expr, &fingers, k, most, steps)
}

/// The first `most` of the members that start at or after `k`, or all of these if there are fewer, by readers that have passed none of
/// them. All pages and counts by the same readers together make no more look-ups than the expression's merge cost over the version. If
/// a page is full, the next one begins behind the start of its last member. After an `Err`, out of memory, no page can go on.
pub fn pass_read_from<S: Ledger>(
    alloc: Global,
    pass: &Pass,
    readers: &mut Readers,
    expr: &Expr,
    k: u64,
    most: u64,
    steps: &mut Steps<S>,
) -> Result<IntervalList, AllocError>
    requires well_formed { IsWellFormed (form_of expr.now) }
    requires below { k < far }
    requires stands { (v : VersionContent) → IsLatest pass.now.history v → Stands (version_text v) (form_of expr.now) readers.old }
    requires behind { start_at readers.old ≤ k }
    ensures version { (v : VersionContent) → IsLatest pass.now.history v →
        IfOk result (λ members. members ≡ first_members_from (version_text v) (form_of expr.now) k most) }
    ensures behind { IfOk result (λ members. length members ≡ most → start_at readers.new ≤ behind_page k members) }
    ensures stands { (v : VersionContent) → IsLatest pass.now.history v → Stands (version_text v) (form_of expr.now) readers.new }
    ensures cost { (v : VersionContent) → IsLatest pass.now.history v →
        steps.new + cost_left (version_text v) (access_most v) (form_of expr.now) readers.new ≤
        steps.old + cost_left (version_text v) (access_most v) (form_of expr.now) readers.old }
{
    read_from::<Brand, S>(alloc, readers, expr, pass.version(), k, most, steps)
}
