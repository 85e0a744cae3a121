//! The same questions, answered by a cursor, which leaps while that takes few look-ups and reads after that.

ghost use Rattle.std.specs.Prelude.{◌≡◌, ℕ, ◌+◌, ◌<◌, ◌≤◌, length, IfOk, OnErr};
ghost use Rattle.gcl_model.specs.FormOf.{form_of};
ghost use Rattle.gcl_model.specs.Limits.{far};
ghost use Rattle.gcl_model.specs.Meaning.{concordance};
ghost use Rattle.gcl_model.specs.WellFormed.{IsWellFormed};
ghost use Rattle.gcl_eval.specs.Members.{members_from};
ghost use Rattle.gcl_readers.specs.Reading.{behind_page};
ghost use Rattle.gcl_cursor.specs.declared.cursor.Cursor.TheVariants.{Free};
ghost use Rattle.gcl_cursor.specs.Cursors.{IsAt, IsLimited, allowed, left_of};
ghost use Rattle.live_version.specs.Contents.{VersionContent, version_text};
ghost use Rattle.manifest_publish.specs.Histories.{IsLatest};
ghost use Rattle.reader_pass.specs.Members.{access_most, first_members_from};

use gcl_cursor::Cursor;
use gcl_eval::Page;
use gcl_model::{Expr, IntervalList, Steps, Tally};
use live_version::Version;
use manifest_publish::Pass;
use std::alloc::{AllocError, Global};
use std::marker::Brand;
use std::sync::ledger;
use term_fingers::{Fingers, Naming};

/// The members of the page, of which the cursor has passed none, over a version.
fn page_of<J: Naming, S: ledger::Ledger>(
    alloc: Global,
    cursor: &mut Cursor,
    expr: &Expr,
    version: &Version,
    page: Page,
    steps: &mut Steps<Tally<S>>,
) -> Result<IntervalList, AllocError>
    requires named { version.now ≡ J.version }
    requires well_formed { IsWellFormed (form_of expr.now) }
    requires below { page.from < far }
    requires at { IsAt (version_text version.now) (form_of expr.now) page.from cursor.old }
    ensures ok { IfOk result (λ members. members ≡ first_members_from (version_text version.now) (form_of expr.now) page.from page.most) }
    ensures full { IfOk result (λ members. length members ≡ page.most →
        IsAt (version_text version.now) (form_of expr.now) (behind_page page.from members) cursor.new) }
    ensures short { IfOk result (λ members. length members < page.most →
        (k : ℕ) → IsAt (version_text version.now) (form_of expr.now) k cursor.new) }
    ensures limited { IfOk result (λ members. length members ≡ page.most → IsLimited cursor.old → IsLimited cursor.new) }
    ensures err { OnErr result (cursor.new ≡ Free) }
    ensures cost { steps.new + left_of (version_text version.now) (access_most version.now) (form_of expr.now) cursor.new ≤ steps.old +
        allowed (version_text version.now) (access_most version.now) (form_of expr.now) cursor.old
        (length (first_members_from (version_text version.now) (form_of expr.now) page.from page.most)) }
{
    let fingers = Fingers::<J>::of(version, expr);
    cursor.page(alloc, expr, &fingers, page, steps)
}

/// How many members start at `from` or later, if `given` came before, by such a cursor.
fn number_of<J: Naming, S: ledger::Ledger>(
    cursor: &mut Cursor,
    expr: &Expr,
    version: &Version,
    from: u64,
    given: u64,
    steps: &mut Steps<Tally<S>>,
) -> u64
    requires named { version.now ≡ J.version }
    requires well_formed { IsWellFormed (form_of expr.now) }
    requires below { from < far }
    requires at { IsAt (version_text version.now) (form_of expr.now) from cursor.old }
    requires given { given + length (members_from (concordance (version_text version.now) (form_of expr.now)) from) ≡
        length (concordance (version_text version.now) (form_of expr.now)) }
    ensures value { result ≡ length (members_from (concordance (version_text version.now) (form_of expr.now)) from) }
    ensures at { (k : ℕ) → IsAt (version_text version.now) (form_of expr.now) k cursor.new }
    ensures cost { steps.new + left_of (version_text version.now) (access_most version.now) (form_of expr.now) cursor.new ≤ steps.old +
        allowed (version_text version.now) (access_most version.now) (form_of expr.now) cursor.old
        (length (concordance (version_text version.now) (form_of expr.now))) }
{
    let fingers = Fingers::<J>::of(version, expr);
    cursor.count(expr, &fingers, from, given, steps)
}

/// The members of the page, of which the cursor has passed none, over the version of the pass. Its full pages, and one that is not full or
/// a number after them, make no more look-ups in all than it has left when it is made, unless an allocation fails. `Err` means out of
/// memory: then the page can be asked for again, and the look-ups have no limit any more.
pub fn pass_page<S: ledger::Ledger>(
    alloc: Global,
    pass: &Pass,
    cursor: &mut Cursor,
    expr: &Expr,
    page: Page,
    steps: &mut Steps<Tally<S>>,
) -> Result<IntervalList, AllocError>
    requires well_formed { IsWellFormed (form_of expr.now) }
    requires below { page.from < far }
    requires at { (v : VersionContent) → IsLatest pass.now.history v → IsAt (version_text v) (form_of expr.now) page.from cursor.old }
    ensures version { (v : VersionContent) → IsLatest pass.now.history v →
        IfOk result (λ members. members ≡ first_members_from (version_text v) (form_of expr.now) page.from page.most) }
    ensures full { (v : VersionContent) → IsLatest pass.now.history v → IfOk result (λ members. length members ≡ page.most →
        IsAt (version_text v) (form_of expr.now) (behind_page page.from members) cursor.new) }
    ensures short { (v : VersionContent) → IsLatest pass.now.history v → IfOk result (λ members. length members < page.most →
        (k : ℕ) → IsAt (version_text v) (form_of expr.now) k cursor.new) }
    ensures limited { IfOk result (λ members. length members ≡ page.most → IsLimited cursor.old → IsLimited cursor.new) }
    ensures err { OnErr result (cursor.new ≡ Free) }
    ensures cost { (v : VersionContent) → IsLatest pass.now.history v →
        steps.new + left_of (version_text v) (access_most v) (form_of expr.now) cursor.new ≤ steps.old +
        allowed (version_text v) (access_most v) (form_of expr.now) cursor.old
        (length (first_members_from (version_text v) (form_of expr.now) page.from page.most)) }
{
    page_of::<Brand, S>(alloc, cursor, expr, pass.version(), page, steps)
}

/// How many members start at `from` or later, if `given` came before. It takes no memory.
pub fn pass_number<S: ledger::Ledger>(
    pass: &Pass,
    cursor: &mut Cursor,
    expr: &Expr,
    from: u64,
    given: u64,
    steps: &mut Steps<Tally<S>>,
) -> u64
    requires well_formed { IsWellFormed (form_of expr.now) }
    requires below { from < far }
    requires at { (v : VersionContent) → IsLatest pass.now.history v → IsAt (version_text v) (form_of expr.now) from cursor.old }
    requires given { (v : VersionContent) → IsLatest pass.now.history v →
        given + length (members_from (concordance (version_text v) (form_of expr.now)) from) ≡
        length (concordance (version_text v) (form_of expr.now)) }
    ensures version { (v : VersionContent) → IsLatest pass.now.history v →
        result ≡ length (members_from (concordance (version_text v) (form_of expr.now)) from) }
    ensures at { (v : VersionContent) → IsLatest pass.now.history v → (k : ℕ) → IsAt (version_text v) (form_of expr.now) k cursor.new }
    ensures cost { (v : VersionContent) → IsLatest pass.now.history v →
        steps.new + left_of (version_text v) (access_most v) (form_of expr.now) cursor.new ≤ steps.old +
        allowed (version_text v) (access_most v) (form_of expr.now) cursor.old (length (concordance (version_text v) (form_of expr.now))) }
{
    number_of::<Brand, S>(cursor, expr, pass.version(), from, given, steps)
}
