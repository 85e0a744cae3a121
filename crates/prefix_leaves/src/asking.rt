//! The members of an expression over a version, with the places of its prefix terms already gathered.
ghost use Rattle.std.specs.Prelude.{◌≡◌, ℕ, ◌+◌, ◌<◌, ◌≤◌, true, length, take, IfOk, OnErr};
ghost use Rattle.gcl_model.specs.FormOf.{form_of};
ghost use Rattle.gcl_model.specs.Limits.{far};
ghost use Rattle.gcl_model.specs.WellFormed.{IsWellFormed};
ghost use Rattle.gcl_model.specs.Wide.{wide};
ghost use Rattle.gcl_eval.specs.Members.{members_from};
ghost use Rattle.gcl_readers.specs.Reading.{behind_page};
ghost use Rattle.gcl_cursor.specs.declared.cursor.Cursor.TheVariants.{Free};
ghost use Rattle.gcl_cursor.specs.Cursors.{IsAt, IsLimited, allowed, left_of};
ghost use Rattle.live_version.specs.Contents.{version_text};
ghost use Rattle.prefix_leaves.specs.Prefixes.{AreOver, tokens_of, wide_most};
ghost use Rattle.prefix_leaves.specs.Renaming.{is_apart, renamed};

use crate::leaves::PrefixLeaves;
use gcl_cursor::Cursor;
use gcl_eval::Page;
use gcl_model::{Expr, IntervalList, Steps, Tally};
use live_version::Version;
use prefix_places::PrefixPlaces;
use std::alloc::{AllocError, Global};
use std::marker::Brand;
use std::sync::ledger;
use term_fingers::{Fingers, Naming};

/// The members of the page, of which the cursor has passed none. The cursor's full pages, and a page that is not full or a number after
/// them, make no more look-ups in all than the cursor has left when it is made, unless an allocation fails. `Err` means out of memory:
/// then the page can be asked for again, but the look-ups no longer have a limit.
pub fn wide_page<S: ledger::Ledger>(
    alloc: Global,
    cursor: &mut Cursor,
    version: &Version,
    prefixes: &[PrefixPlaces],
    expr: &Expr,
    page: Page,
    steps: &mut Steps<Tally<S>>,
) -> Result<IntervalList, AllocError>
    requires over { AreOver (version_text version.now) prefixes.now }
    requires apart { is_apart (tokens_of prefixes.now) (form_of expr.now) ≡ true }
    requires well_formed { IsWellFormed (form_of expr.now) }
    requires below { page.from < far }
    requires at { IsAt (renamed (tokens_of prefixes.now) (version_text version.now)) (form_of expr.now) page.from cursor.old }
    ensures ok { IfOk result (λ members. members ≡
        take page.most (members_from (wide (version_text version.now) (form_of expr.now)) page.from)) }
    ensures full { IfOk result (λ members. length members ≡ page.most →
        IsAt (renamed (tokens_of prefixes.now) (version_text version.now)) (form_of expr.now) (behind_page page.from members) cursor.new) }
    ensures short { IfOk result (λ members. length members < page.most →
        (k : ℕ) → IsAt (renamed (tokens_of prefixes.now) (version_text version.now)) (form_of expr.now) k cursor.new) }
    ensures limited { IfOk result (λ members. length members ≡ page.most → IsLimited cursor.old → IsLimited cursor.new) }
    ensures err { OnErr result (cursor.new ≡ Free) }
    ensures cost { steps.new +
        left_of (renamed (tokens_of prefixes.now) (version_text version.now)) (wide_most version.now) (form_of expr.now) cursor.new ≤
        steps.old +
        allowed (renamed (tokens_of prefixes.now) (version_text version.now)) (wide_most version.now) (form_of expr.now) cursor.old
        (length (take page.most (members_from (wide (version_text version.now) (form_of expr.now)) page.from))) }
{
    page_of::<Brand, S>(alloc, cursor, version, prefixes, expr, page, steps)
}

fn page_of<J: Naming, S: ledger::Ledger>(
    alloc: Global,
    cursor: &mut Cursor,
    version: &Version,
    prefixes: &[PrefixPlaces],
    expr: &Expr,
    page: Page,
    steps: &mut Steps<Tally<S>>,
) -> Result<IntervalList, AllocError>
    requires named { version.now ≡ J.version }
    requires over { AreOver (version_text version.now) prefixes.now }
    requires apart { is_apart (tokens_of prefixes.now) (form_of expr.now) ≡ true }
    requires well_formed { IsWellFormed (form_of expr.now) }
    requires below { page.from < far }
    requires at { IsAt (renamed (tokens_of prefixes.now) (version_text version.now)) (form_of expr.now) page.from cursor.old }
    ensures ok { IfOk result (λ members. members ≡
        take page.most (members_from (wide (version_text version.now) (form_of expr.now)) page.from)) }
    ensures full { IfOk result (λ members. length members ≡ page.most →
        IsAt (renamed (tokens_of prefixes.now) (version_text version.now)) (form_of expr.now) (behind_page page.from members) cursor.new) }
    ensures short { IfOk result (λ members. length members < page.most →
        (k : ℕ) → IsAt (renamed (tokens_of prefixes.now) (version_text version.now)) (form_of expr.now) k cursor.new) }
    ensures limited { IfOk result (λ members. length members ≡ page.most → IsLimited cursor.old → IsLimited cursor.new) }
    ensures err { OnErr result (cursor.new ≡ Free) }
    ensures cost { steps.new +
        left_of (renamed (tokens_of prefixes.now) (version_text version.now)) (wide_most version.now) (form_of expr.now) cursor.new ≤
        steps.old +
        allowed (renamed (tokens_of prefixes.now) (version_text version.now)) (wide_most version.now) (form_of expr.now) cursor.old
        (length (take page.most (members_from (wide (version_text version.now) (form_of expr.now)) page.from))) }
{
    let fingers = Fingers::<J>::of(version, expr);
    let leaves = PrefixLeaves::new(&fingers, prefixes);
    cursor.page(alloc, expr, &leaves, page, steps)
}

/// How many members start at `from` or later, if `given` came before. It allocates nothing.
pub fn wide_number<S: ledger::Ledger>(
    cursor: &mut Cursor,
    version: &Version,
    prefixes: &[PrefixPlaces],
    expr: &Expr,
    from: u64,
    given: u64,
    steps: &mut Steps<Tally<S>>,
) -> u64
    requires over { AreOver (version_text version.now) prefixes.now }
    requires apart { is_apart (tokens_of prefixes.now) (form_of expr.now) ≡ true }
    requires well_formed { IsWellFormed (form_of expr.now) }
    requires below { from < far }
    requires at { IsAt (renamed (tokens_of prefixes.now) (version_text version.now)) (form_of expr.now) from cursor.old }
    requires given { given + length (members_from (wide (version_text version.now) (form_of expr.now)) from) ≡
        length (wide (version_text version.now) (form_of expr.now)) }
    ensures value { result ≡ length (members_from (wide (version_text version.now) (form_of expr.now)) from) }
    ensures at { (k : ℕ) → IsAt (renamed (tokens_of prefixes.now) (version_text version.now)) (form_of expr.now) k cursor.new }
    ensures cost { steps.new +
        left_of (renamed (tokens_of prefixes.now) (version_text version.now)) (wide_most version.now) (form_of expr.now) cursor.new ≤
        steps.old +
        allowed (renamed (tokens_of prefixes.now) (version_text version.now)) (wide_most version.now) (form_of expr.now) cursor.old
        (length (wide (version_text version.now) (form_of expr.now))) }
{
    number_of::<Brand, S>(cursor, version, prefixes, expr, from, given, steps)
}

fn number_of<J: Naming, S: ledger::Ledger>(
    cursor: &mut Cursor,
    version: &Version,
    prefixes: &[PrefixPlaces],
    expr: &Expr,
    from: u64,
    given: u64,
    steps: &mut Steps<Tally<S>>,
) -> u64
    requires named { version.now ≡ J.version }
    requires over { AreOver (version_text version.now) prefixes.now }
    requires apart { is_apart (tokens_of prefixes.now) (form_of expr.now) ≡ true }
    requires well_formed { IsWellFormed (form_of expr.now) }
    requires below { from < far }
    requires at { IsAt (renamed (tokens_of prefixes.now) (version_text version.now)) (form_of expr.now) from cursor.old }
    requires given { given + length (members_from (wide (version_text version.now) (form_of expr.now)) from) ≡
        length (wide (version_text version.now) (form_of expr.now)) }
    ensures value { result ≡ length (members_from (wide (version_text version.now) (form_of expr.now)) from) }
    ensures at { (k : ℕ) → IsAt (renamed (tokens_of prefixes.now) (version_text version.now)) (form_of expr.now) k cursor.new }
    ensures cost { steps.new +
        left_of (renamed (tokens_of prefixes.now) (version_text version.now)) (wide_most version.now) (form_of expr.now) cursor.new ≤
        steps.old +
        allowed (renamed (tokens_of prefixes.now) (version_text version.now)) (wide_most version.now) (form_of expr.now) cursor.old
        (length (wide (version_text version.now) (form_of expr.now))) }
{
    let fingers = Fingers::<J>::of(version, expr);
    let leaves = PrefixLeaves::new(&fingers, prefixes);
    cursor.count(expr, &leaves, from, given, steps)
}
