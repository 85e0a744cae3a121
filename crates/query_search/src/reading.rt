//! Members by readers.
ghost use Rattle.std.specs.Prelude.{◌≡◌, ◌<◌, ℕ, List, length, IfOk, OnErr};
ghost use Rattle.gcl_model.specs.FormOf.{form_of};
ghost use Rattle.gcl_model.specs.Limits.{far};
ghost use Rattle.gcl_model.specs.WellFormed.{IsWellFormed};
ghost use Rattle.gcl_readers.specs.Reading.{behind_page};
ghost use Rattle.live_version.specs.Contents.{VersionContent, version_text};
ghost use Rattle.manifest_publish.specs.Accounts.{EndsWith};
ghost use Rattle.reader_pass.specs.Members.{first_members_from};
ghost use Rattle.collection.specs.Engines.{last_of};
ghost use Rattle.query_search.specs.Pages.{IsAfter, IsWayOver};
ghost use Rattle.query_search.specs.inner.Searches.{IsPaid, ReadFrom, way_by};

use crate::shapes::may_search_again;
use gcl_model::{Expr, IntervalList, Ledger, Steps};
use gcl_readers::Readers;
use live_version::Version;
use manifest_publish::Pass;
use reader_pass::{pass_list_from, pass_read_from};
use std::alloc::{AllocError, Global};

/// Readers, if leaping may be slow and there is memory for them. They may begin at any address.
pub fn readers_of(alloc: Global, version: &Version, expr: &Expr) -> Option<Readers>
    ensures stand { (history : List VersionContent) (from : ℕ) → ReadFrom history (form_of expr.now) from result }
    ensures way { (v : VersionContent) → IsWayOver v (form_of expr.now) (way_by v (form_of expr.now) result) }
{
    if !may_search_again(version, expr) {
        return None;
    }
    match Readers::new(alloc, expr) {
        Ok(readers) => Some(readers),
        Err(_) => None,
    }
}

/// The first members at or after an address: by readers if there are some, and else by leaping. Readers that may have passed members which
/// are still to come are dropped: after a page for which an allocation failed, and after the last one.
pub fn page_from<S: Ledger>(
    alloc: Global,
    pass: &Pass,
    expr: &Expr,
    readers: &mut Option<Readers>,
    from: u64,
    most: u64,
    steps: &mut Steps<S>,
) -> Result<IntervalList, AllocError>
    requires last { EndsWith pass.now.history (last_of pass.now.history) }
    requires well_formed { IsWellFormed (form_of expr.now) }
    requires below { from < far }
    requires readers { ReadFrom pass.now.history (form_of expr.now) from readers.old }
    ensures ok { IfOk result (λ page.
        page ≡ first_members_from (version_text (last_of pass.now.history)) (form_of expr.now) from most) }
    ensures full { IfOk result (λ page.
        length page ≡ most → ReadFrom pass.now.history (form_of expr.now) (behind_page from page) readers.new) }
    ensures short { IfOk result (λ page. length page < most → readers.new ≡ None) }
    ensures same { IfOk result (λ page. length page ≡ most →
        IsAfter (way_by (last_of pass.now.history) (form_of expr.now) readers.new)
        (way_by (last_of pass.now.history) (form_of expr.now) readers.old)) }
    ensures err { OnErr result (readers.new ≡ None) }
    ensures cost { IsPaid (last_of pass.now.history) (form_of expr.now) readers.old readers.new
        (length (first_members_from (version_text (last_of pass.now.history)) (form_of expr.now) from most)) steps.old steps.new }
{
    let Some(mut reading) = readers.take() else {
        return pass_list_from(alloc, pass, expr, from, most, steps);
    };
    let page = pass_read_from(alloc, pass, &mut reading, expr, from, most, steps)?;
    if page.len() as u64 == most {
        *readers = Some(reading);
    }
    Ok(page)
}
