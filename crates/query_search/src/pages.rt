ghost use Rattle.std.specs.Prelude.{◌≡◌, ◌+◌, ◌<◌, ◌≤◌, List, [], ◌∷◌, ◌++◌, length, take, drop, IfOk, OnOk, OnErr};
ghost use Rattle.std.specs.List.{AllByRecursion};
ghost use Rattle.gcl_model.specs.Extents.{Extent};
ghost use Rattle.gcl_model.specs.FormOf.{form_of};
ghost use Rattle.gcl_model.specs.Limits.{address_end};
ghost use Rattle.gcl_model.specs.Meaning.{concordance};
ghost use Rattle.gcl_model.specs.WellFormed.{IsWellFormed};
ghost use Rattle.live_version.specs.Contents.{version_text};
ghost use Rattle.collection.specs.Engines.{last_of};
ghost use Rattle.query_search.specs.Pages.{IsAfter, IsWayOver, ended, leap_cost, left_of, pages_from, reads};
ghost use Rattle.query_search.specs.inner.Searches.{members_over};

use crate::reading::{page_from, readers_of};
use gcl_model::{Expr, IntervalList, Ledger, Steps};
use gcl_readers::Readers;
use manifest_publish::Pass;
use std::alloc::{AllocError, Global};
use std::marker::Model;
use std::sync::Arc;

/// The members of an expression over a version that start at an address or later, page by page. Contracts see all members, those that are
/// still to come, and how the next ones are found.
#[derive(Drop)]
pub struct Pages {
    pass: Pass,
    expr: Arc<Expr>,
    // They find the members if leaping may be slow; they passed none that is to come.
    readers: Option<Readers>,
    // The members to come start here or later, and before `end`.
    from: u64,
    end: u64,
}

impl Model for Pages {
    ghost use Rattle.gcl_model.specs.FormOf.{form_of};
    ghost use Rattle.query_search.specs.Pages.{PagesContent, pages_from};
    ghost use Rattle.collection.specs.Engines.{last_of};
    ghost use Rattle.query_search.specs.inner.Searches.{members_over, GoesOnAt, ReadFrom, way_from};

    ghost Value = { PagesContent };

    ghost view = { λ p. pages_from (members_over p.pass.history (form_of p.expr.value)) p.from
        (way_from (last_of p.pass.history) (form_of p.expr.value) p.from p.end p.readers) };

    ghost invariant = { λ p. GoesOnAt p.pass.history (form_of p.expr.value) p.from p.end ×
        ReadFrom p.pass.history (form_of p.expr.value) p.from p.readers };
}

/// Where the members after a page start at the earliest: after the start of its last one, or at the end if it has fewer than were
/// asked for.
pub(crate) fn start_after(page: &IntervalList, most: u64, end: u64) -> u64
    requires below { AllByRecursion (λ (a : Extent). a.start < end) page.now }
    requires in_range { end ≤ address_end }
    ensures full { (before : List Extent) (last : Extent) → page.now ≡ before ++ last ∷ [] → most ≤ length page.now →
        result ≡ last.start + 1 }
    ensures short { length page.now < most → result ≡ end }
    ensures within { result ≤ end }
{
    if (page.len() as u64) < most {
        return end;
    }
    match page.as_slice() {
        [.., last] => last.start + 1,
        [] => end,
    }
}

impl Pages {
    /// Those that start at `k` or later, of an expression without prefix terms, or of what `expansion_of` made of one over this version.
    ///
    /// Over `to be or not to be` at address 0, those of `"to"` at or after 2 are 5 to 5 alone.
    pub fn from(alloc: Global, pass: Pass, expr: Arc<Expr>, k: u64) -> Pages
        requires { IsWellFormed (form_of expr.value) }
        ensures members { result ≡ pages_from (concordance (version_text (last_of pass.history)) (form_of expr.value)) k result.way }
        ensures way { IsWayOver (last_of pass.history) (form_of expr.value) result.way }
        ensures few { length result.all ≤ address_end }
    {
        let version = pass.version();
        let end = version.next();
        let from = k.min(end);
        let readers = readers_of(alloc, version, &expr);
        Pages {
            pass,
            expr,
            readers,
            from,
            end,
        }
    }

    /// Whether readers find the next members.
    pub fn is_read(&self) -> bool
        ensures { result ≡ reads self.now.way }
    {
        self.from != self.end && self.readers.is_some()
    }

    /// The next `most` members, or all if fewer are to come. The search goes on where the last page ended: by leaping, so that a page
    /// takes the look-ups of its own members alone, or by readers, with which all pages together take those of one merge of whole lists.
    /// `Err` means out of memory, and then the same page can be asked for again; readers are dropped, and it is found by leaping.
    pub fn page<S: Ledger>(
        &mut self,
        alloc: Global,
        most: u64,
        steps: &mut Steps<S>,
    ) -> Result<IntervalList, AllocError>
        ensures ok { IfOk result (λ page. page ≡ take most self.old.to_come) }
        ensures rest { OnOk result (self.new.to_come ≡ drop most self.old.to_come) }
        ensures all { self.new.all ≡ self.old.all }
        ensures err { OnErr result (self.new.to_come ≡ self.old.to_come) }
        ensures way { OnOk result (IsAfter self.new.way self.old.way) }
        ensures end { IfOk result (λ page. length page < most → self.new.way ≡ ended) }
        ensures ended { self.old.way ≡ ended → (self.new.way ≡ ended) × (steps.new ≡ steps.old) }
        ensures cost { steps.new + left_of self.new.way ≤
            steps.old + left_of self.old.way + leap_cost self.old.way (length (take most self.old.to_come)) }
    {
        if most == 0 {
            return Ok(IntervalList::new(alloc));
        }
        if self.from == self.end {
            return Ok(IntervalList::new(alloc));
        }
        let page = page_from(
            alloc,
            &self.pass,
            &self.expr,
            &mut self.readers,
            self.from,
            most,
            steps,
        )?;
        self.from = start_after(&page, most, self.end);
        Ok(page)
    }
}
