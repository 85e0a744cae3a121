//! Members that are read over a part of the text.
ghost use Rattle.std.specs.Prelude.{◌≡◌, ◌+◌, ◌<◌, ◌≤◌, length, take, drop, IfOk, OnErr, OnOk};
ghost use Rattle.std.specs.List.{AllByRecursion};
ghost use Rattle.gcl_eval.specs.Members.{members_from};
ghost use Rattle.gcl_model.specs.Cost.{cost};
ghost use Rattle.gcl_model.specs.Extents.{Extent};
ghost use Rattle.gcl_model.specs.FormOf.{form_of};
ghost use Rattle.gcl_model.specs.Limits.{address_end, far};
ghost use Rattle.gcl_model.specs.Texts.{IsText};
ghost use Rattle.gcl_model.specs.WellFormed.{IsWellFormed};
ghost use Rattle.live_version.specs.Contents.{version_text};
ghost use Rattle.gcl_readers.specs.Reading.{behind_page};
ghost use Rattle.gcl_readers.specs.Standing.{Stands, start_at};
ghost use Rattle.collection.specs.Engines.{last_of};
ghost use Rattle.near_search.specs.Contents.{near_content, start_of};
ghost use Rattle.near_search.specs.Costs.{window, window_cost};
ghost use Rattle.near_search.specs.declared.window_pages.Stage.TheVariants.{Fresh, On, Over};
ghost use Rattle.near_search.specs.inner.Windows.{IsPage, IsReading, list_of_part, text_of_part, to_come_at, to_come_of, way_at, way_of};
ghost use Rattle.query_search.specs.Pages.{IsAfter, ended, left_of};
ghost use Rattle.reader_pass.specs.Members.{access_most};

use crate::around::window_of;
use gcl_eval::first_end;
use gcl_model::{Expr, IntervalList, Leaves, Ledger, Steps};
use gcl_readers::{Readers, read_list_from};
use manifest_publish::Pass;
use standing_query::Addresses;
use std::alloc::{AllocError, Global};
use std::marker::Model;
use std::mem;
use std::sync::Arc;
use text_window::Window;

/// How far the readers are.
#[derive(Drop)]
pub enum Stage {
    /// There are none: they begin with the next page.
    Fresh,
    /// They passed no member that is to come.
    On(Readers),
    /// No member is to come.
    Over,
}

/// An expression, and the part of the text of a version over which it is read.
#[derive(Drop)]
pub struct Part {
    pub pass: Pass,
    pub expr: Arc<Expr>,
    pub window: Addresses,
}

impl Part {
    /// The window of the expression at two addresses.
    pub fn of<S: Ledger>(pass: Pass, expr: Arc<Expr>, near: Addresses, steps: &mut Steps<S>) -> Part
        requires well_formed { IsWellFormed (form_of expr.value) }
        requires low_below { near.low ≤ address_end }
        requires high_below { near.high ≤ address_end }
        ensures pass { result.pass.history ≡ pass.history }
        ensures expr { result.expr.value ≡ expr.value }
        ensures text { text_of_part result ≡ window (last_of pass.history) near.low near.high (form_of expr.value) }
        ensures sound { IsText (version_text (last_of pass.history)) }
        ensures cost { steps.new ≤ steps.old + window_cost (last_of pass.history) (form_of expr.value) }
    {
        let version = pass.version();
        // the span shows that the words rise
        let _span = version.span();
        let window = window_of(&expr, version, near, steps);
        Part { pass, expr, window }
    }

    /// Where the first member that ends at or after `low` starts, or the end of the part if there is none.
    pub fn start_of<S: Ledger>(&self, low: u64, steps: &mut Steps<S>) -> u64
        requires well_formed { IsWellFormed (form_of self.now.expr.value) }
        requires below { low ≤ address_end }
        ensures value { result ≡ start_of (text_of_part self.now) (form_of self.now.expr.value) low }
        ensures in_range { result ≤ address_end }
        ensures cost { steps.new ≤ steps.old +
            cost (text_of_part self.now) (access_most (last_of self.now.pass.history)) (form_of self.now.expr.value) }
    {
        let version = self.pass.version();
        // the end of the text is in range
        let _end = version.next();
        let text = Window::new(version, self.window.low, self.window.high);
        let end = text.span().next;
        match first_end(&self.expr, &text, low, steps) {
            Some(first) => first.start,
            None => end,
        }
    }

    /// The next members, found by readers that passed none of them.
    fn read_by<S: Ledger>(
        &self,
        alloc: Global,
        readers: &mut Readers,
        from: u64,
        most: u64,
        steps: &mut Steps<S>,
    ) -> Result<IntervalList, AllocError>
        requires is { IsReading self.now from (On readers.old) }
        ensures ok { IfOk result (λ page. page ≡ take most (members_from (list_of_part self.now) from)) }
        ensures below { IfOk result (AllByRecursion (λ (a : Extent). a.start < address_end)) }
        ensures left { IfOk result (λ page. length page ≡ most → start_at readers.new ≤ behind_page from page) }
        ensures stands { Stands (text_of_part self.now) (form_of self.now.expr.value) readers.new }
        ensures cost { steps.new + left_of (way_of self.now (On readers.new)) ≤ steps.old + left_of (way_of self.now (On readers.old)) }
    {
        let version = self.pass.version();
        // the end of the text is in range
        let _end = version.next();
        let text = Window::new(version, self.window.low, self.window.high);
        read_list_from(alloc, readers, &self.expr, &text, from, most, steps)
    }

    /// The same; then the readers go on if the page is full, and are dropped if it is not. They are lost if it returns `Err`.
    fn page_by<S: Ledger>(
        &self,
        alloc: Global,
        mut readers: Readers,
        stage: &mut Stage,
        from: u64,
        most: u64,
        steps: &mut Steps<S>,
    ) -> Result<IntervalList, AllocError>
        requires is { IsReading self.now from (On readers) }
        requires some { 0 < most }
        ensures page { IfOk result (λ page. IsPage self.now from most (members_from (list_of_part self.now) from) page stage.new) }
        ensures err { OnErr result (stage.new ≡ stage.old) }
        ensures cost { OnOk result (steps.new + left_of (way_of self.now stage.new) ≤
            steps.old + left_of (way_of self.now (On readers))) }
        ensures stopped { OnErr result (steps.new ≤ steps.old + left_of (way_of self.now (On readers))) }
    {
        let page = self.read_by(alloc, &mut readers, from, most, steps)?;
        if (page.len() as u64) < most {
            *stage = Stage::Over;
            return Ok(page);
        }
        *stage = Stage::On(readers);
        Ok(page)
    }

    /// The next members, found by readers that passed none of them. `Err` means out of memory: then readers begin anew.
    fn read<S: Ledger>(
        &self,
        alloc: Global,
        stage: &mut Stage,
        from: u64,
        most: u64,
        steps: &mut Steps<S>,
    ) -> Result<IntervalList, AllocError>
        requires is { IsReading self.now from stage.old }
        requires some { 0 < most }
        ensures page { IfOk result (λ page. IsPage self.now from most (to_come_of self.now from stage.old) page stage.new) }
        ensures err { OnErr result (stage.new ≡ Fresh) }
        ensures stays { OnErr result (to_come_of self.now from stage.new ≡ to_come_of self.now from stage.old) }
        ensures ended { way_of self.now stage.old ≡ ended → (stage.new ≡ Over) × (steps.new ≡ steps.old) }
        ensures cost { OnOk result (steps.new + left_of (way_of self.now stage.new) ≤ steps.old + left_of (way_of self.now stage.old)) }
        ensures stopped { OnErr result (steps.new ≤ steps.old + left_of (way_of self.now stage.old)) }
    {
        match mem::replace(stage, Stage::Fresh) {
            Stage::Over => {
                *stage = Stage::Over;
                Ok(IntervalList::new(alloc))
            }
            Stage::On(readers) => self.page_by(alloc, readers, stage, from, most, steps),
            Stage::Fresh => {
                let readers = Readers::new(alloc, &self.expr)?;
                self.page_by(alloc, readers, stage, from, most, steps)
            }
        }
    }
}

/// The address after the start of the last member of a page, or where the page began if it has none.
fn behind(from: u64, page: &IntervalList) -> u64
    requires { AllByRecursion (λ (a : Extent). a.start < address_end) page.now }
    ensures { result ≡ behind_page from page.now }
{
    match page.as_slice() {
        [.., last] => last.start + 1,
        [] => from,
    }
}

/// The members of an expression over a part of the text of a version, page by page, as readers find them. Contracts see those that are to
/// come, and how many look-ups are left for them.
#[derive(Drop)]
pub struct WindowPages {
    part: Part,
    stage: Stage,
    // The members to come start here or later.
    from: u64,
}

impl Model for WindowPages {
    ghost use Rattle.gcl_model.specs.FormOf.{form_of};
    ghost use Rattle.collection.specs.Engines.{last_of};
    ghost use Rattle.near_search.specs.Contents.{NearContent, near_content};
    ghost use Rattle.near_search.specs.inner.Windows.{IsReading, text_of_part, to_come_at, way_at};
    ghost use Rattle.reader_pass.specs.Members.{access_most};

    ghost Value = { NearContent };

    ghost view = { λ p. near_content (to_come_at (text_of_part p.part) (form_of p.part.expr.value) p.from p.stage)
        (way_at (text_of_part p.part) (access_most (last_of p.part.pass.history)) (form_of p.part.expr.value) p.stage) };

    ghost invariant = { λ p. IsReading p.part p.from p.stage };
}

impl WindowPages {
    /// Those that start at `from` or later. Readers are made for the first page.
    pub fn of(part: Part, from: u64) -> WindowPages
        requires well_formed { IsWellFormed (form_of part.expr.value) }
        requires below { from < far }
        ensures { result ≡ near_content (to_come_at (text_of_part part) (form_of part.expr.value) from Fresh)
            (way_at (text_of_part part) (access_most (last_of part.pass.history)) (form_of part.expr.value) Fresh) }
    {
        // the version is the last of its history
        let _version = part.pass.version();
        WindowPages {
            part,
            stage: Stage::Fresh,
            from,
        }
    }

    /// The next `most` members, or all if fewer are to come. `Err` means out of memory, and then the same page can be asked for again:
    /// readers begin anew for it.
    pub fn page<S: Ledger>(
        &mut self,
        alloc: Global,
        most: u64,
        steps: &mut Steps<S>,
    ) -> Result<IntervalList, AllocError>
        ensures ok { IfOk result (λ page. page ≡ take most self.old.to_come) }
        ensures rest { OnOk result (self.new.to_come ≡ drop most self.old.to_come) }
        ensures err { OnErr result (self.new.to_come ≡ self.old.to_come) }
        ensures way { OnOk result (IsAfter self.new.way self.old.way) }
        ensures end { IfOk result (λ page. length page < most → self.new.way ≡ ended) }
        ensures ended { self.old.way ≡ ended → (self.new.way ≡ ended) × (steps.new ≡ steps.old) }
        ensures cost { OnOk result (steps.new + left_of self.new.way ≤ steps.old + left_of self.old.way) }
        ensures stopped { OnErr result (steps.new ≤ steps.old + left_of self.old.way) }
    {
        if most == 0 {
            return Ok(IntervalList::new(alloc));
        }
        let page = self
            .part
            .read(alloc, &mut self.stage, self.from, most, steps)?;
        self.from = behind(self.from, &page);
        Ok(page)
    }
}
