//! The members near two addresses.
ghost use Rattle.std.specs.Prelude.{◌≡◌, ◌+◌, ◌<◌, ◌≤◌, filter, length, take, drop, take_while, IfOk, OnErr, OnOk};
ghost use Rattle.gcl_locality.specs.Changed.{touches};
ghost use Rattle.gcl_model.specs.FormOf.{form_of};
ghost use Rattle.gcl_model.specs.Limits.{address_end};
ghost use Rattle.gcl_model.specs.Meaning.{concordance};
ghost use Rattle.gcl_model.specs.WellFormed.{IsWellFormed};
ghost use Rattle.live_version.specs.Contents.{version_text};
ghost use Rattle.collection.specs.Engines.{last_of};
ghost use Rattle.query_search.specs.Pages.{IsAfter, IsWayOver, ended, leap_cost, left_of};
ghost use Rattle.near_search.specs.Contents.{IsNearWay, starts_by};
ghost use Rattle.near_search.specs.Costs.{near_opening_cost};
ghost use Rattle.near_search.specs.inner.Finders.{content_of};

use crate::window_pages::{Part, WindowPages};
use gcl_locality::windows_tell;
use gcl_model::{Expr, IntervalList, Ledger, Steps};
use manifest_publish::Pass;
use query_search::Pages;
use standing_query::Addresses;
use std::alloc::{AllocError, Global};
use std::marker::Model;
use std::sync::Arc;
use text_window::windows_are_parts;

/// What finds the members.
#[derive(Drop)]
pub enum Finder {
    /// Pages over the whole text.
    Whole(Pages),
    /// Readers over the window of the expression.
    Near(WindowPages),
    /// No member is to come.
    Over,
}

/// The members of an expression over a version, page by page, starting at the first that touches two addresses. Contracts see those that
/// are to come, and how they are found. Those before the first that starts after the upper address are those that touch the two.
#[derive(Drop)]
pub struct NearPages {
    finder: Finder,
}

impl Model for NearPages {
    ghost use Rattle.near_search.specs.Contents.{NearContent};
    ghost use Rattle.near_search.specs.inner.Finders.{content_of};

    ghost Value = { NearContent };

    ghost view = { λ p. content_of p.finder };
}

impl NearPages {
    /// All members.
    pub fn whole(alloc: Global, pass: Pass, expr: Arc<Expr>) -> NearPages
        requires { IsWellFormed (form_of expr.value) }
        ensures members { result.to_come ≡ concordance (version_text (last_of pass.history)) (form_of expr.value) }
        ensures way { IsWayOver (last_of pass.history) (form_of expr.value) result.way }
    {
        NearPages {
            finder: Finder::Whole(Pages::from(alloc, pass, expr, 0)),
        }
    }

    /// Those near two addresses, of an expression without prefix terms. The window of the expression is found first, and one access over it
    /// finds the first of them; readers find the others, over the window alone.
    pub fn of<S: Ledger>(
        pass: Pass,
        expr: Arc<Expr>,
        near: Addresses,
        steps: &mut Steps<S>,
    ) -> NearPages
        requires well_formed { IsWellFormed (form_of expr.value) }
        requires low_below { near.low ≤ address_end }
        requires high_below { near.high ≤ address_end }
        requires ordered { near.low ≤ near.high + 1 }
        ensures members { take_while (starts_by near.high) result.to_come ≡
            filter (touches near.low near.high) (concordance (version_text (last_of pass.history)) (form_of expr.value)) }
        ensures way { IsNearWay (last_of pass.history) near.low near.high (form_of expr.value) result.way }
        ensures cost { steps.new ≤ steps.old + near_opening_cost (last_of pass.history) near.low near.high (form_of expr.value) }
    {
        windows_tell();
        windows_are_parts();
        let part = Part::of(pass, expr, near, steps);
        let from = part.start_of(near.low, steps);
        if near.high < from {
            return NearPages {
                finder: Finder::Over,
            };
        }
        NearPages {
            finder: Finder::Near(WindowPages::of(part, from)),
        }
    }

    /// The next `most` members, or all if fewer are to come. `Err` means out of memory, and then the same page can be asked for again.
    pub fn page<S: Ledger>(
        &mut self,
        alloc: Global,
        most: u64,
        steps: &mut Steps<S>,
    ) -> Result<IntervalList, AllocError>
        ensures ok { IfOk result (λ page. page ≡ take most self.old.to_come) }
        ensures rest { OnOk result (self.new.to_come ≡ drop most self.old.to_come) }
        ensures err { OnErr result (self.new.to_come ≡ self.old.to_come) }
        ensures way { OnOk result (IsAfter self.new.way self.old.way) }
        ensures end { IfOk result (λ page. length page < most → self.new.way ≡ ended) }
        ensures ended { self.old.way ≡ ended → (self.new.way ≡ ended) × (steps.new ≡ steps.old) }
        ensures cost { OnOk result (steps.new + left_of self.new.way ≤
            steps.old + left_of self.old.way + leap_cost self.old.way (length (take most self.old.to_come))) }
        ensures stopped { OnErr result (steps.new ≤
            steps.old + left_of self.old.way + leap_cost self.old.way (length (take most self.old.to_come))) }
    {
        match &mut self.finder {
            Finder::Whole(pages) => pages.page(alloc, most, steps),
            Finder::Near(pages) => pages.page(alloc, most, steps),
            Finder::Over => Ok(IntervalList::new(alloc)),
        }
    }
}
