ghost use Rattle.std.specs.Prelude.{◌≡◌, ◌≤◌, length, take, drop, IfOk, IfSome, OnOk, OnErr};
ghost use Rattle.gcl_model.specs.FormOf.{form_of};
ghost use Rattle.gcl_model.specs.Limits.{address_end};
ghost use Rattle.gcl_model.specs.Meaning.{concordance};
ghost use Rattle.gcl_model.specs.WellFormed.{IsWellFormed};
ghost use Rattle.gcl_model.specs.Wide.{wide};
ghost use Rattle.live_version.specs.Contents.{version_text};
ghost use Rattle.collection.specs.Engines.{last_of};

use crate::expansion::expanded;
use crate::merging::{Merging, merging_of, where_wide};
use crate::query::Query;
use crate::query_pages::QueryPages;
use gcl_model::{Expr, IntervalList};
use manifest_publish::Pass;
use std::alloc::{AllocError, Global};
use std::marker::Model;
use std::sync::Arc;

// A page of at most this many members of a lone prefix term is found by its words: gathering all places takes longer.
const FEW: u64 = 256;

/// One query on one version. What it needs before it can be answered is made once, and serves all its pages and its count.
/// Contracts see the members of its wide list that are still to come.
#[derive(Drop)]
pub struct Search {
    pages: QueryPages,
    // What is needed to switch to the places of prefix terms for which many words stand; while it is there, no member came yet.
    merging: Option<Merging>,
    // How many members came.
    given: u64,
}

impl Model for Search {
    ghost use Rattle.std.specs.Prelude.{List};
    ghost use Rattle.gcl_model.specs.Extents.{Extent};
    ghost use Rattle.query_search.specs.inner.Queries.{IsSearch};

    ghost Value = { List Extent };

    ghost view = { λ s. s.pages.to_come };

    ghost invariant = { λ s. IsSearch s.pages.all s.pages.to_come s.merging s.given };
}

impl Search {
    /// A query on the version of a pass. Its prefix terms are expanded here, once. If many words stand for one, the first page or the
    /// number may gather the places of all of them, once. `Err` means out of memory.
    ///
    /// Over `to be or not to be` at address 0, `"to"` and `"t"*` have the members 1 to 1 and 5 to 5.
    pub fn of(alloc: Global, pass: Pass, expr: Arc<Expr>) -> Result<Search, AllocError>
        requires { IsWellFormed (form_of expr.value) }
        ensures members { IfOk result (λ search. search ≡ wide (version_text (last_of pass.history)) (form_of expr.value)) }
        ensures few { IfOk result (λ search. length search ≤ address_end) }
    {
        let merging = merging_of(alloc, &pass, &expr);
        let expr = expanded(alloc, pass.version(), expr)?;
        let merging = where_wide(merging, &expr);
        Ok(Search::with(alloc, pass, expr, merging))
    }

    /// The same for an expression without prefix terms, or for what `expansion_of` made of one over this version. It needs no memory to
    /// succeed, so it has no `Err`.
    pub fn over(alloc: Global, pass: Pass, expr: Arc<Expr>) -> Search
        requires { IsWellFormed (form_of expr.value) }
        ensures members { result ≡ concordance (version_text (last_of pass.history)) (form_of expr.value) }
        ensures few { length result ≤ address_end }
    {
        Search::with(alloc, pass, expr, None)
    }

    /// The same with what is needed to switch to the places of prefix terms.
    fn with(alloc: Global, pass: Pass, expr: Arc<Expr>, merging: Option<Merging>) -> Search
        requires well_formed { IsWellFormed (form_of expr.value) }
        requires same { IfSome merging (λ list. list ≡ concordance (version_text (last_of pass.history)) (form_of expr.value)) }
        ensures members { result ≡ concordance (version_text (last_of pass.history)) (form_of expr.value) }
        ensures few { length result ≤ address_end }
    {
        Search {
            pages: QueryPages::of(alloc, Query::over_words(pass, expr)),
            merging,
            given: 0,
        }
    }

    /// The next `most` members, or all if fewer are to come. The search goes on where the last page ended, and all pages together take no
    /// more look-ups than `query_cost` says. `Err` means out of memory, and then the same page can be asked for again.
    pub fn page(&mut self, alloc: Global, most: u64) -> Result<IntervalList, AllocError>
        ensures ok { IfOk result (λ page. page ≡ take most self.old) }
        ensures rest { OnOk result (self.new ≡ drop most self.old) }
        ensures err { OnErr result (self.new ≡ self.old) }
    {
        self.go_over(most <= FEW);
        self.merging = None;
        let page = self.pages.page_uncounted(alloc, most)?;
        self.given += page.len() as u64;
        Ok(page)
    }

    /// How many members are to come. No list of them is made: the number is read off the lengths of lists if possible, and else
    /// counted. It needs no memory, though the places of prefix terms may be gathered for it. If readers count, they go to the end, and
    /// pages after that are found by leaping without a limit.
    pub fn count(&mut self) -> u64
        ensures value { result ≡ length self.old }
        ensures same { self.new ≡ self.old }
    {
        self.go_over(true);
        self.pages.count_uncounted(self.given)
    }

    /// Switches to the places of the prefix terms, if that pays and there is memory for them. They are gathered once, and after that a
    /// prefix term costs what one word costs. For a lone prefix term, its words give a few members and the number of all sooner: a page
    /// asks each word once, and a number is a sum of lengths.
    fn go_over(&mut self, is_few: bool)
        ensures { self.new ≡ self.old }
    {
        let Some(merging) = self.merging.take() else {
            return;
        };
        if is_few && merging.is_lone() {
            self.merging = Some(merging);
            return;
        }
        if let Ok(pages) = merging.pages() {
            self.pages = pages;
        }
    }
}
