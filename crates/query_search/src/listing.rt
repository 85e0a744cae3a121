ghost use Rattle.std.specs.Prelude.{◌≡◌, ◌<◌, ◌≤◌, [], ◌++◌, length, take, IfOk, IfSome, IsNone, OnErr};
ghost use Rattle.gcl_model.specs.Limits.{address_end};
ghost use Rattle.query_search.specs.Pages.{page_size};

use crate::search::Search;
use gcl_model::IntervalList;
use std::alloc::{AllocError, Global};
use std::marker::Model;
use std::mem;

/// How many members a page has at most.
pub const PAGE: u64 = 4_096;

/// The members that a query asks for, page by page, so that no whole list is kept, however long it is. Contracts see the members that are
/// still to come.
#[derive(Drop)]
pub struct Listing {
    // What was found and not given yet.
    found: IntervalList,
    rest: Search,
    // How many members of the rest may still be given.
    limit: u64,
}

impl Model for Listing {
    ghost use Rattle.std.specs.Prelude.{◌+◌, ◌≤◌, List, ◌++◌, length, take};
    ghost use Rattle.gcl_model.specs.Extents.{Extent};
    ghost use Rattle.gcl_model.specs.Limits.{address_end};

    ghost Value = { List Extent };

    ghost view = { λ l. l.found ++ take l.limit l.rest };

    ghost invariant = { λ l. (length l.found ≤ 4096) × (length l.found + length l.rest ≤ address_end) };
}

impl Listing {
    /// The first `most` of the members of a search that are to come. The first page is found here.
    pub fn of(alloc: Global, search: Search, most: u64) -> Result<Listing, AllocError>
        requires { length search ≤ address_end }
        ensures { IfOk result (λ listing. listing ≡ take most search) }
    {
        let mut rest = search;
        let size = most.min(PAGE);
        let found = rest.page(alloc, size)?;
        let limit = most - size;
        Ok(Listing { found, rest, limit })
    }

    /// Shows that a listing has no more members than there are addresses.
    pub fn is_bounded(&self)
        ensures { length self.now ≤ address_end }
    {
        let _found = self.found.len();
    }

    /// The next page, which has no more than `PAGE` members. Returns None if no member is left. `Err` means out of memory, and then the
    /// same page can be asked for again.
    ///
    /// The two members of `"to"` over `to be or not to be` come in one page, and then None.
    pub fn next_page(&mut self, alloc: Global) -> Result<Option<IntervalList>, AllocError>
        ensures some { IfOk result (λ next. IfSome next (λ page. (self.old ≡ page ++ self.new) × (0 < length page))) }
        ensures few { IfOk result (λ next. IfSome next (λ page. length page ≤ page_size)) }
        ensures none { IfOk result (λ next. IsNone next → self.old ≡ []) }
        ensures err { OnErr result (self.new ≡ self.old) }
    {
        if self.found.len() > 0 {
            let page = mem::replace(&mut self.found, IntervalList::new(alloc));
            return Ok(Some(page));
        }
        let most = self.limit.min(PAGE);
        let page = self.rest.page(alloc, most)?;
        self.limit -= most;
        if page.len() == 0 {
            return Ok(None);
        }
        Ok(Some(page))
    }
}
