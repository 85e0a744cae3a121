ghost use Rattle.std.specs.Prelude.{◌≡◌, ◌+◌, ◌*◌, ◌<◌, ◌≤◌, [], ◌∷◌, length, drop, take_while, IfOk, IfSome, IsNone, OnErr, OnOk};
ghost use Rattle.gcl_model.specs.Extents.{IsRising};
ghost use Rattle.near_search.specs.Contents.{starts_by};
ghost use Rattle.change_search.specs.Costs.{paged_accesses};
ghost use Rattle.change_search.specs.inner.Sides.{IsFound, IsSide, found_and_left, look_ups, look_ups_by, to_come};

use gcl_model::{Interval, IntervalList, Ledger, Steps};
use near_search::NearPages;
use query_search::PAGE;
use std::alloc::{AllocError, Global};

/// How many members the first page has at most. Each has twice as many as the one before, up to `PAGE`: an edit that changes a few
/// members looks for few.
const FIRST_PAGE: u64 = 2;

/// The members of one of the two lists that are to come: those of a page at or after a place, and those of the pages after it,
/// before the first that starts after an address.
#[derive(Drop)]
pub struct Side {
    pub page: IntervalList,
    pub at: usize,
    pub rest: NearPages,
    pub high: u64,
    // how many members the last page could have
    pub size: u64,
}

/// How many members a page after one of this size has at most.
fn next_size(size: u64) -> u64
    ensures some { 2 ≤ result }
    ensures first { size ≡ 0 → result ≡ 2 }
    ensures later { 2 ≤ size → result ≤ 2 * size }
{
    size.saturating_mul(2).max(FIRST_PAGE).min(PAGE)
}

impl Side {
    /// All members of these pages that start at `high` or before.
    pub fn of(alloc: Global, rest: NearPages, high: u64) -> Side
        requires { IsRising (take_while (starts_by high) rest.to_come) }
        ensures side { IsSide result }
        ensures members { to_come result ≡ take_while (starts_by high) rest.to_come }
        ensures way { result.rest.way ≡ rest.way }
        ensures look_ups { look_ups result ≡ look_ups_by rest.way (paged_accesses (length (to_come result))) }
    {
        Side {
            page: IntervalList::new(alloc),
            at: 0,
            rest,
            high,
            size: 0,
        }
    }

    /// Finds the next page, if the last one is used up. `Err` means out of memory.
    fn fill<S: Ledger>(&mut self, alloc: Global, steps: &mut Steps<S>) -> Result<(), AllocError>
        requires { IsSide self.old }
        ensures side { IsSide self.new }
        ensures same { found_and_left self.new ≡ found_and_left self.old }
        ensures high { self.new.high ≡ self.old.high }
        ensures end { OnOk result (length self.new.page ≤ self.new.at → found_and_left self.old ≡ []) }
        ensures cost { OnOk result (steps.new + look_ups self.new ≤ steps.old + look_ups self.old) }
        ensures err { OnErr result (steps.new ≤ steps.old + look_ups self.old) }
    {
        if self.at < self.page.len() {
            return Ok(());
        }
        let size = next_size(self.size);
        self.page = self.rest.page(alloc, size, steps)?;
        self.at = 0;
        self.size = size;
        Ok(())
    }

    /// The first member that is to come, which stays. `Err` means out of memory.
    pub fn first<S: Ledger>(
        &mut self,
        alloc: Global,
        steps: &mut Steps<S>,
    ) -> Result<Option<Interval>, AllocError>
        requires { IsSide self.old }
        ensures side { IsSide self.new }
        ensures same { to_come self.new ≡ to_come self.old }
        ensures some { IfOk result (λ first. IfSome first (λ member. to_come self.old ≡ member ∷ drop 1 (to_come self.old))) }
        ensures found { IfOk result (λ first. IfSome first (λ _. IsFound self.new)) }
        ensures none { IfOk result (λ first. IsNone first → to_come self.old ≡ []) }
        ensures cost { OnOk result (steps.new + look_ups self.new ≤ steps.old + look_ups self.old) }
        ensures err { OnErr result (steps.new ≤ steps.old + look_ups self.old) }
    {
        self.fill(alloc, steps)?;
        if self.page.len() <= self.at {
            return Ok(None);
        }
        let member = *self.page.get(self.at);
        if self.high < member.start {
            return Ok(None);
        }
        Ok(Some(member))
    }

    /// Moves past the first member, once it is found.
    pub fn pass(&mut self)
        requires side { IsSide self.old }
        requires found { IsFound self.old }
        ensures side { IsSide self.new }
        ensures members { to_come self.new ≡ drop 1 (to_come self.old) }
        ensures look_ups { look_ups self.new ≡ look_ups self.old }
    {
        // a length is in range, and so is the place after a member
        let _found = self.page.len();
        self.at += 1;
    }
}
