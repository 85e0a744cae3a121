ghost use Rattle.std.specs.Prelude.{◌≡◌, ◌+◌, ◌<◌, ◌≤◌, false, length, take, drop, IfOk, OnOk, OnErr};
ghost use Rattle.gcl_model.specs.FormOf.{form_of};
ghost use Rattle.gcl_model.specs.Limits.{address_end};
ghost use Rattle.gcl_cursor.specs.Cursors.{IsAt, IsLimited, left_of};
ghost use Rattle.query_search.specs.inner.Queries.{list_of, query_cost};

use crate::pages::start_after;
use crate::query::Query;
use gcl_cursor::Cursor;
use gcl_eval::Page;
use gcl_model::{IntervalList, Steps, Tally};
use std::alloc::{AllocError, Global};
use std::marker::{Brand, Model};
use std::sync::ledger;
use std::sync::ledger::Blank;

/// The members of a query, page by page. Contracts see all members, those that are still to come, and how many look-ups may still be made
/// in all, unless there was no memory for what gives them a limit.
#[derive(Drop)]
pub(crate) struct QueryPages {
    query: Query,
    cursor: Cursor,
    // The members to come start here or later, and before `end`.
    from: u64,
    end: u64,
}

impl Model for QueryPages {
    ghost use Rattle.query_search.specs.inner.Queries.{QueryLeft, GoesOnOver, left_from};

    ghost Value = { QueryLeft };

    ghost view = { λ p. left_from p.query p.from p.end p.cursor };

    ghost invariant = { λ p. GoesOnOver p.query p.from p.end p.cursor };
}

impl QueryPages {
    /// All of them. If there is no memory for readers, they are found by leaping without a limit.
    pub fn of(alloc: Global, query: Query) -> QueryPages
        ensures all { result.all ≡ list_of query }
        ensures to_come { result.to_come ≡ list_of query }
        ensures few { length result.all ≤ address_end }
        ensures left { result.left ≤ query_cost query }
    {
        match query.cursor(alloc) {
            Ok(cursor) => QueryPages::by(query, cursor),
            Err(_) => QueryPages::by(query, Cursor::Free),
        }
    }

    /// All of them, by this cursor, which has passed none.
    fn by(query: Query, cursor: Cursor) -> QueryPages
        requires at { IsAt query.text (form_of query.expr) 0 cursor }
        requires left { left_of query.text query.most (form_of query.expr) cursor ≤ query_cost query }
        ensures all { result.all ≡ list_of query }
        ensures to_come { result.to_come ≡ list_of query }
        ensures few { length result.all ≤ address_end }
        ensures left { result.left ≤ query_cost query }
        ensures limited { IsLimited cursor → result.free ≡ false }
    {
        let end = query.end();
        QueryPages {
            query,
            cursor,
            from: 0,
            end,
        }
    }

    /// The next `most` members, or all if fewer are to come. All pages, and a number after them, make no more look-ups than are left at
    /// first: a limited number by leaping, and those of one merge of whole lists. `Err` means out of memory: then the same page can be
    /// asked for again, but look-ups no longer have a limit.
    pub fn page<S: ledger::Ledger>(
        &mut self,
        alloc: Global,
        most: u64,
        steps: &mut Steps<Tally<S>>,
    ) -> Result<IntervalList, AllocError>
        ensures ok { IfOk result (λ page. page ≡ take most self.old.to_come) }
        ensures rest { OnOk result (self.new.to_come ≡ drop most self.old.to_come) }
        ensures all { self.new.all ≡ self.old.all }
        ensures err { OnErr result (self.new.to_come ≡ self.old.to_come) }
        ensures limited { OnOk result (self.old.free ≡ false → self.new.free ≡ false) }
        ensures cost { self.old.free ≡ false → steps.new + self.new.left ≤ steps.old + self.old.left }
    {
        if most == 0 {
            return Ok(IntervalList::new(alloc));
        }
        if self.from == self.end {
            return Ok(IntervalList::new(alloc));
        }
        let page = Page {
            from: self.from,
            most,
        };
        let members = self.query.page(alloc, &mut self.cursor, page, steps)?;
        self.from = start_after(&members, most, self.end);
        Ok(members)
    }

    /// How many members are to come, if `given` came. No list is made: the number is read off the lengths of lists if possible, and else
    /// counted. If readers count, they go to the end, and pages after that are found by leaping without a limit.
    pub fn count<S: ledger::Ledger>(&mut self, given: u64, steps: &mut Steps<Tally<S>>) -> u64
        requires { given + length self.old.to_come ≡ length self.old.all }
        ensures value { result ≡ length self.old.to_come }
        ensures to_come { self.new.to_come ≡ self.old.to_come }
        ensures all { self.new.all ≡ self.old.all }
        ensures cost { self.old.free ≡ false → steps.new + self.new.left ≤ steps.old + self.old.left }
    {
        if let Some(all) = self.query.listed_count() {
            return all - given;
        }
        if self.from == self.end {
            return 0;
        }
        self.query.number(&mut self.cursor, self.from, given, steps)
    }

    /// A page for a caller without a counter of look-ups.
    pub fn page_uncounted(&mut self, alloc: Global, most: u64) -> Result<IntervalList, AllocError>
        ensures ok { IfOk result (λ page. page ≡ take most self.old.to_come) }
        ensures rest { OnOk result (self.new.to_come ≡ drop most self.old.to_come) }
        ensures all { self.new.all ≡ self.old.all }
        ensures err { OnErr result (self.new.to_come ≡ self.old.to_come) }
    {
        next_page::<Brand>(self, alloc, most, Blank::new(1))
    }

    /// The number for a caller without a counter of look-ups.
    pub fn count_uncounted(&mut self, given: u64) -> u64
        requires { given + length self.old.to_come ≡ length self.old.all }
        ensures value { result ≡ length self.old.to_come }
        ensures to_come { self.new.to_come ≡ self.old.to_come }
        ensures all { self.new.all ≡ self.old.all }
    {
        number_left::<Brand>(self, given, Blank::new(1))
    }
}

fn next_page<B: ledger::Ledger>(
    pages: &mut QueryPages,
    alloc: Global,
    most: u64,
    blank: Blank,
) -> Result<IntervalList, AllocError>
    requires name { blank.name ≡ B.name }
    requires parts { blank.parts ≡ B.parts }
    requires some { 0 < blank.parts }
    ensures ok { IfOk result (λ page. page ≡ take most pages.old.to_come) }
    ensures rest { OnOk result (pages.new.to_come ≡ drop most pages.old.to_come) }
    ensures all { pages.new.all ≡ pages.old.all }
    ensures err { OnErr result (pages.new.to_come ≡ pages.old.to_come) }
{
    let mut steps = Steps::<Tally<B>>::open(blank);
    pages.page(alloc, most, &mut steps)
}

fn number_left<B: ledger::Ledger>(pages: &mut QueryPages, given: u64, blank: Blank) -> u64
    requires name { blank.name ≡ B.name }
    requires parts { blank.parts ≡ B.parts }
    requires some { 0 < blank.parts }
    requires given { given + length pages.old.to_come ≡ length pages.old.all }
    ensures value { result ≡ length pages.old.to_come }
    ensures to_come { pages.new.to_come ≡ pages.old.to_come }
    ensures all { pages.new.all ≡ pages.old.all }
{
    let mut steps = Steps::<Tally<B>>::open(blank);
    pages.count(given, &mut steps)
}
