//! An expression over the words of a version, or over them with the places of its prefix terms.
ghost use Rattle.std.specs.Prelude.{◌≡◌, ℕ, ◌+◌, ◌<◌, ◌≤◌, true, length, take, IfOk, IfSome, OnErr};
ghost use Rattle.gcl_model.specs.FormOf.{form_of};
ghost use Rattle.gcl_model.specs.Limits.{address_end, far};
ghost use Rattle.gcl_model.specs.Meaning.{concordance};
ghost use Rattle.gcl_model.specs.WellFormed.{IsWellFormed};
ghost use Rattle.gcl_model.specs.Wide.{wide};
ghost use Rattle.gcl_eval.specs.Members.{members_from};
ghost use Rattle.gcl_readers.specs.Reading.{behind_page};
ghost use Rattle.gcl_cursor.specs.declared.cursor.Cursor.TheVariants.{Free};
ghost use Rattle.gcl_cursor.specs.Cursors.{IsAt, IsLimited, allowed, left_of};
ghost use Rattle.live_version.specs.Contents.{version_text};
ghost use Rattle.collection.specs.Engines.{last_of};
ghost use Rattle.prefix_leaves.specs.Renaming.{is_apart};
ghost use Rattle.query_search.specs.inner.Queries.{list_of, query_cost};

use crate::shapes::leaps_of;
use gcl_cursor::Cursor;
use gcl_eval::Page;
use gcl_model::{Expr, IntervalList, Steps, Tally};
use manifest_publish::Pass;
use prefix_leaves::{PrefixTable, PrefixTerms, wide_number, wide_page};
use reader_pass::{pass_listed_count, pass_number, pass_page};
use std::alloc::{AllocError, Global};
use std::marker::Model;
use std::sync::{Arc, ledger};

/// An expression over a version. Contracts see the text that it is asked over: that of the version, or, if the places of its prefix terms
/// are there, the one in which these are the tokens of the words that they stand for. Over that text the expression has its wide list as
/// its concordance list.
#[derive(Drop)]
pub(crate) struct Query {
    pass: Pass,
    expr: Arc<Expr>,
    table: Option<PrefixTable>,
}

impl Model for Query {
    ghost use Rattle.std.specs.Coded.{codes};
    ghost use Rattle.gcl_model.specs.FormOf.{form_of};
    ghost use Rattle.gcl_model.specs.contracts.expr.Expr as e;
    ghost use Rattle.query_search.specs.inner.Queries.{QueryContent, IsQuery, query_text, query_most};

    ghost Value = { QueryContent };

    ghost coded = { Prim.hlevel (codes, e.the_row.coded) };

    ghost view = { λ q. record {
      text = query_text q.pass.history q.table;
      most = query_most q.pass.history q.table;
      expr = q.expr.value;
    } };

    ghost invariant = { λ q. IsQuery q.pass.history (form_of q.expr.value) q.table };
}

impl Query {
    /// Over the words of the version of a pass.
    pub fn over_words(pass: Pass, expr: Arc<Expr>) -> Query
        requires { IsWellFormed (form_of expr.value) }
        ensures { list_of result ≡ concordance (version_text (last_of pass.history)) (form_of expr.value) }
    {
        // any call of a pass shows that it has a version
        let _version = pass.version();
        Query {
            pass,
            expr,
            table: None,
        }
    }

    /// Over the places of the prefix terms, which are gathered here. `Err` means out of memory.
    pub fn over_places(
        alloc: Global,
        pass: Pass,
        expr: Arc<Expr>,
        terms: &PrefixTerms,
    ) -> Result<Query, AllocError>
        requires well_formed { IsWellFormed (form_of expr.value) }
        requires apart { is_apart terms.now (form_of expr.value) ≡ true }
        ensures { IfOk result (λ query. list_of query ≡ wide (version_text (last_of pass.history)) (form_of expr.value)) }
    {
        let table = PrefixTable::of(alloc, pass.version(), terms)?;
        Ok(Query {
            pass,
            expr,
            table: Some(table),
        })
    }

    /// The end of its text.
    pub fn end(&self) -> u64
        ensures next { result ≡ self.now.text.next }
        ensures in_range { result ≤ address_end }
    {
        self.pass.version().next()
    }

    /// A cursor before all its members, whose look-ups have a limit. It begins with readers if leaping may be slow. `Err` means out of
    /// memory.
    pub fn cursor(&self, alloc: Global) -> Result<Cursor, AllocError>
        ensures at { IfOk result (λ cursor. (k : ℕ) → IsAt self.now.text (form_of self.now.expr) k cursor) }
        ensures limited { IfOk result IsLimited }
        ensures left { IfOk result (λ cursor. left_of self.now.text self.now.most (form_of self.now.expr) cursor ≤ query_cost self.now) }
    {
        let leaps = leaps_of(self.pass.version(), &self.expr);
        Cursor::new(alloc, &self.expr, leaps)
    }

    /// The members of the page.
    pub fn page<S: ledger::Ledger>(
        &self,
        alloc: Global,
        cursor: &mut Cursor,
        page: Page,
        steps: &mut Steps<Tally<S>>,
    ) -> Result<IntervalList, AllocError>
        requires below { page.from < far }
        requires at { IsAt self.now.text (form_of self.now.expr) page.from cursor.old }
        ensures ok { IfOk result (λ members. members ≡ take page.most (members_from (list_of self.now) page.from)) }
        ensures full { IfOk result (λ members. length members ≡ page.most →
            IsAt self.now.text (form_of self.now.expr) (behind_page page.from members) cursor.new) }
        ensures short { IfOk result (λ members. length members < page.most →
            (k : ℕ) → IsAt self.now.text (form_of self.now.expr) k cursor.new) }
        ensures limited { IfOk result (λ members. length members ≡ page.most → IsLimited cursor.old → IsLimited cursor.new) }
        ensures err { OnErr result (cursor.new ≡ Free) }
        ensures cost { steps.new + left_of self.now.text self.now.most (form_of self.now.expr) cursor.new ≤ steps.old +
            allowed self.now.text self.now.most (form_of self.now.expr) cursor.old
            (length (take page.most (members_from (list_of self.now) page.from))) }
    {
        match &self.table {
            None => pass_page(alloc, &self.pass, cursor, &self.expr, page, steps),
            Some(table) => {
                let version = self.pass.version();
                wide_page(
                    alloc,
                    cursor,
                    version,
                    table.as_slice(),
                    &self.expr,
                    page,
                    steps,
                )
            }
        }
    }

    /// How many members start at `from` or later, if `given` came before.
    pub fn number<S: ledger::Ledger>(
        &self,
        cursor: &mut Cursor,
        from: u64,
        given: u64,
        steps: &mut Steps<Tally<S>>,
    ) -> u64
        requires below { from < far }
        requires at { IsAt self.now.text (form_of self.now.expr) from cursor.old }
        requires given { given + length (members_from (list_of self.now) from) ≡ length (list_of self.now) }
        ensures value { result ≡ length (members_from (list_of self.now) from) }
        ensures at { (k : ℕ) → IsAt self.now.text (form_of self.now.expr) k cursor.new }
        ensures cost { steps.new + left_of self.now.text self.now.most (form_of self.now.expr) cursor.new ≤ steps.old +
            allowed self.now.text self.now.most (form_of self.now.expr) cursor.old (length (list_of self.now)) }
    {
        match &self.table {
            None => pass_number(&self.pass, cursor, &self.expr, from, given, steps),
            Some(table) => {
                let version = self.pass.version();
                let prefixes = table.as_slice();
                wide_number(cursor, version, prefixes, &self.expr, from, given, steps)
            }
        }
    }

    /// The number of all members, if it is known from the lengths of lists.
    pub fn listed_count(&self) -> Option<u64>
        ensures { IfSome result (λ count. count ≡ length (list_of self.now)) }
    {
        match &self.table {
            None => pass_listed_count(&self.pass, &self.expr),
            Some(_) => None,
        }
    }
}
