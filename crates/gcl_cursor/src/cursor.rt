ghost use Rattle.std.specs.Prelude.{◌≡◌, ℕ, ◌+◌, ◌*◌, ◌<◌, ◌≤◌, length, take, IfOk, OnErr};
ghost use Rattle.gcl_model.specs.Limits.{far};
ghost use Rattle.gcl_model.specs.Texts.{Text};
ghost use Rattle.gcl_model.specs.FormOf.{form_of};
ghost use Rattle.gcl_model.specs.Meaning.{concordance};
ghost use Rattle.gcl_model.specs.WellFormed.{IsWellFormed};
ghost use Rattle.gcl_eval.specs.Members.{members_from};
ghost use Rattle.gcl_readers.specs.MergeCost.{cost_left, merge_cost};
ghost use Rattle.gcl_readers.specs.Reading.{behind_page};
ghost use Rattle.gcl_readers.specs.Standing.{Stands, start_at};
ghost use Rattle.gcl_cursor.specs.declared.cursor.Cursor.TheVariants.{Free};
ghost use Rattle.gcl_cursor.specs.Cursors.{IsAt, IsLimited, after_leaps, allowed, left_of};

use crate::leaps::{leap, leap_count};
use gcl_eval::Page;
use gcl_model::{Expr, IntervalList, Leaves, Steps, Tally};
use gcl_readers::{Readers, read_count, read_list_from};
use std::alloc::{AllocError, Global};
use std::mem;
use std::sync::ledger::Ledger;

/// How the next members of an expression are found.
#[derive(Drop)]
pub enum Cursor {
    /// By leaping, while this many look-ups are left. Readers that have passed no member are waiting.
    Leaping(u64, Readers),
    /// By readers.
    Reading(Readers),
    /// By leaping without a limit: there was no memory, or readers have passed members that may be asked for again.
    Free,
}

impl Cursor {
    /// A cursor before all members of the expression, over whatever text it will be asked, that makes `leaps` look-ups by leaping. All
    /// memory that it takes besides the pages is taken here. `Err` means out of memory: then `Free` finds the same members, but without a
    /// limit.
    pub fn new(alloc: Global, expr: &Expr, leaps: u64) -> Result<Cursor, AllocError>
        ensures at { IfOk result (λ cursor. (text : Text) (k : ℕ) → IsAt text (form_of expr.now) k cursor) }
        ensures limited { IfOk result IsLimited }
        ensures left { IfOk result (λ cursor. (text : Text) (most : ℕ) →
            left_of text most (form_of expr.now) cursor ≤ leaps + 3 * most + merge_cost text most (form_of expr.now)) }
    {
        let readers = Readers::new(alloc, expr)?;
        Ok(after_leaps(leaps, readers))
    }

    /// The members of the page, none of which was passed. If the page is full, the next one begins after the start of its last member; if
    /// not, any page can be next. `Err` means out of memory: then the page can be asked for again, and leaping has no limit.
    pub fn page<L: Leaves, B: Ledger>(
        &mut self,
        alloc: Global,
        expr: &Expr,
        leaves: &L,
        page: Page,
        steps: &mut Steps<Tally<B>>,
    ) -> Result<IntervalList, AllocError>
        requires well_formed { IsWellFormed (form_of expr.now) }
        requires below { page.from < far }
        requires at { IsAt (L.text leaves.now) (form_of expr.now) page.from self.old }
        ensures ok { IfOk result (λ members.
            members ≡ take page.most (members_from (concordance (L.text leaves.now) (form_of expr.now)) page.from)) }
        ensures full { IfOk result (λ members. length members ≡ page.most →
            IsAt (L.text leaves.now) (form_of expr.now) (behind_page page.from members) self.new) }
        ensures short { IfOk result (λ members. length members < page.most →
            (k : ℕ) → IsAt (L.text leaves.now) (form_of expr.now) k self.new) }
        ensures limited { IfOk result (λ members. length members ≡ page.most → IsLimited self.old → IsLimited self.new) }
        ensures err { OnErr result (self.new ≡ Free) }
        ensures cost { steps.new + left_of (L.text leaves.now) (L.most leaves.now) (form_of expr.now) self.new ≤ steps.old +
            allowed (L.text leaves.now) (L.most leaves.now) (form_of expr.now) self.old
            (length (take page.most (members_from (concordance (L.text leaves.now) (form_of expr.now)) page.from))) }
    {
        match mem::replace(self, Cursor::Free) {
            Cursor::Free => {
                gcl_eval::list_from(alloc, expr, leaves, page.from, page.most, steps)
            }
            Cursor::Reading(readers) => self.read(alloc, expr, leaves, page, readers, steps),
            Cursor::Leaping(leaps, readers) => {
                let mut left = leaps;
                let Some(members) = leap(alloc, expr, leaves, page, &mut left, steps)? else {
                    return self.read(alloc, expr, leaves, page, readers, steps);
                };
                *self = after_leaps(left, readers);
                Ok(members)
            }
        }
    }

    /// The same by these readers, which go on after a full page.
    fn read<L: Leaves, B: Ledger>(
        &mut self,
        alloc: Global,
        expr: &Expr,
        leaves: &L,
        page: Page,
        mut readers: Readers,
        steps: &mut Steps<Tally<B>>,
    ) -> Result<IntervalList, AllocError>
        requires well_formed { IsWellFormed (form_of expr.now) }
        requires below { page.from < far }
        requires stands { Stands (L.text leaves.now) (form_of expr.now) readers }
        requires behind { start_at readers ≤ page.from }
        requires free { self.old ≡ Free }
        ensures ok { IfOk result (λ members.
            members ≡ take page.most (members_from (concordance (L.text leaves.now) (form_of expr.now)) page.from)) }
        ensures full { IfOk result (λ members. length members ≡ page.most →
            IsAt (L.text leaves.now) (form_of expr.now) (behind_page page.from members) self.new) }
        ensures short { IfOk result (λ members. length members < page.most → self.new ≡ Free) }
        ensures limited { IfOk result (λ members. length members ≡ page.most → IsLimited self.new) }
        ensures err { OnErr result (self.new ≡ Free) }
        ensures cost { steps.new + left_of (L.text leaves.now) (L.most leaves.now) (form_of expr.now) self.new ≤
            steps.old + cost_left (L.text leaves.now) (L.most leaves.now) (form_of expr.now) readers }
    {
        let from = page.from;
        let members = read_list_from(alloc, &mut readers, expr, leaves, from, page.most, steps)?;
        if members.len() as u64 == page.most {
            *self = Cursor::Reading(readers);
        }
        Ok(members)
    }

    /// How many members start at or after `from`, if `given` members come before. It takes no memory. Readers go to the end for it, and
    /// pages after that are found by leaping without a limit.
    pub fn count<L: Leaves, B: Ledger>(
        &mut self,
        expr: &Expr,
        leaves: &L,
        from: u64,
        given: u64,
        steps: &mut Steps<Tally<B>>,
    ) -> u64
        requires well_formed { IsWellFormed (form_of expr.now) }
        requires below { from < far }
        requires at { IsAt (L.text leaves.now) (form_of expr.now) from self.old }
        requires given { given + length (members_from (concordance (L.text leaves.now) (form_of expr.now)) from) ≡
            length (concordance (L.text leaves.now) (form_of expr.now)) }
        ensures value { result ≡ length (members_from (concordance (L.text leaves.now) (form_of expr.now)) from) }
        ensures at { (k : ℕ) → IsAt (L.text leaves.now) (form_of expr.now) k self.new }
        ensures cost { steps.new + left_of (L.text leaves.now) (L.most leaves.now) (form_of expr.now) self.new ≤ steps.old +
            allowed (L.text leaves.now) (L.most leaves.now) (form_of expr.now) self.old
            (length (concordance (L.text leaves.now) (form_of expr.now))) }
    {
        match mem::replace(self, Cursor::Free) {
            Cursor::Free => gcl_eval::count(expr, leaves, steps) - given,
            Cursor::Reading(mut readers) => read_count(&mut readers, expr, leaves, from, steps),
            Cursor::Leaping(leaps, mut readers) => {
                let mut left = leaps;
                let Some(all) = leap_count(expr, leaves, &mut left, steps) else {
                    return read_count(&mut readers, expr, leaves, from, steps);
                };
                *self = after_leaps(left, readers);
                all - given
            }
        }
    }
}

/// Leaping goes on while look-ups are left, and after that reading.
fn after_leaps(left: u64, readers: Readers) -> Cursor
    ensures { result ≡ after_leaps left readers }
{
    if left == 0 {
        return Cursor::Reading(readers);
    }
    Cursor::Leaping(left, readers)
}
