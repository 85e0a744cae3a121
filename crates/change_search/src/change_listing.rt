ghost use Rattle.std.specs.Prelude.{◌≡◌, ◌<◌, [], ◌∷◌, IfOk, IfSome, IsNone, OnErr};
ghost use Rattle.gcl_model.specs.FormOf.{form_of};
ghost use Rattle.gcl_model.specs.WellFormed.{IsWellFormed};
ghost use Rattle.gcl_model.specs.Wide.{wide};
ghost use Rattle.gcl_locality.specs.Agreement.{AgreeOutside};
ghost use Rattle.live_version.specs.Contents.{version_text};
ghost use Rattle.collection.specs.Engines.{last_of};
ghost use Rattle.standing_query.specs.Changes.{changes};

use crate::counted_listing::CountedListing;
use address_space::Range;
use gcl_model::{ADDRESS_END, Expr, NoLedger, Steps};
use manifest_publish::Pass;
use query_search::may_multiply;
use standing_query::Change;
use std::alloc::{AllocError, Global};
use std::marker::{Brand, Model};
use std::sync::ledger;
use std::sync::ledger::Blank;

/// A `CountedListing` for a caller without a counter of look-ups. Contracts see the changes that are still to come.
#[derive(Drop)]
pub struct ChangeListing {
    listing: CountedListing,
}

impl Model for ChangeListing {
    ghost use Rattle.std.specs.Prelude.{List};
    ghost use Rattle.standing_query.specs.declared.change.Change.{Change};

    ghost Value = { List Change };

    ghost view = { λ l. l.listing.to_come };
}

impl ChangeListing {
    /// The changes between the versions of two passes. `Err` means out of memory.
    pub fn of(
        alloc: Global,
        before: Pass,
        after: Pass,
        expr: &Expr,
    ) -> Result<ChangeListing, AllocError>
        requires { IsWellFormed (form_of expr.now) }
        ensures { IfOk result (λ listing. listing ≡ changes (wide (version_text (last_of before.history)) (form_of expr.now))
            (wide (version_text (last_of after.history)) (form_of expr.now))) }
    {
        let listing = listing_of::<Brand>(alloc, before, after, expr, Blank::new(1))?;
        Ok(ChangeListing { listing })
    }

    /// The same for two versions whose texts differ only between two addresses, as they do before and after a file with these addresses is
    /// added, or deleted. Only members near these addresses are looked for: between them, except for `<` and `/<`, where what contains a
    /// member may reach further. If one access may take longer than that, whole lists are compared. `Err` means out of memory.
    ///
    /// If a file `x` is added at 8 to 10 after `to be or not to be`, the one change of `"be" /< ("to".."x")` is that 6 to 6 went.
    pub fn between(
        alloc: Global,
        before: Pass,
        after: Pass,
        expr: &Expr,
        from: u64,
        upto: u64,
    ) -> Result<ChangeListing, AllocError>
        requires well_formed { IsWellFormed (form_of expr.now) }
        requires agree { AgreeOutside (version_text (last_of before.history)) (version_text (last_of after.history)) from upto }
        ensures { IfOk result (λ listing. listing ≡ changes (wide (version_text (last_of before.history)) (form_of expr.now))
            (wide (version_text (last_of after.history)) (form_of expr.now))) }
    {
        if upto < from || upto >= ADDRESS_END || may_multiply(expr) {
            return ChangeListing::of(alloc, before, after, expr);
        }
        let edited = Range {
            first: from,
            last: upto,
        };
        let listing = listing_between::<Brand>(alloc, before, after, expr, edited, Blank::new(1))?;
        Ok(ChangeListing { listing })
    }

    /// The next change, or None if none is left. `Err` means out of memory, and then the same one can be asked for again.
    ///
    /// Between `to be or not to be` and no file, the first change of `"or"` is that 3 to 3 went, and then comes None.
    pub fn next(&mut self, alloc: Global) -> Result<Option<Change>, AllocError>
        ensures some { IfOk result (λ next. IfSome next (λ change. self.old ≡ change ∷ self.new)) }
        ensures none { IfOk result (λ next. IsNone next → self.old ≡ []) }
        ensures err { OnErr result (self.new ≡ self.old) }
    {
        change_of::<Brand>(&mut self.listing, alloc, Blank::new(1))
    }
}

fn listing_of<B: ledger::Ledger>(
    alloc: Global,
    before: Pass,
    after: Pass,
    expr: &Expr,
    blank: Blank,
) -> Result<CountedListing, AllocError>
    requires well_formed { IsWellFormed (form_of expr.now) }
    requires name { blank.name ≡ B.name }
    requires parts { blank.parts ≡ B.parts }
    requires some { 0 < blank.parts }
    ensures { IfOk result (λ listing. listing.to_come ≡ changes (wide (version_text (last_of before.history)) (form_of expr.now))
        (wide (version_text (last_of after.history)) (form_of expr.now))) }
{
    let mut steps = Steps::<NoLedger<B>>::open(blank);
    CountedListing::of(alloc, before, after, expr, &mut steps)
}

fn listing_between<B: ledger::Ledger>(
    alloc: Global,
    before: Pass,
    after: Pass,
    expr: &Expr,
    edited: Range,
    blank: Blank,
) -> Result<CountedListing, AllocError>
    requires well_formed { IsWellFormed (form_of expr.now) }
    requires agree { AgreeOutside (version_text (last_of before.history)) (version_text (last_of after.history)) edited.first edited.last }
    requires name { blank.name ≡ B.name }
    requires parts { blank.parts ≡ B.parts }
    requires some { 0 < blank.parts }
    ensures { IfOk result (λ listing. listing.to_come ≡ changes (wide (version_text (last_of before.history)) (form_of expr.now))
        (wide (version_text (last_of after.history)) (form_of expr.now))) }
{
    let mut steps = Steps::<NoLedger<B>>::open(blank);
    CountedListing::between(alloc, before, after, expr, edited, &mut steps)
}

fn change_of<B: ledger::Ledger>(
    listing: &mut CountedListing,
    alloc: Global,
    blank: Blank,
) -> Result<Option<Change>, AllocError>
    requires name { blank.name ≡ B.name }
    requires parts { blank.parts ≡ B.parts }
    requires some { 0 < blank.parts }
    ensures some { IfOk result (λ next. IfSome next (λ change. listing.old.to_come ≡ change ∷ listing.new.to_come)) }
    ensures none { IfOk result (λ next. IsNone next → listing.old.to_come ≡ []) }
    ensures err { OnErr result (listing.new.to_come ≡ listing.old.to_come) }
{
    let mut steps = Steps::<NoLedger<B>>::open(blank);
    listing.next(alloc, &mut steps)
}
