ghost use Rattle.std.specs.Prelude.{◌≡◌, ◌+◌, ◌<◌, ◌≤◌, [], ◌∷◌, filter, length, IfSome, IsNone};
ghost use Rattle.gcl_locality.specs.Agreement.{AgreeOutside};
ghost use Rattle.gcl_locality.specs.Changed.{touches};
ghost use Rattle.gcl_locality.specs.Laws.{DifferBetween};
ghost use Rattle.gcl_model.specs.FormOf.{form_of};
ghost use Rattle.gcl_model.specs.Limits.{far};
ghost use Rattle.gcl_model.specs.WellFormed.{IsWellFormed};
ghost use Rattle.gcl_model.specs.Wide.{wide};
ghost use Rattle.live_version.specs.Contents.{version_text};
ghost use Rattle.standing_query.specs.Changes.{changes, list_cost, members};
ghost use Rattle.standing_query.specs.Edits.{edit_cost};
ghost use Rattle.wide_terms.specs.Expansion.{expansion};

use crate::addresses::changed_addresses;
use crate::change::Change;
use crate::merge::next_change;
use crate::side::Side;
use address_space::Range;
use gcl_locality::changes_are_local;
use gcl_model::{ADDRESS_END, Expr, Ledger, Steps};
use live_version::Version;
use std::marker::Model;
use wide_terms::{expansions_are_well_formed, expansions_are_wide};

/// What changed from the list of an expression over one version to that of an expression over another, one change after the other. No list
/// is kept, and nothing is allocated. Contracts see the changes that are to come, and how many look-ups may be made for them in all.
#[derive(Drop)]
pub struct Changes<'a> {
    before: Side<'a>,
    after: Side<'a>,
}

impl<'a> Model for Changes<'a> {
    ghost use Rattle.std.specs.Prelude.{◌+◌};
    ghost use Rattle.gcl_model.specs.Extents.{IsRising};
    ghost use Rattle.standing_query.specs.Changes.{ChangesContent, changes, changes_content};

    ghost Value = { ChangesContent };

    ghost view = { λ c. changes_content (changes c.before.left c.after.left) (c.before.look_ups + c.after.look_ups) };

    ghost invariant = { λ c. IsRising c.before.left × IsRising c.after.left };
}

impl<'a> Changes<'a> {
    /// All changes. The expressions are those of one query, expanded over each version.
    ///
    /// Between `to be or not to be` and no file, the changes of `"to"` are that 1 to 1 and 5 to 5 went.
    pub fn new(
        old_expr: &'a Expr,
        old: &'a Version,
        new_expr: &'a Expr,
        new: &'a Version,
    ) -> Changes<'a>
        requires old_formed { IsWellFormed (form_of old_expr.now) }
        requires new_formed { IsWellFormed (form_of new_expr.now) }
        ensures to_come { result.to_come ≡ changes (members old.now (form_of old_expr.now)) (members new.now (form_of new_expr.now)) }
        ensures look_ups { result.look_ups ≡ list_cost old.now (form_of old_expr.now) (length (members old.now (form_of old_expr.now))) +
            list_cost new.now (form_of new_expr.now) (length (members new.now (form_of new_expr.now))) }
    {
        Changes {
            before: Side::new(old_expr, old, 0, ADDRESS_END),
            after: Side::new(new_expr, new, 0, ADDRESS_END),
        }
    }

    /// All changes, if it is known that the lists differ only between two addresses: no other members are looked at.
    pub fn between(
        old_expr: &'a Expr,
        old: &'a Version,
        new_expr: &'a Expr,
        new: &'a Version,
        low: u64,
        high: u64,
    ) -> Changes<'a>
        requires old_formed { IsWellFormed (form_of old_expr.now) }
        requires new_formed { IsWellFormed (form_of new_expr.now) }
        requires below { low < far }
        requires local { DifferBetween (members old.now (form_of old_expr.now)) (members new.now (form_of new_expr.now)) low high }
        ensures to_come { result.to_come ≡ changes (members old.now (form_of old_expr.now)) (members new.now (form_of new_expr.now)) }
        ensures look_ups { result.look_ups ≡
            list_cost old.now (form_of old_expr.now) (length (filter (touches low high) (members old.now (form_of old_expr.now)))) +
            list_cost new.now (form_of new_expr.now) (length (filter (touches low high) (members new.now (form_of new_expr.now)))) }
    {
        Changes {
            before: Side::new(old_expr, old, low, high),
            after: Side::new(new_expr, new, low, high),
        }
    }

    /// All changes that an edit makes, if the two versions are the same at all addresses except those of the edit: the file that was
    /// added, or the one that was deleted. The other two expressions are the expansions of `expr` over the versions. Only the
    /// members that an edit there can change are looked at.
    pub fn after_edit<S: Ledger>(
        expr: &Expr,
        old_expr: &'a Expr,
        old: &'a Version,
        new_expr: &'a Expr,
        new: &'a Version,
        edited: Range,
        steps: &mut Steps<S>,
    ) -> Changes<'a>
        requires well_formed { IsWellFormed (form_of expr.now) }
        requires old_is { form_of old_expr.now ≡ expansion (version_text old.now) (form_of expr.now) }
        requires new_is { form_of new_expr.now ≡ expansion (version_text new.now) (form_of expr.now) }
        requires local { AgreeOutside (version_text old.now) (version_text new.now) edited.first edited.last }
        ensures to_come { result.to_come ≡
            changes (wide (version_text old.now) (form_of expr.now)) (wide (version_text new.now) (form_of expr.now)) }
        ensures cost { steps.new + result.look_ups ≤ steps.old + edit_cost old.now new.now edited (form_of expr.now) }
    {
        expansions_are_wide();
        expansions_are_well_formed();
        changes_are_local();
        let addresses = changed_addresses(expr, old_expr, old, new_expr, new, edited, steps);
        Changes::between(old_expr, old, new_expr, new, addresses.low, addresses.high)
    }

    /// Removes and returns the first change that is to come, or returns None if no change is left.
    pub fn next<S: Ledger>(&mut self, steps: &mut Steps<S>) -> Option<Change>
        ensures some { IfSome result (λ change. self.old.to_come ≡ change ∷ self.new.to_come) }
        ensures none { IsNone result → self.old.to_come ≡ [] }
        ensures empty { IsNone result → self.new.to_come ≡ [] }
        ensures cost { steps.new + self.new.look_ups ≤ steps.old + self.old.look_ups }
    {
        next_change(&mut self.before, &mut self.after, steps)
    }
}
