ghost use Rattle.std.specs.Prelude.{◌≡◌, ◌+◌, ◌*◌, ◌<◌, ◌≤◌, ◌∷◌, filter, length, Some};
ghost use Rattle.gcl_locality.specs.Changed.{touches};
ghost use Rattle.gcl_model.specs.FormOf.{form_of};
ghost use Rattle.gcl_model.specs.Limits.{far};
ghost use Rattle.gcl_model.specs.Texts.{IsText};
ghost use Rattle.gcl_model.specs.WellFormed.{IsWellFormed};
ghost use Rattle.live_version.specs.Contents.{version_text};
ghost use Rattle.standing_query.specs.Changes.{members, list_cost};
ghost use Rattle.standing_query.specs.inner.Sides.{IsAsked, IsHead, access_cost, asks_left, first_of, left_of};

use crate::head::Head;
use gcl_eval::{first_end, first_start};
use gcl_model::{Expr, Interval, Leaves, Ledger, Steps};
use live_version::Version;
use std::marker::Model;

/// The members of an expression over a version, one after the other. No list is made: the first one that is left is asked for once.
/// Contracts see those that are left, and how many look-ups may be made for them.
#[derive(Drop)]
pub struct Side<'a> {
    expr: &'a Expr,
    version: &'a Version,
    // no member that starts after it is of interest
    high: u64,
    head: Head,
}

impl<'a> Model for Side<'a> {
    ghost use Rattle.gcl_model.specs.FormOf.{form_of};
    ghost use Rattle.standing_query.specs.inner.Sides.{SideContent, IsSide, side_of};

    ghost Value = { SideContent };

    ghost view = { λ s. side_of s.version.now (form_of s.expr.now) s.high s.head };

    ghost invariant = { λ s. IsSide s.version.now (form_of s.expr.now) s.high s.head };
}

/// Asks for the first member that is left, if it is not known.
fn asked<S: Ledger>(
    expr: &Expr,
    version: &Version,
    high: u64,
    head: Head,
    steps: &mut Steps<S>,
) -> Head
    requires well_formed { IsWellFormed (form_of expr.now) }
    requires head { IsHead (members version.now (form_of expr.now)) high head }
    ensures head { IsHead (members version.now (form_of expr.now)) high result }
    ensures asked { IsAsked result }
    ensures left { left_of (members version.now (form_of expr.now)) high result ≡
        left_of (members version.now (form_of expr.now)) high head }
    ensures cost { steps.new +
        asks_left (members version.now (form_of expr.now)) high result * access_cost version.now (form_of expr.now) ≤ steps.old +
        asks_left (members version.now (form_of expr.now)) high head * access_cost version.now (form_of expr.now) }
{
    match head {
        Head::Ending(k) => Head::at(first_end(expr, version, k, steps), high),
        Head::Starting(k) => Head::at(first_start(expr, version, k, steps), high),
        known => known,
    }
}

impl<'a> Side<'a> {
    /// All members that end at or after `low` and start at or before `high`.
    pub fn new(expr: &'a Expr, version: &'a Version, low: u64, high: u64) -> Side<'a>
        requires well_formed { IsWellFormed (form_of expr.now) }
        requires below { low < far }
        ensures left { result.left ≡ filter (touches low high) (members version.now (form_of expr.now)) }
        ensures look_ups { result.look_ups ≡ list_cost version.now (form_of expr.now) (length result.left) }
        ensures sound { IsText (version_text version.now) }
    {
        // the span shows that the words rise
        let _span = version.span();
        Side {
            expr,
            version,
            high,
            head: Head::Ending(low),
        }
    }

    /// The first member that is left. It is asked for once.
    pub fn first<S: Ledger>(&mut self, steps: &mut Steps<S>) -> Option<Interval>
        ensures first { result ≡ first_of self.old.left }
        ensures left { self.new.left ≡ self.old.left }
        ensures cost { steps.new + self.new.look_ups ≤ steps.old + self.old.look_ups }
    {
        self.head = asked(self.expr, self.version, self.high, self.head, steps);
        self.head.found()
    }

    /// Removes the first member.
    pub fn pass(&mut self, member: Interval)
        requires { Some member ≡ first_of self.old.left }
        ensures left { self.old.left ≡ member ∷ self.new.left }
        ensures look_ups { self.new.look_ups ≤ self.old.look_ups }
    {
        // the head shows that the member is one of the list, so it ends before the addresses do
        let _head = self.head;
        self.head = Head::Starting(member.start + 1);
    }
}
