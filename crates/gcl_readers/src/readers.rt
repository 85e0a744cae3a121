ghost use Rattle.std.specs.Prelude.{◌≡◌, ℕ, ◌+◌, ◌<◌, ◌≤◌, IfOk};
ghost use Rattle.gcl_model.specs.Limits.{far};
ghost use Rattle.gcl_model.specs.Access.{first_start};
ghost use Rattle.gcl_model.specs.Texts.{Text};
ghost use Rattle.gcl_model.specs.FormOf.{form_of};
ghost use Rattle.gcl_model.specs.WellFormed.{IsWellFormed};
ghost use Rattle.gcl_readers.specs.Fronts.{start_or_end};
ghost use Rattle.gcl_readers.specs.Standing.{Stands, left_to, start_at};
ghost use Rattle.gcl_readers.specs.MergeCost.{merge_cost, cost_left};

use crate::front::Place;
use crate::places::put_places;
use crate::reading::start;
use gcl_model::{CountedLeaves, Expr, Interval, Leaves, Ledger, LentLeaves, Steps};
use std::alloc::{AllocError, Global};
use std::marker::Model;

/// The readers of an expression: one for each node, each with a place in the list of its node. Contracts see their places.
#[derive(Drop)]
pub struct Readers {
    places: Vec<Place>,
}

impl Model for Readers {
    ghost use Rattle.std.specs.Prelude.{List};
    ghost use Rattle.gcl_readers.specs.declared.front.Place.{Place};

    ghost Value = { List Place };

    ghost view = { λ r. r.places.items };
}

impl Readers {
    /// Readers that stand before all members, over whatever text they will be asked. All memory that they take is taken here.
    pub fn new(alloc: Global, expr: &Expr) -> Result<Readers, AllocError>
        ensures stands { IfOk result (λ readers. (text : Text) → Stands text (form_of expr.now) readers) }
        ensures left { IfOk result (λ readers. start_at readers ≡ 0) }
        ensures cost { IfOk result (λ readers. (text : Text) (most : ℕ) → cost_left text most (form_of expr.now) readers ≡
            merge_cost text most (form_of expr.now)) }
    {
        let mut places = Vec::new(alloc);
        put_places(expr, &mut places)?;
        Ok(Readers { places })
    }

    /// The first member that is left and starts at or after `k`. No member at or after its start is passed.
    pub fn next<L: Leaves, S: Ledger>(
        &mut self,
        expr: &Expr,
        leaves: &L,
        k: u64,
        steps: &mut Steps<S>,
    ) -> Option<Interval>
        requires well_formed { IsWellFormed (form_of expr.now) }
        requires below { k < far }
        requires stands { Stands (L.text leaves.now) (form_of expr.now) self.old }
        ensures answer { result ≡ first_start (left_to (L.text leaves.now) (form_of expr.now) self.old) k }
        ensures left { start_at self.new ≤ start_or_end result }
        ensures stands { Stands (L.text leaves.now) (form_of expr.now) self.new }
        ensures counted { steps.old ≤ steps.new }
        ensures cost { steps.new + cost_left (L.text leaves.now) (L.most leaves.now) (form_of expr.now) self.new ≤ steps.old +
            cost_left (L.text leaves.now) (L.most leaves.now) (form_of expr.now) self.old }
    {
        // the contract of `span` gives that the words rise
        let source = LentLeaves::<L, S>::new(leaves);
        let _span = source.span();
        start(expr, self.places.as_mut_slice(), &source, k, steps)
    }
}
