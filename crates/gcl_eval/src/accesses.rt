ghost use Rattle.std.specs.Prelude.{◌≡◌, ◌+◌, ◌<◌, ◌≤◌};
ghost use Rattle.gcl_model.specs.Limits.{far};
ghost use Rattle.gcl_model.specs.FormOf.{form_of};
ghost use Rattle.gcl_model.specs.Meaning.{concordance};
ghost use Rattle.gcl_model.specs.Access.{first_start, first_end, last_end, last_start};
ghost use Rattle.gcl_model.specs.Cost.{cost};
ghost use Rattle.gcl_model.specs.WellFormed.{IsWellFormed};
ghost use Rattle.gcl_eval.specs.Costs.{near_cost};

use crate::access::access;
use crate::direction::Access;
use gcl_model::{Expr, Interval, Leaves, Ledger, LentLeaves, Steps};

/// The first member that starts at or after `k`.
pub fn first_start<L: Leaves, S: Ledger>(
    expr: &Expr,
    leaves: &L,
    k: u64,
    steps: &mut Steps<S>,
) -> Option<Interval>
    requires well_formed { IsWellFormed (form_of expr.now) }
    requires below { k < far }
    ensures answer { result ≡ first_start (concordance (L.text leaves.now) (form_of expr.now)) k }
    ensures counted { steps.old ≤ steps.new }
    ensures cost { steps.new ≤ steps.old + cost (L.text leaves.now) (L.most leaves.now) (form_of expr.now) }
    ensures near_cost { steps.new ≤ steps.old + near_cost (L.text leaves.now) (L.most leaves.now) (form_of expr.now) }
{
    let source = LentLeaves::<L, S>::new(leaves);
    let Ok(found) = access(expr, Access::FirstStart, &source, k, steps);
    found
}

/// The first member that ends at or after `k`.
pub fn first_end<L: Leaves, S: Ledger>(
    expr: &Expr,
    leaves: &L,
    k: u64,
    steps: &mut Steps<S>,
) -> Option<Interval>
    requires well_formed { IsWellFormed (form_of expr.now) }
    requires below { k < far }
    ensures answer { result ≡ first_end (concordance (L.text leaves.now) (form_of expr.now)) k }
    ensures counted { steps.old ≤ steps.new }
    ensures cost { steps.new ≤ steps.old + cost (L.text leaves.now) (L.most leaves.now) (form_of expr.now) }
{
    let source = LentLeaves::<L, S>::new(leaves);
    let Ok(found) = access(expr, Access::FirstEnd, &source, k, steps);
    found
}

/// The last member that ends at or before `k`.
pub fn last_end<L: Leaves, S: Ledger>(
    expr: &Expr,
    leaves: &L,
    k: u64,
    steps: &mut Steps<S>,
) -> Option<Interval>
    requires well_formed { IsWellFormed (form_of expr.now) }
    requires below { k < far }
    ensures answer { result ≡ last_end (concordance (L.text leaves.now) (form_of expr.now)) k }
    ensures counted { steps.old ≤ steps.new }
    ensures cost { steps.new ≤ steps.old + cost (L.text leaves.now) (L.most leaves.now) (form_of expr.now) }
    ensures near_cost { steps.new ≤ steps.old + near_cost (L.text leaves.now) (L.most leaves.now) (form_of expr.now) }
{
    let source = LentLeaves::<L, S>::new(leaves);
    let Ok(found) = access(expr, Access::LastEnd, &source, k, steps);
    found
}

/// The last member that starts at or before `k`.
pub fn last_start<L: Leaves, S: Ledger>(
    expr: &Expr,
    leaves: &L,
    k: u64,
    steps: &mut Steps<S>,
) -> Option<Interval>
    requires well_formed { IsWellFormed (form_of expr.now) }
    requires below { k < far }
    ensures answer { result ≡ last_start (concordance (L.text leaves.now) (form_of expr.now)) k }
    ensures counted { steps.old ≤ steps.new }
    ensures cost { steps.new ≤ steps.old + cost (L.text leaves.now) (L.most leaves.now) (form_of expr.now) }
{
    let source = LentLeaves::<L, S>::new(leaves);
    let Ok(found) = access(expr, Access::LastStart, &source, k, steps);
    found
}
