ghost use Rattle.std.specs.Prelude.{◌≡◌, ◌+◌, ◌<◌, ◌≤◌, length, IfOk};
ghost use Rattle.gcl_model.specs.FormOf.{form_of};
ghost use Rattle.gcl_model.specs.Limits.{far};
ghost use Rattle.gcl_model.specs.Meaning.{concordance};
ghost use Rattle.gcl_model.specs.WellFormed.{IsWellFormed};
ghost use Rattle.live_version.specs.Contents.{version_text};
ghost use Rattle.reader_pass.specs.Members.{first_members_from, look_ups, access_most};

use gcl_model::{Expr, IntervalList, Ledger, Steps};
use live_version::Version;
use std::alloc::{AllocError, Global};
use term_fingers::{Fingers, Naming};

/// The first `most` of the members that start at or after `k` of the expression's list over a version, by fingers.
pub(crate) fn list_from<J: Naming, S: Ledger>(
    alloc: Global,
    expr: &Expr,
    version: &Version,
    k: u64,
    most: u64,
    steps: &mut Steps<S>,
) -> Result<IntervalList, AllocError>
    requires named { version.now ≡ J.version }
    requires well_formed { IsWellFormed (form_of expr.now) }
    requires below { k < far }
    ensures ok { IfOk result (λ members. members ≡ first_members_from (version_text version.now) (form_of expr.now) k most) }
    ensures cost { steps.new ≤ steps.old +
        look_ups (version_text version.now) (access_most version.now) (form_of expr.now)
        (length (first_members_from (version_text version.now) (form_of expr.now) k most)) }
{
    let fingers = Fingers::<J>::of(version, expr);
    gcl_eval::list_from(alloc, expr, &fingers, k, most, steps)
}

/// How many members there are. It takes no memory.
pub(crate) fn count<J: Naming, S: Ledger>(
    expr: &Expr,
    version: &Version,
    steps: &mut Steps<S>,
) -> u64
    requires named { version.now ≡ J.version }
    requires well_formed { IsWellFormed (form_of expr.now) }
    ensures value { result ≡ length (concordance (version_text version.now) (form_of expr.now)) }
    ensures cost { steps.new ≤ steps.old + look_ups (version_text version.now) (access_most version.now) (form_of expr.now) result }
{
    let fingers = Fingers::<J>::of(version, expr);
    gcl_eval::count(expr, &fingers, steps)
}
