//! Answers that are known.
//!
//! What an access found at one position, it finds at each further position that does not pass the member: the first member
//! that starts at 2 or later, (5, 6), is also the first that starts at 4 or later. So a caller that asks at positions that
//! go on keeps the last answer, and asks again once it was passed.

ghost use Rattle.std.specs.Prelude.{◌≡◌, ◌+◌, ◌<◌, ◌≤◌, IfSome, ℕ, IfOk};
ghost use Rattle.gcl_model.specs.Limits.{address_end, far};
ghost use Rattle.gcl_model.specs.FormOf.{form_of};
ghost use Rattle.gcl_model.specs.Meaning.{concordance};
ghost use Rattle.gcl_model.specs.Cost.{cost};
ghost use Rattle.gcl_model.specs.WellFormed.{IsWellFormed};
ghost use Rattle.gcl_eval.specs.Directions.{access_of};
ghost use Rattle.gcl_eval.specs.KnownAnswers.{goes_on, lies_beyond, right_before, starts_before, stays, told, was_leap, IsKnown};

use crate::access::access;
use crate::direction::Access;
use gcl_model::{CountedLeaves, Expr, Interval};

/// An answer of an access, and where it was asked.
#[derive(Clone, Copy)]
pub(crate) struct Known {
    at: u64,
    answer: Option<Interval>,
}

/// Whether the access, asked at `at` before, comes to position `k` as it goes on.
#[inline(always)]
fn goes_on(access: Access, at: u64, k: u64) -> bool
    ensures { result ≡ goes_on access at k }
{
    match access {
        Access::FirstStart | Access::FirstEnd => at <= k,
        Access::LastEnd | Access::LastStart => k <= at,
    }
}

/// Whether a member is one that the access at `k` may find.
#[inline(always)]
fn lies_beyond(access: Access, k: u64, member: Interval) -> bool
    ensures { result ≡ lies_beyond access k member }
{
    match access {
        Access::FirstStart => k <= member.start,
        Access::FirstEnd => k <= member.end,
        Access::LastEnd => member.end <= k,
        Access::LastStart => member.start <= k,
    }
}

/// Whether the access at `k` does not pass the member that it found before, if there was one.
#[inline(always)]
fn stays(access: Access, answer: Option<Interval>, k: u64) -> bool
    ensures { result ≡ stays access answer k }
{
    match answer {
        None => true,
        Some(member) => lies_beyond(access, k, member),
    }
}

/// The known answer, if it is also the answer at `k`.
#[inline(always)]
fn told(access: Access, known: Option<Known>, k: u64) -> Option<Option<Interval>>
    ensures { result ≡ told access known k }
{
    match known {
        Some(known) if goes_on(access, known.at, k) && stays(access, known.answer, k) => {
            Some(known.answer)
        }
        _ => None,
    }
}

#[inline(always)]
pub(crate) fn asked_at(at: u64, answer: &Option<Interval>) -> Known
    ensures at { result.at ≡ at }
    ensures answer { result.answer ≡ answer.now }
{
    Known {
        at,
        answer: *answer,
    }
}

/// Whether the known answer was asked for further back than the place right before `k`, as it is if an element or several
/// members were passed since.
#[inline(always)]
pub(crate) fn was_leap(known: &Option<Known>, k: u64) -> bool
    ensures { result ≡ was_leap known.now k }
{
    match known {
        Some(last) => last.at < k.saturating_sub(1),
        None => false,
    }
}

/// The known member, if it starts right before `k`.
#[inline(always)]
pub(crate) fn right_before(known: &Option<Known>, k: u64) -> Option<Interval>
    ensures { result ≡ right_before known.now k }
{
    match known {
        Some(known) if starts_before(known.answer, k) => known.answer,
        _ => None,
    }
}

/// Whether there is a member, and it starts right before `k`.
#[inline(always)]
fn starts_before(answer: Option<Interval>, k: u64) -> bool
    ensures { result ≡ starts_before answer k }
{
    match answer {
        Some(member) => member.start < k && k - member.start == 1,
        None => false,
    }
}

/// An access of an expression: the known answer if it holds, else a new one, which is kept in its place.
#[inline]
#[cycle(access)]
pub(crate) fn known_access<C: CountedLeaves>(
    expr: &Expr,
    wanted: Access,
    source: &C,
    k: u64,
    known: &mut Option<Known>,
    counter: &mut C::Counter,
) -> Result<Option<Interval>, C::Stop>
    requires well_formed { IsWellFormed (form_of expr.now) }
    requires below { k < far }
    requires known { IsKnown wanted (concordance (C.text source.now) (form_of expr.now)) known.old }
    ensures answer { IfOk result (λ found. found ≡ access_of wanted (concordance (C.text source.now) (form_of expr.now)) k) }
    ensures within { IfOk result (λ found. IfSome found (λ a. a.end < address_end)) }
    ensures known { IfOk result (λ _. IsKnown wanted (concordance (C.text source.now) (form_of expr.now)) known.new) }
    ensures counted { C.count counter.old ≤ C.count counter.new }
    ensures cost { IfOk result (λ _. C.count counter.new ≤
        C.count counter.old + cost (C.text source.now) (C.most source.now) (form_of expr.now)) }
    ensures capped { (cap : ℕ) → C.Caps source.now cap → C.count counter.old ≤ cap → C.count counter.new ≤ cap }
{
    let last = *known;
    match told(wanted, last, k) {
        Some(answer) => Ok(answer),
        None => {
            let answer = access(expr, wanted, source, k, counter)?;
            *known = Some(asked_at(k, &answer));
            Ok(answer)
        }
    }
}
