//! From member to member of an expression.
//!
//! Of "one of", the last answer of each operand is kept, and of a containment that of the second operand: it is asked
//! again only if its member was passed. Of 64 words one is looked up at each member, and the other 63 are known. So is
//! all but the last word of the next row of "ha ha ha".

ghost use Rattle.std.specs.Prelude.{◌≡◌, ◌+◌, ◌<◌, ◌≤◌, length, IfSome, set, get_or, None, ℕ, IfOk};
ghost use Rattle.gcl_model.specs.Limits.{address_end, far};
ghost use Rattle.gcl_model.specs.Forms.{one, phrase};
ghost use Rattle.gcl_model.specs.FormOf.{form_of};
ghost use Rattle.gcl_model.specs.Meaning.{concordance};
ghost use Rattle.gcl_model.specs.Access.{first_start};
ghost use Rattle.gcl_model.specs.Cost.{cost};
ghost use Rattle.gcl_model.specs.WellFormed.{IsWellFormed};
ghost use Rattle.gcl_eval.specs.Containments.{IsContainment};
ghost use Rattle.gcl_eval.specs.Costs.{near_cost};
ghost use Rattle.gcl_eval.specs.Operands.{operand_forms, operand_lists, operand_costs, AreOperands};
ghost use Rattle.gcl_eval.specs.KnownAnswers.{AreKnown, KnowsOperands, KnowsRun};

use crate::access::access;
use crate::containments::containment_access;
use crate::direction::{Access, better};
use crate::known::{Known, asked_at, known_access, right_before};
use gcl_model::{CountedLeaves, Direction, Expr, Interval, TokenList};
use phrase_walk::{counted_first_start, counted_next_row, has_one_word};

/// How many operands have a place for their last answer. A count takes no memory, so these places are in an array.
pub(crate) const MOST_KNOWN: usize = 64;

/// The first member that starts at or after `k`, and what is known of the operands after it.
#[inline]
pub(crate) fn next_member<C: CountedLeaves>(
    expr: &Expr,
    source: &C,
    k: u64,
    known: &mut [Option<Known>; MOST_KNOWN],
    counter: &mut C::Counter,
) -> Result<Option<Interval>, C::Stop>
    requires well_formed { IsWellFormed (form_of expr.now) }
    requires below { k < far }
    requires known { KnowsOperands (C.text source.now) (form_of expr.now) known.old }
    ensures answer { IfOk result (λ found. found ≡ first_start (concordance (C.text source.now) (form_of expr.now)) k) }
    ensures within { IfOk result (λ found. IfSome found (λ a. a.end < address_end)) }
    ensures known { IfOk result (λ _. KnowsOperands (C.text source.now) (form_of expr.now) known.new) }
    ensures counted { C.count counter.old ≤ C.count counter.new }
    ensures cost { IfOk result (λ _. C.count counter.new ≤
        C.count counter.old + near_cost (C.text source.now) (C.most source.now) (form_of expr.now)) }
    ensures capped { (cap : ℕ) → C.Caps source.now cap → C.count counter.old ≤ cap → C.count counter.new ≤ cap }
{
    match expr {
        Expr::One(operands) => first_of_one(operands, source, k, known, counter),
        Expr::Phrase(tokens) => first_of_phrase(tokens, source, k, known, counter),
        Expr::Containing(_, _)
        | Expr::ContainedIn(_, _)
        | Expr::NotContaining(_, _)
        | Expr::NotContainedIn(_, _) => first_of_containment(expr, source, k, known, counter),
        _ => access(expr, Access::FirstStart, source, k, counter),
    }
}

/// "One of": the best of the operands' answers. Known answers are not asked for again.
fn first_of_one<C: CountedLeaves>(
    operands: &[Expr],
    source: &C,
    k: u64,
    known: &mut [Option<Known>; MOST_KNOWN],
    counter: &mut C::Counter,
) -> Result<Option<Interval>, C::Stop>
    requires operands { AreOperands (operand_forms operands.now) }
    requires below { k < far }
    requires known { AreKnown (operand_lists (C.text source.now) operands.now) known.old }
    ensures answer { IfOk result (λ found. found ≡ first_start (concordance (C.text source.now) (one (operand_forms operands.now))) k) }
    ensures within { IfOk result (λ found. IfSome found (λ a. a.end < address_end)) }
    ensures known { IfOk result (λ _. AreKnown (operand_lists (C.text source.now) operands.now) known.new) }
    ensures counted { C.count counter.old ≤ C.count counter.new }
    ensures cost { IfOk result (λ _. C.count counter.new ≤
        C.count counter.old + operand_costs (C.text source.now) (C.most source.now) operands.now) }
    ensures capped { (cap : ℕ) → C.Caps source.now cap → C.count counter.old ≤ cap → C.count counter.new ≤ cap }
{
    let mut best = None;
    for (number, operand) in operands.iter().enumerate() {
        let mut last = known_of(known, number);
        let answer = known_access(operand, Access::FirstStart, source, k, &mut last, counter)?;
        keep(known, number, last);
        best = better(Direction::Forward, best, answer);
    }
    Ok(best)
}

/// A containment: what is known of its second operand has the first place.
#[inline]
fn first_of_containment<C: CountedLeaves>(
    expr: &Expr,
    source: &C,
    k: u64,
    known: &mut [Option<Known>; MOST_KNOWN],
    counter: &mut C::Counter,
) -> Result<Option<Interval>, C::Stop>
    requires containment { IsContainment (form_of expr.now) }
    requires well_formed { IsWellFormed (form_of expr.now) }
    requires below { k < far }
    requires known { KnowsOperands (C.text source.now) (form_of expr.now) known.old }
    ensures answer { IfOk result (λ found. found ≡ first_start (concordance (C.text source.now) (form_of expr.now)) k) }
    ensures within { IfOk result (λ found. IfSome found (λ a. a.end < address_end)) }
    ensures known { IfOk result (λ _. KnowsOperands (C.text source.now) (form_of expr.now) known.new) }
    ensures counted { C.count counter.old ≤ C.count counter.new }
    ensures cost { IfOk result (λ _. C.count counter.new ≤
        C.count counter.old + cost (C.text source.now) (C.most source.now) (form_of expr.now)) }
    ensures capped { (cap : ℕ) → C.Caps source.now cap → C.count counter.old ≤ cap → C.count counter.new ≤ cap }
{
    let mut last = known_of(known, 0);
    let answer = containment_access(expr, Access::FirstStart, source, k, &mut last, counter)?;
    keep(known, 0, last);
    Ok(answer)
}

/// A phrase: if it repeats one word, the last row has the first place, and only the address right after that row is looked at.
fn first_of_phrase<C: CountedLeaves>(
    tokens: &TokenList,
    source: &C,
    k: u64,
    known: &mut [Option<Known>; MOST_KNOWN],
    counter: &mut C::Counter,
) -> Result<Option<Interval>, C::Stop>
    requires several { 2 ≤ length tokens.now }
    requires below { k < far }
    requires known { KnowsRun (C.text source.now) tokens.now (get_or known.old 0 None) }
    ensures answer { IfOk result (λ found. found ≡ first_start (concordance (C.text source.now) (phrase tokens.now)) k) }
    ensures within { IfOk result (λ found. IfSome found (λ a. a.end < address_end)) }
    ensures known { IfOk result (λ _. KnowsRun (C.text source.now) tokens.now (get_or known.new 0 None)) }
    ensures counted { C.count counter.old ≤ C.count counter.new }
    ensures cost { IfOk result (λ _. C.count counter.new ≤
        C.count counter.old + cost (C.text source.now) (C.most source.now) (phrase tokens.now)) }
    ensures capped { (cap : ℕ) → C.Caps source.now cap → C.count counter.old ≤ cap → C.count counter.new ≤ cap }
{
    // the contract of `span` gives that the words rise
    let _span = source.span();
    let last = known_of(known, 0);
    let answer = row_from(tokens, source, k, &last, counter)?;
    if last.is_some() || has_one_word(tokens) {
        keep(known, 0, Some(asked_at(k, &answer)));
    }
    Ok(answer)
}

/// The first row at or after `k`, by the row right before it if that is known.
#[inline]
fn row_from<C: CountedLeaves>(
    tokens: &TokenList,
    source: &C,
    k: u64,
    last: &Option<Known>,
    counter: &mut C::Counter,
) -> Result<Option<Interval>, C::Stop>
    requires several { 2 ≤ length tokens.now }
    requires below { k < far }
    requires last { KnowsRun (C.text source.now) tokens.now last.now }
    ensures answer { IfOk result (λ found. found ≡ first_start (concordance (C.text source.now) (phrase tokens.now)) k) }
    ensures counted { C.count counter.old ≤ C.count counter.new }
    ensures cost { IfOk result (λ _. C.count counter.new ≤
        C.count counter.old + cost (C.text source.now) (C.most source.now) (phrase tokens.now)) }
    ensures capped { (cap : ℕ) → C.Caps source.now cap → C.count counter.old ≤ cap → C.count counter.new ≤ cap }
{
    match right_before(last, k) {
        Some(row) => counted_next_row(tokens, source, row, counter),
        None => counted_first_start(tokens, source, k, counter),
    }
}

/// What is known of the operand with this number.
#[inline(always)]
fn known_of(known: &[Option<Known>; MOST_KNOWN], number: usize) -> Option<Known>
    ensures { result ≡ get_or known.now number None }
{
    if number < MOST_KNOWN {
        known[number]
    } else {
        None
    }
}

/// Keeps what is known of the operand with this number, if it has a place.
#[inline(always)]
fn keep(known: &mut [Option<Known>; MOST_KNOWN], number: usize, last: Option<Known>)
    ensures { known.new ≡ set known.old number last }
{
    if number < MOST_KNOWN {
        known[number] = last;
    }
}
