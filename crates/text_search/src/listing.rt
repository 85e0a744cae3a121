ghost use Rattle.std.specs.Prelude.{◌≡◌, ◌+◌, ◌*◌, ◌<◌, ◌≤◌, ℕ, List, length, take, IfOk};
ghost use Rattle.gcl_eval.specs.Members.{members_from};
ghost use Rattle.gcl_model.specs.Cost.{cost};
ghost use Rattle.gcl_model.specs.FormOf.{form_of};
ghost use Rattle.gcl_model.specs.Limits.{far};
ghost use Rattle.gcl_model.specs.Meaning.{concordance};
ghost use Rattle.gcl_model.specs.WellFormed.{IsWellFormed};
ghost use Rattle.text_search.specs.FileTexts.{file_text};
ghost use Rattle.text_search.specs.Names.{query_text};

use crate::text::QueryText;
use gcl_eval::{count, list_from};
use gcl_model::{Expr, IntervalList, Ledger, Question, Steps, uncounted};
use std::alloc::{AllocError, Global};

/// A page of the list of an expression over the file whose named tokens are in `text`: the first `most` members that start at or after `k`,
/// or all of them if there are fewer. Each look-up is counted on the caller's counter.
pub fn answers_on<S: Ledger>(
    alloc: Global,
    text: &QueryText<'_>,
    expr: &Expr,
    k: u64,
    most: u64,
    steps: &mut Steps<S>,
) -> Result<IntervalList, AllocError>
    requires well_formed { IsWellFormed (form_of expr.now) }
    requires below { k < far }
    ensures ok { (bytes : List ℕ) → text.now ≡ query_text bytes (form_of expr.now) →
        IfOk result (λ members. members ≡ take most (members_from (concordance (file_text bytes) (form_of expr.now)) k)) }
    ensures cost { (bytes : List ℕ) → text.now ≡ query_text bytes (form_of expr.now) → steps.new ≤ steps.old +
        (length (take most (members_from (concordance (file_text bytes) (form_of expr.now)) k)) + 1) *
        cost (file_text bytes) 1 (form_of expr.now) }
{
    list_from(alloc, expr, text, k, most, steps)
}

/// How many members the list has. No list is made. Each look-up is counted on the caller's counter.
pub fn count_on<S: Ledger>(text: &QueryText<'_>, expr: &Expr, steps: &mut Steps<S>) -> u64
    requires { IsWellFormed (form_of expr.now) }
    ensures value { (bytes : List ℕ) → text.now ≡ query_text bytes (form_of expr.now) →
        result ≡ length (concordance (file_text bytes) (form_of expr.now)) }
    ensures cost { (bytes : List ℕ) → text.now ≡ query_text bytes (form_of expr.now) →
        steps.new ≤ steps.old + (result + 1) * cost (file_text bytes) 1 (form_of expr.now) }
{
    count(expr, text, steps)
}

/// What are the members of a page?
#[derive(Clone, Copy)]
struct PageOf<'a, 'b> {
    alloc: Global,
    text: &'a QueryText<'b>,
    expr: &'a Expr,
    from: u64,
    most: u64,
}

impl Question for PageOf<'_, '_> {
    ghost use Rattle.std.specs.Prelude.{◌≡◌, ◌+◌, ◌*◌, ◌<◌, length, take, IfOk};
    ghost use Rattle.gcl_eval.specs.Members.{members_from};
    ghost use Rattle.gcl_model.specs.Cost.{cost};
    ghost use Rattle.gcl_model.specs.FormOf.{form_of};
    ghost use Rattle.gcl_model.specs.Limits.{far};
    ghost use Rattle.gcl_model.specs.Meaning.{concordance};
    ghost use Rattle.gcl_model.specs.WellFormed.{IsWellFormed};

    type Answer = Result<IntervalList, AllocError>;

    ghost can_ask = { λ q. IsWellFormed (form_of q.expr.now) × (q.from < far) };

    ghost answers = { λ q answer. IfOk answer (λ members. members ≡
        take q.most (members_from (concordance q.text.now (form_of q.expr.now)) q.from)) };

    ghost most = { λ q _.
        (length (take q.most (members_from (concordance q.text.now (form_of q.expr.now)) q.from)) + 1) *
        cost q.text.now 1 (form_of q.expr.now) };

    fn ask<S: Ledger>(&self, steps: &mut Steps<S>) -> Result<IntervalList, AllocError> {
        list_from(
            self.alloc, self.expr, self.text, self.from, self.most, steps,
        )
    }
}

/// How many members are there?
#[derive(Clone, Copy)]
struct CountOf<'a, 'b> {
    text: &'a QueryText<'b>,
    expr: &'a Expr,
}

impl Question for CountOf<'_, '_> {
    ghost use Rattle.std.specs.Prelude.{◌≡◌, ◌+◌, ◌*◌, length};
    ghost use Rattle.gcl_model.specs.Cost.{cost};
    ghost use Rattle.gcl_model.specs.FormOf.{form_of};
    ghost use Rattle.gcl_model.specs.Meaning.{concordance};
    ghost use Rattle.gcl_model.specs.WellFormed.{IsWellFormed};

    type Answer = u64;

    ghost can_ask = { λ q. IsWellFormed (form_of q.expr.now) };

    ghost answers = { λ q answer. answer ≡ length (concordance q.text.now (form_of q.expr.now)) };

    ghost most = { λ q answer. (answer + 1) * cost q.text.now 1 (form_of q.expr.now) };

    fn ask<S: Ledger>(&self, steps: &mut Steps<S>) -> u64 {
        count(self.expr, self.text, steps)
    }
}

/// A page of the list of an expression over the file, as from `answers_on`. No look-up is counted.
pub fn answers(
    alloc: Global,
    text: &QueryText<'_>,
    expr: &Expr,
    k: u64,
    most: u64,
) -> Result<IntervalList, AllocError>
    requires well_formed { IsWellFormed (form_of expr.now) }
    requires below { k < far }
    ensures { (bytes : List ℕ) → text.now ≡ query_text bytes (form_of expr.now) →
        IfOk result (λ members. members ≡ take most (members_from (concordance (file_text bytes) (form_of expr.now)) k)) }
{
    uncounted(&PageOf {
        alloc,
        text,
        expr,
        from: k,
        most,
    })
}

/// How many members the list has. No list is made, and no look-up is counted.
pub fn answer_count(text: &QueryText<'_>, expr: &Expr) -> u64
    requires { IsWellFormed (form_of expr.now) }
    ensures { (bytes : List ℕ) → text.now ≡ query_text bytes (form_of expr.now) →
        result ≡ length (concordance (file_text bytes) (form_of expr.now)) }
{
    uncounted(&CountOf { text, expr })
}
