//! The lines that begin and end a watch.
ghost use Rattle.std.specs.Prelude.{◌≡◌, ◌<◌, IfOk};
ghost use Rattle.gcl_model.specs.FormOf.{form_of};
ghost use Rattle.gcl_model.specs.Limits.{version_end};
ghost use Rattle.gcl_model.specs.WellFormed.{IsWellFormed};
ghost use Rattle.script_answers.specs.Answers.{form_reply, unwatch_reply, watch_reply};
ghost use Rattle.script_answers.specs.States.{State};
ghost use Rattle.answer_text.specs.Watching.{watching_of};
ghost use Rattle.script_answers.specs.inner.Tasks.{IsWatchReply, WatchesOn};

use answer_text::Answer;
use gcl_model::Expr;
use gcl_parser::{ParseFault, parse};
use script_lang::Refusal;
use standing_query::{NoWatch, WatchFault, WatchList};
use std::alloc::{AllocError, Global};

/// Watches an expression.
fn watch_expr(watches: &mut WatchList, expr: Expr) -> Result<Answer, AllocError>
    requires room { watches.old.next < version_end }
    requires well_formed { IsWellFormed (form_of expr) }
    ensures is { IfOk result (λ answer. (state : State) → watching_of watches.old ≡ state.watches →
        IsWatchReply (form_reply state (form_of expr)) state watches.new answer) }
    ensures watches { WatchesOn watches.old watches.new }
{
    match watches.add(expr) {
        Ok(number) => Ok(Answer::Watching(number)),
        Err(WatchFault::Full(_)) => Ok(Answer::Refused(Refusal::TooManyWatches)),
        Err(WatchFault::NoMemory) => Err(AllocError),
    }
}

/// Watches a query.
pub(crate) fn watch(
    alloc: Global,
    watches: &mut WatchList,
    query: &[u8],
) -> Result<Answer, AllocError>
    requires { watches.old.next < version_end }
    ensures is { IfOk result (λ answer. (state : State) → watching_of watches.old ≡ state.watches →
        IsWatchReply (watch_reply state query.now) state watches.new answer) }
    ensures watches { WatchesOn watches.old watches.new }
{
    match parse(alloc, query) {
        Ok(expr) => watch_expr(watches, expr),
        Err(ParseFault::Query(fault)) => Ok(Answer::Refused(Refusal::Query(fault))),
        Err(ParseFault::NoMemory) => Err(AllocError),
    }
}

/// Ends a watch.
pub(crate) fn unwatch(watches: &mut WatchList, number: u64) -> Answer
    ensures is { (state : State) → watching_of watches.old ≡ state.watches →
        IsWatchReply (unwatch_reply state number) state watches.new result }
    ensures watches { WatchesOn watches.old watches.new }
{
    match watches.remove(number) {
        Ok(()) => Answer::Unwatched(number),
        Err(NoWatch { id: _id }) => Answer::Refused(Refusal::NoWatch(number)),
    }
}
