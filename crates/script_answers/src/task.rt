ghost use Rattle.std.specs.Prelude.{◌≡◌, IfOk};
ghost use Rattle.script_lang.specs.Commands.{IsNamed};
ghost use Rattle.gcl_model.specs.FormOf.{form_of};
ghost use Rattle.gcl_model.specs.Texts.{Text};
ghost use Rattle.gcl_model.specs.WellFormed.{IsWellFormed};
ghost use Rattle.query_lanes.specs.declared.asks.Asked.{Asked};
ghost use Rattle.script_answers.specs.Answers.{query_lines};
ghost use Rattle.query_lanes.specs.Answers.{answer_by};
ghost use Rattle.script_answers.specs.inner.Asks.{IsAskOf, command_asking};
ghost use Rattle.answer_text.specs.Texts.{found_lines};
ghost use Rattle.script_answers.specs.inner.Tasks.{IsNamedTask, IsTaskFor, IsTaskOf};

use answer_text::Action;
use gcl_model::{Bytes, Expr};
use gcl_parser::{ParseFault, QueryFault, parse};
use query_lanes::{Ask, Asked};
use script_lang::{Command, Refusal, command};
use std::alloc::{AllocError, Global};
use std::sync::Arc;

/// What a line asks for.
#[derive(Drop)]
pub(crate) enum Task {
    /// Nothing: the line is empty.
    Nothing,
    /// A query, which its batch answers.
    Ask(Ask),
    /// Anything else.
    Act(Action),
}

fn shared(alloc: Global, expr: Expr) -> Result<Arc<Expr>, AllocError>
    ensures { IfOk result (λ shared. shared.value ≡ expr) }
{
    match Arc::new(alloc, expr) {
        Ok(shared) => Ok(shared),
        Err(_) => Err(AllocError),
    }
}

/// The expression of a query, or why it has none.
fn expr_of(alloc: Global, query: &[u8]) -> Result<Result<Arc<Expr>, QueryFault>, AllocError>
    ensures well_formed { IfOk result (λ read. IfOk read (λ expr. IsWellFormed (form_of expr.value))) }
    ensures lines { IfOk result (λ read. (asked : Asked) (text : Text) →
        found_lines (answer_by asked text read) ≡ query_lines asked text query.now) }
{
    match parse(alloc, query) {
        Ok(expr) => {
            let expr = shared(alloc, expr)?;
            Ok(Ok(expr))
        }
        Err(ParseFault::Query(fault)) => Ok(Err(fault)),
        Err(ParseFault::NoMemory) => Err(AllocError),
    }
}

/// The query that these bytes are, as one of a batch; one that is refused keeps its fault. `number` says which query of the run it is.
fn ask_of(alloc: Global, number: u64, asked: Asked, query: &Bytes) -> Result<Ask, AllocError>
    ensures { IfOk result (λ ask. IsAskOf ask (command_asking asked query.now)) }
{
    let query = expr_of(alloc, query.as_slice())?;
    Ok(Ask {
        number,
        asked,
        query,
    })
}

/// The same query, as what a line asks for.
fn asking(alloc: Global, number: u64, asked: Asked, query: Bytes) -> Result<Task, AllocError>
    ensures task { IfOk result (λ task. IsTaskFor task (command_asking asked query)) }
    ensures named { IfOk result IsNamedTask }
{
    let ask = ask_of(alloc, number, asked, &query)?;
    Ok(Task::Ask(ask))
}

/// What a line with this command asks for.
fn task_of(alloc: Global, command: Command, number: u64) -> Result<Task, AllocError>
    requires named { IsNamed command }
    ensures task { IfOk result (λ task. IsTaskFor task command) }
    ensures named { IfOk result IsNamedTask }
{
    match command {
        Command::Blank => Ok(Task::Nothing),
        Command::Find(query) => asking(alloc, number, Asked::All, query),
        Command::Count(query) => asking(alloc, number, Asked::Number, query),
        Command::Top(most, query) => asking(alloc, number, Asked::First(most), query),
        Command::Add(name) => Ok(Task::Act(Action::Add(name))),
        Command::Del(id) => Ok(Task::Act(Action::Delete(id))),
        Command::Files => Ok(Task::Act(Action::ListFiles)),
        Command::Merge => Ok(Task::Act(Action::Merge)),
        Command::Shards => Ok(Task::Act(Action::CountSlots)),
        Command::Save(name) => Ok(Task::Act(Action::Save(name))),
        Command::Load(name) => Ok(Task::Act(Action::Open(name))),
        Command::Watch(query) => Ok(Task::Act(Action::Watch(query))),
        Command::Unwatch(number) => Ok(Task::Act(Action::Unwatch(number))),
        Command::Wrong => Ok(Task::Act(Action::Refuse(Refusal::Command))),
    }
}

/// What a line asks for. A long line is refused unread. `number` says which query of the run it is, if it asks one.
pub(crate) fn read_task(
    alloc: Global,
    long: bool,
    bytes: &[u8],
    number: u64,
) -> Result<Task, AllocError>
    ensures task { IfOk result (λ task. IsTaskOf task record { long = long; bytes = bytes.now }) }
    ensures named { IfOk result IsNamedTask }
{
    if long {
        return Ok(Task::Act(Action::Refuse(Refusal::LongLine)));
    }
    let command = command(alloc, bytes)?;
    let task = task_of(alloc, command, number)?;
    Ok(task)
}
