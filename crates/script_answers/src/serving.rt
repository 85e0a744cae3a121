ghost use Rattle.std.specs.Prelude.{◌≡◌, ◌+◌, ◌≤◌, ◌<◌, ◌++◌, [], ◌∷◌, List, Option, ⊤, OnOk, OnErr, length};
ghost use Rattle.gcl_model.specs.Limits.{most_script};
ghost use Rattle.outside.specs.Contents.{Contents};
ghost use Rattle.script_lang.specs.Lines.{Line, lines};
ghost use Rattle.script_answers.specs.Answers.{names_kept_of, names_of};
ghost use Rattle.script_answers.specs.inner.Asks.{AreAsked, AsksLine};
ghost use Rattle.script_answers.specs.inner.Service.{Halts, CountsFiles, CountsSink, IsServing, KeepsFiles};
ghost use Rattle.script_answers.specs.inner.Service.{Leaves, LeavesSink, Serves, Takes, ending_of, run, stand};
ghost use Rattle.script_answers.specs.inner.Tasks.{IsActionOf, IsNamedAction, IsNamedTask, IsNothing, IsTaskOf};
ghost use Rattle.script_answers.specs.inner.Tasks.{action_kept, action_names, completes, task_kept, task_names};

use crate::acting::act;
use crate::merging::merge_pending;
use crate::progress::Progress;
use crate::run_fault::RunFault;
use crate::setting::Setting;
use crate::task::{Task, read_task};
use answer_text::{
    Action, Answer, pass_before, put_answer, put_changes, since, write_all, write_answers,
};
use collection::Opened;
use outside::{Files, Gate, Sink};
use query_lanes::{Ask, answer_batch};
use script_lang::line_at;
use std::alloc::AllocError;
use std::sync::Wait;
use std::thread::Threads;

/// Answers the queries that wait for their batch, concurrently with the merge that is pending, if one is, and writes the answers. Then no
/// query waits.
fn serve_batch<R: Threads + Wait + Sync, K: Sink, G: Gate + Sync>(
    setting: &Setting<'_, R, G>,
    sink: &mut K,
    opened: &mut Opened,
    progress: &mut Progress,
    asks: &mut Vec<Ask>,
) -> Result<(), RunFault>
    requires serving { IsServing opened.old progress.old (length asks.old.items) }
    requires room { opened.old.lines + length asks.old.items ≤ most_script }
    ensures serves { OnOk result ((held : Option Contents) (batch : List Line) → AreAsked asks.old.items batch →
        Serves setting.now.limits batch (stand held opened.old progress.old) (stand held opened.new progress.new)
        (K.written sink.old) (K.written sink.new)) }
    ensures halts { OnErr result ((held : Option Contents) (batch : List Line) → AreAsked asks.old.items batch →
        Halts setting.now.limits batch (ending_of result) ⊤
        (stand held opened.old progress.old) (stand held opened.new progress.new)
        (K.written sink.old) (K.written sink.new)) }
    ensures serving { OnOk result (IsServing opened.new progress.new 0) }
    ensures each { OnOk result (opened.new.lines ≡ opened.old.lines + length asks.old.items) }
    ensures none { OnOk result (asks.new.items ≡ []) }
    ensures leaves { LeavesSink (K.faults sink.old) (K.faults sink.new) result }
{
    if asks.is_empty() {
        return Ok(());
    }
    let answers = answer_batch(
        &setting.context,
        asks.as_slice(),
        progress.pending,
        &mut opened.engine,
        opened.readers.as_mut_slice(),
    )?;
    progress.pending = false;
    progress.refused |= write_answers(
        setting.context.alloc,
        sink,
        &mut progress.out,
        &mut opened.lines,
        answers,
    )?;
    asks.clear();
    Ok(())
}

/// How many lines are completed once one of them is done: it is among them if it made a change.
fn after_change(lines: u64, answer: &Answer) -> u64
    requires { lines < most_script }
    ensures { result ≡ lines + completes answer.now }
{
    if answer.is_change() { lines + 1 } else { lines }
}

/// Does what a line that is not a query asks for, and writes its answer, and then what an edit changed for the watches. A change is made
/// once no merge is pending, and the line is completed with it; every other line once its answer is made.
fn serve_action<R: Wait, F: Files, K: Sink, G: Gate>(
    setting: &Setting<'_, R, G>,
    files: &mut F,
    sink: &mut K,
    opened: &mut Opened,
    progress: &mut Progress,
    action: &Action,
) -> Result<(), RunFault>
    requires named { IsNamedAction action.now }
    requires serving { IsServing opened.old progress.old 0 }
    requires room { opened.old.lines < most_script }
    ensures serves { OnOk result ((line : Line) → IsActionOf action.now line →
        Serves setting.now.limits (line ∷ [])
        (stand (F.held files.old) opened.old progress.old) (stand (F.held files.new) opened.new progress.new)
        (K.written sink.old) (K.written sink.new)) }
    ensures halts { OnErr result ((line : Line) → IsActionOf action.now line →
        Halts setting.now.limits (line ∷ []) (ending_of result) (F.unkept files.new ≡ F.unkept files.old)
        (stand (F.held files.old) opened.old progress.old) (stand (F.held files.new) opened.new progress.new)
        (K.written sink.old) (K.written sink.new)) }
    ensures serving { OnOk result (IsServing opened.new progress.new 0) }
    ensures each { OnOk result (opened.new.lines ≡ opened.old.lines + 1) }
    ensures leaves { Leaves (action_names action.now) (action_kept action.now) (files.new ≡ files.old) (F.held files.new ≡ F.held files.old)
        (F.unkept files.new ≡ F.unkept files.old) (K.faults sink.old) (K.faults sink.new) (F.faults files.old) (F.faults files.new) result }
{
    merge_pending(&setting.context, &mut opened.engine, &mut progress.pending)?;
    let before = pass_before(&opened.engine, &progress.watches, action)?;
    let answer = act(
        setting,
        files,
        &mut opened.engine,
        &mut progress.watches,
        action,
    )?;
    progress.pending = action.is_merge();
    let completed = opened.lines + 1;
    opened.lines = after_change(opened.lines, &answer);
    progress.out.clear();
    put_answer(&mut progress.out, opened.engine.version(), &answer)?;
    opened.lines = completed;
    put_changes(
        setting.context.alloc,
        sink,
        &mut progress.out,
        &progress.watches,
        since(&answer, before),
        &answer,
        &opened.engine,
    )?;
    write_all(sink, progress.out.as_slice())?;
    progress.refused |= answer.is_refused();
    Ok(())
}

/// One more query waits for its batch.
fn push(asks: &mut Vec<Ask>, ask: Ask) -> Result<(), AllocError>
    ensures { OnOk result (asks.new.items ≡ asks.old.items ++ ask ∷ []) }
{
    asks.push(ask)?;
    Ok(())
}

/// One more query waits for its batch, which is answered when it is full.
fn serve_ask<R: Threads + Wait + Sync, K: Sink, G: Gate + Sync>(
    setting: &Setting<'_, R, G>,
    sink: &mut K,
    opened: &mut Opened,
    progress: &mut Progress,
    asks: &mut Vec<Ask>,
    ask: Ask,
) -> Result<(), RunFault>
    requires serving { IsServing opened.old progress.old (length asks.old.items) }
    requires room { opened.old.lines + length asks.old.items < most_script }
    ensures takes { (held : Option Contents) → Takes setting.now.limits (AsksLine ask) ⊤
        (run opened.old progress.old asks.old.items held (K.written sink.old))
        (run opened.new progress.new asks.new.items held (K.written sink.new)) result }
    ensures leaves { LeavesSink (K.faults sink.old) (K.faults sink.new) result }
{
    push(asks, ask)?;
    progress.asked += 1;
    if (asks.len() as u64) < setting.limits.batch {
        return Ok(());
    }
    serve_batch(setting, sink, opened, progress, asks)
}

/// An empty line is completed, once the queries before it are answered.
fn serve_nothing<R: Threads + Wait + Sync, K: Sink, G: Gate + Sync>(
    setting: &Setting<'_, R, G>,
    sink: &mut K,
    opened: &mut Opened,
    progress: &mut Progress,
    asks: &mut Vec<Ask>,
) -> Result<(), RunFault>
    requires serving { IsServing opened.old progress.old (length asks.old.items) }
    requires room { opened.old.lines + length asks.old.items < most_script }
    ensures takes { (held : Option Contents) → Takes setting.now.limits IsNothing ⊤
        (run opened.old progress.old asks.old.items held (K.written sink.old))
        (run opened.new progress.new asks.new.items held (K.written sink.new)) result }
    ensures leaves { LeavesSink (K.faults sink.old) (K.faults sink.new) result }
{
    serve_batch(setting, sink, opened, progress, asks)?;
    opened.lines += 1;
    Ok(())
}

/// Does what a line that is not a query asks for, once the queries before it are answered.
fn serve_action_behind<R: Threads + Wait + Sync, F: Files, K: Sink, G: Gate + Sync>(
    setting: &Setting<'_, R, G>,
    files: &mut F,
    sink: &mut K,
    opened: &mut Opened,
    progress: &mut Progress,
    asks: &mut Vec<Ask>,
    action: &Action,
) -> Result<(), RunFault>
    requires named { IsNamedAction action.now }
    requires serving { IsServing opened.old progress.old (length asks.old.items) }
    requires room { opened.old.lines + length asks.old.items < most_script }
    ensures takes { Takes setting.now.limits (IsActionOf action.now) (F.unkept files.new ≡ F.unkept files.old)
        (run opened.old progress.old asks.old.items (F.held files.old) (K.written sink.old))
        (run opened.new progress.new asks.new.items (F.held files.new) (K.written sink.new)) result }
    ensures leaves { Leaves (action_names action.now) (action_kept action.now) (files.new ≡ files.old) (F.held files.new ≡ F.held files.old)
        (F.unkept files.new ≡ F.unkept files.old) (K.faults sink.old) (K.faults sink.new) (F.faults files.old) (F.faults files.new) result }
{
    serve_batch(setting, sink, opened, progress, asks)?;
    serve_action(setting, files, sink, opened, progress, action)
}

/// Does what a line asks for, once the queries before it are answered. A query waits for its batch, which is answered when it is full.
fn serve_task<R: Threads + Wait + Sync, F: Files, K: Sink, G: Gate + Sync>(
    setting: &Setting<'_, R, G>,
    files: &mut F,
    sink: &mut K,
    opened: &mut Opened,
    progress: &mut Progress,
    asks: &mut Vec<Ask>,
    task: Task,
) -> Result<(), RunFault>
    requires named { IsNamedTask task }
    requires serving { IsServing opened.old progress.old (length asks.old.items) }
    requires room { opened.old.lines + length asks.old.items < most_script }
    ensures takes { Takes setting.now.limits (IsTaskOf task) (F.unkept files.new ≡ F.unkept files.old)
        (run opened.old progress.old asks.old.items (F.held files.old) (K.written sink.old))
        (run opened.new progress.new asks.new.items (F.held files.new) (K.written sink.new)) result }
    ensures leaves { Leaves (task_names task) (task_kept task) (files.new ≡ files.old) (F.held files.new ≡ F.held files.old)
        (F.unkept files.new ≡ F.unkept files.old) (K.faults sink.old) (K.faults sink.new) (F.faults files.old) (F.faults files.new) result }
{
    match task {
        Task::Ask(ask) => serve_ask(setting, sink, opened, progress, asks, ask),
        Task::Nothing => serve_nothing(setting, sink, opened, progress, asks),
        Task::Act(action) => {
            serve_action_behind(setting, files, sink, opened, progress, asks, &action)
        }
    }
}

/// Answers the lines of some bytes, one after the other: the answer to each is handed to the sink before the line after it is done. Queries
/// in a row are a batch, which the engine's readers answer concurrently with a merge that is pending.
///
/// A last line without a newline is answered like any other, so the bytes must end where a line ends. `opened.lines` counts the lines that
/// are completed, even if it ends early.
pub fn serve_held<R: Threads + Wait + Sync, F: Files, K: Sink, G: Gate + Sync>(
    setting: &Setting<'_, R, G>,
    files: &mut F,
    sink: &mut K,
    opened: &mut Opened,
    progress: &mut Progress,
    script: &[u8],
) -> Result<(), RunFault>
    requires serving { IsServing opened.old progress.old 0 }
    requires room { opened.old.lines + length script.now ≤ most_script }
    ensures serves { OnOk result (Serves setting.now.limits (lines setting.now.limits.line script.now)
        (stand (F.held files.old) opened.old progress.old) (stand (F.held files.new) opened.new progress.new)
        (K.written sink.old) (K.written sink.new)) }
    ensures halts { OnErr result (Halts setting.now.limits (lines setting.now.limits.line script.now) (ending_of result)
        (F.unkept files.new ≡ F.unkept files.old)
        (stand (F.held files.old) opened.old progress.old) (stand (F.held files.new) opened.new progress.new)
        (K.written sink.old) (K.written sink.new)) }
    ensures serving { OnOk result (IsServing opened.new progress.new 0) }
    ensures counted { OnOk result (opened.new.lines ≤ opened.old.lines + length script.now) }
    ensures files { KeepsFiles (names_of (lines setting.now.limits.line script.now))
        (names_kept_of (lines setting.now.limits.line script.now))
        (files.new ≡ files.old) (F.held files.new ≡ F.held files.old) (F.unkept files.new ≡ F.unkept files.old) result }
    ensures sink { CountsSink (K.faults sink.old) (K.faults sink.new) result }
    ensures faults { CountsFiles (F.faults files.old) (F.faults files.new) result }
{
    let mut at = 0;
    let mut asks = Vec::new(setting.context.alloc);
    while let Some(cut) = line_at(script, at, setting.limits.line as usize) {
        let bytes = &script[cut.from..cut.to];
        let task = read_task(setting.context.alloc, cut.long, bytes, progress.asked + 1)?;
        serve_task(setting, files, sink, opened, progress, &mut asks, task)?;
        at = cut.after;
    }
    serve_batch(setting, sink, opened, progress, &mut asks)?;
    Ok(())
}
