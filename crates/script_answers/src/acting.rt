ghost use Rattle.std.specs.Prelude.{◌≡◌, [], false, IfOk, IsErrOf, OnOk, OnErr};
ghost use Rattle.outside.specs.Causes.{CountsFileFault, HasFileCause};
ghost use Rattle.script_answers.specs.States.{State};
ghost use Rattle.script_answers.specs.inner.Service.{IsAt, Unmade};
ghost use Rattle.answer_text.specs.Watching.{watching_of};
ghost use Rattle.script_answers.specs.inner.Tasks.{CanAct, Does, IsNamedAction, IsReadByAction};
ghost use Rattle.script_answers.specs.inner.Tasks.{action_kept, action_names, action_reply};
ghost use Rattle.answer_text.specs.Given.{merges};
ghost use Rattle.script_answers.specs.inner.Telling.{ActsOn};

use crate::changes::{add, delete};
use crate::saving::{open, save};
use crate::setting::Setting;
use crate::watching::{unwatch, watch};
use answer_text::{Action, Answer};
use collection::Engine;
use outside::{FileError, Files, Gate};
use standing_query::WatchList;
use std::sync::Wait;

/// Does what a line asks for, once no merge is pending, and returns its answer. On `Err` the change is not made.
pub(crate) fn act<R: Wait, F: Files, G: Gate>(
    setting: &Setting<'_, R, G>,
    files: &mut F,
    engine: &mut Engine,
    watches: &mut WatchList,
    action: &Action,
) -> Result<Answer, FileError>
    requires named { IsNamedAction action.now }
    requires ready { CanAct engine.old watches.old }
    ensures gives { IfOk result (λ answer. (state : State) → IsAt (F.held files.old) engine.old false state →
        watching_of watches.old ≡ state.watches → IsReadByAction state action.now →
        Does (action_reply setting.now.limits state action.now) state engine.new (merges action.now) (F.held files.new)
        watches.new answer) }
    ensures unmade { OnErr result ((state : State) → IsAt (F.held files.old) engine.old false state →
        Unmade (action_kept action.now) (F.unkept files.new ≡ F.unkept files.old) state engine.new (F.held files.new)) }
    ensures named { IsErrOf result FileError.Failed → ¬ (action_names action.now ≡ []) }
    ensures steps { IfOk result (ActsOn engine.old engine.new (merges action.now) watches.old watches.new) }
    ensures quiet { action_names action.now ≡ [] → files.new ≡ files.old }
    ensures unsaved { action_kept action.now ≡ [] → F.held files.new ≡ F.held files.old }
    ensures cause { HasFileCause (F.faults files.old) (F.faults files.new) result }
    ensures counts { CountsFileFault (F.faults files.old) (F.faults files.new) result }
    ensures unkept { OnOk result (F.unkept files.new ≡ F.unkept files.old) }
{
    match action {
        Action::Add(name) => add(setting, files, engine, name.as_slice()),
        Action::Delete(id) => {
            let answer = delete(setting.context.rt, engine, *id)?;
            Ok(answer)
        }
        Action::ListFiles => Ok(Answer::Files),
        Action::Merge => Ok(Answer::Merging),
        Action::CountSlots => Ok(Answer::Slots(engine.version().slot_count() as u64)),
        Action::Save(name) => save(setting, files, engine, name.as_slice()),
        Action::Open(name) => open(setting, files, engine, name.as_slice()),
        Action::Watch(query) => {
            let answer = watch(setting.context.alloc, watches, query.as_slice())?;
            Ok(answer)
        }
        Action::Unwatch(number) => Ok(unwatch(watches, *number)),
        Action::Refuse(refusal) => Ok(Answer::Refused(*refusal)),
    }
}
