ghost use Rattle.std.specs.Prelude.{◌≡◌, ◌≤◌, true, false, length, IfOk, OnOk, OnErr};
ghost use Rattle.gcl_model.specs.Limits.{most_file};
ghost use Rattle.gcl_model.specs.Names.{is_name};
ghost use Rattle.outside.specs.Causes.{CountsFileFault, HasFileCause};
ghost use Rattle.image_file.specs.Images.{CanBeSaved};
ghost use Rattle.live_version.specs.StandsFor.{StandsFor};
ghost use Rattle.script_answers.specs.States.{State, Keeps};
ghost use Rattle.script_answers.specs.Answers.{content_reply, del_reply};
ghost use Rattle.answer_text.specs.declared.action.Action.TheVariants.{Add};
ghost use Rattle.script_answers.specs.inner.Service.{IsAt, StepsOn};
ghost use Rattle.script_answers.specs.inner.Tasks.{Follows, Gives, action_reply};
ghost use Rattle.answer_text.specs.Given.{IsLocal};

use crate::setting::Setting;
use address_space::FileId;
use answer_text::Answer;
use change_search::edits_agree;
use collection::{AddFault, DeleteFault, Engine};
use outside::{FileError, Files, Loaded};
use script_lang::Refusal;
use std::alloc::AllocError;
use std::sync::Wait;

/// Adds a file with this content.
fn add_content<R: Wait>(
    rt: &R,
    engine: &mut Engine,
    name: &[u8],
    content: &[u8],
) -> Result<Answer, AllocError>
    requires named { is_name name.now ≡ true }
    requires short { length content.now ≤ most_file }
    requires savable { CanBeSaved engine.old.version }
    ensures follows { IfOk result (λ answer. (state : State) → Keeps engine.old false state →
        Follows (content_reply state name.now content.now) state engine.new false answer) }
    ensures unmade { OnErr result ((state : State) → Keeps engine.old false state → StandsFor engine.new.version state.collection) }
    ensures steps { OnOk result (StepsOn engine.old engine.new false) }
    ensures local { IfOk result (λ answer. IsLocal answer engine.old.version engine.new.version) }
{
    edits_agree();
    match engine.add(rt, name, content) {
        Ok(added) => Ok(Answer::Added(added.id.0, added.first, added.last)),
        Err(AddFault::AddressesSpent { .. }) => Ok(Answer::Refused(Refusal::NoAddresses)),
        Err(AddFault::NoMemory) => Err(AllocError),
    }
}

/// Loads a file, and adds it.
pub(crate) fn add<R: Wait, F: Files, G>(
    setting: &Setting<'_, R, G>,
    files: &mut F,
    engine: &mut Engine,
    name: &[u8],
) -> Result<Answer, FileError>
    requires named { is_name name.now ≡ true }
    requires savable { CanBeSaved engine.old.version }
    ensures gives { IfOk result (λ answer. (state : State) → IsAt (F.held files.old) engine.old false state →
        Gives (action_reply setting.now.limits state (Add name.now)) state engine.new false (F.held files.new) answer) }
    ensures unmade { OnErr result ((state : State) → Keeps engine.old false state → StandsFor engine.new.version state.collection) }
    ensures steps { OnOk result (StepsOn engine.old engine.new false) }
    ensures local { IfOk result (λ answer. IsLocal answer engine.old.version engine.new.version) }
    ensures same { F.held files.new ≡ F.held files.old }
    ensures cause { HasFileCause (F.faults files.old) (F.faults files.new) result }
    ensures counts { CountsFileFault (F.faults files.old) (F.faults files.new) result }
    ensures unkept { F.unkept files.new ≡ F.unkept files.old }
{
    let mut content = Vec::new(setting.context.alloc);
    match files.load(name, setting.limits.file, &mut content)? {
        Loaded::Long => Ok(Answer::Refused(Refusal::TooLong)),
        Loaded::Whole => {
            let answer = add_content(setting.context.rt, engine, name, content.as_slice())?;
            Ok(answer)
        }
    }
}

/// Deletes a file.
pub(crate) fn delete<R: Wait>(rt: &R, engine: &mut Engine, id: u64) -> Result<Answer, AllocError>
    requires savable { CanBeSaved engine.old.version }
    ensures follows { IfOk result (λ answer. (state : State) → Keeps engine.old false state →
        Follows (del_reply state id) state engine.new false answer) }
    ensures unmade { OnErr result ((state : State) → Keeps engine.old false state → StandsFor engine.new.version state.collection) }
    ensures steps { OnOk result (StepsOn engine.old engine.new false) }
    ensures local { IfOk result (λ answer. IsLocal answer engine.old.version engine.new.version) }
{
    edits_agree();
    match engine.delete(rt, FileId(id)) {
        Ok(_receipt) => Ok(Answer::Gone(id)),
        Err(DeleteFault::NotLive(_)) => Ok(Answer::Refused(Refusal::NoFile(id))),
        Err(DeleteFault::NoMemory) => Err(AllocError),
    }
}
