ghost use Rattle.std.specs.Prelude.{◌≡◌, ◌<◌, [], ◌∷◌, false, IfOk, OnOk, OnErr};
ghost use Rattle.gcl_model.specs.Collections.{Collection};
ghost use Rattle.gcl_model.specs.Limits.{merge_end};
ghost use Rattle.outside.specs.Causes.{CountsFileFault, HasFileCause};
ghost use Rattle.live_version.specs.StandsFor.{StandsFor};
ghost use Rattle.image_file.specs.Images.{CanBeSaved, image_of};
ghost use Rattle.image_read.specs.Answers.{IsImageOf, IsReading};
ghost use Rattle.script_answers.specs.States.{State, Keeps};
ghost use Rattle.script_answers.specs.Answers.{reading_reply};
ghost use Rattle.answer_text.specs.declared.action.Action.TheVariants.{Save, Open};
ghost use Rattle.script_answers.specs.inner.Service.{IsAt, StepsOn, Unmade};
ghost use Rattle.script_answers.specs.inner.Tasks.{Follows, Gives, IsReadByAction, action_reply};
ghost use Rattle.answer_text.specs.Given.{IsLocal};

use crate::setting::Setting;
use answer_text::Answer;
use collection::{AdoptFault, Engine};
use gcl_model::Bytes;
use image_file::image;
use image_read::{ImageFault, read_image};
use live_version::Version;
use outside::{FileError, Files, Loaded};
use query_lanes::Context;
use script_lang::Refusal;
use std::alloc::{AllocError, Global};
use std::sync::Wait;

/// The image of the last version that was published.
fn image_now(alloc: Global, engine: &Engine) -> Result<Bytes, AllocError>
    requires savable { CanBeSaved engine.now.version }
    ensures { IfOk result (λ bytes. (c : Collection) → StandsFor engine.now.version c → bytes ≡ image_of c) }
{
    let bytes = image(alloc, engine.version())?;
    Ok(bytes)
}

/// Saves the collection under a name.
pub(crate) fn save<R, F: Files, G>(
    setting: &Setting<'_, R, G>,
    files: &mut F,
    engine: &Engine,
    name: &[u8],
) -> Result<Answer, FileError>
    requires savable { CanBeSaved engine.now.version }
    ensures gives { IfOk result (λ answer. (state : State) → IsAt (F.held files.old) engine.now false state →
        Gives (action_reply setting.now.limits state (Save name.now)) state engine.now false (F.held files.new) answer) }
    ensures local { IfOk result (λ answer. IsLocal answer engine.now.version engine.now.version) }
    ensures unmade { OnErr result ((state : State) → IsAt (F.held files.old) engine.now false state →
        Unmade (name.now ∷ []) (F.unkept files.new ≡ F.unkept files.old) state engine.now (F.held files.new)) }
    ensures cause { HasFileCause (F.faults files.old) (F.faults files.new) result }
    ensures counts { CountsFileFault (F.faults files.old) (F.faults files.new) result }
    ensures unkept { OnOk result (F.unkept files.new ≡ F.unkept files.old) }
{
    let bytes = image_now(setting.context.alloc, engine)?;
    let length = bytes.len() as u64;
    if length > setting.limits.image {
        return Ok(Answer::Refused(Refusal::TooLong));
    }
    files.keep(name, bytes.as_slice())?;
    Ok(Answer::Saved(length))
}

/// Puts an opened version in place of the empty collection.
fn adopt<R: Wait>(
    rt: &R,
    engine: &mut Engine,
    bytes: &[u8],
    version: Version,
) -> Result<Answer, AllocError>
    requires opened { IsImageOf bytes.now version }
    requires empty { engine.old.version.next_id ≡ 0 }
    requires number { engine.old.version.number < merge_end }
    ensures follows { IfOk result (λ answer. (state : State) → Keeps engine.old false state → IsReading bytes.now (state.images bytes.now) →
        Follows (reading_reply state (state.images bytes.now)) state engine.new false answer) }
    ensures unmade { OnErr result (engine.new ≡ engine.old) }
    ensures steps { OnOk result (StepsOn engine.old engine.new false) }
    ensures local { IfOk result (λ answer. IsLocal answer engine.old.version engine.new.version) }
{
    let files = version.file_count();
    match engine.adopt(rt, version) {
        Ok(_receipt) => Ok(Answer::Opened(files)),
        // the engine has no file
        Err(AdoptFault::NotEmpty(_)) => unreachable!(),
        Err(AdoptFault::NoMemory) => Err(AllocError),
    }
}

/// Opens an image with this content.
fn open_content<R: Wait, G>(
    context: &Context<'_, R, G>,
    engine: &mut Engine,
    content: &[u8],
) -> Result<Answer, AllocError>
    requires savable { CanBeSaved engine.old.version }
    requires empty { engine.old.version.next_id ≡ 0 }
    requires number { engine.old.version.number < merge_end }
    ensures follows { IfOk result (λ answer. (state : State) → Keeps engine.old false state →
        IsReading content.now (state.images content.now) →
        Follows (reading_reply state (state.images content.now)) state engine.new false answer) }
    ensures unmade { OnErr result (engine.new ≡ engine.old) }
    ensures steps { OnOk result (StepsOn engine.old engine.new false) }
    ensures local { IfOk result (λ answer. IsLocal answer engine.old.version engine.new.version) }
{
    match read_image(context.alloc, content) {
        Ok(version) => {
            let answer = adopt(context.rt, engine, content, version)?;
            Ok(answer)
        }
        Err(ImageFault::NotImage) => Ok(Answer::Refused(Refusal::NotImage)),
        Err(ImageFault::NoMemory) => Err(AllocError),
    }
}

/// Loads an image and opens it in place of the empty collection. Once a file was added, nothing is loaded.
pub(crate) fn open<R: Wait, F: Files, G>(
    setting: &Setting<'_, R, G>,
    files: &mut F,
    engine: &mut Engine,
    name: &[u8],
) -> Result<Answer, FileError>
    requires savable { CanBeSaved engine.old.version }
    requires number { engine.old.version.number < merge_end }
    ensures gives { IfOk result (λ answer. (state : State) → IsAt (F.held files.old) engine.old false state →
        IsReadByAction state (Open name.now) →
        Gives (action_reply setting.now.limits state (Open name.now)) state engine.new false (F.held files.new) answer) }
    ensures unmade { OnErr result (engine.new ≡ engine.old) }
    ensures steps { OnOk result (StepsOn engine.old engine.new false) }
    ensures local { IfOk result (λ answer. IsLocal answer engine.old.version engine.new.version) }
    ensures unasked { 0 < engine.old.version.next_id → files.new ≡ files.old }
    ensures same { F.held files.new ≡ F.held files.old }
    ensures cause { HasFileCause (F.faults files.old) (F.faults files.new) result }
    ensures counts { CountsFileFault (F.faults files.old) (F.faults files.new) result }
    ensures unkept { F.unkept files.new ≡ F.unkept files.old }
{
    if engine.version().next_id() > 0 {
        return Ok(Answer::Refused(Refusal::NotEmpty));
    }
    let mut content = Vec::new(setting.context.alloc);
    match files.load(name, setting.limits.image, &mut content)? {
        Loaded::Long => Ok(Answer::Refused(Refusal::TooLong)),
        Loaded::Whole => {
            let answer = open_content(&setting.context, engine, content.as_slice())?;
            Ok(answer)
        }
    }
}
