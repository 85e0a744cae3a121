ghost use Rattle.std.specs.Prelude.{◌≡◌, ◌+◌, ◌≤◌, ◌<◌, false, OnOk, OnErr};
ghost use Rattle.gcl_model.specs.Limits.{merge_end};
ghost use Rattle.image_file.specs.Images.{CanBeSaved};
ghost use Rattle.script_answers.specs.States.{State, Keeps};
ghost use Rattle.script_answers.specs.inner.Service.{merges_pending};

use collection::Engine;
use outside::Gate;
use query_lanes::Context;
use std::alloc::AllocError;
use std::sync::Wait;

/// Makes the merge that is pending, if one is. If there is no memory, it is still pending.
pub fn merge_pending<R: Wait, G: Gate>(
    context: &Context<'_, R, G>,
    engine: &mut Engine,
    pending: &mut bool,
) -> Result<(), AllocError>
    requires { engine.old.version.number < merge_end }
    ensures keeps { OnOk result ((state : State) → Keeps engine.old pending.old state → Keeps engine.new false state) }
    ensures made { OnOk result (pending.new ≡ false) }
    ensures number { OnOk result (engine.new.version.number ≤ engine.old.version.number + merges_pending pending.old) }
    ensures savable { OnOk result (CanBeSaved engine.old.version → CanBeSaved engine.new.version) }
    ensures publisher { engine.new.publisher ≡ engine.old.publisher }
    ensures err { OnErr result (engine.new ≡ engine.old) }
{
    if !*pending {
        return Ok(());
    }
    let _receipt = engine.merge_all(context.rt, context.gate)?;
    *pending = false;
    Ok(())
}
