ghost use Rattle.std.specs.Prelude.{◌≡◌, ◌<◌, OnOk, OnErr};
ghost use Rattle.gcl_model.specs.Limits.{merge_end};
ghost use Rattle.collection.specs.Engines.{IsEngine};
ghost use Rattle.query_lanes.specs.Merges.{IsMerged, IsMergedWhere};

use collection::Engine;
use outside::Gate;
use std::alloc::AllocError;
use std::sync::Wait;

/// Merges, and gives no receipt.
pub fn merge<R: Wait, G: Gate>(rt: &R, gate: &G, engine: &mut Engine) -> Result<(), AllocError>
    requires { engine.old.version.number < merge_end }
    ensures merged { OnOk result (IsMerged engine.old engine.new) }
    ensures err { OnErr result (engine.new ≡ engine.old) }
{
    let _receipt = engine.merge_all(rt, gate)?;
    Ok(())
}

/// Merges if a merge is pending.
pub fn merge_where<R: Wait, G: Gate>(
    rt: &R,
    gate: &G,
    pending: bool,
    engine: &mut Engine,
) -> Result<(), AllocError>
    requires { engine.old.version.number < merge_end }
    ensures merged { OnOk result (IsMergedWhere pending engine.old engine.new) }
    ensures err { OnErr result (engine.new ≡ engine.old) }
{
    if pending {
        return merge(rt, gate, engine);
    }
    Ok(())
}

/// What is always true of an engine.
pub fn is_lawful(engine: &Engine)
    ensures { IsEngine engine.now }
{
    engine.version();
}
