//! What several tests begin with.
ghost use Rattle.std.specs.Prelude.{◌≡◌, ◌≤◌, ◌∷◌, [], IfOk};
ghost use Rattle.std.specs.List.{AllByRecursion};
ghost use Rattle.gcl_model.specs.Limits.{most_readers};
ghost use Rattle.live_version.specs.Changes.{empty_version};
ghost use Rattle.manifest_publish.specs.Accounts.{with_pass};

use collection::{Engine, OpenFault, Opened};
use manifest_publish::Reader;
use std::alloc::Global;
use std::sync::Wait;

/// An engine without files, and readers that have seen no other version of it.
pub fn opened<R: Wait>(
    rt: &R,
    alloc: Global,
    first: u64,
    readers: usize,
) -> Result<(Engine, Vec<Reader>), OpenFault>
    requires { readers ≤ most_readers }
    ensures { IfOk result (λ made. AllByRecursion (λ reader. reader ≡ with_pass made.0.publisher (empty_version first ∷ [])) made.1.items) }
{
    let Opened {
        engine,
        readers,
        lines: _lines,
    } = Engine::open(rt, alloc, first, readers)?;
    Ok((engine, readers))
}
