//! What each script is served on.
ghost use Rattle.std.specs.Prelude.{◌≤◌, length, IfOk};
ghost use Rattle.gcl_model.specs.Limits.{most_readers};
ghost use Rattle.query_lanes.specs.Readers.{AreOf};
ghost use Rattle.script_answers.specs.States.{IsFresh};

use collection::{Engine, Opened};
use std::alloc::{AllocError, Global};
use std::sync::Wait;

/// An engine of no file that begins at address 0, and this number of readers of it.
pub fn opened<R: Wait>(rt: &R, alloc: Global, readers: usize) -> Result<Opened, AllocError>
    requires { readers ≤ most_readers }
    ensures fresh { IfOk result (λ opened. IsFresh opened.engine opened.lines) }
    ensures readers { IfOk result (λ opened. AreOf opened.engine.publisher opened.readers.items) }
    ensures few { IfOk result (λ opened. length opened.readers.items ≤ most_readers) }
{
    match Engine::open(rt, alloc, 0, readers) {
        Ok(opened) => Ok(opened),
        Err(_) => Err(AllocError),
    }
}
