//! What several tests begin with.
ghost use Rattle.std.specs.Prelude.{◌≤◌, length, IfOk};
ghost use Rattle.gcl_model.specs.Limits.{most_readers};
ghost use Rattle.query_lanes.specs.Readers.{AreOf};

use collection::{Engine, Opened};
use std::alloc::{AllocError, Global};
use std::sync::Wait;

/// An engine of no file, opened for `readers` readers.
pub fn opened<R: Wait>(rt: &R, alloc: Global, readers: usize) -> Result<Opened, AllocError>
    requires { readers ≤ most_readers }
    ensures of { IfOk result (λ opened. AreOf opened.engine.publisher opened.readers.items) }
    ensures few { IfOk result (λ opened. length opened.readers.items ≤ most_readers) }
{
    let Ok(opened) = Engine::open(rt, alloc, 0, readers) else {
        return Err(AllocError);
    };
    Ok(opened)
}
