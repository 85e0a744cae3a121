ghost use Rattle.std.specs.Prelude.{[], ◌∷◌, IfOk, OnErr, string_bytes};
ghost use Rattle.outside_std.specs.Saving.{Adds};
ghost use Rattle.outside_std.specs.declared.step.Step.TheVariants.{Creates};

use crate::cause::{FileCause, FileFault};
use crate::disk::Disk;
use std::alloc::{AllocError, Global};

/// How many names next to a path are tried. One that a killed program left behind is never written over.
const TRIES: u32 = 1_000_000;

/// The name number `n` in the folder of a path. It is short, so that nearly every path that can be kept has one.
fn name_beside(alloc: Global, path: &str, n: u32) -> Result<String, AllocError> {
    match path.rsplit_once('/') {
        Some((folder, _)) => format!(in alloc; "{folder}/.gclq-{n}.new"),
        None => format!(in alloc; ".gclq-{n}.new"),
    }
}

/// A new file in the folder of a path, and its name. No existing file is opened.
pub fn create_beside<D: Disk>(
    alloc: Global,
    disk: &mut D,
    path: &str,
    mode: Option<u32>,
) -> Result<(String, D::File), FileFault>
    ensures ok { IfOk result (λ made. Adds (D.steps disk.old) (D.steps disk.new) (Creates (string_bytes made.0) ∷ [])) }
    ensures err { OnErr result (Adds (D.steps disk.old) (D.steps disk.new) []) }
{
    for n in 0..TRIES {
        let beside = name_beside(alloc, path, n)?;
        match disk.create(beside.as_str(), mode) {
            Ok(file) => return Ok((beside, file)),
            Err(FileCause::Leftovers) => {}
            Err(cause) => return Err(FileFault::Failed(cause)),
        }
    }
    Err(FileFault::Failed(FileCause::Leftovers))
}
