ghost use Rattle.std.specs.Prelude.{List, Option, OnOk, OnErr, [], ◌∷◌};
ghost use Rattle.outside_std.specs.Saving.{Adds, Fills, FillsSome, Stores, Saves, GivesUp};
ghost use Rattle.outside_std.specs.declared.step.Step.{Step};
ghost use Rattle.outside_std.specs.declared.step.Step.TheVariants.{Creates, Removes};

use crate::beside::create_beside;
use crate::cause::{FileCause, FileFault};
use crate::disk::Disk;
use std::alloc::Global;

/// Writes a whole text to a file.
fn write_whole<D: Disk>(disk: &mut D, file: &mut D::File, text: &[u8]) -> Result<(), FileCause>
    ensures ok { OnOk result (Fills (D.steps disk.old) (D.steps disk.new) text.now) }
    ensures err { OnErr result (FillsSome (D.steps disk.old) (D.steps disk.new)) }
{
    let mut at = 0;
    while at < text.len() {
        let count = disk.write(file, &text[at..])?;
        if count == 0 {
            return Err(FileCause::Full);
        }
        at += count;
    }
    Ok(())
}

/// Gives a file these permission bits, if there are any.
fn allow_some<D: Disk>(disk: &mut D, file: &mut D::File, mode: Option<u32>) -> Result<(), FileCause>
    ensures { Adds (D.steps disk.old) (D.steps disk.new) [] }
{
    match mode {
        Some(mode) => disk.allow(file, mode),
        None => Ok(()),
    }
}

/// Gives a new file its permission bits and its text, and waits until it is on the disk.
fn store<D: Disk>(
    disk: &mut D,
    file: &mut D::File,
    mode: Option<u32>,
    text: &[u8],
) -> Result<(), FileCause>
    ensures ok { OnOk result (Stores (D.steps disk.old) (D.steps disk.new) text.now) }
    ensures err { OnErr result (FillsSome (D.steps disk.old) (D.steps disk.new)) }
{
    allow_some(disk, file, mode)?;
    write_whole(disk, file, text)?;
    disk.sync(file)
}

/// Removes the new file of a save that failed, and gives the error of the save.
fn given_up<D: Disk>(disk: &mut D, beside: &str, cause: FileCause) -> FileFault
    ensures { Adds (D.steps disk.old) (D.steps disk.new) (Removes beside.now ∷ []) }
{
    disk.remove(beside);
    FileFault::Failed(cause)
}

/// Writes the bytes to a file of their own, which then takes the path. Until that step the path has its old content.
/// Some error after it means that a loss of power may bring the old content back.
pub fn replace<D: Disk>(
    alloc: Global,
    disk: &mut D,
    path: &str,
    mode: Option<u32>,
    bytes: &[u8],
) -> Result<(), FileFault>
    ensures ok { OnOk result (Saves (D.steps disk.old) (D.steps disk.new) path.now bytes.now) }
    ensures err { OnErr result (GivesUp (D.steps disk.old) (D.steps disk.new) path.now bytes.now) }
{
    let (beside, mut file) = create_beside(alloc, disk, path, mode)?;
    take_path(disk, &mut file, beside.as_str(), path, mode, bytes)
}

/// The same, starting after the new file was created.
fn take_path<D: Disk>(
    disk: &mut D,
    file: &mut D::File,
    beside: &str,
    path: &str,
    mode: Option<u32>,
    bytes: &[u8],
) -> Result<(), FileFault>
    ensures ok { (before : Option (List Step)) → Adds before (D.steps disk.old) (Creates beside.now ∷ []) →
        OnOk result (Saves before (D.steps disk.new) path.now bytes.now) }
    ensures err { (before : Option (List Step)) → Adds before (D.steps disk.old) (Creates beside.now ∷ []) →
        OnErr result (GivesUp before (D.steps disk.new) path.now bytes.now) }
{
    if let Err(cause) = store(disk, file, mode, bytes) {
        return Err(given_up(disk, beside, cause));
    }
    if let Err(cause) = disk.rename(beside, path) {
        return Err(given_up(disk, beside, cause));
    }
    match disk.sync_folder(path) {
        Ok(()) => Ok(()),
        Err(cause) => Err(FileFault::Failed(cause)),
    }
}
