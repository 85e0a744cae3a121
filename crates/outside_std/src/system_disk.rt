ghost use Rattle.std.specs.Prelude.{None};

use crate::cause::FileCause;
use crate::disk::Disk;
use crate::sink::write_again;
use std::fs::{OpenFile, OpenOptions, Permissions};
use std::io::{Error, ErrorKind};
use std::os::unix::fs::{OpenOptionsExt, PermissionsExt};
use std::{fs, rt};

/// What a new file may be used for, before the process leaves out what its mask says.
const MODE_OF_NEW: u32 = 0o666;

/// The disk behind the system's files.
#[derive(Drop)]
pub struct SystemDisk<'a, R> {
    rt: &'a R,
}

impl<'a, R: rt::Files> SystemDisk<'a, R> {
    /// The disk that `rt` reaches.
    pub fn new(rt: &'a R) -> Self {
        SystemDisk { rt }
    }
}

/// The folder of a path: that of `a/b` is `a`, and that of `b` is `.`.
fn folder_of(path: &str) -> &str {
    match path.rsplit_once('/') {
        Some(("", _)) => "/",
        Some((folder, _)) => folder,
        None => ".",
    }
}

/// Why a file was not created: the name may be taken.
fn cause_of_create(fault: Error) -> FileCause {
    if fault.kind() == ErrorKind::AlreadyExists {
        return FileCause::Leftovers;
    }
    FileCause::from(fault)
}

/// What it means that a folder was not synced: some file systems sync none.
fn sync_failed(fault: Error) -> Result<(), FileCause> {
    if fault.kind() == ErrorKind::InvalidInput {
        return Ok(());
    }
    Err(FileCause::from(fault))
}

impl<'a, R: rt::Files> Disk for SystemDisk<'a, R> {
    type Opened = R::File;

    type File = R::File;

    ghost held = { λ _. None };

    ghost steps = { λ _. None };

    fn open(&self, name: &str) -> Result<R::File, FileCause> {
        fs::open(self.rt, name).map_err(FileCause::from)
    }

    fn create(&mut self, name: &str, mode: Option<u32>) -> Result<R::File, FileCause> {
        let mut how = OpenOptions::new();
        how.write(true).create_new(true);
        how.mode(mode.unwrap_or(MODE_OF_NEW));
        how.open(self.rt, name).map_err(cause_of_create)
    }

    fn allow(&mut self, file: &mut R::File, mode: u32) -> Result<(), FileCause> {
        file.set_permissions(Permissions::from_mode(mode))
            .map_err(FileCause::from)
    }

    fn write(&mut self, file: &mut R::File, text: &[u8]) -> Result<usize, FileCause> {
        write_again(file, text).map_err(FileCause::from)
    }

    fn sync(&mut self, file: &mut R::File) -> Result<(), FileCause> {
        file.sync_all().map_err(FileCause::from)
    }

    fn rename(&mut self, from: &str, to: &str) -> Result<(), FileCause> {
        fs::rename(self.rt, from, to).map_err(FileCause::from)
    }

    fn remove(&mut self, name: &str) {
        let _ = fs::remove_file(self.rt, name);
    }

    fn sync_folder(&mut self, name: &str) -> Result<(), FileCause> {
        // a folder that may not be read can be written all the same
        let Ok(folder) = fs::open(self.rt, folder_of(name)) else {
            return Ok(());
        };
        match folder.sync_all() {
            Ok(()) => Ok(()),
            Err(fault) => sync_failed(fault),
        }
    }
}
