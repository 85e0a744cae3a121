use crate::cause::{FileCause, FileFault};
use std::alloc::{AllocError, Global};
use std::io::ErrorKind;
use std::os::unix::fs::PermissionsExt;
use std::{fs, rt};

/// How many symbolic links are followed, as the system does.
const LINKS_MOST: u32 = 40;

/// Which bits of a file's mode are kept: what its owner, its group and all others may do.
const MODE_MASK: u32 = 0o777;

/// Where a link leads: its text, relative to the folder that it is in.
fn target_of(alloc: Global, link: &str, text: &str) -> Result<String, AllocError> {
    match link.rsplit_once('/') {
        Some((folder, _)) if !text.starts_with('/') => format!(in alloc; "{folder}/{text}"),
        _ => String::from_str(alloc, text),
    }
}

/// The path that a symbolic link leads to, or None if no link can be read there.
fn next_place<R: rt::Files + AllocGlobal>(
    rt: &R,
    place: &str,
) -> Result<Option<String>, FileFault> {
    match fs::read_link(rt, place) {
        Ok(text) => match text.to_str() {
            Some(text) => Ok(Some(target_of(rt.alloc(), place, text)?)),
            None => Err(FileFault::Failed(FileCause::NotText)),
        },
        Err(fault) if fault.kind() == ErrorKind::OutOfMemory => Err(FileFault::NoMemory),
        Err(_) => Ok(None),
    }
}

/// The path behind all symbolic links, or the same one if it is none. Nothing needs to be there.
pub fn followed<R: rt::Files + AllocGlobal>(rt: &R, path: &str) -> Result<String, FileFault> {
    let mut place = String::from_str(rt.alloc(), path)?;
    for _ in 0..LINKS_MOST {
        match next_place(rt, place.as_str())? {
            Some(next) => place = next,
            None => return Ok(place),
        }
    }
    Err(FileFault::Failed(FileCause::Links))
}

/// The permission bits of the file at a path, or None if the system shows nothing there. A folder, a device or a pipe is no
/// place for a file: a rename would put one there instead.
pub fn mode_at<R: rt::Files>(rt: &R, path: &str) -> Result<Option<u32>, FileCause> {
    match fs::metadata(rt, path) {
        Ok(there) if there.is_file() => Ok(Some(there.permissions().mode() & MODE_MASK)),
        Ok(there) if there.is_dir() => Err(FileCause::Folder),
        Ok(_) => Err(FileCause::NotAFile),
        Err(_) => Ok(None),
    }
}
