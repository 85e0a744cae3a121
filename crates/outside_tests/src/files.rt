// Each call and its expected answer are in one function: a test that makes many such calls in a row would be proved with all of them in
// scope.
use crate::compared::same;
use crate::lacking::{LackingDisk, Lacks};
use outside::{FileError, Files, Loaded};
use outside_std::{FileCall, FileCause, StdFiles};
use std::fs::Permissions;
use std::os::unix::fs::{PermissionsExt, symlink};
use std::path::PathBuf;
use std::process::Abort;
use std::{env, fs, io, rt};

/// A load gets this answer from the files, and leaves these bytes.
fn loads<R: AllocGlobal + Abort, F: Files>(
    rt: &R,
    files: &mut F,
    name: &[u8],
    most: u64,
    want: (Result<Loaded, FileError>, &[u8]),
) {
    let mut out = Vec::new(rt.alloc());
    same(rt, &name, &files.load(name, most, &mut out), &want.0);
    same(rt, &name, &out.as_slice(), &want.1);
}

/// A keep of these bytes is done.
fn keeps<R: Abort, F: Files>(rt: &R, files: &mut F, name: &[u8], bytes: &[u8]) {
    same(rt, &name, &files.keep(name, bytes), &Ok(()));
}

/// The files report that this call failed last, at which name, and why.
fn failed_at<R: rt::Files + AllocGlobal + Abort>(
    rt: &R,
    files: &StdFiles<'_, R>,
    call: FileCall,
    name: &[u8],
    cause: FileCause,
) {
    same(rt, &name, &files.last_call(), &Some(call));
    same(rt, &name, &files.last_fault(), &name);
    same(rt, &name, &files.last_cause(), &Some(cause));
}

/// A keep fails, and the files report why.
fn keeps_nothing<R: rt::Files + AllocGlobal + Abort>(
    rt: &R,
    files: &mut StdFiles<'_, R>,
    name: &[u8],
    cause: FileCause,
) {
    same(
        rt,
        &name,
        &files.keep(name, b"to be"),
        &Err(FileError::Failed),
    );
    failed_at(rt, files, FileCall::Keep, name, cause);
}

/// A load fails, and the files report why.
fn loads_nothing<R: rt::Files + AllocGlobal + Abort>(
    rt: &R,
    files: &mut StdFiles<'_, R>,
    name: &[u8],
    cause: FileCause,
) {
    loads(rt, files, name, 4, (Err(FileError::Failed), b""));
    failed_at(rt, files, FileCall::Load, name, cause);
}

/// How many files a folder has.
fn file_count(rt: &HostRuntime, place: &PathBuf) -> io::Result<usize> {
    Ok(fs::read_dir(rt, place)?.count())
}

/// A folder has `want` files.
fn counts<R: Abort>(rt: &R, count: usize, want: usize) {
    same(rt, &"files", &count, &want);
}

/// An empty folder of its own, for one test.
fn empty_folder(rt: &HostRuntime, name: &str) -> io::Result<PathBuf> {
    let place = env::temp_dir(rt)?.join(rt.alloc(), name)?;
    if fs::exists(rt, &place)? {
        fs::remove_dir_all(rt, &place)?;
    }
    fs::create_dir(rt, &place)?;
    Ok(place)
}

/// The path as a name of the files.
fn name_of(path: &PathBuf) -> &[u8] {
    path.to_str().unwrap_or("").as_bytes()
}

/// A keep in a folder is done.
fn keeps_in<R: AllocGlobal + Abort, F: Files>(
    rt: &R,
    files: &mut F,
    place: &PathBuf,
    name: &str,
    bytes: &[u8],
) -> io::Result<()> {
    let path = place.join(rt.alloc(), name)?;
    keeps(rt, files, name_of(&path), bytes);
    Ok(())
}

/// A load of at most nine bytes from a folder gives all of these.
fn loads_in<R: AllocGlobal + Abort, F: Files>(
    rt: &R,
    files: &mut F,
    place: &PathBuf,
    name: &str,
    content: &[u8],
) -> io::Result<()> {
    let path = place.join(rt.alloc(), name)?;
    loads(rt, files, name_of(&path), 9, (Ok(Loaded::Whole), content));
    Ok(())
}

/// Five bytes in a folder are loaded whole, and a load of at most four is too short for them.
fn loads_at_most<R: AllocGlobal + Abort, F: Files>(
    rt: &R,
    files: &mut F,
    place: &PathBuf,
) -> io::Result<()> {
    let path = place.join(rt.alloc(), "a")?;
    keeps(rt, files, name_of(&path), b"to be");
    let cases = [(5, Ok(Loaded::Whole)), (4, Ok(Loaded::Long))];
    for (most, want) in cases {
        let content = b"to be".as_slice();
        loads(rt, files, name_of(&path), most, (want, content));
    }
    Ok(())
}

/// Loads of what is not text, not there, or a folder fail.
fn loads_no_other<R: rt::Files + AllocGlobal + Abort>(
    rt: &R,
    files: &mut StdFiles<'_, R>,
    place: &PathBuf,
) -> io::Result<()> {
    let path = place.join(rt.alloc(), "b")?;
    loads_nothing(rt, files, b"\xff", FileCause::NotText);
    loads_nothing(rt, files, name_of(&path), FileCause::NotThere);
    loads_nothing(rt, files, name_of(place), FileCause::Folder);
    Ok(())
}

#[test]
fn files_load_what_is_there_and_tell_where_they_failed(rt: HostRuntime) -> io::Result<()> {
    let place = empty_folder(&rt, "gclq_outside_std_load")?;
    let mut files = StdFiles::new(&rt);
    same(&rt, &"no fault", &files.last_fault(), &b"".as_slice());
    loads_at_most(&rt, &mut files, &place)?;
    loads_no_other(&rt, &mut files, &place)?;
    fs::remove_dir_all(&rt, &place)
}

/// Each content that is kept is loaded, and the other file has what it had.
fn loads_what_is_kept<R: AllocGlobal + Abort, F: Files>(
    rt: &R,
    files: &mut F,
    place: &PathBuf,
) -> io::Result<()> {
    for content in [b"to be".as_slice(), b"", b"or not"] {
        keeps_in(rt, files, place, "a", content)?;
        keeps_in(rt, files, place, "b", b"to be")?;
        loads_in(rt, files, place, "a", content)?;
    }
    loads_in(rt, files, place, "b", b"to be")
}

/// Keeps under what is not a name of a file fail.
fn keeps_no_other<R: rt::Files + AllocGlobal + Abort>(
    rt: &R,
    files: &mut StdFiles<'_, R>,
    place: &PathBuf,
) {
    let cases = [
        (b"\xff".as_slice(), FileCause::NotText),
        (b"", FileCause::NotThere),
        (name_of(place), FileCause::Folder),
        (b"/dev/null", FileCause::NotAFile),
    ];
    for (name, cause) in cases {
        keeps_nothing(rt, files, name, cause);
    }
}

#[test]
fn what_is_kept_is_loaded_and_nothing_else_changes(rt: HostRuntime) -> io::Result<()> {
    let place = empty_folder(&rt, "gclq_outside_std_keep")?;
    let mut files = StdFiles::new(&rt);
    loads_what_is_kept(&rt, &mut files, &place)?;
    counts(&rt, file_count(&rt, &place)?, 2);
    keeps_no_other(&rt, &mut files, &place);
    counts(&rt, file_count(&rt, &place)?, 2);
    fs::remove_dir_all(&rt, &place)
}

/// A keep on this disk fails.
fn does_not_keep<R: rt::Files + AllocGlobal + Abort>(rt: &R, disk: &LackingDisk<'_>, name: &[u8]) {
    let mut files = StdFiles::new(disk);
    same(
        rt,
        &name,
        &files.keep(name, b"or not"),
        &Err(FileError::Failed),
    );
    same(rt, &name, &files.last_fault(), &name);
}

/// A keep on this disk fails, and the file has its old content.
fn leaves_the_old_content<R: rt::Files + AllocGlobal + Abort>(
    rt: &R,
    disk: &LackingDisk<'_>,
    place: &PathBuf,
) -> io::Result<()> {
    let path = place.join(rt.alloc(), "a")?;
    does_not_keep(rt, disk, name_of(&path));
    loads_in(rt, &mut StdFiles::new(rt), place, "a", b"to be")
}

/// A keep on this disk is done, whatever was left behind.
fn takes_the_new_content<R: rt::Files + AllocGlobal + Abort>(
    rt: &R,
    disk: &LackingDisk<'_>,
    place: &PathBuf,
) -> io::Result<()> {
    keeps_in(rt, &mut StdFiles::new(disk), place, "a", b"or not")?;
    loads_in(rt, &mut StdFiles::new(rt), place, "a", b"or not")
}

#[test]
fn a_full_disk_and_a_killed_program_leave_the_old_content(rt: HostRuntime) -> io::Result<()> {
    let place = empty_folder(&rt, "gclq_outside_std_full")?;
    keeps_in(&rt, &mut StdFiles::new(&rt), &place, "a", b"to be")?;
    // how many files are left: a killed program leaves what it had written next to the name
    let cases = [
        (Lacks::Room(0), 1),
        (Lacks::Room(3), 1),
        (Lacks::Time, 2),
        (Lacks::Time, 3),
    ];
    for (lacks, want) in cases {
        leaves_the_old_content(&rt, &LackingDisk::new(&rt, lacks), &place)?;
        counts(&rt, file_count(&rt, &place)?, want);
    }
    takes_the_new_content(&rt, &LackingDisk::new(&rt, Lacks::Room(6)), &place)?;
    counts(&rt, file_count(&rt, &place)?, 3);
    fs::remove_dir_all(&rt, &place)
}

/// Puts a symbolic link with this text into a folder.
fn put_link<R: rt::Files + AllocGlobal>(
    rt: &R,
    place: &PathBuf,
    name: &str,
    text: &str,
) -> io::Result<()> {
    let path = place.join(rt.alloc(), name)?;
    symlink(rt, text, &path)
}

/// Gives a file of a folder this mode.
fn allow<R: rt::Files + AllocGlobal>(
    rt: &R,
    place: &PathBuf,
    name: &str,
    mode: u32,
) -> io::Result<()> {
    let path = place.join(rt.alloc(), name)?;
    fs::set_permissions(rt, &path, Permissions::from_mode(mode))
}

/// The mode of what is under a name of a folder.
fn has_mode<R: rt::Files + AllocGlobal + Abort>(
    rt: &R,
    place: &PathBuf,
    name: &str,
    mode: u32,
) -> io::Result<()> {
    let path = place.join(rt.alloc(), name)?;
    let bits = fs::metadata(rt, &path)?.permissions().mode() & 0o777;
    same(rt, &name, &bits, &mode);
    Ok(())
}

/// The text of the symbolic link under a name of a folder.
fn has_text<R: rt::Files + AllocGlobal + Abort>(
    rt: &R,
    place: &PathBuf,
    name: &str,
    want: Option<&str>,
) -> io::Result<()> {
    let path = place.join(rt.alloc(), name)?;
    let text = fs::read_link(rt, &path).ok();
    let text = text.as_ref().and_then(|text| text.to_str());
    same(rt, &name, &text, &want);
    Ok(())
}

/// A link that leads to nothing at first is followed, and the file that it leads to keeps its mode.
fn follows_a_link<R: rt::Files + AllocGlobal + Abort>(
    rt: &R,
    files: &mut StdFiles<'_, R>,
    place: &PathBuf,
) -> io::Result<()> {
    put_link(rt, place, "link", "a")?;
    keeps_in(rt, files, place, "link", b"to be")?;
    allow(rt, place, "a", 0o640)?;
    keeps_in(rt, files, place, "link", b"or not")?;
    for (name, text) in [("a", None), ("link", Some("a"))] {
        has_mode(rt, place, name, 0o640)?;
        has_text(rt, place, name, text)?;
    }
    loads_in(rt, files, place, "link", b"or not")
}

/// A link that leads to itself is not followed.
fn follows_no_ring<R: rt::Files + AllocGlobal + Abort>(
    rt: &R,
    files: &mut StdFiles<'_, R>,
    place: &PathBuf,
) -> io::Result<()> {
    put_link(rt, place, "round", "round")?;
    let path = place.join(rt.alloc(), "round")?;
    keeps_nothing(rt, files, name_of(&path), FileCause::Links);
    Ok(())
}

/// Puts what a killed program left into a folder.
fn put_left<R: rt::Files + AllocGlobal>(rt: &R, place: &PathBuf) -> io::Result<()> {
    let path = place.join(rt.alloc(), ".gclq-0.new")?;
    fs::write(rt, &path, "left")
}

#[test]
fn a_keep_follows_links_and_leaves_modes_and_other_files(rt: HostRuntime) -> io::Result<()> {
    let place = empty_folder(&rt, "gclq_outside_std_links")?;
    put_left(&rt, &place)?;
    let mut files = StdFiles::new(&rt);
    follows_a_link(&rt, &mut files, &place)?;
    loads_in(&rt, &mut files, &place, ".gclq-0.new", b"left")?;
    follows_no_ring(&rt, &mut files, &place)?;
    counts(&rt, file_count(&rt, &place)?, 4);
    fs::remove_dir_all(&rt, &place)
}
