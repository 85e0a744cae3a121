ghost use Rattle.std.specs.Prelude.{◌≡◌, ◌≤◌, [], length, IfOk, IfSome};
ghost use Rattle.gcl_model.specs.FormOf.{form_of};
ghost use Rattle.gcl_model.specs.Limits.{most_file};
ghost use Rattle.gcl_model.specs.WellFormed.{IsWellFormed};
ghost use Rattle.grep_run.specs.Requests.{request_of};
ghost use Rattle.grep_run.specs.Visits.{searched};
ghost use Rattle.grep_run.specs.inner.Works.{AreSound, IsFound, IsRight, fate_of};

use crate::buffer::large_buffer;
use crate::one_file::MOST_FILE;
use crate::taking::Taking;
use crate::wish::Wish;
use crate::work::{Gone, Work, answer};
use gcl_model::Bytes;
use outside::{FileError, Files, Loaded};
use std::alloc::{AllocError, Global};
use std::mem;
use std::snapshot::Snapshot;

/// What one thread has: its own handle to the files, a buffer that they are loaded into, and what it found.
#[derive(Drop)]
pub(crate) struct Hand<D> {
    pub(crate) files: D,
    pub(crate) buffer: Vec<u8>,
    pub(crate) works: Vec<Work>,
    /// There was no memory to go on.
    pub(crate) lacks_memory: bool,
}

/// Searches what was loaded. If there is no room or memory for its text, the bytes are kept.
fn search(alloc: Global, wish: &Wish<'_>, name: &[u8], buffer: &mut Vec<u8>) -> Gone
    requires well_formed { IsWellFormed (form_of wish.now.asking.expr.now) }
    requires short { length buffer.old.items ≤ most_file }
    ensures right { IsRight (request_of wish.now) name.now result }
    ensures fate { fate_of result ≡ searched buffer.old.items }
{
    match answer(alloc, wish, name, buffer.as_slice()) {
        Some(answered) => Gone::Searched(Snapshot::of(buffer), answered),
        None => Gone::Loaded(Bytes::of(mem::replace(buffer, large_buffer(alloc)))),
    }
}

/// Loads and searches a file. Returns None if it cannot be loaded.
fn load<D: Files>(
    alloc: Global,
    wish: &Wish<'_>,
    name: &[u8],
    files: &mut D,
    buffer: &mut Vec<u8>,
) -> Result<Option<Gone>, AllocError>
    requires well_formed { IsWellFormed (form_of wish.now.asking.expr.now) }
    ensures found { IfOk result (λ gone. IfSome gone (IsFound (D.held files.old) (request_of wish.now) name.now)) }
    ensures held { D.held files.new ≡ D.held files.old }
{
    match files.load(name, MOST_FILE, buffer) {
        Ok(Loaded::Whole) => Ok(Some(search(alloc, wish, name, buffer))),
        Ok(Loaded::Long) => Ok(Some(Gone::TooLong)),
        Err(FileError::Failed) => Ok(None),
        Err(FileError::NoMemory) => Err(AllocError),
    }
}

/// Visits a file, and keeps what is found. A file that cannot be loaded is left for its turn.
fn go_to<D: Files>(
    alloc: Global,
    wish: &Wish<'_>,
    place: usize,
    name: &Bytes,
    taking: &Taking,
    hand: &mut Hand<D>,
) -> Result<(), AllocError>
    requires well_formed { IsWellFormed (form_of wish.now.asking.expr.now) }
    requires sound { AreSound (D.held hand.old.files) (request_of wish.now) hand.old.works.items }
    ensures sound { AreSound (D.held hand.old.files) (request_of wish.now) hand.new.works.items }
    ensures held { D.held hand.new.files ≡ D.held hand.old.files }
{
    hand.works.reserve(1)?;
    let copy = name.copy()?;
    let gone = load(
        alloc,
        wish,
        name.as_slice(),
        &mut hand.files,
        &mut hand.buffer,
    )?;
    if let Some(gone) = gone {
        let work = Work {
            place,
            name: copy,
            gone,
        };
        taking.note(hand.buffer.len(), work.size());
        hand.works.push(work)?;
    }
    Ok(())
}

/// Visits files while there are some to take.
pub(crate) fn go_to_taken<D: Files>(
    alloc: Global,
    wish: &Wish<'_>,
    names: &[Bytes],
    taking: &Taking,
    hand: &mut Hand<D>,
)
    requires well_formed { IsWellFormed (form_of wish.now.asking.expr.now) }
    ensures sound { AreSound (D.held hand.old.files) (request_of wish.now) hand.new.works.items }
    ensures held { D.held hand.new.files ≡ D.held hand.old.files }
{
    hand.works.clear();
    for _ in 0..names.len() {
        let Some(place) = taking.take() else {
            return;
        };
        let Some(name) = names.get(place) else {
            return;
        };
        if go_to(alloc, wish, place, name, taking, hand).is_err() {
            hand.lacks_memory = true;
            return;
        }
    }
}
