ghost use Rattle.std.specs.Prelude.{◌≡◌, ◌⊎◌, ◌+◌, ◌<◌, ◌≤◌, ◌^◌, true, IsTrue};
ghost use Rattle.gcl_model.specs.Limits.{most_made};
ghost use Rattle.gcl_model.specs.Names.{is_name};
ghost use Rattle.share_run.specs.Work.{HasEdited, TakesOne};

use crate::names::put_name;
use crate::options::ShareOptions;
use address_space::FileId;
use made_corpus::MadeFiles;
use outside::Files;
use shared_edit::{Editor, FiledAddFault, FiledDeleteFault, Naming, SharedEngine};
use std::alloc::Global;
use std::sync::Wait;
use std::sync::ledger::Ledger;

// A made file has at most 219 items of at most four bytes, with spaces between them.
const FILE_MOST: u64 = 65_536;

/// How far an editor has come.
#[derive(Drop)]
struct Progress {
    // how many of its adds were accepted since it last called a deletion
    taken: u64,
    // how many deletions it called
    dels: u64,
}

/// One made file: its name and its bytes, and the corpus that they come from.
#[derive(Drop)]
struct Draft {
    files: MadeFiles,
    name: Vec<u8>,
    bytes: Vec<u8>,
}

/// Deletes a file again. Returns false if there was no memory.
fn delete_again<A: Ledger, G: Ledger, S: Ledger, J: Naming, R: Wait>(
    rt: &R,
    shared: &SharedEngine<A, G, S, J>,
    editor: &mut Editor<A, G, S>,
    id: FileId,
) -> bool
    ensures { IsTrue result → (editor.new ≡ record editor.old { gone = editor.old.gone + 1 }) ⊎
        (editor.new ≡ record editor.old { refused = editor.old.refused + 1 }) }
{
    match shared.delete(rt, editor, id) {
        Ok(_) => true,
        Err(FiledDeleteFault::NotLive { id: _, seen: _ }) => true,
        Err(FiledDeleteFault::NoMemory) => false,
    }
}

/// Adds one file, and deletes it again if it is the third accepted since the last deletion. Returns false if there was no memory.
fn edit_file<A: Ledger, G: Ledger, S: Ledger, J: Naming, R: Wait>(
    rt: &R,
    shared: &SharedEngine<A, G, S, J>,
    editor: &mut Editor<A, G, S>,
    progress: &mut Progress,
    name: &[u8],
    bytes: &[u8],
) -> bool
    requires name { is_name name.now ≡ true }
    requires progress { (progress.old.taken < 3) × (progress.old.dels < 2 ^ 63) }
    ensures { IsTrue result → TakesOne editor.old progress.old.taken progress.old.dels editor.new progress.new.taken progress.new.dels }
{
    match shared.add(rt, editor, name, bytes) {
        Ok(added) => {
            if progress.taken < 2 {
                progress.taken += 1;
                return true;
            }
            progress.taken = 0;
            progress.dels += 1;
            delete_again(rt, shared, editor, added.id)
        }
        Err(FiledAddFault::AddressesSpent { need: _, seen: _ }) => true,
        Err(FiledAddFault::NoMemory) => false,
    }
}

/// Puts made file `i` into the draft. Returns false if there was no memory.
fn put_draft(draft: &mut Draft, i: u64) -> bool
    ensures { IsTrue result → is_name draft.new.name.items ≡ true }
{
    let Draft { files, name, bytes } = draft;
    if put_name(name, i).is_err() {
        return false;
    }
    files.load(name.as_slice(), FILE_MOST, bytes).is_ok()
}

/// Adds made file `i`, and deletes it again if it is the third accepted since the last deletion. Returns false if there was no memory.
fn edit_made<A: Ledger, G: Ledger, S: Ledger, J: Naming, R: Wait>(
    rt: &R,
    shared: &SharedEngine<A, G, S, J>,
    editor: &mut Editor<A, G, S>,
    progress: &mut Progress,
    draft: &mut Draft,
    i: u64,
) -> bool
    requires { (progress.old.taken < 3) × (progress.old.dels < 2 ^ 63) }
    ensures { IsTrue result → TakesOne editor.old progress.old.taken progress.old.dels editor.new progress.new.taken progress.new.dels }
{
    if !put_draft(draft, i) {
        return false;
    }
    edit_file(
        rt,
        shared,
        editor,
        progress,
        draft.name.as_slice(),
        draft.bytes.as_slice(),
    )
}

/// One editor's work: it takes the files whose number divided by the number of editors leaves its own number. Returns false if there was
/// no memory, and then the work ended there.
pub fn edit_own<A: Ledger, G: Ledger, S: Ledger, J: Naming, R: Wait>(
    rt: &R,
    alloc: Global,
    shared: &SharedEngine<A, G, S, J>,
    editor: &mut Editor<A, G, S>,
    options: &ShareOptions,
) -> bool
    requires some { 0 < options.now.editors }
    requires few { options.now.count ≤ most_made }
    ensures { IsTrue result → HasEdited options.now.editors options.now.count editor.old editor.new }
{
    let number = editor.number();
    let mut progress = Progress { taken: 0, dels: 0 };
    let mut draft = Draft {
        files: MadeFiles::new(alloc, options.start, options.count),
        name: Vec::new(alloc),
        bytes: Vec::new(alloc),
    };
    let editors = options.editors;
    let count = options.count;
    for i in 0..count {
        let own = i % editors == number;
        if own && !edit_made(rt, shared, editor, &mut progress, &mut draft, i) {
            return false;
        }
    }
    true
}
