ghost use Rattle.std.specs.Prelude.{◌≡◌, IfOk};
ghost use Rattle.shared_edit.specs.Drafts.{draft_content, IsDraft};

use collection::{Names, TextIndex, can_index, index_text};
use gcl_model::Bytes;
use std::alloc::{AllocError, Global};
use std::marker::Model;

/// A file that is to be added: all that can be made of it before the lock is taken. Contracts see its name and its bytes.
#[derive(Drop)]
pub(crate) struct Draft {
    pub(crate) name: Bytes,
    pub(crate) bytes: Bytes,
    // If it could not be made ahead, the engine makes it as the file is added.
    pub(crate) index: Option<TextIndex>,
}

impl Model for Draft {
    ghost use Rattle.shared_edit.specs.Drafts.{DraftContent, draft_content, IsDraft};

    ghost Value = { DraftContent };

    ghost view = { λ d. draft_content d.name d.bytes };

    ghost invariant = { λ d. IsDraft d.bytes d.index };
}

/// The index of a text, if it can have one and there is memory for it.
fn index_ahead(alloc: Global, names: &mut Names, bytes: &[u8]) -> Option<TextIndex>
    ensures { IsDraft bytes.now result }
{
    if !can_index(bytes) {
        return None;
    }
    index_text(alloc, names, bytes).ok()
}

impl Draft {
    /// The draft of a file of this name and these bytes.
    pub(crate) fn of(
        alloc: Global,
        names: &mut Names,
        name: &[u8],
        bytes: &[u8],
    ) -> Result<Draft, AllocError>
        ensures { IfOk result (λ draft. draft ≡ draft_content name.now bytes.now) }
    {
        Ok(Draft {
            name: Bytes::copy_of(alloc, name)?,
            bytes: Bytes::copy_of(alloc, bytes)?,
            index: index_ahead(alloc, names, bytes),
        })
    }
}
