ghost use Rattle.std.specs.Prelude.{◌≡◌, ℕ, ◌+◌, ◌<◌, ◌≤◌, ◌^◌, true, [], ◌∷◌, ◌++◌, length, vec_len, vec_capacity};
ghost use Rattle.std.specs.Prelude.{None, Some, Ok, IfOk, OnOk, OnErr, IsErrOf, ◌⊎◌};
ghost use mathlib.Core.List.{IsPrefix};
ghost use Rattle.shared_edit.specs.Settling.{GoesByItself, HasEntered, IsStaleFor, TakesPlan};
ghost use Rattle.shared_edit.specs.declared.faults.StaleSlot.{StaleSlot};
ghost use Rattle.shared_edit.specs.declared.faults.SettleFault.TheVariants.{Stale};
ghost use Rattle.address_space.specs.declared.file_id.FileId.{FileId};
ghost use Rattle.gcl_model.specs.Collections.{width_of};
ghost use Rattle.gcl_model.specs.Limits.{address_end};
ghost use Rattle.gcl_model.specs.Names.{is_name};
ghost use Rattle.gcl_model.specs.Tokens.{tokens_of};
ghost use Rattle.live_version.specs.Changes.{file_with_id};
ghost use Rattle.live_version.specs.Contents.{files_of};
ghost use Rattle.manifest_publish.specs.Accounts.{Account, EndsWith};
ghost use Rattle.collection.specs.Changes.{IsAdd, IsDelete};
ghost use Rattle.collection.specs.declared.faults.AddFault.TheVariants.{AddressesSpent as NoRoom, NoMemory};
ghost use Rattle.collection.specs.Engines.{engine_content, published};
ghost use Rattle.live_version.specs.Changes.{empty_version};
ghost use Rattle.shared_edit.specs.Books.{BookContent, IsBook, IsJournalOf, book_content, FilesAdd, FilesGone, FilesNotLive, FilesSpent};
ghost use Rattle.shared_edit.specs.Books.{added_entry, gone_entry, not_live_entry, spent_entry};
ghost use Rattle.shared_edit.specs.Drafts.{IsDraft};
ghost use Rattle.shared_edit.specs.Histories.{count_of, is_added, is_gone, is_refused};
ghost use Rattle.shared_edit.specs.declared.entry.EditReply.TheVariants.{Added as WasAdded, Spent as WasSpent};
ghost use Rattle.shared_edit.specs.declared.faults.FiledAddFault.TheVariants.{AddressesSpent as Spent, NoMemory as AddNoMemory};
ghost use Rattle.shared_edit.specs.declared.faults.FiledDeleteFault.TheVariants.{NotLive, NoMemory as DeleteNoMemory};

use crate::draft::Draft;
use crate::editor::{Editor, Shares};
use crate::entry::{Edit, EditReply, Entry};
use crate::faults::{FiledAddFault, FiledDeleteFault, SettleFault};
use crate::plan::Plan;
use crate::settle::settle_in;
use address_space::FileId;
use collection::{AddFault, Added, DeleteFault, Engine, TextIndex};
use manifest_publish::{Pass, Reader, Receipt};
use std::alloc::AllocError;
use std::marker::Model;
use std::sync::Wait;
use std::sync::ledger::{self, Ledger};

/// The engine with the journal of all edits, and the totals of the replies.
pub struct Book<A: Ledger, G: Ledger, S: Ledger> {
    engine: Engine,
    journal: Vec<Entry>,
    added: ledger::Book<A>,
    gone: ledger::Book<G>,
    refused: ledger::Book<S>,
}

impl<A: Ledger, G: Ledger, S: Ledger> Model for Book<A, G, S> {
    ghost use Rattle.shared_edit.specs.Books.{BookContent, IsBook, book_content};

    ghost Value = { BookContent };

    ghost view = { λ b. book_content b.engine b.journal.items b.added.total b.gone.total b.refused.total };

    ghost invariant = { λ b. IsBook (book_content b.engine b.journal.items b.added.total b.gone.total b.refused.total) };
}

/// Puts the entry last. There must be room for it.
fn file(journal: &mut Vec<Entry>, entry: Entry)
    requires { vec_len journal.old < vec_capacity journal.old }
    ensures journal { journal.new.items ≡ journal.old.items ++ entry ∷ [] }
    ensures few { length journal.old.items + 1 < 2 ^ 64 }
{
    match journal.push(entry) {
        Ok(()) => {
            let _few = journal.len();
        }
        Err(_) => unreachable!(),
    }
}

/// Adds a file, with the index that was made ahead if there is one.
fn place<R: Wait>(
    rt: &R,
    engine: &mut Engine,
    name: &[u8],
    bytes: &[u8],
    index: Option<TextIndex>,
) -> Result<Added, AddFault>
    requires name { is_name name.now ≡ true }
    requires index { IsDraft bytes.now index }
    ensures ok { IfOk result (IsAdd engine.old engine.new name.now (tokens_of bytes.now)) }
    ensures fits { OnOk result (engine.old.version.next + width_of (tokens_of bytes.now) ≤ address_end) }
    ensures spent { (next : ℕ) → (need : ℕ) → IsErrOf result (NoRoom next need) → (next ≡ engine.old.version.next) ×
        (need ≡ width_of (tokens_of bytes.now)) × (address_end < next + need) }
    ensures err { OnErr result (engine.new ≡ engine.old) }
{
    match index {
        Some(index) => engine.add_indexed(rt, name, index),
        None => engine.add(rt, name, bytes),
    }
}

/// The reply to file for the answer to an add, if there is one.
fn reply_to(answer: &Result<Added, AddFault>) -> Option<EditReply>
    ensures ok { IfOk answer.now (λ added. result ≡ Some (WasAdded added.id.0 added.first added.last)) }
    ensures spent { (next : ℕ) → (need : ℕ) → IsErrOf answer.now (NoRoom next need) → result ≡ Some (WasSpent next need) }
    ensures no_memory { IsErrOf answer.now NoMemory → result ≡ None }
{
    match answer {
        Ok(added) => Some(EditReply::Added(added.id.0, added.first, added.last)),
        Err(AddFault::AddressesSpent { next, need }) => Some(EditReply::Spent(*next, *need)),
        Err(AddFault::NoMemory) => None,
    }
}

/// Files the entry of an add, if there is one for its answer.
fn file_add(journal: &mut Vec<Entry>, editor: u64, edit: Edit, answer: &Result<Added, AddFault>)
    requires room { vec_len journal.old < vec_capacity journal.old }
    ensures ok { IfOk answer.now (λ added. journal.new.items ≡
        journal.old.items ++ record { editor = editor; edit = edit; reply = WasAdded added.id.0 added.first added.last } ∷ []) }
    ensures spent { (next : ℕ) → (need : ℕ) → IsErrOf answer.now (NoRoom next need) → journal.new.items ≡
        journal.old.items ++ record { editor = editor; edit = edit; reply = WasSpent next need } ∷ [] }
    ensures few { IsErrOf answer.now NoMemory ⊎ length journal.old.items + 1 < 2 ^ 64 }
    ensures no_memory { IsErrOf answer.now NoMemory → journal.new.items ≡ journal.old.items }
{
    if let Some(reply) = reply_to(answer) {
        file(
            journal,
            Entry {
                editor,
                edit,
                reply,
            },
        );
    }
}

/// The same answer; if there are too few addresses, with the pass from before it.
fn with_pass(answer: Result<Added, AddFault>, seen: Pass) -> Result<Added, FiledAddFault>
    ensures ok { IfOk result (λ added. answer ≡ Ok added) }
    ensures spent { (need : ℕ) → (pass : Account) → IsErrOf result (Spent need pass) →
        (pass ≡ seen) × (next : ℕ) × IsErrOf answer (NoRoom next need) }
    ensures no_memory { IsErrOf result AddNoMemory → IsErrOf answer NoMemory }
{
    match answer {
        Ok(added) => Ok(added),
        Err(AddFault::AddressesSpent { need, .. }) => {
            Err(FiledAddFault::AddressesSpent { need, seen })
        }
        Err(AddFault::NoMemory) => Err(FiledAddFault::NoMemory),
    }
}

/// Adds a file, and files the entry for the answer. On `NoMemory` nothing changes.
fn add_to<R: Wait>(
    rt: &R,
    engine: &mut Engine,
    journal: &mut Vec<Entry>,
    editor: u64,
    draft: Draft,
) -> Result<Added, FiledAddFault>
    requires { is_name draft.name ≡ true }
    ensures ok { IfOk result (IsAdd engine.old engine.new draft.name (tokens_of draft.bytes)) }
    ensures fits { OnOk result (engine.old.version.next + width_of (tokens_of draft.bytes) ≤ address_end) }
    ensures added { IfOk result (λ added. journal.new.items ≡ journal.old.items ++ added_entry editor draft.name draft.bytes added ∷ []) }
    ensures few { OnOk result (length journal.old.items + 1 < 2 ^ 64) }
    ensures spent { (need : ℕ) → (seen : Account) → IsErrOf result (Spent need seen) → (need ≡ width_of (tokens_of draft.bytes)) ×
        (seen ≡ published engine.old) ×
        (address_end < engine.old.version.next + need) × (engine.new ≡ engine.old) ×
        (journal.new.items ≡ journal.old.items ++ spent_entry editor draft.name draft.bytes engine.old.version.next ∷ []) ×
        (length journal.old.items + 1 < 2 ^ 64) }
    ensures no_memory { IsErrOf result AddNoMemory → (engine.new ≡ engine.old) × (journal.new.items ≡ journal.old.items) }
    ensures ends { EndsWith engine.old.history engine.old.version }
{
    let seen = engine.pass()?;
    journal.reserve(1)?;
    let Draft { name, bytes, index } = draft;
    let answer = place(rt, engine, name.as_slice(), bytes.as_slice(), index);
    file_add(journal, editor, Edit::Add(name, bytes), &answer);
    with_pass(answer, seen)
}

/// Deletes a file, and files the entry for the answer. On `NoMemory` nothing changes.
fn delete_from<R: Wait>(
    rt: &R,
    engine: &mut Engine,
    journal: &mut Vec<Entry>,
    editor: u64,
    id: FileId,
) -> Result<Receipt, FiledDeleteFault>
    ensures ok { IfOk result (IsDelete engine.old engine.new id.0) }
    ensures gone { OnOk result (journal.new.items ≡ journal.old.items ++ gone_entry editor id.0 ∷ []) }
    ensures few { OnOk result (length journal.old.items + 1 < 2 ^ 64) }
    ensures not_live { (other : FileId) → (seen : Account) → IsErrOf result (NotLive other seen) → (other ≡ id) ×
        (seen ≡ published engine.old) ×
        (file_with_id id.0 (files_of engine.old.version.slots) ≡ None) × (engine.new ≡ engine.old) ×
        (journal.new.items ≡ journal.old.items ++ not_live_entry editor id.0 ∷ []) × (length journal.old.items + 1 < 2 ^ 64) }
    ensures no_memory { IsErrOf result DeleteNoMemory → (engine.new ≡ engine.old) × (journal.new.items ≡ journal.old.items) }
    ensures ends { EndsWith engine.old.history engine.old.version }
{
    let seen = engine.pass()?;
    let edit = Edit::Del(id.0);
    journal.reserve(1)?;
    match engine.delete(rt, id) {
        Ok(receipt) => {
            let reply = EditReply::Gone;
            file(
                journal,
                Entry {
                    editor,
                    edit,
                    reply,
                },
            );
            Ok(receipt)
        }
        Err(DeleteFault::NotLive(_other)) => {
            let reply = EditReply::NotLive(id.0);
            file(
                journal,
                Entry {
                    editor,
                    edit,
                    reply,
                },
            );
            Err(FiledDeleteFault::NotLive { id, seen })
        }
        Err(DeleteFault::NoMemory) => Err(FiledDeleteFault::NoMemory),
    }
}

impl<A: Ledger, G: Ledger, S: Ledger> Book<A, G, S> {
    /// A book without entries.
    pub(crate) fn begun(
        engine: Engine,
        journal: Vec<Entry>,
        added: ledger::Book<A>,
        gone: ledger::Book<G>,
        refused: ledger::Book<S>,
    ) -> Book<A, G, S>
        requires engine { (first : ℕ) × (engine ≡ engine_content engine.publisher (empty_version first ∷ [])) }
        requires journal { journal.items ≡ [] }
        requires totals { (added.total ≡ 0) × (gone.total ≡ 0) × (refused.total ≡ 0) }
        ensures { result ≡ book_content engine [] 0 0 0 }
    {
        Book {
            engine,
            journal,
            added,
            gone,
            refused,
        }
    }

    /// Its engine and its journal. The shares must be all of each ledger.
    pub(crate) fn into_parts(self, shares: Shares<A, G, S>) -> (Engine, Vec<Entry>)
        requires parts { (shares.added.parts ≡ A.parts) × (shares.gone.parts ≡ G.parts) × (shares.refused.parts ≡ S.parts) }
        ensures engine { result.0 ≡ self.engine }
        ensures journal { result.1.items ≡ self.journal }
        ensures of { IsJournalOf result.0 result.1.items }
        ensures added { shares.added.amount ≡ count_of is_added result.1.items }
        ensures gone { shares.gone.amount ≡ count_of is_gone result.1.items }
        ensures refused { shares.refused.amount ≡ count_of is_refused result.1.items }
    {
        let Book {
            engine,
            journal,
            mut added,
            mut gone,
            mut refused,
        } = self;
        let Shares {
            added: mut all_added,
            gone: mut all_gone,
            refused: mut all_refused,
        } = shares;
        added.audit(&mut all_added);
        gone.audit(&mut all_gone);
        refused.audit(&mut all_refused);
        (engine, journal)
    }

    /// Adds a file of these bytes for an editor, and files the edit. On `NoMemory` nothing changes.
    pub fn add<R: Wait>(
        &mut self,
        rt: &R,
        editor: &mut Editor<A, G, S>,
        name: &[u8],
        bytes: &[u8],
    ) -> Result<Added, FiledAddFault>
        requires { is_name name.now ≡ true }
        ensures ok { IfOk result (FilesAdd self.old self.new editor.old.number name.now bytes.now) }
        ensures fits { OnOk result (self.old.engine.version.next + width_of (tokens_of bytes.now) ≤ address_end) }
        ensures added { OnOk result (editor.new ≡ record editor.old { added = editor.old.added + 1 }) }
        ensures spent { (need : ℕ) → (seen : Account) → IsErrOf result (Spent need seen) →
            FilesSpent self.old self.new editor.old.number name.now bytes.now need seen }
        ensures refused { (need : ℕ) → (seen : Account) → IsErrOf result (Spent need seen) →
            editor.new ≡ record editor.old { refused = editor.old.refused + 1 } }
        ensures no_memory { IsErrOf result AddNoMemory → (self.new ≡ self.old) × (editor.new ≡ editor.old) }
        ensures bounds { (editor.new.added ≤ self.new.added) × (editor.new.gone ≤ self.new.gone) }
        ensures book { IsBook self.new }
        ensures ends { EndsWith self.old.engine.history self.old.engine.version }
    {
        match editor.draft(name, bytes) {
            Ok(draft) => self.add_drafted(rt, editor, draft),
            Err(_) => {
                self.audit(editor);
                Err(FiledAddFault::NoMemory)
            }
        }
    }

    /// Changes nothing: it shows that the editor's numbers are at most the totals.
    fn audit(&mut self, editor: &mut Editor<A, G, S>)
        ensures same { (self.new ≡ self.old) × (editor.new ≡ editor.old) }
        ensures bounds { (editor.new.added ≤ self.new.added) × (editor.new.gone ≤ self.new.gone) }
        ensures book { IsBook self.new }
        ensures ends { EndsWith self.old.engine.history self.old.engine.version }
    {
        let Book {
            engine,
            journal: _journal,
            added,
            gone,
            refused: _refused,
        } = self;
        // this shows that the history ends with the version
        let _version = engine.version();
        editor.audit(added, gone);
    }

    /// The same for a draft, with all that was already made of the file.
    pub(crate) fn add_drafted<R: Wait>(
        &mut self,
        rt: &R,
        editor: &mut Editor<A, G, S>,
        draft: Draft,
    ) -> Result<Added, FiledAddFault>
        requires { is_name draft.name ≡ true }
        ensures ok { IfOk result (FilesAdd self.old self.new editor.old.number draft.name draft.bytes) }
        ensures fits { OnOk result (self.old.engine.version.next + width_of (tokens_of draft.bytes) ≤ address_end) }
        ensures added { OnOk result (editor.new ≡ record editor.old { added = editor.old.added + 1 }) }
        ensures spent { (need : ℕ) → (seen : Account) → IsErrOf result (Spent need seen) →
            FilesSpent self.old self.new editor.old.number draft.name draft.bytes need seen }
        ensures refused { (need : ℕ) → (seen : Account) → IsErrOf result (Spent need seen) →
            editor.new ≡ record editor.old { refused = editor.old.refused + 1 } }
        ensures no_memory { IsErrOf result AddNoMemory → (self.new ≡ self.old) × (editor.new ≡ editor.old) }
        ensures bounds { (editor.new.added ≤ self.new.added) × (editor.new.gone ≤ self.new.gone) }
        ensures book { IsBook self.new }
        ensures ends { EndsWith self.old.engine.history self.old.engine.version }
    {
        let Book {
            engine,
            journal,
            added,
            gone,
            refused,
        } = self;
        editor.audit(added, gone);
        match add_to(rt, engine, journal, editor.number(), draft) {
            Ok(answer) => {
                editor.rise_added(added);
                Ok(answer)
            }
            Err(FiledAddFault::AddressesSpent { need, seen }) => {
                editor.rise_refused(refused);
                Err(FiledAddFault::AddressesSpent { need, seen })
            }
            Err(FiledAddFault::NoMemory) => Err(FiledAddFault::NoMemory),
        }
    }

    /// Deletes the file with this id for an editor, and files the edit. On `NoMemory` nothing changes.
    pub fn delete<R: Wait>(
        &mut self,
        rt: &R,
        editor: &mut Editor<A, G, S>,
        id: FileId,
    ) -> Result<Receipt, FiledDeleteFault>
        ensures ok { IfOk result (FilesGone self.old self.new editor.old.number id.0) }
        ensures gone { OnOk result (editor.new ≡ record editor.old { gone = editor.old.gone + 1 }) }
        ensures not_live { (other : FileId) → (seen : Account) → IsErrOf result (NotLive other seen) → (other ≡ id) ×
            FilesNotLive self.old self.new editor.old.number id.0 seen }
        ensures refused { (other : FileId) → (seen : Account) → IsErrOf result (NotLive other seen) →
            editor.new ≡ record editor.old { refused = editor.old.refused + 1 } }
        ensures no_memory { IsErrOf result DeleteNoMemory → (self.new ≡ self.old) × (editor.new ≡ editor.old) }
        ensures bounds { (editor.new.added ≤ self.new.added) × (editor.new.gone ≤ self.new.gone) }
        ensures book { IsBook self.new }
        ensures ends { EndsWith self.old.engine.history self.old.engine.version }
    {
        let Book {
            engine,
            journal,
            added,
            gone,
            refused,
        } = self;
        editor.audit(added, gone);
        match delete_from(rt, engine, journal, editor.number(), id) {
            Ok(receipt) => {
                editor.rise_gone(gone);
                Ok(receipt)
            }
            Err(FiledDeleteFault::NotLive { id, seen }) => {
                editor.rise_refused(refused);
                Err(FiledDeleteFault::NotLive { id, seen })
            }
            Err(FiledDeleteFault::NoMemory) => Err(FiledDeleteFault::NoMemory),
        }
    }

    /// Settles a plan by what the reader finds once it has learnt the engine's receipt. The journal is unchanged.
    pub fn settle<R: Wait>(
        &mut self,
        rt: &R,
        reader: &mut Reader,
        plan: Plan,
    ) -> Result<Receipt, SettleFault>
        requires reader { reader.old.publisher ≡ self.old.engine.publisher }
        requires plan { IsPrefix plan.list reader.old.seen }
        ensures entered { HasEntered reader.old self.old.engine.history reader.new }
        ensures ok { IfOk result (λ receipt. TakesPlan self.old.engine self.new.engine reader.new plan receipt ⊎
            GoesByItself self.old.engine self.new.engine reader.new receipt) }
        ensures stale { (stale : StaleSlot) → IsErrOf result (Stale stale) → IsStaleFor self.old.engine reader.new plan stale }
        ensures err { OnErr result (self.new ≡ self.old) }
        ensures rest { self.new ≡ book_content self.new.engine self.old.journal self.old.added self.old.gone self.old.refused }
        ensures book { IsBook self.new }
        ensures ends { EndsWith self.old.engine.history self.old.engine.version }
    {
        let Book {
            engine,
            journal,
            added: _added,
            gone: _gone,
            refused: _refused,
        } = self;
        let alloc = *journal.allocator();
        // this shows that the version and the plan are valid
        let _slots = engine.version().slot_count();
        let _names = plan.names();
        settle_in(rt, alloc, engine, reader, plan)
    }
}
