ghost use Rattle.std.specs.Prelude.{◌≡◌, ℕ, ◌+◌, ◌<◌, true, ◌⊎◌, IfOk, OnOk, IsErrOf};
ghost use mathlib.Core.List.{IsPrefix};
ghost use Rattle.shared_edit.specs.declared.faults.StaleSlot.{StaleSlot};
ghost use Rattle.shared_edit.specs.declared.faults.SettleFault.TheVariants.{Stale};
ghost use Rattle.address_space.specs.declared.file_id.FileId.{FileId};
ghost use Rattle.gcl_model.specs.Names.{is_name};
ghost use Rattle.gcl_model.specs.Tokens.{tokens_of};
ghost use Rattle.manifest_publish.specs.Accounts.{Account};
ghost use Rattle.shared_edit.specs.Books.{BookContent};
ghost use Rattle.shared_edit.specs.Shared.{EndsInAdd, EndsInDelete, HasCounts, MayHaveEntered, ShowsNotLive};
ghost use Rattle.shared_edit.specs.Shared.{ShowsSpent, ShowsStale, TookPlan, WentAlone};
ghost use Rattle.shared_edit.specs.declared.faults.FiledAddFault.TheVariants.{AddressesSpent as Spent, NoMemory as AddNoMemory};
ghost use Rattle.shared_edit.specs.declared.faults.FiledDeleteFault.TheVariants.{NotLive, NoMemory as DeleteNoMemory};

use crate::book::Book;
use crate::draft::Draft;
use crate::editor::Editor;
use crate::faults::{FiledAddFault, FiledDeleteFault, SettleFault};
use crate::naming::Naming;
use crate::plan::Plan;
use address_space::FileId;
use collection::Added;
use manifest_publish::{Reader, Receipt};
use std::marker::{Model, PhantomData};
use std::mem::ManuallyDrop;
use std::sync::ledger::Ledger;
use std::sync::{Mutex, Wait};

/// What is under the lock: a book whose engine has the publisher of `J`.
pub struct Kept<A: Ledger, G: Ledger, S: Ledger, J: Naming> {
    // It cannot be dropped, and a guard's own drop would require that.
    book: ManuallyDrop<Book<A, G, S>>,
    of: PhantomData<J>,
}

impl<A: Ledger, G: Ledger, S: Ledger, J: Naming> Model for Kept<A, G, S, J> {
    ghost use Rattle.std.specs.Prelude.{◌≡◌};
    ghost use Rattle.std.specs.Mem.{manually_drop_value};
    ghost use Rattle.shared_edit.specs.Books.{BookContent};

    ghost Value = { BookContent };

    ghost view = { λ k. manually_drop_value k.book };

    ghost invariant = { λ k. (manually_drop_value k.book).engine.publisher ≡ J.publisher };
}

impl<A: Ledger, G: Ledger, S: Ledger, J: Naming> Kept<A, G, S, J> {
    fn into_book(self) -> Book<A, G, S>
        ensures value { result ≡ self }
        ensures publisher { result.engine.publisher ≡ J.publisher }
    {
        let Kept { book, of: _ } = self;
        ManuallyDrop::into_inner(book)
    }

    fn add<R: Wait>(
        &mut self,
        rt: &R,
        editor: &mut Editor<A, G, S>,
        draft: Draft,
    ) -> Result<Added, FiledAddFault>
        requires { is_name draft.name ≡ true }
        ensures receipt { IfOk result (λ added. (added.receipt.publisher ≡ J.publisher) ×
            EndsInAdd added.receipt.history draft.name (tokens_of draft.bytes) added) }
        ensures counts { IfOk result (λ added. HasCounts added.receipt.history editor.new) }
        ensures added { OnOk result (editor.new ≡ record editor.old { added = editor.old.added + 1 }) }
        ensures spent { (need : ℕ) → (seen : Account) → IsErrOf result (Spent need seen) → (seen.publisher ≡ J.publisher) ×
            ShowsSpent (tokens_of draft.bytes) need seen.history }
        ensures refused { (need : ℕ) → (seen : Account) → IsErrOf result (Spent need seen) →
            editor.new ≡ record editor.old { refused = editor.old.refused + 1 } }
        ensures no_memory { IsErrOf result AddNoMemory → editor.new ≡ editor.old }
    {
        self.book.add_drafted(rt, editor, draft)
    }

    fn delete<R: Wait>(
        &mut self,
        rt: &R,
        editor: &mut Editor<A, G, S>,
        id: FileId,
    ) -> Result<Receipt, FiledDeleteFault>
        ensures receipt { IfOk result (λ receipt. (receipt.publisher ≡ J.publisher) × EndsInDelete receipt.history id.0) }
        ensures counts { IfOk result (λ receipt. HasCounts receipt.history editor.new) }
        ensures gone { OnOk result (editor.new ≡ record editor.old { gone = editor.old.gone + 1 }) }
        ensures not_live { (other : FileId) → (seen : Account) → IsErrOf result (NotLive other seen) → (other ≡ id) ×
            (seen.publisher ≡ J.publisher) ×
            ShowsNotLive id.0 seen.history × HasCounts seen.history editor.new }
        ensures refused { (other : FileId) → (seen : Account) → IsErrOf result (NotLive other seen) →
            editor.new ≡ record editor.old { refused = editor.old.refused + 1 } }
        ensures no_memory { IsErrOf result DeleteNoMemory → editor.new ≡ editor.old }
    {
        self.book.delete(rt, editor, id)
    }
}

impl<A: Ledger, G: Ledger, S: Ledger, J: Naming> Kept<A, G, S, J> {
    fn settle<R: Wait>(
        &mut self,
        rt: &R,
        reader: &mut Reader,
        plan: Plan,
    ) -> Result<Receipt, SettleFault>
        requires reader { reader.old.publisher ≡ J.publisher }
        requires plan { IsPrefix plan.list reader.old.seen }
        ensures publisher { IfOk result (λ receipt. receipt.publisher ≡ J.publisher) }
        ensures ok { IfOk result (λ receipt. TookPlan reader.new plan receipt.history ⊎ WentAlone reader.new receipt.history) }
        ensures stale { (stale : StaleSlot) → IsErrOf result (Stale stale) → (stale.seen.publisher ≡ J.publisher) × ShowsStale plan stale }
        ensures entered { MayHaveEntered reader.old reader.new }
    {
        self.book.settle(rt, reader, plan)
    }
}

/// An engine that several editors share, under a lock.
pub struct SharedEngine<A: Ledger, G: Ledger, S: Ledger, J: Naming> {
    lock: Mutex<Kept<A, G, S, J>>,
}

impl<A: Ledger, G: Ledger, S: Ledger, J: Naming> SharedEngine<A, G, S, J> {
    /// Puts the book under the lock.
    pub fn over(book: Book<A, G, S>) -> SharedEngine<A, G, S, J>
        requires { book.engine.publisher ≡ J.publisher }
    {
        let book = unsafe { ManuallyDrop::new_unchecked(book) };
        SharedEngine {
            lock: Mutex::new(Kept {
                book,
                of: PhantomData,
            }),
        }
    }

    /// The book, from under the lock.
    pub(crate) fn into_book(self) -> Book<A, G, S>
        ensures { result.engine.publisher ≡ J.publisher }
    {
        let SharedEngine { lock } = self;
        lock.into_inner().into_book()
    }

    /// Adds a file for an editor. Its index is made before the lock is taken, and under the lock it is only placed, published and filed.
    pub fn add<R: Wait>(
        &self,
        rt: &R,
        editor: &mut Editor<A, G, S>,
        name: &[u8],
        bytes: &[u8],
    ) -> Result<Added, FiledAddFault>
        requires { is_name name.now ≡ true }
        ensures receipt { IfOk result (λ added. (added.receipt.publisher ≡ J.publisher) ×
            EndsInAdd added.receipt.history name.now (tokens_of bytes.now) added) }
        ensures counts { IfOk result (λ added. HasCounts added.receipt.history editor.new) }
        ensures added { OnOk result (editor.new ≡ record editor.old { added = editor.old.added + 1 }) }
        ensures spent { (need : ℕ) → (seen : Account) → IsErrOf result (Spent need seen) → (seen.publisher ≡ J.publisher) ×
            ShowsSpent (tokens_of bytes.now) need seen.history }
        ensures refused { (need : ℕ) → (seen : Account) → IsErrOf result (Spent need seen) →
            editor.new ≡ record editor.old { refused = editor.old.refused + 1 } }
        ensures no_memory { IsErrOf result AddNoMemory → editor.new ≡ editor.old }
    {
        let draft = editor.draft(name, bytes)?;
        self.lock.lock(rt).add(rt, editor, draft)
    }

    /// Deletes a file for an editor.
    pub fn delete<R: Wait>(
        &self,
        rt: &R,
        editor: &mut Editor<A, G, S>,
        id: FileId,
    ) -> Result<Receipt, FiledDeleteFault>
        ensures receipt { IfOk result (λ receipt. (receipt.publisher ≡ J.publisher) × EndsInDelete receipt.history id.0) }
        ensures counts { IfOk result (λ receipt. HasCounts receipt.history editor.new) }
        ensures gone { OnOk result (editor.new ≡ record editor.old { gone = editor.old.gone + 1 }) }
        ensures not_live { (other : FileId) → (seen : Account) → IsErrOf result (NotLive other seen) → (other ≡ id) ×
            (seen.publisher ≡ J.publisher) ×
            ShowsNotLive id.0 seen.history × HasCounts seen.history editor.new }
        ensures refused { (other : FileId) → (seen : Account) → IsErrOf result (NotLive other seen) →
            editor.new ≡ record editor.old { refused = editor.old.refused + 1 } }
        ensures no_memory { IsErrOf result DeleteNoMemory → editor.new ≡ editor.old }
    {
        self.lock.lock(rt).delete(rt, editor, id)
    }

    /// Settles a plan by what the reader finds once it has learnt the engine's receipt.
    pub fn settle<R: Wait>(
        &self,
        rt: &R,
        reader: &mut Reader,
        plan: Plan,
    ) -> Result<Receipt, SettleFault>
        requires reader { reader.old.publisher ≡ J.publisher }
        requires plan { IsPrefix plan.list reader.old.seen }
        ensures publisher { IfOk result (λ receipt. receipt.publisher ≡ J.publisher) }
        ensures ok { IfOk result (λ receipt. TookPlan reader.new plan receipt.history ⊎ WentAlone reader.new receipt.history) }
        ensures stale { (stale : StaleSlot) → IsErrOf result (Stale stale) → (stale.seen.publisher ≡ J.publisher) × ShowsStale plan stale }
        ensures entered { MayHaveEntered reader.old reader.new }
    {
        self.lock.lock(rt).settle(rt, reader, plan)
    }
}
