ghost use Rattle.std.specs.Prelude.{◌≡◌, ◌<◌, length, slice_index_or};
ghost use Rattle.std.specs.List.{sum_by};
ghost use Rattle.shared_edit.specs.Books.{IsClosed, closed_content};
ghost use Rattle.live_version.specs.Contents.{files_of};
ghost use Rattle.shared_edit.specs.Histories.{count_of, is_added, is_gone, is_refused};

use crate::book::Book;
use crate::editor::{Editor, gathered};
use crate::entry::Entry;
use crate::naming::Naming;
use crate::shared::SharedEngine;
use collection::Engine;
use std::marker::Model;
use std::sync::ledger::Ledger;

/// All edits that were answered, in order.
#[derive(Drop)]
pub struct Journal {
    entries: Vec<Entry>,
}

impl Model for Journal {
    ghost use Rattle.std.specs.Prelude.{List};
    ghost use Rattle.shared_edit.specs.declared.entry.Entry.{Entry};

    ghost Value = { List Entry };

    ghost view = { λ j. j.entries.items };
}

impl Journal {
    /// How many entries there are.
    pub fn len(&self) -> usize
        ensures { result ≡ length self.now }
    {
        self.entries.len()
    }

    /// The entry at place `i`.
    pub fn entry(&self, i: usize) -> &Entry
        requires { i < length self.now }
        ensures { result.now ≡ slice_index_or self.now i result.now }
    {
        &self.entries[i]
    }
}

/// An engine that is no longer shared, with the journal of all edits. The journal is a history of one thread, and the engine stands for the
/// collection at its end.
pub struct Closed {
    pub engine: Engine,
    pub journal: Journal,
}

impl Model for Closed {
    ghost use Rattle.shared_edit.specs.Books.{ClosedContent, IsClosed, closed_content};

    ghost Value = { ClosedContent };

    ghost view = { λ c. closed_content c.engine c.journal };

    ghost invariant = { λ c. IsClosed (closed_content c.engine c.journal) };
}

impl Closed {
    /// How many adds were accepted.
    pub fn added(&self) -> u64
        ensures { result ≡ count_of is_added self.now.journal }
    {
        self.engine.version().next_id()
    }

    /// How many deletions were accepted.
    pub fn gone(&self) -> u64
        ensures { result ≡ count_of is_gone self.now.journal }
    {
        self.engine.version().dels()
    }

    /// How many edits were refused.
    pub fn refused(&self) -> u64
        ensures { result ≡ count_of is_refused self.now.journal }
    {
        self.journal.len() as u64 - self.added() - self.gone()
    }

    /// How many files survive.
    pub fn files(&self) -> u64
        ensures { result ≡ length (files_of self.now.engine.version.slots) }
    {
        self.engine.version().file_count()
    }
}

impl<A: Ledger, G: Ledger, S: Ledger> Book<A, G, S> {
    /// The engine and the journal. `editors` must be all editors of the book.
    pub fn close(self, editors: Vec<Editor<A, G, S>>) -> Closed
        requires some { 0 < length editors.items }
        requires all { (length editors.items ≡ A.parts) × (length editors.items ≡ G.parts) × (length editors.items ≡ S.parts) }
        ensures closed { result ≡ closed_content self.engine self.journal }
        ensures of { IsClosed result }
        ensures added { sum_by (λ e. e.added) editors.items ≡ count_of is_added result.journal }
        ensures gone { sum_by (λ e. e.gone) editors.items ≡ count_of is_gone result.journal }
        ensures refused { sum_by (λ e. e.refused) editors.items ≡ count_of is_refused result.journal }
    {
        let (engine, entries) = self.into_parts(gathered(editors));
        Closed {
            engine,
            journal: Journal { entries },
        }
    }
}

impl<A: Ledger, G: Ledger, S: Ledger, J: Naming> SharedEngine<A, G, S, J> {
    /// Takes the book from under the lock, and closes it. `editors` must be all its editors. It takes no memory.
    pub fn close(self, editors: Vec<Editor<A, G, S>>) -> Closed
        requires some { 0 < length editors.items }
        requires all { (length editors.items ≡ A.parts) × (length editors.items ≡ G.parts) × (length editors.items ≡ S.parts) }
        ensures of { IsClosed result }
        ensures publisher { result.engine.publisher ≡ J.publisher }
        ensures added { sum_by (λ e. e.added) editors.items ≡ count_of is_added result.journal }
        ensures gone { sum_by (λ e. e.gone) editors.items ≡ count_of is_gone result.journal }
        ensures refused { sum_by (λ e. e.refused) editors.items ≡ count_of is_refused result.journal }
    {
        self.into_book().close(editors)
    }
}
