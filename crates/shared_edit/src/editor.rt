ghost use Rattle.std.specs.Prelude.{◌≡◌, ◌+◌, ◌<◌, ◌≤◌, ◌^◌, length, IfOk};
ghost use Rattle.std.specs.List.{sum_by};
ghost use Rattle.shared_edit.specs.Drafts.{draft_content};
ghost use Rattle.shared_edit.specs.Editors.{editor_content};

use crate::draft::Draft;
use collection::Names;
use std::alloc::{AllocError, Global};
use std::marker::Model;
use std::sync::ledger::{Book, Ledger, Share};

/// A number that is one part of a ledger's total.
#[derive(Drop)]
pub struct Counted<L: Ledger> {
    count: u64,
    share: Share<L>,
}

impl<L: Ledger> Model for Counted<L> {
    ghost use Rattle.std.specs.Prelude.{◌≡◌, ℕ};

    ghost Value = { ℕ };

    ghost view = { λ c. c.count };

    ghost invariant = { λ c. (c.share.parts ≡ 1) × (c.share.amount ≡ c.count) };
}

impl<L: Ledger> Counted<L> {
    /// Zero so far, as one part split off the share.
    pub fn none(all: &mut Share<L>) -> Counted<L>
        requires part { 0 < all.old.parts }
        requires amount { all.old.amount ≡ 0 }
        ensures none { result ≡ 0 }
        ensures parts { all.new.parts + 1 ≡ all.old.parts }
        ensures amount { all.new.amount ≡ 0 }
    {
        Counted {
            count: 0,
            share: all.split_off(1, 0),
        }
    }

    pub fn get(&self) -> u64
        ensures { result ≡ self.now }
    {
        self.count
    }

    /// Counts one more, here and in the total.
    pub fn rise(&mut self, total: &mut Book<L>)
        requires { total.old.total + 1 < 2 ^ 64 }
        ensures count { self.new ≡ self.old + 1 }
        ensures total { total.new.total ≡ total.old.total + 1 }
    {
        total.audit(&mut self.share);
        total.add(&mut self.share, 1);
        self.count += 1;
    }

    /// Shows that it is at most the total.
    pub fn audit(&mut self, total: &mut Book<L>)
        ensures count { self.new ≡ self.old }
        ensures total { total.new.total ≡ total.old.total }
        ensures bound { self.old ≤ total.old.total }
    {
        total.audit(&mut self.share);
    }

    /// Its part of the ledger, with its amount.
    pub fn into_share(self) -> Share<L>
        ensures parts { result.parts ≡ 1 }
        ensures amount { result.amount ≡ self }
    {
        let Counted { count: _, share } = self;
        share
    }
}

/// Who adds and deletes. It has one part of each ledger.
#[derive(Drop)]
pub struct Editor<A: Ledger, G: Ledger, S: Ledger> {
    number: u64,
    alloc: Global,
    // The words of the texts that it added. The index of the next text begins with them.
    names: Names,
    pub(crate) added: Counted<A>,
    pub(crate) gone: Counted<G>,
    pub(crate) refused: Counted<S>,
}

impl<A: Ledger, G: Ledger, S: Ledger> Model for Editor<A, G, S> {
    ghost use Rattle.shared_edit.specs.Editors.{EditorContent, editor_content};

    ghost Value = { EditorContent };

    ghost view = { λ e. editor_content e.number e.added e.gone e.refused };
}

impl<A: Ledger, G: Ledger, S: Ledger> Editor<A, G, S> {
    pub(crate) fn new(
        number: u64,
        alloc: Global,
        added: Counted<A>,
        gone: Counted<G>,
        refused: Counted<S>,
    ) -> Editor<A, G, S>
        ensures { result ≡ editor_content number added gone refused }
    {
        Editor {
            number,
            alloc,
            names: Names::new(alloc),
            added,
            gone,
            refused,
        }
    }

    /// Which editor it is, counted from 0.
    pub fn number(&self) -> u64
        ensures { result ≡ self.now.number }
    {
        self.number
    }

    /// How many of its adds were accepted.
    pub fn added(&self) -> u64
        ensures { result ≡ self.now.added }
    {
        self.added.get()
    }

    /// How many of its deletions were accepted.
    pub fn gone(&self) -> u64
        ensures { result ≡ self.now.gone }
    {
        self.gone.get()
    }

    /// How many of its edits were refused.
    pub fn refused(&self) -> u64
        ensures { result ≡ self.now.refused }
    {
        self.refused.get()
    }

    /// All that can be made of a file before the lock is taken.
    pub(crate) fn draft(&mut self, name: &[u8], bytes: &[u8]) -> Result<Draft, AllocError>
        ensures draft { IfOk result (λ draft. draft ≡ draft_content name.now bytes.now) }
        ensures editor { self.new ≡ self.old }
    {
        Draft::of(self.alloc, &mut self.names, name, bytes)
    }

    /// Shows that its numbers of accepted edits are at most the totals.
    pub(crate) fn audit(&mut self, added: &mut Book<A>, gone: &mut Book<G>)
        ensures editor { self.new ≡ self.old }
        ensures added { added.new.total ≡ added.old.total }
        ensures gone { gone.new.total ≡ gone.old.total }
        ensures bounds { (self.old.added ≤ added.old.total) × (self.old.gone ≤ gone.old.total) }
    {
        self.added.audit(added);
        self.gone.audit(gone);
    }

    /// Counts one more accepted add.
    pub(crate) fn rise_added(&mut self, total: &mut Book<A>)
        requires { total.old.total + 1 < 2 ^ 64 }
        ensures editor { self.new ≡ record self.old { added = self.old.added + 1 } }
        ensures total { total.new.total ≡ total.old.total + 1 }
    {
        self.added.rise(total);
    }

    /// Counts one more accepted deletion.
    pub(crate) fn rise_gone(&mut self, total: &mut Book<G>)
        requires { total.old.total + 1 < 2 ^ 64 }
        ensures editor { self.new ≡ record self.old { gone = self.old.gone + 1 } }
        ensures total { total.new.total ≡ total.old.total + 1 }
    {
        self.gone.rise(total);
    }

    /// Counts one more refused edit.
    pub(crate) fn rise_refused(&mut self, total: &mut Book<S>)
        requires { total.old.total + 1 < 2 ^ 64 }
        ensures editor { self.new ≡ record self.old { refused = self.old.refused + 1 } }
        ensures total { total.new.total ≡ total.old.total + 1 }
    {
        self.refused.rise(total);
    }
}

/// Shares of the three ledgers.
#[derive(Drop)]
pub(crate) struct Shares<A: Ledger, G: Ledger, S: Ledger> {
    pub(crate) added: Share<A>,
    pub(crate) gone: Share<G>,
    pub(crate) refused: Share<S>,
}

impl<A: Ledger, G: Ledger, S: Ledger> Editor<A, G, S> {
    /// Its share of each ledger.
    fn into_shares(self) -> Shares<A, G, S>
        ensures parts { (result.added.parts ≡ 1) × (result.gone.parts ≡ 1) × (result.refused.parts ≡ 1) }
        ensures amounts { (result.added.amount ≡ self.added) × (result.gone.amount ≡ self.gone) × (result.refused.amount ≡ self.refused) }
    {
        let Editor {
            number: _,
            alloc: _,
            names: _,
            added,
            gone,
            refused,
        } = self;
        Shares {
            added: added.into_share(),
            gone: gone.into_share(),
            refused: refused.into_share(),
        }
    }
}

/// The editors' shares of each ledger, merged.
pub(crate) fn gathered<A: Ledger, G: Ledger, S: Ledger>(
    mut editors: Vec<Editor<A, G, S>>,
) -> Shares<A, G, S>
    requires { 0 < length editors.items }
    ensures parts { (result.added.parts ≡ length editors.items) × (result.gone.parts ≡ length editors.items) ×
        (result.refused.parts ≡ length editors.items) }
    ensures added { result.added.amount ≡ sum_by (λ e. e.added) editors.items }
    ensures gone { result.gone.amount ≡ sum_by (λ e. e.gone) editors.items }
    ensures refused { result.refused.amount ≡ sum_by (λ e. e.refused) editors.items }
{
    let mut all = match editors.pop() {
        Some(last) => last.into_shares(),
        None => unreachable!(),
    };
    while let Some(editor) = editors.pop() {
        let shares = editor.into_shares();
        all.added.merge(shares.added);
        all.gone.merge(shares.gone);
        all.refused.merge(shares.refused);
    }
    all
}
