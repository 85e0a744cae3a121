ghost use Rattle.std.specs.Prelude.{◌≡◌, ◌<◌, true, false, [], length, slice_index_or, IfOk, IfErr, OnOk, OnErr};
ghost use Rattle.gcl_model.specs.FormOf.{form_of};
ghost use Rattle.gcl_model.specs.Limits.{version_end};
ghost use Rattle.gcl_model.specs.WellFormed.{IsWellFormed};
ghost use Rattle.standing_query.specs.Watches.{most_watches, watch_list, has_watch, with_watch, without_watch};
ghost use Rattle.standing_query.specs.Watches.{IsWatchList, AreWellFormedWatches};
ghost use Rattle.standing_query.specs.Faults.{IsWatchFault};

use crate::faults::{NoWatch, WatchFault};
use crate::watch::Watch;
use gcl_model::Expr;
use std::alloc::Global;
use std::marker::Model;

/// How many watches are live at most.
pub const MOST_WATCHES: usize = 16;

/// The live watches, in rising number. A number is never given again.
#[derive(Drop)]
pub struct WatchList {
    watches: Vec<Watch>,
    next: u64,
}

impl Model for WatchList {
    ghost use Rattle.std.specs.Coded.{codes};
    ghost use Rattle.gcl_model.specs.contracts.expr.Expr as e;
    ghost use Rattle.standing_query.specs.Watches.{WatchListContent, watch_list, IsWatchList};

    ghost Value = { WatchListContent };

    ghost coded = { Prim.hlevel (codes, e.the_row.coded) };

    ghost view = { λ l. watch_list l.watches.items l.next };

    ghost invariant = { λ l. IsWatchList (watch_list l.watches.items l.next) };
}

impl WatchList {
    /// No watch. It allocates nothing.
    pub fn new(alloc: Global) -> Self
        ensures { result ≡ watch_list [] 0 }
    {
        WatchList {
            watches: Vec::new(alloc),
            next: 0,
        }
    }

    /// The number of live watches.
    pub fn len(&self) -> usize
        ensures value { result ≡ length self.now.live }
        ensures list { IsWatchList self.now }
    {
        self.watches.len()
    }

    /// The number that the next watch gets: that many were made.
    pub fn next_id(&self) -> u64
        ensures value { result ≡ self.now.next }
        ensures list { IsWatchList self.now }
    {
        self.next
    }

    /// The live watch at place `i`, counted from 0, in rising number.
    pub fn get(&self, i: usize) -> &Watch
        requires { i < length self.now.live }
        ensures value { result.now ≡ slice_index_or self.now.live i result.now }
        ensures well_formed { AreWellFormedWatches self.now.live → IsWellFormed (form_of result.now.expr) }
    {
        &self.watches[i]
    }

    /// Watches an expression, and returns its number. Returns `Full` if `MOST_WATCHES` are live; on any `Err` the expression is dropped.
    ///
    /// The first watch gets the number 0, the next one 1, even if 0 was removed.
    pub fn add(&mut self, expr: Expr) -> Result<u64, WatchFault>
        requires { self.old.next < version_end }
        ensures number { IfOk result (λ id. id ≡ self.old.next) }
        ensures ok { OnOk result (self.new ≡ with_watch self.old expr) }
        ensures room { OnOk result (length self.old.live < most_watches) }
        ensures fault { IfErr result (IsWatchFault self.old.live) }
        ensures err { OnErr result (self.new ≡ self.old) }
        ensures well_formed { AreWellFormedWatches self.old.live → IsWellFormed (form_of expr) → AreWellFormedWatches self.new.live }
    {
        if self.watches.len() == MOST_WATCHES {
            return Err(WatchFault::Full(MOST_WATCHES));
        }
        let id = self.next;
        match self.watches.push(Watch { id, expr }) {
            Ok(()) => {
                self.next += 1;
                Ok(id)
            }
            Err(_) => Err(WatchFault::NoMemory),
        }
    }

    /// Stops watching the expression of this number. Returns `Err` if no live watch has it.
    pub fn remove(&mut self, id: u64) -> Result<(), NoWatch>
        ensures ok { OnOk result (self.new ≡ without_watch self.old id) }
        ensures found { OnOk result (has_watch self.old.live id ≡ true) }
        ensures none { IfErr result (λ fault. (fault.id ≡ id) × (has_watch self.old.live id ≡ false)) }
        ensures err { OnErr result (self.new ≡ self.old) }
        ensures well_formed { AreWellFormedWatches self.old.live → AreWellFormedWatches self.new.live }
    {
        if !self.has(id) {
            return Err(NoWatch { id });
        }
        self.watches.retain(|watch: &Watch| watch.id != id);
        Ok(())
    }

    /// Whether a live watch has the number.
    fn has(&self, id: u64) -> bool
        ensures { result ≡ has_watch self.now.live id }
    {
        self.watches.iter().any(|watch: &Watch| watch.id == id)
    }
}
