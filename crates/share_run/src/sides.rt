ghost use Rattle.std.specs.Prelude.{◌≡◌, ℕ, ◌+◌, ◌<◌, ◌≤◌, [], ◌∷◌, ◌++◌, false, Some, None, length, vec_len, vec_capacity, slice_index_or};
ghost use Rattle.gcl_model.specs.Limits.{most_made};
ghost use Rattle.share_run.specs.Sides.{HasWorked, SideContent, are_done, editor_of, editors_from, side_content};

use crate::lane::Lane;
use crate::options::ShareOptions;
use crate::work::edit_own;
use outside::Gate;
use shared_edit::{Editor, Naming, SharedEngine};
use std::alloc::Global;
use std::marker::Model;
use std::sync::Wait;
use std::sync::ledger::Ledger;
use std::thread;
use std::thread::Threads;

/// What a thread does.
#[derive(Drop)]
pub enum Task<A: Ledger, G: Ledger, S: Ledger, J: Naming> {
    /// An editor adds its files and deletes some of them.
    Edit(Editor<A, G, S>),
    /// The lane plans merges and settles them.
    Settle(Lane<J>),
}

/// A thread's part of a share: what it does, and whether that is done. An editor's work is not done if there was no memory for an edit.
#[derive(Drop)]
pub struct Side<A: Ledger, G: Ledger, S: Ledger, J: Naming> {
    task: Task<A, G, S, J>,
    done: bool,
}

impl<A: Ledger, G: Ledger, S: Ledger, J: Naming> Model for Side<A, G, S, J> {
    ghost use Rattle.share_run.specs.Sides.{SideContent, editor_of, side_content};

    ghost Value = { SideContent };

    ghost view = { λ s. side_content (editor_of s.task) s.done };
}

impl<A: Ledger, G: Ledger, S: Ledger, J: Naming> Side<A, G, S, J> {
    fn new(task: Task<A, G, S, J>) -> Side<A, G, S, J>
        ensures { result ≡ side_content (editor_of task) false }
    {
        Side { task, done: false }
    }

    /// Whether its work is done.
    fn is_done(&self) -> bool
        ensures { result ≡ self.now.done }
    {
        self.done
    }

    /// Its editor, if it has one.
    fn into_editor(self) -> Option<Editor<A, G, S>>
        ensures { result ≡ self.editor }
    {
        let Side { task, done: _done } = self;
        match task {
            Task::Edit(editor) => Some(editor),
            Task::Settle(_lane) => None,
        }
    }

    /// Does its work. An editor calls the gate as before query `number` + 1, and the lane as around publication 1.
    fn work<R: Wait, W: Gate>(
        &mut self,
        rt: &R,
        alloc: Global,
        shared: &SharedEngine<A, G, S, J>,
        gate: &W,
        options: &ShareOptions,
    )
        requires some { 0 < options.now.editors }
        requires few { options.now.count ≤ most_made }
        ensures { HasWorked options.now.editors options.now.count self.old self.new }
    {
        match &mut self.task {
            Task::Edit(editor) => {
                gate.before_query(editor.number().saturating_add(1));
                self.done = edit_own(rt, alloc, shared, editor, options);
            }
            Task::Settle(lane) => {
                gate.before_publish(1);
                lane.settle(rt, alloc, shared);
                gate.after_publish(1);
                self.done = true;
            }
        }
    }
}

/// Puts an item last. There must be room for it.
fn put<T: Drop>(list: &mut Vec<T>, item: T)
    requires { vec_len list.old < vec_capacity list.old }
    ensures items { list.new.items ≡ list.old.items ++ item ∷ [] }
    ensures len { vec_len list.new ≡ vec_len list.old + 1 }
    ensures capacity { vec_capacity list.old ≤ vec_capacity list.new }
{
    match list.push(item) {
        Ok(()) => {}
        Err(_) => unreachable!(),
    }
}

/// Makes a side of the lane and of each editor. There must be room for them. No editors are left.
pub fn deal<A: Ledger, G: Ledger, S: Ledger, J: Naming>(
    editors: &mut Vec<Editor<A, G, S>>,
    lane: Lane<J>,
    sides: &mut Vec<Side<A, G, S, J>>,
)
    requires empty { sides.old.items ≡ [] }
    requires room { vec_len editors.old + 1 ≤ vec_capacity sides.old }
    ensures sides { editors_from sides.new.items ≡ editors.old.items }
    ensures emptied { editors.new.items ≡ [] }
    ensures room { length editors.old.items ≤ vec_capacity editors.new }
{
    put(sides, Side::new(Task::Settle(lane)));
    while let Some(editor) = editors.pop() {
        put(sides, Side::new(Task::Edit(editor)));
    }
}

/// Takes the editors back from their sides, and returns whether all work is done. There must be room for the editors.
pub fn gather<A: Ledger, G: Ledger, S: Ledger, J: Naming>(
    mut sides: Vec<Side<A, G, S, J>>,
    editors: &mut Vec<Editor<A, G, S>>,
) -> bool
    requires empty { editors.old.items ≡ [] }
    requires room { length (editors_from sides.items) ≤ vec_capacity editors.old }
    ensures editors { editors.new.items ≡ editors_from sides.items }
    ensures done { result ≡ are_done sides.items }
{
    let mut all_done = true;
    while let Some(side) = sides.pop() {
        all_done &= side.is_done();
        if let Some(editor) = side.into_editor() {
            put(editors, editor);
        }
    }
    all_done
}

/// Does the work of all sides, each in a thread of its own.
pub fn work_all<
    A: Ledger + Send + Sync,
    G: Ledger + Send + Sync,
    S: Ledger + Send + Sync,
    J: Naming + Send + Sync,
    R: Threads + Wait + Sync,
    W: Gate + Sync,
>(
    rt: &R,
    alloc: Global,
    shared: &SharedEngine<A, G, S, J>,
    gate: &W,
    options: &ShareOptions,
    sides: &mut [Side<A, G, S, J>],
)
    requires some { 0 < options.now.editors }
    requires few { options.now.count ≤ most_made }
    ensures count { length sides.new ≡ length sides.old }
    ensures worked { (i : ℕ) → (d : SideContent) → i < length sides.old →
        HasWorked options.now.editors options.now.count (slice_index_or sides.old i d) (slice_index_or sides.new i d) }
{
    if sides.is_empty() {
        return;
    }
    let threads = sides.len();
    thread::for_each_mut(
        rt,
        sides,
        threads,
        &|_i: usize, side: &mut Side<A, G, S, J>|
            requires { (0 < options.now.editors) × (options.now.count ≤ most_made) }
            ensures { HasWorked options.entry.now.editors options.entry.now.count side.entry.now side.exit.now }
        {
            side.work(rt, alloc, shared, gate, options);
        },
    );
}
