ghost use Rattle.std.specs.Prelude.{◌≡◌, ◌<◌, true, IfSome};
ghost use Rattle.std.specs.List.{AllByRecursion};
ghost use Rattle.shared_edit.specs.Books.{IsClosed};
ghost use Rattle.shared_edit.specs.Editors.{new_editors};
ghost use Rattle.share_run.specs.Shares.{HasSums};
ghost use Rattle.share_run.specs.Words.{IsWithinLimits};

use crate::lane::Lane;
use crate::options::ShareOptions;
use crate::sides::{deal, gather, work_all};
use outside::Gate;
use shared_edit::{Book, Closed, Naming, SharedEngine, SharedOpened};
use std::alloc::Global;
use std::marker::Brand;
use std::sync::Wait;
use std::sync::ledger::{Blank, Ledger};
use std::thread::Threads;

/// What was closed, and whether all edits were answered. They were not if there was no memory for one of them.
pub struct Outcome {
    pub closed: Closed,
    pub done: bool,
}

/// Lets the editors and the lane work in threads of their own, and closes the engine.
fn share_named<
    A: Ledger + Send + Sync,
    G: Ledger + Send + Sync,
    S: Ledger + Send + Sync,
    J: Naming + Send + Sync,
    R: Threads + Wait + Sync,
    W: Gate + Sync,
>(rt: &R, alloc: Global, opened: SharedOpened<A, G, S>, gate: &W, options: &ShareOptions) -> Outcome
    requires publisher { opened.book.engine.publisher ≡ J.publisher }
    requires readers { AllByRecursion (λ reader. reader.publisher ≡ J.publisher) opened.readers.items }
    requires editors { opened.editors.items ≡ new_editors options.now.editors }
    requires parts { (options.now.editors ≡ A.parts) × (options.now.editors ≡ G.parts) × (options.now.editors ≡ S.parts) }
    requires limits { IsWithinLimits options.now }
    ensures of { IsClosed result.closed }
    ensures sums { result.done ≡ true → HasSums options.now result.closed }
{
    let SharedOpened {
        book,
        readers,
        mut editors,
    } = opened;
    let mut sides = Vec::new(alloc);
    if sides.reserve(editors.len() + 1).is_err() {
        return Outcome {
            closed: book.close(editors),
            done: false,
        };
    }
    deal(&mut editors, Lane::<J>::of(readers), &mut sides);
    let shared = SharedEngine::<A, G, S, J>::over(book);
    work_all(rt, alloc, &shared, gate, options, sides.as_mut_slice());
    let done = gather(sides, &mut editors);
    Outcome {
        closed: shared.close(editors),
        done,
    }
}

/// Opens an engine with a reader and the editors, and shares it. Returns None if there was no memory to open it.
fn share_counted<
    A: Ledger + Send + Sync,
    G: Ledger + Send + Sync,
    S: Ledger + Send + Sync,
    R: Threads + Wait + Sync,
    W: Gate + Sync,
>(
    rt: &R,
    alloc: Global,
    added: Blank,
    gone: Blank,
    refused: Blank,
    gate: &W,
    options: &ShareOptions,
) -> Option<Outcome>
    requires added { (added.name ≡ A.name) × (added.parts ≡ A.parts) × (added.parts ≡ options.now.editors) }
    requires gone { (gone.name ≡ G.name) × (gone.parts ≡ G.parts) × (gone.parts ≡ options.now.editors) }
    requires refused { (refused.name ≡ S.name) × (refused.parts ≡ S.parts) × (refused.parts ≡ options.now.editors) }
    requires limits { IsWithinLimits options.now }
    ensures of { IfSome result (λ outcome. IsClosed outcome.closed) }
    ensures sums { IfSome result (λ outcome. outcome.done ≡ true → HasSums options.now outcome.closed) }
{
    let editors = options.editors as usize;
    let opened = match Book::<A, G, S>::open(rt, alloc, 0, 1, editors, added, gone, refused) {
        Ok(opened) => opened,
        Err(_) => return None,
    };
    Some(share_named::<A, G, S, Brand, R, W>(rt, alloc, opened, gate, options))
}

/// Lets the editors add the made files to one collection while a lane merges, each in a thread of its own. Returns None if there was no
/// memory for the engine.
pub fn share_edits<R: Threads + Wait + Sync, W: Gate + Sync>(
    rt: &R,
    alloc: Global,
    gate: &W,
    options: &ShareOptions,
) -> Option<Outcome>
    requires { IsWithinLimits options.now }
    ensures of { IfSome result (λ outcome. IsClosed outcome.closed) }
    ensures sums { IfSome result (λ outcome. outcome.done ≡ true → HasSums options.now outcome.closed) }
{
    let added = Blank::new(options.editors);
    let gone = Blank::new(options.editors);
    let refused = Blank::new(options.editors);
    share_counted::<Brand, Brand, Brand, R, W>(rt, alloc, added, gone, refused, gate, options)
}
