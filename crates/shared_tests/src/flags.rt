ghost use Rattle.std.specs.Prelude.{◌≡◌, length};
ghost use Rattle.shared_edit.specs.Editors.{new_editors};

use address_space::is_name;
use shared_edit::{Book, Closed, Editor, Naming, SharedEngine, SharedOpened};
use std::alloc::Global;
use std::marker::Brand;
use std::sync::Wait;
use std::sync::atomic::{AtomicBool, Ordering};
use std::sync::ledger::{Blank, Ledger};
use std::test::*;
use std::thread;
use std::thread::Threads;

// How often an editor looks for the other's flag.
const LOOKS: u64 = 1 << 28;

/// Whether the flag was up at one of the looks.
fn is_up(flag: &AtomicBool) -> bool {
    for _ in 0..LOOKS {
        if flag.load(Ordering::SeqCst) {
            return true;
        }
    }
    false
}

/// The flags of two editors, and whether something went wrong.
#[derive(Drop)]
struct Flags {
    first: AtomicBool,
    second: AtomicBool,
    wrong: AtomicBool,
}

/// Adds a file, and returns whether it was accepted.
fn is_added<A: Ledger, G: Ledger, S: Ledger, J: Naming, R: Wait>(
    rt: &R,
    shared: &SharedEngine<A, G, S, J>,
    editor: &mut Editor<A, G, S>,
    name: &[u8],
) -> bool {
    is_name(name) && shared.add(rt, editor, name, b"to be").is_ok()
}

/// Adds a file, puts one flag up, waits for the other, and adds a file again. Something is wrong if the wait runs out, or an add is
/// not accepted.
fn add_twice<A: Ledger, G: Ledger, S: Ledger, J: Naming, R: Wait>(
    rt: &R,
    shared: &SharedEngine<A, G, S, J>,
    editor: &mut Editor<A, G, S>,
    own: &AtomicBool,
    other: &AtomicBool,
    wrong: &AtomicBool,
) {
    let first = is_added(rt, shared, editor, b"a");
    own.store(true, Ordering::SeqCst);
    let seen = is_up(other);
    let second = is_added(rt, shared, editor, b"b");
    if !(first && seen && second) {
        wrong.store(true, Ordering::SeqCst);
    }
}

/// The work of both editors, each in a thread of its own.
fn add_both<
    A: Ledger + Send + Sync,
    G: Ledger + Send + Sync,
    S: Ledger + Send + Sync,
    J: Naming + Send + Sync,
    R: Threads + Wait + Sync,
>(rt: &R, shared: &SharedEngine<A, G, S, J>, editors: &mut [Editor<A, G, S>], flags: &Flags)
    ensures { length editors.new ≡ length editors.old }
{
    thread::for_each_mut(
        rt,
        editors,
        2,
        &|i: usize, editor: &mut Editor<A, G, S>| {
            let (own, other) = if i == 0 {
                (&flags.first, &flags.second)
            } else {
                (&flags.second, &flags.first)
            };
            add_twice(rt, shared, editor, own, other, &flags.wrong);
        },
    );
}

/// Both editors' work over an engine under a lock.
fn added_named<
    A: Ledger + Send + Sync,
    G: Ledger + Send + Sync,
    S: Ledger + Send + Sync,
    J: Naming + Send + Sync,
    R: Threads + Wait + Sync,
>(rt: &R, opened: SharedOpened<A, G, S>, flags: &Flags) -> Closed
    requires publisher { opened.book.engine.publisher ≡ J.publisher }
    requires editors { opened.editors.items ≡ new_editors 2 }
    requires parts { (2 ≡ A.parts) × (2 ≡ G.parts) × (2 ≡ S.parts) }
{
    let SharedOpened {
        book,
        readers: _readers,
        mut editors,
    } = opened;
    let shared = SharedEngine::<A, G, S, J>::over(book);
    add_both(rt, &shared, editors.as_mut_slice(), flags);
    shared.close(editors)
}

/// Opens an engine for two editors, and lets them work.
fn added<
    A: Ledger + Send + Sync,
    G: Ledger + Send + Sync,
    S: Ledger + Send + Sync,
    R: Threads + Wait + Sync,
>(rt: &R, alloc: Global, added: Blank, gone: Blank, refused: Blank, flags: &Flags) -> Option<Closed>
    requires added { (added.name ≡ A.name) × (added.parts ≡ A.parts) × (added.parts ≡ 2) }
    requires gone { (gone.name ≡ G.name) × (gone.parts ≡ G.parts) × (gone.parts ≡ 2) }
    requires refused { (refused.name ≡ S.name) × (refused.parts ≡ S.parts) × (refused.parts ≡ 2) }
{
    match Book::<A, G, S>::open(rt, alloc, 0, 0, 2, added, gone, refused) {
        Ok(opened) => Some(added_named::<A, G, S, Brand, R>(rt, opened, flags)),
        Err(_) => None,
    }
}

/// Ends the engine, and returns how many entries its journal has.
fn entries<R: Wait>(rt: &R, closed: Closed) -> usize {
    let Closed { engine, journal } = closed;
    engine.end(rt);
    journal.len()
}

#[test]
fn two_editors_that_wait_for_each_other_go_on(rt: HostRuntime) -> Result<(), Fail> {
    let flags = Flags {
        first: AtomicBool::new(false),
        second: AtomicBool::new(false),
        wrong: AtomicBool::new(false),
    };
    let closed = added::<Brand, Brand, Brand, _>(
        &rt,
        rt.alloc(),
        Blank::new(2),
        Blank::new(2),
        Blank::new(2),
        &flags,
    );
    match closed {
        Some(closed) => assert_eq!(rt; entries(&rt, closed), 4),
        None => assert!(rt; false, "no engine was opened"),
    }
    assert!(rt; !flags.wrong.load(Ordering::SeqCst));
    Ok(())
}
