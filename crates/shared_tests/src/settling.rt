ghost use Rattle.std.specs.Prelude.{◌≡◌, IfSome, length};
ghost use Rattle.std.specs.List.{AllByRecursion};
ghost use Rattle.gcl_model.specs.FormOf.{form_of};
ghost use Rattle.gcl_model.specs.WellFormed.{IsWellFormed};
ghost use Rattle.shared_edit.specs.Editors.{new_editors};

use address_space::{FileId, is_name};
use gcl_model::{Expr, Ledger as Counter, Question, Steps, uncounted};
use gcl_parser::parse;
use manifest_publish::{Pass, Reader};
use reader_pass::pass_count;
use shared_edit::{
    Book, Closed, Editor, Naming, SettleFault, SharedEngine, SharedOpened, plan_merge,
};
use std::alloc::Global;
use std::marker::Brand;
use std::sync::Wait;
use std::sync::ledger::{Blank, Ledger};
use std::test::*;

fn query(alloc: Global, text: &[u8]) -> Option<Expr>
    ensures { IfSome result (λ expr. IsWellFormed (form_of expr)) }
{
    parse(alloc, text).ok()
}

/// How many members there are.
#[derive(Drop)]
struct Counting<'a> {
    pass: &'a Pass,
    expr: &'a Expr,
}

impl Question for Counting<'_> {
    ghost use Rattle.std.specs.List.{sum_by};
    ghost use Rattle.gcl_model.specs.FormOf.{form_of};
    ghost use Rattle.gcl_model.specs.WellFormed.{IsWellFormed};
    ghost use Rattle.live_version.specs.Contents.{version_text};
    ghost use Rattle.reader_pass.specs.Members.{access_most, look_ups};

    type Answer = u64;

    ghost can_ask = { λ q. IsWellFormed (form_of q.expr.now) };

    ghost answers = { λ q answer. Unit {0} };

    ghost most = { λ q answer. sum_by (λ v. look_ups (version_text v) (access_most v) (form_of q.expr.now) answer) q.pass.now.history };

    fn ask<L: Counter>(&self, steps: &mut Steps<L>) -> u64 {
        // this shows that the history has a last version, which bounds the look-ups
        let _version = self.pass.version();
        pass_count(self.pass, self.expr, steps)
    }
}

/// How often the word `be` is found in the version that the reader enters.
fn finds(alloc: Global, reader: &mut Reader) -> Option<u64> {
    let pass = reader.enter().ok()?;
    let expr = query(alloc, b"\"be\"")?;
    Some(uncounted(&Counting {
        pass: &pass,
        expr: &expr,
    }))
}

/// Adds a file of this many words.
fn is_added<A: Ledger, G: Ledger, S: Ledger, J: Naming, R: Wait>(
    rt: &R,
    alloc: Global,
    shared: &SharedEngine<A, G, S, J>,
    editor: &mut Editor<A, G, S>,
    words: usize,
) -> bool {
    let mut bytes = Vec::new(alloc);
    for _i in 0..words {
        if bytes.extend_from_slice(b"be ").is_err() {
            return false;
        }
    }
    is_name(b"a") && shared.add(rt, editor, b"a", bytes.as_slice()).is_ok()
}

/// What came of a plan.
#[derive(Clone, Copy, Debug, PartialEq, Eq)]
enum Came {
    /// It was taken.
    Taken,
    /// The slot at this place, of these addresses and this number of files, was no longer there.
    Stale(usize, u64, u64, u64),
    /// Something else went wrong.
    Wrong,
}

/// What came of a plan, and how often a word is found before it is settled and after it.
#[derive(Clone, Copy, Debug, PartialEq, Eq)]
struct Settled {
    came: Came,
    before: Option<u64>,
    after: Option<u64>,
}

const WRONG: Settled = Settled {
    came: Came::Wrong,
    before: None,
    after: None,
};

/// Plans a merge of the first two slots of three, deletes a file, and settles the plan.
fn settle_after<A: Ledger, G: Ledger, S: Ledger, J: Naming, R: Wait>(
    rt: &R,
    alloc: Global,
    shared: &SharedEngine<A, G, S, J>,
    editor: &mut Editor<A, G, S>,
    reader: &mut Reader,
    other: &mut Reader,
    id: FileId,
) -> Settled
    requires { reader.old.publisher ≡ J.publisher }
    ensures { reader.new.publisher ≡ J.publisher }
{
    let Ok(pass) = reader.enter() else {
        return WRONG;
    };
    let slots = pass.version().slot_count();
    if slots < 2 || slots != 3 {
        return WRONG;
    }
    let Ok(plan) = plan_merge(alloc, &pass, 2) else {
        return WRONG;
    };
    if shared.delete(rt, editor, id).is_err() {
        return WRONG;
    }
    let before = finds(alloc, other);
    let came = match shared.settle(rt, reader, plan) {
        Ok(_receipt) => Came::Taken,
        Err(SettleFault::Stale(found)) => {
            Came::Stale(
                found.at,
                found.name.first,
                found.name.last,
                found.name.files,
            )
        }
        Err(SettleFault::NoMemory) => Came::Wrong,
    };
    let after = finds(alloc, other);
    Settled {
        came,
        before,
        after,
    }
}

/// Adds three files that are in a slot each, and settles two plans: one after a deletion in the first slot, and one after a deletion only
/// in the third slot.
fn settle_both<A: Ledger, G: Ledger, S: Ledger, J: Naming, R: Wait>(
    rt: &R,
    alloc: Global,
    shared: &SharedEngine<A, G, S, J>,
    editor: &mut Editor<A, G, S>,
    mut readers: Vec<Reader>,
) -> (Settled, Settled)
    requires { AllByRecursion (λ reader. reader.publisher ≡ J.publisher) readers.items }
{
    let Some(mut reader) = readers.pop() else {
        return (WRONG, WRONG);
    };
    let Some(mut other) = readers.pop() else {
        return (WRONG, WRONG);
    };
    for words in [100, 20, 1] {
        if !is_added(rt, alloc, shared, editor, words) {
            return (WRONG, WRONG);
        }
    }
    let first = settle_after(
        rt,
        alloc,
        shared,
        editor,
        &mut reader,
        &mut other,
        FileId(0),
    );
    let second = settle_after(
        rt,
        alloc,
        shared,
        editor,
        &mut reader,
        &mut other,
        FileId(2),
    );
    (first, second)
}

/// The same with the only editor.
fn settle_first<A: Ledger, G: Ledger, S: Ledger, J: Naming, R: Wait>(
    rt: &R,
    alloc: Global,
    shared: &SharedEngine<A, G, S, J>,
    editors: &mut [Editor<A, G, S>],
    readers: Vec<Reader>,
) -> (Settled, Settled)
    requires { AllByRecursion (λ reader. reader.publisher ≡ J.publisher) readers.items }
    ensures { length editors.new ≡ length editors.old }
{
    match editors.first_mut() {
        Some(editor) => settle_both(rt, alloc, shared, editor, readers),
        None => (WRONG, WRONG),
    }
}

/// What came of both plans, and what was closed.
struct Ended {
    settled: (Settled, Settled),
    closed: Closed,
}

fn settled_named<A: Ledger, G: Ledger, S: Ledger, J: Naming, R: Wait>(
    rt: &R,
    alloc: Global,
    opened: SharedOpened<A, G, S>,
) -> Ended
    requires publisher { opened.book.engine.publisher ≡ J.publisher }
    requires readers { AllByRecursion (λ reader. reader.publisher ≡ J.publisher) opened.readers.items }
    requires editors { opened.editors.items ≡ new_editors 1 }
    requires parts { (1 ≡ A.parts) × (1 ≡ G.parts) × (1 ≡ S.parts) }
{
    let SharedOpened {
        book,
        readers,
        mut editors,
    } = opened;
    let shared = SharedEngine::<A, G, S, J>::over(book);
    let settled = settle_first(rt, alloc, &shared, editors.as_mut_slice(), readers);
    Ended {
        settled,
        closed: shared.close(editors),
    }
}

/// Opens an engine with one editor and two readers.
fn settled_counted<A: Ledger, G: Ledger, S: Ledger, R: Wait>(
    rt: &R,
    alloc: Global,
    added: Blank,
    gone: Blank,
    refused: Blank,
) -> Option<Ended>
    requires added { (added.name ≡ A.name) × (added.parts ≡ A.parts) × (added.parts ≡ 1) }
    requires gone { (gone.name ≡ G.name) × (gone.parts ≡ G.parts) × (gone.parts ≡ 1) }
    requires refused { (refused.name ≡ S.name) × (refused.parts ≡ S.parts) × (refused.parts ≡ 1) }
{
    match Book::<A, G, S>::open(rt, alloc, 0, 2, 1, added, gone, refused) {
        Ok(opened) => Some(settled_named::<A, G, S, Brand, R>(rt, alloc, opened)),
        Err(_) => None,
    }
}

/// Ends the engine, and returns what came of both plans.
fn came_of<R: Wait>(rt: &R, ended: Ended) -> (Settled, Settled) {
    let Ended { settled, closed } = ended;
    let Closed {
        engine,
        journal: _journal,
    } = closed;
    engine.end(rt);
    settled
}

#[test]
fn a_plan_is_stale_once_a_file_of_its_slots_is_gone(rt: HostRuntime) -> Result<(), Fail> {
    let ended = settled_counted::<Brand, Brand, Brand, _>(
        &rt,
        rt.alloc(),
        Blank::new(1),
        Blank::new(1),
        Blank::new(1),
    );
    let (first, second) = match ended {
        Some(ended) => came_of(&rt, ended),
        None => (WRONG, WRONG),
    };
    assert_eq!(rt; first.came, Came::Stale(0, 0, 101, 1));
    assert_eq!(rt; second.came, Came::Taken);
    assert_eq!(rt; (second.before, second.after), (Some(20), Some(20)));
    Ok(())
}
