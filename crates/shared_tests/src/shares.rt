use crate::fixtures::words_of;
use address_space::FileId;
use collection::{AddFault, DeleteFault, Engine, Opened};
use live_version::Version;
use outside::{FreeGate, Gate, MemSink, SureSink, TurnGate};
use share_run::{Share, ShareStatus, share};
use shared_edit::{Closed, Edit, EditReply, Entry, Journal};
use std::alloc::{AllocError, Global};
use std::process::Abort;
use std::sync::Wait;
use std::test::*;
use std::thread::Threads;

/// Ends the engine, and returns its journal.
fn journal_of<R: Wait>(rt: &R, closed: Closed) -> Journal {
    let Closed { engine, journal } = closed;
    engine.end(rt);
    journal
}

/// Shares by these words, checks the status and what was written, and returns the journal, if there is one.
fn shared<R: Threads + Wait + Sync + AllocGlobal + Abort, W: Gate + Sync>(
    rt: &R,
    words: &[&[u8]],
    gate: &W,
    want: (ShareStatus, &[u8]),
) -> Result<Option<Journal>, AllocError> {
    let words = words_of(rt.alloc(), words)?;
    let mut sink = SureSink::new(rt.alloc());
    let Share { status, closed } = share(rt, rt.alloc(), words.as_slice(), &mut sink, gate);
    assert_eq!(rt; status, want.0);
    assert_eq!(rt; sink.written(), want.1);
    match closed {
        Some(closed) => Ok(Some(journal_of(rt, closed))),
        None => Ok(None),
    }
}

/// How far an editor of three files has come: how many it added, and the id of the last one, and whether that was deleted.
#[derive(Clone, Copy, Debug, PartialEq, Eq)]
struct Seen {
    added: u64,
    last: u64,
    gone: bool,
}

/// What an editor did next: it adds its files in rising order, and then deletes the third.
fn next_seen<R: Abort>(rt: &R, seen: Seen, entry: &Entry) -> Seen {
    match (&entry.edit, entry.reply) {
        (Edit::Add(name, _), EditReply::Added(id, _, _)) => {
            let names: [&[u8]; 9] = [
                b"m0", b"m1", b"m2", b"m3", b"m4", b"m5", b"m6", b"m7", b"m8",
            ];
            let file = entry.editor.saturating_add(seen.added.saturating_mul(3)) as usize;
            assert!(rt; file < 9);
            assert_eq!(rt; name.as_slice(), names[file]);
            Seen {
                added: seen.added.saturating_add(1),
                last: id,
                gone: seen.gone,
            }
        }
        (Edit::Del(id), EditReply::Gone) => {
            assert_eq!(rt; (seen.added, seen.last, seen.gone), (3, *id, false));
            Seen {
                added: seen.added,
                last: seen.last,
                gone: true,
            }
        }
        _ => {
            assert!(rt; false, "an edit was refused");
            seen
        }
    }
}

/// The journal has the three adds of each of three editors in rising order, and then the deletion of the third.
fn is_of_nine_files<R: Abort>(rt: &R, journal: &Journal) {
    assert_eq!(rt; journal.len(), 12);
    let mut all = [Seen {
        added: 0,
        last: 0,
        gone: false,
    }; 3];
    for i in 0..journal.len() {
        let entry = journal.entry(i);
        let editor = entry.editor;
        assert!(rt; editor < 3);
        let editor = editor as usize;
        all[editor] = next_seen(rt, all[editor], entry);
    }
    for seen in all {
        assert_eq!(rt; (seen.added, seen.gone), (3, true));
    }
}

const NINE: [&[u8]; 6] = [b"--made", b"7", b"--count", b"9", b"--editors", b"3"];

const NINE_TEXT: &[u8] = b"editors 3\nadded 9\ngone 3\nrefused 0\nfiles 6\n";

#[test]
fn each_editor_adds_its_files_in_order_and_deletes_the_third(rt: HostRuntime) -> Result<(), Fail> {
    let journal = shared(&rt, &NINE, &FreeGate, (ShareStatus::Done, NINE_TEXT))?.ok_or(
        "the engine is there",
    )?;
    is_of_nine_files(&rt, &journal);
    Ok(())
}

#[test]
fn the_lane_and_the_editors_run_beside_each_other(rt: HostRuntime) -> Result<(), Fail> {
    // editor 1 waits for the lane's end, and the lane for editor 1's beginning
    let gate = TurnGate::new();
    let journal = shared(&rt, &NINE, &gate, (ShareStatus::Done, NINE_TEXT))?.ok_or(
        "the engine is there",
    )?;
    assert!(rt; !gate.ran_out());
    is_of_nine_files(&rt, &journal);
    Ok(())
}

#[test]
fn words_outside_the_grammar_write_nothing(rt: HostRuntime) -> Result<(), Fail> {
    let none = (ShareStatus::Usage, b"".as_slice());
    let rows: [&[&[u8]]; 9] = [
        &[],
        &[b"--made", b"7", b"--count", b"9"],
        &[b"--made", b"7", b"--count", b"9", b"--editors", b"0"],
        &[b"--made", b"7", b"--count", b"9", b"--editors", b"17"],
        &[b"--made", b"7", b"--count", b"10001", b"--editors", b"1"],
        &[b"--made", b"7", b"--count", b"9", b"--count", b"9"],
        &[b"--made", b"7", b"--count", b"9", b"--editors", b"3", b"x"],
        &[b"--made=7", b"--count=9", b"--editors="],
        &[b"--made", b"x", b"--count", b"9", b"--editors", b"3"],
    ];
    for words in rows {
        let journal = shared(&rt, words, &FreeGate, none)?;
        assert!(rt; journal.is_none());
    }
    let joined: [&[u8]; 4] = [b"--editors=3", b"--made", b"7", b"--count=9"];
    let journal = shared(&rt, &joined, &FreeGate, (ShareStatus::Done, NINE_TEXT))?;
    assert!(rt; journal.is_some());
    Ok(())
}

/// Shares into a sink that fails at its first call.
fn failing<R: Threads + Wait + Sync + AllocGlobal>(rt: &R) -> Result<ShareStatus, AllocError> {
    let words = words_of(rt.alloc(), &NINE)?;
    let mut fails = Vec::new(rt.alloc());
    fails.push(1)?;
    let mut sink = MemSink::new(rt.alloc(), fails);
    let Share { status, closed } = share(rt, rt.alloc(), words.as_slice(), &mut sink, &FreeGate);
    match closed {
        Some(closed) => {
            let _journal = journal_of(rt, closed);
        }
        None => {}
    }
    Ok(status)
}

#[test]
fn a_sink_that_fails_is_a_write_fault(rt: HostRuntime) -> Result<(), Fail> {
    assert_eq!(rt; failing(&rt)?, ShareStatus::WriteFault);
    Ok(())
}

/// The reply of an engine that one thread has.
fn reply_of<R: Wait>(rt: &R, engine: &mut Engine, edit: &Edit) -> Option<EditReply> {
    match edit {
        Edit::Add(name, bytes) => {
            let name = name.as_slice();
            if !address_space::is_name(name) {
                return None;
            }
            match engine.add(rt, name, bytes.as_slice()) {
                Ok(added) => Some(EditReply::Added(added.id.0, added.first, added.last)),
                Err(AddFault::AddressesSpent { next, need }) => Some(EditReply::Spent(next, need)),
                Err(AddFault::NoMemory) => None,
            }
        }
        Edit::Del(id) => match engine.delete(rt, FileId(*id)) {
            Ok(_receipt) => Some(EditReply::Gone),
            Err(DeleteFault::NotLive(FileId(id))) => Some(EditReply::NotLive(id)),
            Err(DeleteFault::NoMemory) => None,
        },
    }
}

/// Whether one thread gets the replies of the journal.
fn replays<R: Wait>(rt: &R, engine: &mut Engine, journal: &Journal) -> bool {
    for i in 0..journal.len() {
        let entry = journal.entry(i);
        if reply_of(rt, engine, &entry.edit) != Some(entry.reply) {
            return false;
        }
    }
    true
}

/// Whether two versions have the same numbers, and the same files survive.
fn are_same(one: &Version, other: &Version) -> bool {
    let numbers = (one.next(), one.next_id(), one.dels(), one.file_count());
    if numbers
        != (
            other.next(),
            other.next_id(),
            other.dels(),
            other.file_count(),
        )
    {
        return false;
    }
    for id in 0..one.next_id() {
        if one.find_file(FileId(id)).is_some() != other.find_file(FileId(id)).is_some() {
            return false;
        }
    }
    true
}

/// Whether one thread that replays the journal gets each reply and the engine's version.
fn is_replayed<R: Wait>(rt: &R, alloc: Global, closed: Closed) -> bool {
    let Closed { engine, journal } = closed;
    let same = match Engine::open(rt, alloc, 0, 0) {
        Ok(opened) => {
            let Opened {
                engine: mut plain,
                readers: _readers,
                lines: _lines,
            } = opened;
            let same = replays(rt, &mut plain, &journal)
                && are_same(engine.version(), plain.version());
            plain.end(rt);
            same
        }
        Err(_) => false,
    };
    engine.end(rt);
    same
}

/// Shares 500 files among these editors, and replays what they did.
fn replayed<R: Threads + Wait + Sync + AllocGlobal + Abort>(
    rt: &R,
    editors: &[u8],
) -> Result<bool, AllocError> {
    let words = words_of(
        rt.alloc(),
        &[b"--made", b"5", b"--count", b"500", b"--editors", editors],
    )?;
    let mut sink = SureSink::new(rt.alloc());
    let Share { status, closed } = share(rt, rt.alloc(), words.as_slice(), &mut sink, &FreeGate);
    let same = match closed {
        Some(closed) => is_replayed(rt, rt.alloc(), closed),
        None => false,
    };
    Ok(same && status == ShareStatus::Done)
}

#[test]
fn one_thread_gets_the_replies_of_many(rt: HostRuntime) -> Result<(), Fail> {
    let rows: [&[u8]; 3] = [b"1", b"4", b"16"];
    for editors in rows {
        assert!(rt; replayed(&rt, editors)?, "{editors:?} editors");
    }
    Ok(())
}
