// What is written if a script comes in pieces, and if the answers go out in pieces.
ghost use Rattle.std.specs.Prelude.{None, Some};

use crate::scripts::SCRIPTS;
use crate::trials::{Served, counts, ends, files_and, joined, repeated, served_from, serves};
use gcl_model::{Bytes, Interval};
use outside::{FailList, Failed, MemSource, Sink, Source, SureFiles, WriteError};
use query_run::{Limits, Status};
use script_lang::{put_file, put_interval, put_total};
use std::alloc::{AllocError, Global};
use std::process::Abort;
use std::random::RandomSource;
use std::sync::Wait;
use std::sync::atomic::{AtomicU64, Ordering};
use std::test::Fail;
use std::thread::Threads;

// The most bytes that go through one call.
pub(crate) const PIECE: usize = 65_536;

/// Hands over at most `most` bytes a call, and keeps the most that it was asked for. Contracts do not see what it holds.
#[derive(Drop)]
pub(crate) struct SlowSource {
    inner: MemSource,
    most: usize,
    longest: usize,
}

impl SlowSource {
    /// It fails at the calls with these numbers, counted from 1.
    pub(crate) fn new(
        alloc: Global,
        script: &[u8],
        most: usize,
        fails: Vec<u64>,
    ) -> Result<SlowSource, AllocError> {
        Ok(SlowSource {
            inner: MemSource::new(alloc, Bytes::copy_of(alloc, script)?, fails),
            most,
            longest: 0,
        })
    }
}

impl Source for SlowSource {
    ghost left = { λ _. None };

    ghost faults = { λ s. ⟦<MemSource as Source>⟧.faults s.inner };

    fn read(&mut self, into: &mut [u8]) -> Result<usize, Failed> {
        self.longest = self.longest.max(into.len());
        let end = into.len().min(self.most);
        self.inner.read(&mut into[..end])
    }
}

/// Takes at most `most` bytes a call, but at least one, and keeps the most that it was given.
#[derive(Drop)]
struct SlowSink {
    taken: Vec<u8>,
    most: usize,
    longest: usize,
}

impl SlowSink {
    fn new(alloc: Global, most: usize) -> SlowSink {
        SlowSink {
            taken: Vec::new(alloc),
            most,
            longest: 0,
        }
    }
}

impl Sink for SlowSink {
    ghost written = { λ s. Some s.taken.items };

    ghost faults = { λ _. 0 };

    fn write(&mut self, piece: &[u8]) -> Result<usize, WriteError> {
        self.longest = self.longest.max(piece.len());
        let end = piece.len().min(self.most.max(1));
        self.taken.extend_from_slice(&piece[..end])?;
        Ok(end)
    }
}

/// The files of the other tests, and `x` with this number of words.
pub(crate) fn files_with_words(alloc: Global, words: u64) -> Result<SureFiles, AllocError> {
    let content = repeated(alloc, b"x ", words)?;
    files_and(alloc, b"x", content.as_slice())
}

/// Limits of this number of bytes for a script, and of 20 for a line.
fn limited(script: u64) -> Limits {
    Limits {
        line: 20,
        script,
        ..Limits::greatest()
    }
}

/// How `serve` ends with this number of readers and these limits, if `x` has `words` words and the source hands over at most `most` bytes
/// a call.
pub(crate) fn in_pieces<R: Threads + Wait + Sync + RandomSource + AllocGlobal + Abort>(
    rt: &R,
    readers: usize,
    limits: &Limits,
    words: u64,
    script: &[u8],
    most: usize,
) -> Result<Served, AllocError> {
    let mut files = files_with_words(rt.alloc(), words)?;
    let mut source = SlowSource::new(rt.alloc(), script, most, Vec::new(rt.alloc()))?;
    let mut sink = SlowSink::new(rt.alloc(), PIECE);
    let (status, lines) = served_from(rt, readers, limits, &mut files, &mut source, &mut sink)?;
    Ok((status, lines, sink.taken))
}

// A script whose lines end in every way, and its output if a line may have 20 bytes.
const LINES: &[u8] =
    b"add a\r\nadd b\n\nfind \"to\"\ncount \"be\"\r\ntop 1 \"to be\"\nfind \"to\"..\"be\" + \"or\" + \"not\"\nmerge\ncount \"or\"\nfrob\nshards\r\n\r\ncount \"not\"";

const ANSWERS: &[u8] =
    b"file 0 0 7\nfile 1 8 9\n1 1\n5 5\n= 2\n= 2\n1 2\n= 1\n! long line\nmerging\n= 1\n! command\nshards 1\n= 1\n";

/// Each script has its output if the source hands over at most `most` bytes a call.
fn each_is_answered_in_pieces<R: Threads + Wait + Sync + RandomSource + AllocGlobal + Abort>(
    rt: &R,
    most: usize,
) -> Result<(), AllocError> {
    let limits = limited(1_000);
    for (name, script, output) in SCRIPTS {
        let (status, _, written) = in_pieces(rt, 2, &limits, 0, script, most)?;
        let want = (Status::Done, output);
        ends(rt, &(name, most), (status, written.as_slice()), want);
    }
    Ok(())
}

#[test]
fn a_script_is_answered_alike_in_pieces_of_any_size(rt: HostRuntime) -> Result<(), Fail> {
    for most in [1, 2, 7, PIECE] {
        let got = in_pieces(&rt, 2, &limited(1_000), 0, LINES, most)?;
        serves(&rt, &most, &got, (Status::DoneWithRefusals, 13, ANSWERS));
        each_is_answered_in_pieces(&rt, most)?;
    }
    Ok(())
}

/// Hands over one part of a script a call, once all that is to be written over the parts before it is written: until then it fails.
#[derive(Drop)]
struct AskingSource<'a> {
    parts: &'a [(&'a [u8], &'a [u8])],
    at: usize,
    due: u64,
    count: &'a AtomicU64,
    calls: FailList,
}

impl<'a> AskingSource<'a> {
    fn new(
        alloc: Global,
        parts: &'a [(&'a [u8], &'a [u8])],
        count: &'a AtomicU64,
    ) -> AskingSource<'a> {
        AskingSource {
            parts,
            at: 0,
            due: 0,
            count,
            calls: FailList::new(Vec::new(alloc)),
        }
    }
}

impl<'a> Source for AskingSource<'a> {
    ghost left = { λ _. None };

    ghost faults = { λ s. s.calls.faults };

    fn read(&mut self, into: &mut [u8]) -> Result<usize, Failed> {
        if self.count.load(Ordering::SeqCst) != self.due {
            self.calls.fault();
            return Err(Failed);
        }
        let Some((part, answer)) = self.parts.get(self.at) else {
            return Ok(0);
        };
        let count = part.len().min(into.len());
        into[..count].copy_from_slice(&part[..count]);
        self.at = self.at.saturating_add(1);
        self.due = self.due.saturating_add(answer.len() as u64);
        Ok(count)
    }
}

/// Keeps what is written, and shares the number of its bytes.
#[derive(Drop)]
struct CountingSink<'a> {
    taken: Vec<u8>,
    count: &'a AtomicU64,
}

impl<'a> Sink for CountingSink<'a> {
    ghost written = { λ s. Some s.taken.items };

    ghost faults = { λ _. 0 };

    fn write(&mut self, piece: &[u8]) -> Result<usize, WriteError> {
        self.taken.extend_from_slice(piece)?;
        self.count.store(self.taken.len() as u64, Ordering::SeqCst);
        Ok(piece.len())
    }
}

// Lines of every command as they are handed over, and what is to be written before the next ones are.
const PARTS: [(&[u8], &[u8]); 20] = [
    (b"open v\n", b"opened 1\n"),
    (b"add a\n", b"file 2 10 17\n"),
    (b"find \"to\"\n", b"11 11\n15 15\n= 2\n"),
    (b"count \"be\"\n", b"= 2\n"),
    (b"top 1 \"to be\"\n", b"11 12\n= 1\n"),
    (b"files\n", b"1 8 9 b\n2 10 17 a\n= 2\n"),
    (b"shards\n", b"shards 1\n"),
    (b"merge\n", b"merging\n"),
    (b"\n", b""),
    (b"find \"be\"\n", b"12 12\n16 16\n= 2\n"),
    (b"merge\n", b"merging\n"),
    (b"shards\n", b"shards 1\n"),
    (
        b"count \"to\"\ncount \"or\"\nadd b\n",
        b"= 2\n= 1\nfile 3 18 19\n",
    ),
    (b"del 1\nfind", b"gone 1\n"),
    (b" \"not\"", b""),
    (b"\r", b""),
    (b"\ncount", b"14 14\n= 1\n"),
    (
        b" (\nfrob\n",
        b"! query at 1: operand expected\n! command\n",
    ),
    (b"save i\nopen i\n", b"saved 104\n! not empty\n"),
    (b"count \"be\"", b""),
];

/// The parts are answered in turns with this number of readers.
fn is_answered_in_turns<R: Threads + Wait + Sync + RandomSource + AllocGlobal + Abort>(
    rt: &R,
    readers: usize,
    want: &[u8],
) -> Result<(), AllocError> {
    let count = AtomicU64::new(0);
    let mut files = files_with_words(rt.alloc(), 0)?;
    let mut source = AskingSource::new(rt.alloc(), &PARTS, &count);
    let mut sink = CountingSink {
        taken: Vec::new(rt.alloc()),
        count: &count,
    };
    let limits = Limits::greatest();
    let (status, _) = served_from(rt, readers, &limits, &mut files, &mut source, &mut sink)?;
    let want = (Status::DoneWithRefusals, want);
    ends(rt, &readers, (status, sink.taken.as_slice()), want);
    Ok(())
}

#[test]
fn each_line_is_answered_before_more_is_asked_for(rt: HostRuntime) -> Result<(), Fail> {
    let mut want = Vec::new(rt.alloc());
    for (_, answer) in PARTS {
        want.extend_from_slice(answer)?;
    }
    want.extend_from_slice(b"= 2\n")?;
    is_answered_in_turns(&rt, 0, want.as_slice())?;
    is_answered_in_turns(&rt, 4, want.as_slice())?;
    Ok(())
}

/// Appends a line for each of `words` words, the first at address 1, and their number.
fn put_words(out: &mut Vec<u8>, words: u64) -> Result<(), AllocError> {
    for at in 0..words {
        let address = at.saturating_add(1);
        put_interval(out, Interval::new(address, address))?;
    }
    put_total(out, words)
}

// Queries over 5,000 words, each with the number of members that are listed.
const PAGES: [(&[u8], u64); 8] = [
    (b"top 4095 \"x\"\n", 4_095),
    (b"top 4096 \"x\"\n", 4_096),
    (b"top 4097 \"x\"\n", 4_097),
    (b"top 4999 \"x\"\n", 4_999),
    (b"top 5000 \"x\"\n", 5_000),
    (b"top 5001 \"x\"\n", 5_000),
    (b"top 9999 \"x\"\n", 5_000),
    (b"find \"x\"\n", 5_000),
];

/// A script that asks these queries, and what is to be written.
fn paged(alloc: Global) -> Result<(Vec<u8>, Vec<u8>), AllocError> {
    let mut script = b"add x\n".to_vec(alloc)?;
    let mut want = Vec::new(alloc);
    put_file(&mut want, 0, 0, 5_001)?;
    for (line, words) in PAGES {
        script.extend_from_slice(line)?;
        put_words(&mut want, words)?;
    }
    Ok((script, want))
}

#[test]
fn lists_longer_than_a_page_are_written_to_their_ends(rt: HostRuntime) -> Result<(), Fail> {
    let (script, want) = paged(rt.alloc())?;
    let limits = limited(1_000);
    for most in [1, 7, PIECE] {
        let got = in_pieces(&rt, 2, &limits, 5_000, script.as_slice(), most)?;
        serves(&rt, &most, &got, (Status::Done, 9, want.as_slice()));
    }
    Ok(())
}

/// This is written if the sink takes at most `most` bytes a call, and no call gets more than a piece.
fn is_written_in_pieces<R: Threads + Wait + Sync + RandomSource + AllocGlobal + Abort>(
    rt: &R,
    script: &[u8],
    want: &[u8],
    most: usize,
) -> Result<(), AllocError> {
    let mut files = files_with_words(rt.alloc(), 5_000)?;
    let mut source = SlowSource::new(rt.alloc(), script, 2 * PIECE, Vec::new(rt.alloc()))?;
    let mut sink = SlowSink::new(rt.alloc(), most);
    let limits = Limits::greatest();
    let (status, _) = served_from(rt, 4, &limits, &mut files, &mut source, &mut sink)?;
    ends(
        rt,
        &most,
        (status, sink.taken.as_slice()),
        (Status::Done, want),
    );
    counts(rt, &most, sink.longest as u64, PIECE as u64);
    counts(rt, &most, source.longest as u64, PIECE as u64);
    Ok(())
}

#[test]
fn no_call_gets_more_than_65_536_bytes(rt: HostRuntime) -> Result<(), Fail> {
    let (script, want) = paged(rt.alloc())?;
    let ends = repeated(rt.alloc(), b"\n", 2 * PIECE as u64)?;
    let script = joined(rt.alloc(), &[script.as_slice(), ends.as_slice()])?;
    for most in [3, PIECE - 1, PIECE, 2 * PIECE] {
        is_written_in_pieces(&rt, script.as_slice(), want.as_slice(), most)?;
    }
    Ok(())
}

const THREE: &[u8] = b"add a\nfiles\nfiles\n";

// The most bytes of the script, and of a call of the source; the status, the lines that are completed, and the output.
const CUTS: [(u64, usize, Status, u64, &[u8]); 10] = [
    (
        12,
        1,
        Status::ScriptTooLong,
        2,
        b"file 0 0 7\n0 0 7 a\n= 1\n",
    ),
    (12, 5, Status::ScriptTooLong, 1, b"file 0 0 7\n"),
    (
        12,
        6,
        Status::ScriptTooLong,
        2,
        b"file 0 0 7\n0 0 7 a\n= 1\n",
    ),
    (12, 7, Status::ScriptTooLong, 1, b"file 0 0 7\n"),
    (
        12,
        12,
        Status::ScriptTooLong,
        2,
        b"file 0 0 7\n0 0 7 a\n= 1\n",
    ),
    (12, 13, Status::ScriptTooLong, 0, b""),
    (12, PIECE, Status::ScriptTooLong, 0, b""),
    (
        17,
        1,
        Status::ScriptTooLong,
        2,
        b"file 0 0 7\n0 0 7 a\n= 1\n",
    ),
    (
        18,
        1,
        Status::Done,
        3,
        b"file 0 0 7\n0 0 7 a\n= 1\n0 0 7 a\n= 1\n",
    ),
    (
        18,
        PIECE,
        Status::Done,
        3,
        b"file 0 0 7\n0 0 7 a\n= 1\n0 0 7 a\n= 1\n",
    ),
];

#[test]
fn of_a_script_above_its_limit_the_lines_of_the_pieces_before_are_answered(
    rt: HostRuntime,
) -> Result<(), Fail> {
    for (limit, most, want, lines, output) in CUTS {
        let got = in_pieces(&rt, 2, &limited(limit), 0, THREE, most)?;
        serves(&rt, &(limit, most), &got, (want, lines, output));
    }
    Ok(())
}
