// What the tests share: objects in memory, runs over them, and how a run should end. Each long contract and each comparison is in one
// function here: a test that makes several such calls in a row would be proved with all of them in scope.
use crate::fixtures::opened;
use collection::Opened;
use gcl_model::Bytes;
use outside::{
    Files, FreeGate, Gate, MemFiles, MemSink, MemSource, Sink, Source, SureFiles, SureSink,
    SureSource,
};
use query_run::{Limits, Status, run, serve};
use std::alloc::{AllocError, Global};
use std::fmt::Debug;
use std::process::Abort;
use std::random::RandomSource;
use std::sync::Wait;
use std::thread::Threads;

/// A script over the files that are held, by what it shows, and its output.
pub(crate) type Row = (&'static str, &'static [u8], &'static [u8]);

/// How `serve` ended: its status, the lines that it completed, and what was written.
pub(crate) type Served = (Status, u64, Vec<u8>);

// An image in version 1: one file `b` without words, with the id 1 and the addresses 8 and 9.
const IMAGE: &[u8] =
    b"GCLIMG01\0\0\0\0\0\0\0\0\x0a\0\0\0\0\0\0\0\x02\0\0\0\0\0\0\0\x01\0\0\0\0\0\0\0\x01\0\0\0\0\0\0\0\x08\0\0\0\0\0\0\0\x02\0\0\0\0\0\0\0\x01\0\0\0b\x02\0\0\0\0\0\0\0\x08\0\0\0</file!>\x01\0\0\0\0\0\0\0\x09\x07\0\0\0<file!>\x01\0\0\0\0\0\0\0\x08";

/// The files that are held, each with its bytes.
pub(crate) const NAMES: [(&[u8], &[u8]); 6] = [
    (b"v", IMAGE),
    (b"a", b"to be or not to be"),
    (b"b", b""),
    (b"t", b"<A HREF=\"x\">B</a><br/>caf\xc3\xa9 <3 <b"),
    (b"w", b"<file!>"),
    (
        b"p",
        b"<speech><speaker>Hamlet</speaker><line>To be, or not to be</line></speech>",
    ),
];

fn entry(alloc: Global, name: &[u8], content: &[u8]) -> Result<(Bytes, Bytes), AllocError> {
    Ok((
        Bytes::copy_of(alloc, name)?,
        Bytes::copy_of(alloc, content)?,
    ))
}

fn held(alloc: Global) -> Result<Vec<(Bytes, Bytes)>, AllocError> {
    let mut held = Vec::new(alloc);
    for (name, content) in NAMES {
        held.push(entry(alloc, name, content)?)?;
    }
    Ok(held)
}

/// The files that are held.
pub(crate) fn sure_files(alloc: Global) -> Result<SureFiles, AllocError> {
    Ok(SureFiles::new(alloc, held(alloc)?))
}

/// The files that are held, and one more.
pub(crate) fn files_and(
    alloc: Global,
    name: &[u8],
    content: &[u8],
) -> Result<SureFiles, AllocError> {
    let mut files = held(alloc)?;
    files.push(entry(alloc, name, content)?)?;
    Ok(SureFiles::new(alloc, files))
}

/// Only this file.
pub(crate) fn one_file(
    alloc: Global,
    name: &[u8],
    content: &[u8],
) -> Result<Vec<(Bytes, Bytes)>, AllocError> {
    let mut files = Vec::new(alloc);
    files.push(entry(alloc, name, content)?)?;
    Ok(files)
}

/// The number of a call that is to fail, or none if it is 0.
pub(crate) fn failing_call(alloc: Global, number: u64) -> Result<Vec<u64>, AllocError> {
    let mut calls = Vec::new(alloc);
    if number > 0 {
        calls.push(number)?;
    }
    Ok(calls)
}

/// The files that are held; the call with this number fails, none if it is 0.
pub(crate) fn mem_files(alloc: Global, fails: u64) -> Result<MemFiles, AllocError> {
    Ok(MemFiles::new(alloc, held(alloc)?, failing_call(alloc, fails)?))
}

/// A script; the call with this number fails, none if it is 0.
pub(crate) fn mem_source(
    alloc: Global,
    script: &[u8],
    fails: u64,
) -> Result<MemSource, AllocError> {
    Ok(MemSource::new(
        alloc,
        Bytes::copy_of(alloc, script)?,
        failing_call(alloc, fails)?,
    ))
}

/// A sink; the call with this number fails, none if it is 0.
pub(crate) fn mem_sink(alloc: Global, fails: u64) -> Result<MemSink, AllocError> {
    Ok(MemSink::new(alloc, failing_call(alloc, fails)?))
}

/// A script that is handed over at once.
pub(crate) fn sure_source(alloc: Global, script: &[u8]) -> Result<SureSource, AllocError> {
    Ok(SureSource::new(alloc, Bytes::copy_of(alloc, script)?))
}

/// These bytes, one part after another.
pub(crate) fn joined(alloc: Global, parts: &[&[u8]]) -> Result<Vec<u8>, AllocError> {
    let mut whole = Vec::new(alloc);
    for part in parts {
        whole.extend_from_slice(part)?;
    }
    Ok(whole)
}

/// These bytes, this number of times.
pub(crate) fn repeated(alloc: Global, part: &[u8], times: u64) -> Result<Vec<u8>, AllocError> {
    let mut whole = Vec::new(alloc);
    for _ in 0..times {
        whole.extend_from_slice(part)?;
    }
    Ok(whole)
}

fn list(alloc: Global, words: &[&[u8]]) -> Result<Vec<Bytes>, AllocError> {
    let mut list = Vec::new(alloc);
    for word in words {
        list.push(Bytes::copy_of(alloc, word)?)?;
    }
    Ok(list)
}

/// What was written is this.
pub(crate) fn writes<R: Abort, C: Debug>(rt: &R, case: &C, written: &[u8], output: &[u8]) {
    assert_eq!(rt; written, output, "{case:?}");
}

/// A run ended with this status.
pub(crate) fn says<R: Abort, C: Debug>(rt: &R, case: &C, status: Status, want: Status) {
    assert_eq!(rt; status, want, "{case:?}");
}

/// A number is this.
pub(crate) fn counts<R: Abort, C: Debug>(rt: &R, case: &C, number: u64, want: u64) {
    assert_eq!(rt; number, want, "{case:?}");
}

/// This holds.
pub(crate) fn holds<R: Abort, C: Debug>(rt: &R, case: &C, is_so: bool) {
    assert!(rt; is_so, "{case:?}");
}

/// A run ended with this status, and wrote this.
pub(crate) fn ends<R: Abort, C: Debug>(
    rt: &R,
    case: &C,
    ended: (Status, &[u8]),
    want: (Status, &[u8]),
) {
    writes(rt, case, ended.1, want.1);
    says(rt, case, ended.0, want.0);
}

/// `serve` ended with this status, completed this number of lines, and wrote this.
pub(crate) fn serves<R: Abort, C: Debug>(
    rt: &R,
    case: &C,
    served: &Served,
    want: (Status, u64, &[u8]),
) {
    writes(rt, case, served.2.as_slice(), want.2);
    says(rt, case, served.0, want.0);
    counts(rt, case, served.1, want.1);
}

/// The status of a run with these words over these objects.
pub(crate) fn ran<
    R: Threads + Wait + Sync + RandomSource + AllocGlobal,
    F: Files,
    S: Source,
    K: Sink,
    G: Gate + Sync,
>(
    rt: &R,
    words: &[&[u8]],
    files: &mut F,
    source: &mut S,
    sink: &mut K,
    gate: &G,
) -> Result<Status, AllocError> {
    let alloc = rt.alloc();
    let words = list(alloc, words)?;
    let mut completed = 0;
    Ok(run(
        rt,
        alloc,
        words.as_slice(),
        files,
        source,
        sink,
        gate,
        &mut completed,
    ))
}

/// The status of a run of this script over these files, which it may change, and what was written.
pub(crate) fn run_over<
    R: Threads + Wait + Sync + RandomSource + AllocGlobal,
    F: Files,
    G: Gate + Sync,
>(
    rt: &R,
    words: &[&[u8]],
    files: &mut F,
    script: &[u8],
    gate: &G,
) -> Result<(Status, Vec<u8>), AllocError> {
    let mut source = sure_source(rt.alloc(), script)?;
    let mut sink = SureSink::new(rt.alloc());
    let status = ran(rt, words, files, &mut source, &mut sink, gate)?;
    Ok((status, sink.written().to_vec(rt.alloc())?))
}

/// A run with these words of this script, over the files that are held, ends as given.
pub(crate) fn answers<R: Threads + Wait + Sync + RandomSource + AllocGlobal + Abort, C: Debug>(
    rt: &R,
    case: &C,
    words: &[&[u8]],
    script: &[u8],
    want: (Status, &[u8]),
) -> Result<(), AllocError> {
    let mut files = sure_files(rt.alloc())?;
    let (status, written) = run_over(rt, words, &mut files, script, &FreeGate)?;
    ends(rt, case, (status, written.as_slice()), want);
    Ok(())
}

/// The status of `serve` with this number of readers and by these limits, and the number of lines that it completed.
pub(crate) fn served_from<
    R: Threads + Wait + Sync + RandomSource + AllocGlobal + Abort,
    F: Files,
    S: Source,
    K: Sink,
>(
    rt: &R,
    readers: usize,
    limits: &Limits,
    files: &mut F,
    source: &mut S,
    sink: &mut K,
) -> Result<(Status, u64), AllocError> {
    assert!(rt; readers <= 16);
    assert!(rt; limits.are_allowed());
    let alloc = rt.alloc();
    let mut opened = opened(rt, alloc, readers)?;
    let status = serve(
        rt,
        alloc,
        &mut opened,
        limits,
        files,
        source,
        sink,
        &FreeGate,
    );
    let Opened {
        engine,
        readers: _readers,
        lines,
    } = opened;
    engine.end(rt);
    Ok((status, lines))
}

/// How `serve` ends over these files, which it may change.
pub(crate) fn served_over<R: Threads + Wait + Sync + RandomSource + AllocGlobal + Abort, F: Files>(
    rt: &R,
    readers: usize,
    limits: &Limits,
    files: &mut F,
    script: &[u8],
) -> Result<Served, AllocError> {
    let mut source = sure_source(rt.alloc(), script)?;
    let mut sink = SureSink::new(rt.alloc());
    let (status, lines) = served_from(rt, readers, limits, files, &mut source, &mut sink)?;
    Ok((status, lines, sink.written().to_vec(rt.alloc())?))
}

/// How `serve` ends over the files that are held.
pub(crate) fn served<R: Threads + Wait + Sync + RandomSource + AllocGlobal + Abort>(
    rt: &R,
    readers: usize,
    limits: &Limits,
    script: &[u8],
) -> Result<Served, AllocError> {
    let mut files = sure_files(rt.alloc())?;
    served_over(rt, readers, limits, &mut files, script)
}
