use crate::checks::{holds, same};
use gcl_model::Bytes;
use outside::{
    FileError, Files, Gate, Loaded, MemFiles, MemSink, MemSource, Sink, Source, SureFiles,
    SureSink, SureSource, TurnGate,
};
use std::alloc::{AllocError, Global};
use std::process::Abort;
use std::test::Fail;

/// The files a and b, and a second a that does not count.
fn held(alloc: Global) -> Result<Vec<(Bytes, Bytes)>, AllocError> {
    let entries: [(&[u8], &[u8]); 3] = [(b"a", b"to be"), (b"b", b""), (b"a", b"not")];
    let mut held = Vec::new(alloc);
    for (name, content) in entries {
        let name = Bytes::copy_of(alloc, name)?;
        held.push((name, Bytes::copy_of(alloc, content)?))?;
    }
    Ok(held)
}

/// The counts of five reads of at most three bytes are these, None for one that fails.
fn reads<R: Abort, S: Source>(rt: &R, source: &mut S, want: [Option<usize>; 5]) {
    let mut counts = [None; 5];
    let mut into = [0u8; 3];
    for count in &mut counts {
        *count = source.read(&mut into).ok();
    }
    same(rt, &"five reads", &counts, &want);
}

const PIECES: [&[u8]; 4] = [b"to", b" ", b"", b"be"];

/// The counts of four writes are these, None for one that fails.
fn writes<R: Abort, K: Sink>(rt: &R, sink: &mut K, want: [Option<usize>; 4]) {
    let mut counts = [None; 4];
    for (count, piece) in counts.iter_mut().zip(&PIECES) {
        *count = sink.write(piece).ok();
    }
    same(rt, &"four writes", &counts, &want);
}

/// A source and a sink that never fail.
fn are_sure<R: Abort>(rt: &R, alloc: Global) -> Result<(), AllocError> {
    let mut source = SureSource::new(alloc, Bytes::copy_of(alloc, b"to be")?);
    reads(
        rt,
        &mut source,
        [Some(3), Some(2), Some(0), Some(0), Some(0)],
    );
    let mut sink = SureSink::new(alloc);
    writes(rt, &mut sink, [Some(2), Some(1), Some(0), Some(2)]);
    same(rt, &"sure", &sink.written(), &b"to be".as_slice());
    Ok(())
}

/// A source that fails at its second call and at its fourth.
fn a_source_fails<R: Abort>(rt: &R, alloc: Global) -> Result<(), AllocError> {
    let bytes = Bytes::copy_of(alloc, b"to be")?;
    let mut source = MemSource::new(alloc, bytes, [2u64, 4].to_vec(alloc)?);
    reads(rt, &mut source, [Some(3), None, Some(2), None, Some(0)]);
    Ok(())
}

/// A sink that fails at its first call and at its third.
fn a_sink_fails<R: Abort>(rt: &R, alloc: Global) -> Result<(), AllocError> {
    let mut sink = MemSink::new(alloc, [1u64, 3].to_vec(alloc)?);
    writes(rt, &mut sink, [None, Some(1), None, Some(2)]);
    same(rt, &"failing", &sink.written(), &b" be".as_slice());
    Ok(())
}

#[test]
fn a_source_and_a_sink_fail_at_their_calls_alone(rt: HostRuntime) -> Result<(), Fail> {
    are_sure(&rt, rt.alloc())?;
    a_source_fails(&rt, rt.alloc())?;
    a_sink_fails(&rt, rt.alloc())?;
    Ok(())
}

/// What a call answers: a load of at most four bytes, with what it puts into the buffer unless it fails, or a keep.
#[derive(Clone, Copy)]
enum Call<'a> {
    Load(&'a [u8], Result<(Loaded, &'a [u8]), FileError>),
    Keep(&'a [u8], &'a [u8], Result<(), FileError>),
}

/// A load gives this answer.
fn loads<R: Abort, F: Files>(
    rt: &R,
    alloc: Global,
    files: &mut F,
    name: &[u8],
    want: Result<(Loaded, &[u8]), FileError>,
) {
    let mut out = Vec::new(alloc);
    let answer = match files.load(name, 4, &mut out) {
        Ok(loaded) => Ok((loaded, out.as_slice())),
        Err(fault) => Err(fault),
    };
    same(rt, &name, &answer, &want);
}

/// Each call gives its answer.
fn answers<R: Abort, F: Files>(rt: &R, alloc: Global, files: &mut F, calls: &[Call<'_>]) {
    for call in calls {
        match *call {
            Call::Load(name, want) => loads(rt, alloc, files, name, want),
            Call::Keep(name, bytes, want) => same(rt, &name, &files.keep(name, bytes), &want),
        }
    }
}

// The third call and the fourth fail, and so does the load of a name that is not held. The files go on.
const COUNTED: [Call<'static>; 8] = [
    Call::Keep(b"c", b"or", Ok(())),
    Call::Load(b"c", Ok((Loaded::Whole, b"or"))),
    Call::Keep(b"a", b"or", Err(FileError::Failed)),
    Call::Load(b"b", Err(FileError::Failed)),
    Call::Load(b"a", Ok((Loaded::Long, b"to be"))),
    Call::Keep(b"a", b"", Ok(())),
    Call::Load(b"a", Ok((Loaded::Whole, b""))),
    Call::Load(b"d", Err(FileError::Failed)),
];

/// The files fail at their third call and at their fourth.
fn mem_files(alloc: Global) -> Result<MemFiles, AllocError> {
    Ok(MemFiles::new(alloc, held(alloc)?, [3u64, 4].to_vec(alloc)?))
}

fn count_together<R: Abort>(rt: &R, alloc: Global, files: &mut MemFiles) {
    answers(rt, alloc, files, &COUNTED);
    same(rt, &"d", &files.content(b"d"), &None);
    same(rt, &"c", &files.content(b"c"), &Some(b"or".as_slice()));
}

#[test]
fn loads_and_keeps_are_counted_together(rt: HostRuntime) -> Result<(), Fail> {
    let mut files = mem_files(rt.alloc())?;
    count_together(&rt, rt.alloc(), &mut files);
    Ok(())
}

const UNHELD: [Call<'static>; 1] = [Call::Load(b"d", Ok((Loaded::Whole, b"")))];

const KEPT: [Call<'static>; 2] = [
    Call::Keep(b"d", b"or not", Ok(())),
    Call::Load(b"d", Ok((Loaded::Long, b"or no"))),
];

fn are_sure_of_bytes<R: Abort>(rt: &R, alloc: Global, files: &mut SureFiles) {
    answers(rt, alloc, files, &UNHELD);
    same(rt, &"d", &files.content(b"d"), &None);
    answers(rt, alloc, files, &KEPT);
    same(rt, &"a", &files.content(b"a"), &Some(b"to be".as_slice()));
}

#[test]
fn a_sure_name_that_is_not_held_has_no_bytes(rt: HostRuntime) -> Result<(), Fail> {
    let mut files = SureFiles::new(rt.alloc(), held(rt.alloc())?);
    are_sure_of_bytes(&rt, rt.alloc(), &mut files);
    Ok(())
}

#[test]
fn a_publication_that_no_query_follows_runs_out_of_looks(rt: HostRuntime) -> Result<(), Fail> {
    let gate = TurnGate::new();
    holds(&rt, &"before", !gate.ran_out());
    gate.before_publish(1);
    holds(&rt, &"after", gate.ran_out());
    Ok(())
}

#[test]
fn a_query_after_the_publication_is_not_held(rt: HostRuntime) -> Result<(), Fail> {
    let gate = TurnGate::new();
    gate.before_query(1);
    gate.after_query(1, 4);
    gate.after_publish(5);
    gate.before_query(2);
    gate.after_query(2, 5);
    gate.before_publish(6);
    let answered = (gate.answered_on(1), gate.answered_on(2));
    same(&rt, &"answered", &answered, &(4, 5));
    holds(&rt, &"looks are left", !gate.ran_out());
    Ok(())
}
