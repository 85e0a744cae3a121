// Each call and its expected answer are in one function: a test that makes many such calls in a row would be proved with all of them in
// scope.
use crate::compared::same;
use crate::fixtures::{Tells, TellsWriter};
use outside::{Sink, Source, WriteError};
use outside_std::{StdSink, StdSource};
use std::io::ErrorKind;
use std::process::Abort;
use std::{env, fs, io};

/// A sink gives this answer to a write of "to be".
fn writes<R: Abort, S: Sink>(rt: &R, case: &str, sink: &mut S, want: Result<usize, WriteError>) {
    same(rt, &case, &sink.write(b"to be"), &want);
}

/// A source hands out these bytes next, of three that are asked for.
fn reads<R: Abort, S: Source>(rt: &R, source: &mut S, want: &[u8]) {
    let mut into = [0u8; 3];
    let count = source.read(&mut into).unwrap_or(9);
    same(rt, &"what is read", &into.get(..count), &Some(want));
}

#[test]
fn what_a_sink_took_a_source_hands_out(rt: HostRuntime) -> io::Result<()> {
    let place = env::temp_dir(&rt)?.join(rt.alloc(), "gclq_outside_std_test")?;
    let mut sink = StdSink::new(&rt, fs::create(&rt, &place)?);
    writes(&rt, "a new file", &mut sink, Ok(5));
    same(&rt, &"nothing", &sink.write(b""), &Ok(0));
    let mut source = StdSource::new(&rt, fs::open(&rt, &place)?);
    for want in [b"to ".as_slice(), b"be", b""] {
        reads(&rt, &mut source, want);
    }
    let mut shut = StdSink::new(&rt, fs::open(&rt, &place)?);
    writes(
        &rt,
        "a file that was opened for reading",
        &mut shut,
        Err(WriteError::Failed),
    );
    fs::remove_file(&rt, &place)
}

#[test]
fn a_write_is_made_again_where_it_may_succeed_and_fails_at_a_fault_alone(rt: HostRuntime) {
    let cases: [(&str, &[Tells], Result<usize, WriteError>); 7] = [
        ("a part is taken", &[Tells::Takes(2)], Ok(2)),
        (
            "a signal came first",
            &[Tells::Fails(ErrorKind::Interrupted), Tells::Takes(5)],
            Ok(5),
        ),
        (
            "the writer would have to wait",
            &[Tells::Fails(ErrorKind::WouldBlock), Tells::Takes(5)],
            Ok(5),
        ),
        (
            "nothing is taken",
            &[Tells::Takes(0), Tells::Takes(5)],
            Err(WriteError::Failed),
        ),
        (
            "the disk is full",
            &[Tells::Fails(ErrorKind::StorageFull)],
            Err(WriteError::Failed),
        ),
        (
            "the writer wants memory",
            &[Tells::Fails(ErrorKind::OutOfMemory)],
            Err(WriteError::Failed),
        ),
        ("the first call fails", &[], Err(WriteError::Failed)),
    ];
    for (name, answers, want) in cases {
        let mut sink = StdSink::new(&rt, TellsWriter::new(answers));
        writes(&rt, name, &mut sink, want);
    }
}
