use crate::fault_name::FaultName;
use crate::reader_gone::ReaderGone;
use crate::session::begin;
use crate::tell::refuse;
use crate::words::{WordFault, copied};
use gcl_model::Bytes;
use outside::{MemFiles, MemSink, MemSource};
use outside_std::{FileCall, FileCause};
use std::alloc::{AllocError, Global};
use std::process::ExitCode;
use std::test::Fail;

impl FaultName for MemFiles {
    fn fault_name(&self) -> &[u8] {
        b"x"
    }

    fn fault_call(&self) -> Option<FileCall> {
        Some(FileCall::Load)
    }

    fn fault_cause(&self) -> Option<FileCause> {
        Some(FileCause::NotThere)
    }
}

impl ReaderGone for MemSink {
    fn reader_gone(&self) -> bool {
        true
    }
}

/// The arguments of a program: its name, and these words.
fn arguments(alloc: Global, words: &[&str]) -> Result<Vec<String>, AllocError> {
    let mut arguments = Vec::new(alloc);
    arguments.push(String::from_str(alloc, "gclq")?)?;
    for word in words {
        arguments.push(String::from_str(alloc, word)?)?;
    }
    Ok(arguments)
}

/// One script over objects in memory, of which the source and the sink fail at these calls.
struct Case<'a> {
    name: &'a str,
    words: &'a [&'a str],
    script: &'a [u8],
    fails: (&'a [u64], &'a [u64]),
    output: &'a [u8],
    status: u8,
}

const CASES: [Case<'static>; 8] = [
    Case {
        name: "all is answered",
        words: &[],
        script: b"add a\n",
        fails: (&[], &[]),
        output: b"file 0 0 3\n",
        status: 0,
    },
    Case {
        name: "a refusal, and the words are read",
        words: &["--first", "100"],
        script: b"add a\ndel 7\n",
        fails: (&[], &[]),
        output: b"file 0 100 103\n! no file 7\n",
        status: 1,
    },
    Case {
        name: "the words are outside the grammar",
        words: &["--first", "100", "x"],
        script: b"add a\n",
        fails: (&[], &[]),
        output: b"",
        status: 2,
    },
    Case {
        name: "a made corpus takes the place of the script",
        words: &["--made", "0", "--count", "1"],
        script: b"add b\n",
        fails: (&[1], &[]),
        output: b"made 0 1\nlines 4\nrefused 0\nbytes 24\nsum 1177\n",
        status: 0,
    },
    Case {
        name: "the first read fails",
        words: &[],
        script: b"add a\n",
        fails: (&[1], &[]),
        output: b"",
        status: 3,
    },
    Case {
        name: "the first write fails",
        words: &[],
        script: b"add a\nadd a\n",
        fails: (&[], &[1]),
        output: b"",
        status: 4,
    },
    Case {
        name: "a later write fails",
        words: &[],
        script: b"add a\nadd a\n",
        fails: (&[], &[2]),
        output: b"file 0 0 3\n",
        status: 4,
    },
    Case {
        name: "a name is not held",
        words: &[],
        script: b"add a\nadd b\nadd a\n",
        fails: (&[], &[]),
        output: b"file 0 0 3\n",
        status: 5,
    },
];

#[test]
fn the_exit_status_says_how_the_run_ended(rt: HostRuntime) -> Result<(), Fail> {
    let alloc = rt.alloc();
    for case in &CASES {
        let args = arguments(alloc, case.words)?;
        let mut held = Vec::new(alloc);
        held.push((
            Bytes::copy_of(alloc, b"a")?,
            Bytes::copy_of(alloc, b"to be")?,
        ))?;
        let mut files = MemFiles::new(alloc, held, Vec::new(alloc));
        let script = Bytes::copy_of(alloc, case.script)?;
        let mut source = MemSource::new(alloc, script, case.fails.0.to_vec(alloc)?);
        let mut sink = MemSink::new(alloc, case.fails.1.to_vec(alloc)?);
        let args = args.as_slice();
        let status = begin(&rt, alloc, args, false, &mut files, &mut source, &mut sink);
        assert_eq!(rt; sink.written(), case.output, "{}", case.name);
        assert_eq!(rt; status, ExitCode::from(case.status), "{}", case.name);
    }
    Ok(())
}

#[test]
fn words_that_were_not_read_end_with_their_status(rt: HostRuntime) {
    let cases = [(WordFault::NotText, 2u8), (WordFault::NoMemory, 6)];
    for (fault, status) in cases {
        assert_eq!(rt; refuse(&rt, fault), ExitCode::from(status), "{fault:?}");
    }
}

#[test]
fn every_word_is_copied(rt: HostRuntime) -> Result<(), Fail> {
    let alloc = rt.alloc();
    let mut words = Vec::new(alloc);
    for word in ["--first", "", "100"] {
        words.push(String::from_str(alloc, word)?)?;
    }
    let copies = copied(alloc, words.as_slice())?;
    let want: [&[u8]; 3] = [b"--first", b"", b"100"];
    assert_eq!(rt; copies.len(), want.len());
    for (copy, want) in copies.iter().zip(want) {
        assert_eq!(rt; copy.as_slice(), want);
    }
    Ok(())
}
