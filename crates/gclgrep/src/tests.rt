use crate::input::{Opener, WithInput};
use crate::reader_gone::ReaderGone;
use crate::session::answer;
use gcl_model::Bytes;
use outside::{MemFiles, MemSink, MemSource};
use std::alloc::{AllocError, Global};
use std::process::ExitCode;
use std::test::Fail;

/// The words of one run over the files `a`, `e` and `t`, what it must write, and its status.
struct Row<'a> {
    words: &'a [&'a str],
    output: &'a str,
    status: u8,
}

const ROWS: [Row<'static>; 22] = [
    Row {
        words: &["\"to\"..\"be\"", "a"],
        output: "a:1:to be or not to be\n",
        status: 0,
    },
    Row {
        words: &["-o", "\"to\"..\"be\"", "a"],
        output: "a:1:to be\na:1:to be\n",
        status: 0,
    },
    Row {
        words: &["-o", "\"BE\"..\"to\"", "a"],
        output: "a:1:be or not to\n",
        status: 0,
    },
    Row {
        words: &["-c", "\"to\"", "a", "e"],
        output: "a:2\ne:0\n",
        status: 0,
    },
    Row {
        words: &["-l", "\"<p>\"", "a", "t"],
        output: "t\n",
        status: 0,
    },
    Row {
        words: &["(\"<p>\"..\"</p>\") > \"four\"", "t"],
        output: "t:2:<p>three\nt:3:four <br/> five</p>\n",
        status: 0,
    },
    Row {
        words: &["-o", "(\"<p>\"..\"</p>\") > \"four\"", "t"],
        output: "t:2:<p>three\nt-3-four <br/> five</p>\n",
        status: 0,
    },
    Row {
        words: &["-o", "\"<br>\"+\"</br>\"", "t"],
        output: "t:3:<br/>\nt:3:<br/>\n",
        status: 0,
    },
    Row {
        words: &["-o", "\"two\"..\"five\"", "t"],
        output: "t:1:two</p>\nt-2-<p>three\nt-3-four <br/> five\n",
        status: 0,
    },
    Row {
        words: &["-o", "\"<file!>\"", "e"],
        output: "e:1:\n",
        status: 0,
    },
    Row {
        words: &["\"<file!>\"", "e"],
        output: "",
        status: 0,
    },
    Row {
        words: &["-c", "\"<file!>\"..\"</file!>\"", "a", "e"],
        output: "a:1\ne:1\n",
        status: 0,
    },
    Row {
        words: &["-oh", "-m", "1", "\"to\"", "a"],
        output: "1:to\n",
        status: 0,
    },
    Row {
        words: &["-ohN", "\"not\"", "a"],
        output: "not\n",
        status: 0,
    },
    Row {
        words: &["\"xyzzy\"", "a"],
        output: "",
        status: 1,
    },
    Row {
        words: &["-d", "x=\"to\"..\"be\"", "-c", "$x > \"to\"", "a"],
        output: "a:2\n",
        status: 0,
    },
    Row {
        words: &["\"to\" ..", "a"],
        output: "",
        status: 2,
    },
    Row {
        words: &["$y", "a"],
        output: "",
        status: 2,
    },
    Row {
        words: &["-o", "-c", "\"a\"", "a"],
        output: "",
        status: 2,
    },
    Row {
        words: &[],
        output: "",
        status: 2,
    },
    Row {
        words: &["-c", "\"to\"", "a", "missing", "a"],
        output: "a:2\na:2\n",
        status: 2,
    },
    Row {
        words: &["-q", "\"to\"", "a"],
        output: "",
        status: 0,
    },
];

impl ReaderGone for MemSink {
    fn reader_gone(&self) -> bool {
        false
    }
}

fn files(alloc: Global, fails: Vec<u64>) -> Result<MemFiles, AllocError> {
    let held: [(&[u8], &[u8]); 3] = [
        (b"a", b"to be or not to be"),
        (b"e", b""),
        (b"t", b"<p>One two</p>\n<p>three\nfour <br/> five</p>\n"),
    ];
    let mut entries = Vec::new(alloc);
    for (name, content) in held {
        let name = Bytes::copy_of(alloc, name)?;
        entries.push((name, Bytes::copy_of(alloc, content)?))?;
    }
    Ok(MemFiles::new(alloc, entries, fails))
}

/// Opens the files again for each thread, or for none of them.
#[derive(Drop)]
struct MemOpener {
    alloc: Global,
    opens: bool,
}

impl Opener for MemOpener {
    type Opened = MemFiles;

    fn open(&self) -> Option<MemFiles> {
        if !self.opens {
            return None;
        }
        files(self.alloc, Vec::new(self.alloc)).ok()
    }
}

fn words_of(alloc: Global, texts: &[&str]) -> Result<Vec<String>, AllocError> {
    let mut words = Vec::new(alloc);
    for text in texts {
        words.push(String::from_str(alloc, text)?)?;
    }
    Ok(words)
}

#[test]
fn each_row_is_written_as_it_must(rt: HostRuntime) -> Result<(), Fail> {
    let alloc = rt.alloc();
    for row in &ROWS {
        let words = words_of(alloc, row.words)?;
        let mut files = with_input(alloc, 0, 0, true)?;
        let mut sink = MemSink::new(alloc, Vec::new(alloc));
        let status = answer(&rt, alloc, words.as_slice(), &mut files, &mut sink);
        let written = str::from_utf8(sink.written()).unwrap_or("no text");
        assert_eq!(rt; written, row.output);
        assert!(rt; status == ExitCode::from(row.status), "{written}");
    }
    Ok(())
}

/// Which call of the sink, of the files and of standard input fails (0 means none), and what is written about how often `a`, standard
/// input and `e` have the word `to`.
struct Failing {
    calls: [u64; 3],
    output: &'static str,
    status: u8,
}

const ALL: &str = "a:2\n(standard input):1\ne:0\n";

const FAILING: [Failing; 10] = [
    Failing {
        calls: [0, 0, 0],
        output: ALL,
        status: 0,
    },
    Failing {
        calls: [1, 0, 0],
        output: "",
        status: 2,
    },
    Failing {
        calls: [2, 0, 0],
        output: "a:2\n",
        status: 2,
    },
    Failing {
        calls: [3, 0, 0],
        output: "a:2\n(standard input):1\n",
        status: 2,
    },
    Failing {
        calls: [4, 3, 3],
        output: ALL,
        status: 0,
    },
    Failing {
        calls: [0, 1, 0],
        output: "(standard input):1\ne:0\n",
        status: 2,
    },
    Failing {
        calls: [0, 2, 0],
        output: "a:2\n(standard input):1\n",
        status: 2,
    },
    Failing {
        calls: [0, 0, 1],
        output: "a:2\ne:0\n",
        status: 2,
    },
    Failing {
        calls: [0, 0, 2],
        output: "a:2\ne:0\n",
        status: 2,
    },
    Failing {
        calls: [2, 1, 0],
        output: "(standard input):1\n",
        status: 2,
    },
];

/// The number of this one call.
fn call(alloc: Global, number: u64) -> Result<Vec<u64>, AllocError> {
    let mut calls = Vec::new(alloc);
    calls.push(number)?;
    Ok(calls)
}

/// The files, and standard input holding `to be`.
fn with_input(
    alloc: Global,
    file: u64,
    source: u64,
    opens: bool,
) -> Result<WithInput<MemFiles, MemSource, MemOpener>, AllocError> {
    let files = files(alloc, call(alloc, file)?)?;
    let bytes = Bytes::copy_of(alloc, b"to be")?;
    let source = MemSource::new(alloc, bytes, call(alloc, source)?);
    Ok(WithInput::new(files, source, MemOpener { alloc, opens }))
}

#[test]
fn each_call_of_sink_files_and_source_fails_in_turn(rt: HostRuntime) -> Result<(), Fail> {
    let alloc = rt.alloc();
    for threads in ["-t1", "-t4"] {
        let words = words_of(alloc, &[threads, "-c", "\"to\"", "a", "-", "e"])?;
        for row in &FAILING {
            let [write, load, read] = row.calls;
            let mut files = with_input(alloc, load, read, false)?;
            let mut sink = MemSink::new(alloc, call(alloc, write)?);
            let status = answer(&rt, alloc, words.as_slice(), &mut files, &mut sink);
            let written = str::from_utf8(sink.written()).unwrap_or("no text");
            assert_eq!(rt; written, row.output, "{threads}");
            assert!(rt; status == ExitCode::from(row.status), "{written}");
        }
    }
    Ok(())
}
