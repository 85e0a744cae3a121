// What is written if the lines of a script mix edits and queries, and what is left if something fails between them.
use crate::streams::{PIECE, files_with_words, in_pieces};
use crate::trials::{
    Served, holds, joined, mem_files, mem_sink, repeated, served, served_from, served_over, serves,
    sure_source,
};
use outside::Sink;
use query_run::{Limits, Status};
use script_lang::{put_file, put_interval, put_total};
use std::alloc::{AllocError, Global};
use std::process::Abort;
use std::random::RandomSource;
use std::sync::Wait;
use std::test::Fail;
use std::thread::Threads;

// Edits and queries in turns, and what is written to them.
const TURNS: &[u8] =
    b"add a\ncount \"to\"\nadd b\nfind \"be\"\nadd a\ncount \"to\"\nsave i\ncount \"or\"\n";

const ANSWERS: &[u8] =
    b"file 0 0 7\n= 2\nfile 1 8 9\n2 2\n6 6\n= 2\nfile 2 10 17\n= 4\nsaved 117\n= 2\n";

// Scripts whose lines mix edits and queries: the status, the number of lines, and the output, if a line may have 30 bytes.
const MIXED: [(&str, &[u8], (Status, u64, &[u8])); 3] = [
    (
        "edits and queries in turns",
        TURNS,
        (Status::Done, 8, ANSWERS),
    ),
    (
        "queries between lines of every other command",
        b"count \"to\"\nadd a\nfind \"to be\"\ncount \"to\"\nadd a\ncount \"to\"\ndel 0\nfind \"to\"\n\nfiles\ncount \"to\"\nmerge\ncount \"be\"\nshards\nfrob\ncount \"to\nfind \"or\"\nmerge\n\ncount \"or\"\nadd b\nsave i\ntop 1 \"be\"\nopen i\ncount \"<file!>\"\nmerge\nmerge\ndel 7\ncount \"to\" + \"be\" + \"or\" + \"not\"\nshards\nfind \"not\"\ndel 1\ndel 2\nfiles\ncount \"to\"\nmerge\nfind \"to\"\nshards",
        (
            Status::DoneWithRefusals,
            38,
            b"= 0\nfile 0 0 7\n1 2\n5 6\n= 2\n= 2\nfile 1 8 15\n= 4\ngone 0\n9 9\n13 13\n= 2\n1 8 15 a\n= 1\n= 2\nmerging\n= 2\nshards 1\n! command\n! query at 0: open quote\n11 11\n= 1\nmerging\n= 1\nfile 2 16 17\nsaved 104\n10 10\n= 1\n! not empty\n= 2\nmerging\nmerging\n! no file 7\n! long line\nshards 1\n12 12\n= 1\ngone 1\ngone 2\n= 0\n= 0\nmerging\n= 0\nshards 0\n",
        ),
    ),
    (
        "a merge that is pending is made before the next edit, or while a batch is answered",
        b"add p\nadd b\nmerge\ncount \"to\"\nadd a\nmerge\ndel 0\ncount \"to\"\nshards",
        (
            Status::Done,
            9,
            b"file 0 0 14\nfile 1 15 16\nmerging\n= 2\nfile 2 17 24\nmerging\ngone 0\n= 2\nshards 1\n",
        ),
    ),
];

/// Each script is answered as the table has it, with this number of readers, at most this number of queries in a batch, and at most `most`
/// bytes from each call of the source.
fn each_is_answered_in_order<R: Threads + Wait + Sync + RandomSource + AllocGlobal + Abort>(
    rt: &R,
    readers: usize,
    batch: u64,
    most: usize,
) -> Result<(), AllocError> {
    let limits = Limits {
        line: 30,
        batch,
        ..Limits::greatest()
    };
    for (name, script, want) in MIXED {
        let got = in_pieces(rt, readers, &limits, 0, script, most)?;
        serves(rt, &(name, readers, batch, most), &got, want);
    }
    Ok(())
}

#[test]
fn lines_are_answered_in_their_order_with_any_readers_and_batches(
    rt: HostRuntime,
) -> Result<(), Fail> {
    for (readers, batch) in [
        (0, 64),
        (0, 1),
        (1, 64),
        (1, 2),
        (4, 1),
        (4, 2),
        (4, 64),
        (16, 64),
    ] {
        each_is_answered_in_order(&rt, readers, batch, 1)?;
        each_is_answered_in_order(&rt, readers, batch, PIECE)?;
    }
    Ok(())
}

// Which call of the sink and of the files fails, none if it is 0; the status, the lines that are completed, how many bytes are written,
// and whether the image is kept. A change is completed once it is made, a query once its answer is made.
const FAULTS: [(u64, u64, Status, u64, usize, bool); 13] = [
    (0, 0, Status::Done, 8, 69, true),
    // if the files fail, all that is due is written
    (0, 1, Status::FileFault, 0, 0, false),
    (0, 2, Status::FileFault, 2, 15, false),
    (0, 3, Status::FileFault, 4, 38, false),
    (0, 4, Status::FileFault, 6, 55, false),
    // if the sink fails, the line before it is completed, and nothing after it is done
    (1, 0, Status::WriteFault, 1, 0, false),
    (2, 0, Status::WriteFault, 2, 11, false),
    (3, 0, Status::WriteFault, 3, 15, false),
    (4, 0, Status::WriteFault, 4, 26, false),
    (5, 0, Status::WriteFault, 5, 38, false),
    (6, 0, Status::WriteFault, 6, 51, false),
    (7, 0, Status::WriteFault, 7, 55, true),
    (8, 0, Status::WriteFault, 8, 65, true),
];

/// How `serve` ends if these calls of the sink and of the files fail, and whether the image was kept.
fn failing<R: Threads + Wait + Sync + RandomSource + AllocGlobal + Abort>(
    rt: &R,
    sink: u64,
    files: u64,
) -> Result<(Served, bool), AllocError> {
    let mut files = mem_files(rt.alloc(), files)?;
    let mut source = sure_source(rt.alloc(), TURNS)?;
    let mut sink = mem_sink(rt.alloc(), sink)?;
    let limits = Limits::greatest();
    let (status, lines) = served_from(rt, 2, &limits, &mut files, &mut source, &mut sink)?;
    let written = sink.written().to_vec(rt.alloc())?;
    Ok(((status, lines, written), files.content(b"i").is_some()))
}

#[test]
fn a_fault_between_edits_and_queries_leaves_the_answers_before_it(
    rt: HostRuntime,
) -> Result<(), Fail> {
    for (sink, files, want, lines, bytes, kept) in FAULTS {
        let (ended, is_kept) = failing(&rt, sink, files)?;
        let begin = &ANSWERS[..bytes.min(ANSWERS.len())];
        serves(&rt, &(sink, files), &ended, (want, lines, begin));
        holds(&rt, &(sink, files), is_kept == kept);
    }
    Ok(())
}

/// What is written if a list of 5,000 words is asked for, and their number once they are there twice.
fn listed(alloc: Global) -> Result<Vec<u8>, AllocError> {
    let mut want = Vec::new(alloc);
    put_file(&mut want, 0, 0, 5_001)?;
    for at in 1..5_001u64 {
        put_interval(&mut want, gcl_model::Interval::new(at, at))?;
    }
    put_total(&mut want, 5_000)?;
    put_file(&mut want, 1, 5_002, 10_003)?;
    put_total(&mut want, 10_000)?;
    Ok(want)
}

#[test]
fn the_pages_of_a_list_are_those_of_the_version_that_it_was_asked_on(
    rt: HostRuntime,
) -> Result<(), Fail> {
    let want = listed(rt.alloc())?;
    let script = b"add x\nfind \"x\"\nadd x\ncount \"x\"\n";
    let limits = Limits::greatest();
    for readers in [0, 2] {
        let mut files = files_with_words(rt.alloc(), 5_000)?;
        let got = served_over(&rt, readers, &limits, &mut files, script)?;
        serves(&rt, &readers, &got, (Status::Done, 4, want.as_slice()));
    }
    Ok(())
}

#[test]
fn no_byte_is_lost_of_20_000_lists_between_two_queries(rt: HostRuntime) -> Result<(), Fail> {
    let lists = repeated(rt.alloc(), b"files\n", 20_000)?;
    let script = [
        b"add a\ncount \"to\"\n".as_slice(),
        lists.as_slice(),
        b"count \"be\"\n",
    ];
    let script = joined(rt.alloc(), &script)?;
    let answers = repeated(rt.alloc(), b"0 0 7 a\n= 1\n", 20_000)?;
    let want = [
        b"file 0 0 7\n= 2\n".as_slice(),
        answers.as_slice(),
        b"= 2\n",
    ];
    let want = joined(rt.alloc(), &want)?;
    let got = served(&rt, 2, &Limits::greatest(), script.as_slice())?;
    serves(
        &rt,
        &"20,000 lists",
        &got,
        (Status::Done, 20_003, want.as_slice()),
    );
    Ok(())
}
