// Whole runs: scripts over the files that are held, each with its output.
use crate::trials::{
    Row, answers, counts, ends, holds, joined, mem_files, mem_sink, mem_source, ran, repeated,
    run_over, says, served, served_from, serves, sure_files, sure_source, writes,
};
use outside::{FreeGate, Sink, TurnGate};
use query_run::{Limits, Status};
use script_lang::{put_file, put_gone};
use std::alloc::{AllocError, Global};
use std::process::Abort;
use std::random::RandomSource;
use std::sync::Wait;
use std::test::Fail;
use std::thread::Threads;

// Scripts over the files above, each with its output.
pub(crate) const SCRIPTS: [Row; 10] = [
    (
        "a word is found",
        b"add a\nfind \"to\"\n",
        b"file 0 0 7\n1 1\n5 5\n= 2\n",
    ),
    ("no line has no answer", b"", b""),
    ("an empty line has no answer", b"\n", b""),
    ("the last line needs no newline", b"files", b"= 0\n"),
    (
        "an address is never given twice",
        b"add a\nadd b\ndel 000\nadd a\nfind \"to\"\n",
        b"file 0 0 7\nfile 1 8 9\ngone 0\nfile 2 10 17\n11 11\n15 15\n= 2\n",
    ),
    (
        "files are listed",
        b"add a\r\n  add\tb \nfiles\ndel 0\nfiles\n",
        b"file 0 0 7\nfile 1 8 9\n0 0 7 a\n1 8 9 b\n= 2\ngone 0\n1 8 9 b\n= 1\n",
    ),
    (
        "queries in a row are answered in their order",
        b"add a\ncount \"to\"\nfind \"to be\"\ncount \"not\"\ntop 1 \"be\"\ncount \"or\"",
        b"file 0 0 7\n= 2\n1 2\n5 6\n= 2\n= 1\n2 2\n= 1\n= 1\n",
    ),
    (
        "queries beside a merge see what was before it",
        b"add p\nadd a\ndel 0\nmerge\nfind \"to\"\n\ncount \"be\"\ncount \"hamlet\"\nshards\n",
        b"file 0 0 14\nfile 1 15 22\ngone 0\nmerging\n16 16\n20 20\n= 2\n= 2\n= 0\nshards 1\n",
    ),
    (
        "an edit ends a batch",
        b"add a\ncount \"to\"\ncount \"be\"\nadd a\ncount \"to\"\nmerge\ncount \"be\"\n",
        b"file 0 0 7\n= 2\n= 2\nfile 1 8 15\n= 4\nmerging\n= 4\n",
    ),
    (
        "a script may end in a batch",
        b"add b\nmerge\nfind \"to\"\r\n  count \"<file!>\"",
        b"file 0 0 1\nmerging\n= 0\n= 1\n",
    ),
];

/// Each script has its output, and its run ends with this status.
fn each_is_answered<R: Threads + Wait + Sync + RandomSource + AllocGlobal + Abort>(
    rt: &R,
    rows: &[Row],
    status: Status,
) -> Result<(), AllocError> {
    for (name, script, output) in rows {
        answers(rt, name, &[], script, (status, *output))?;
    }
    Ok(())
}

#[test]
fn files_are_added_listed_and_deleted(rt: HostRuntime) -> Result<(), Fail> {
    each_is_answered(&rt, &SCRIPTS, Status::Done)?;
    Ok(())
}

/// Each script has its output, with this number of readers, and with at most this number of queries in a batch.
fn each_is_shared<R: Threads + Wait + Sync + RandomSource + AllocGlobal + Abort>(
    rt: &R,
    readers: usize,
    batch: u64,
) -> Result<(), AllocError> {
    let limits = Limits {
        batch,
        ..Limits::greatest()
    };
    for (name, script, output) in SCRIPTS {
        let (status, _, written) = served(rt, readers, &limits, script)?;
        let case = (name, readers, batch);
        ends(
            rt,
            &case,
            (status, written.as_slice()),
            (Status::Done, output),
        );
    }
    Ok(())
}

#[test]
fn no_byte_depends_on_the_readers_or_on_where_a_batch_ends(rt: HostRuntime) -> Result<(), Fail> {
    for (readers, batch) in [(0, 64), (1, 64), (4, 2), (4, 1), (16, 64)] {
        each_is_shared(&rt, readers, batch)?;
    }
    Ok(())
}

#[test]
fn merges_all_along_give_the_same_bytes_with_any_readers(rt: HostRuntime) -> Result<(), Fail> {
    // 500 lines, with a merge before the queries of each five
    let lines = b"add a\nmerge\nfind \"to be\"\ncount [3]\ntop 2 \"be\"..\"not\"\n";
    let script = repeated(rt.alloc(), lines, 100)?;
    let limits = Limits::greatest();
    let (_, lines, want) = served(&rt, 0, &limits, script.as_slice())?;
    counts(&rt, &"no readers", lines, 500);
    for readers in [1, 2, 4, 16, 1, 2, 4, 16, 16, 4] {
        let got = served(&rt, readers, &limits, script.as_slice())?;
        serves(&rt, &readers, &got, (Status::Done, 500, want.as_slice()));
    }
    Ok(())
}

// Prefix terms, each of which stands for all words that begin with it.
const PREFIXES: [Row; 6] = [
    (
        "each word that begins so is found",
        b"add a\nfind \"TO\"*\nfind \"b\"* .. \"t\"*\n",
        b"file 0 0 7\n1 1\n5 5\n= 2\n2 5\n= 1\n",
    ),
    (
        "a prefix is an operand as any other",
        b"add a\ncount \"o\"* + \"n\"*\ntop 1 \"t\"*\nfind \"not\"* < (\"b\"*..\"t\"*)\nfind \"z\"*\nfind \"z\"* + \"or\"*\n",
        b"file 0 0 7\n= 2\n1 1\n= 1\n4 4\n= 1\n= 0\n3 3\n= 1\n",
    ),
    (
        "words of several slots are found, and none that is deleted",
        b"add p\nadd b\nadd a\ncount \"t\"*\ndel 0\nfind \"t\"*\ndel 2\ncount \"t\"*\n",
        b"file 0 0 14\nfile 1 15 16\nfile 2 17 24\n= 4\ngone 0\n18 18\n22 22\n= 2\ngone 2\n= 0\n",
    ),
    (
        "words that are deleted alone are no match",
        b"add a\nadd p\ndel 1\nfind \"h\"*\nmerge\nfind \"h\"*\ncount \"o\"*\n",
        b"file 0 0 7\nfile 1 8 22\ngone 1\n= 0\nmerging\n= 0\n= 1\n",
    ),
    (
        "a merge between changes no answer",
        b"add a\nadd p\nfind \"t\"* ^ \"h\"*\nmerge\nfind \"t\"* ^ \"h\"*\nfind \"t\"*\n",
        b"file 0 0 7\nfile 1 8 22\n5 11\n11 14\n= 2\nmerging\n5 11\n11 14\n= 2\n1 1\n5 5\n14 14\n18 18\n= 4\n",
    ),
    (
        "a prefix that is a word itself finds it too",
        b"add a\nfind \"be\"*\nfind \"be\"\n",
        b"file 0 0 7\n2 2\n6 6\n= 2\n2 2\n6 6\n= 2\n",
    ),
];

#[test]
fn a_prefix_stands_for_each_word_that_begins_so(rt: HostRuntime) -> Result<(), Fail> {
    each_is_answered(&rt, &PREFIXES, Status::Done)?;
    Ok(())
}

#[test]
fn what_is_no_prefix_is_refused_at_its_place(rt: HostRuntime) -> Result<(), Fail> {
    let script =
        b"add a\nfind \"t\"*\nfind \"n\"* ^ \"o\"*\nfind \"z\"*\nfind \"to be\"*\nfind \"to\" *\nfind \"<t>\"*\ncount \"\"*\ntop 1 \"t\"**\n";
    let want =
        b"file 0 0 7\n1 1\n5 5\n= 2\n3 4\n= 1\n= 0\n! query at 0: bad prefix\n! query at 5: character\n! query at 0: bad prefix\n! query at 0: empty term\n! query at 4: character\n";
    let want = (Status::DoneWithRefusals, want.as_slice());
    answers(&rt, &"prefixes", &[], script, want)?;
    Ok(())
}

#[test]
fn seventy_queries_beside_a_merge_are_cut_into_batches(rt: HostRuntime) -> Result<(), Fail> {
    let queries = repeated(rt.alloc(), b"find \"to\"\n", 70)?;
    let script = joined(rt.alloc(), &[b"add a\nmerge\n", queries.as_slice()])?;
    let lists = repeated(rt.alloc(), b"1 1\n5 5\n= 2\n", 70)?;
    let want = joined(rt.alloc(), &[b"file 0 0 7\nmerging\n", lists.as_slice()])?;
    for readers in [b"1".as_slice(), b"16"] {
        let words = [b"--readers".as_slice(), readers];
        let want = (Status::Done, want.as_slice());
        answers(&rt, &readers, &words, script.as_slice(), want)?;
    }
    Ok(())
}

#[test]
fn the_lines_of_a_batch_are_completed_before_their_answers_are_written(
    rt: HostRuntime,
) -> Result<(), Fail> {
    let script = b"add a\nmerge\ncount \"to\"\ncount \"be\"\ncount \"or\"\n";
    let mut files = sure_files(rt.alloc())?;
    let mut source = sure_source(rt.alloc(), script)?;
    let mut sink = mem_sink(rt.alloc(), 3)?;
    let limits = Limits::greatest();
    let (status, lines) = served_from(&rt, 4, &limits, &mut files, &mut source, &mut sink)?;
    says(&rt, &"the third write fails", status, Status::WriteFault);
    counts(&rt, &"lines", lines, 5);
    writes(&rt, &"before", sink.written(), b"file 0 0 7\nmerging\n");
    Ok(())
}

#[test]
fn one_query_of_a_run_comes_before_the_merge_and_the_next_one_after_it(
    rt: HostRuntime,
) -> Result<(), Fail> {
    let script = b"add a\nmerge\ncount \"to\"\ncount \"be\"\n";
    let mut files = sure_files(rt.alloc())?;
    let gate = TurnGate::new();
    let (status, written) = run_over(&rt, &[b"--readers=1"], &mut files, script, &gate)?;
    let want = b"file 0 0 7\nmerging\n= 2\n= 2\n".as_slice();
    ends(
        &rt,
        &"in turns",
        (status, written.as_slice()),
        (Status::Done, want),
    );
    holds(&rt, &"in time", !gate.ran_out());
    counts(&rt, &"the first query", gate.answered_on(1), 1);
    counts(&rt, &"the second query", gate.answered_on(2), 2);
    Ok(())
}

const TOKENS: [Row; 2] = [
    (
        "tags and letters past ASCII",
        b"add t\nfind \"B\"\nfind \"<a>\"\nfind \"Caf\xc3\xa9\"\nfind \"CAF\xc3\x89\"\n",
        b"file 0 0 9\n2 2\n8 8\n= 2\n1 1\n= 1\n6 6\n= 1\n= 0\n",
    ),
    (
        "a boundary that the file spells is text",
        b"add w\nfind \"<file!>\"\nfind \"<file>\"\n",
        b"file 0 0 2\n0 0\n= 1\n1 1\n= 1\n",
    ),
];

#[test]
fn tags_and_bytes_past_ascii_are_tokens(rt: HostRuntime) -> Result<(), Fail> {
    each_is_answered(&rt, &TOKENS, Status::Done)?;
    Ok(())
}

const REFUSALS: [Row; 3] = [
    (
        "a file that is gone",
        b"add a\ndel 0\nfind \"to\"\ndel 0\n",
        b"file 0 0 7\ngone 0\n= 0\n! no file 0\n",
    ),
    (
        "no command, or one with other words",
        b"frob\ndel x\nadd\nmerge now\ntop \"to\"\nshards 1\nsave\n",
        b"! command\n! command\n! command\n! command\n! command\n! command\n! command\n",
    ),
    (
        "bytes that are no text",
        b"\x00\nfind \"\xff\"\nadd \xff\n",
        b"! command\n= 0\n! command\n",
    ),
];

#[test]
fn lines_are_refused_and_the_run_goes_on(rt: HostRuntime) -> Result<(), Fail> {
    each_is_answered(&rt, &REFUSALS, Status::DoneWithRefusals)?;
    Ok(())
}

// Queries over the file a, each with its answer.
pub(crate) const QUERIES: [(&[u8], &[u8]); 15] = [
    (b"\"to\"..\"be\"", b"1 2\n5 6\n= 2\n"),
    (b"\"to\"^\"not\"", b"1 4\n4 5\n= 2\n"),
    (b"(\"be\"..\"to\") > \"not\"", b"2 5\n= 1\n"),
    (b"(\"be\"..\"to\") /> \"or\"", b"= 0\n"),
    (b"\"to\" < (\"be\"..\"to\")", b"5 5\n= 1\n"),
    (b"\"to\" /< (\"be\"..\"to\")", b"1 1\n= 1\n"),
    (b"[7]", b"0 6\n1 7\n= 2\n"),
    (b"[8]", b"0 7\n= 1\n"),
    (b"[9]", b"= 0\n"),
    (b"(\"to\"^\"not\")+\"be\"", b"2 2\n4 5\n6 6\n= 3\n"),
    (b"(\"to\"^\"not\") < [3]", b"4 5\n= 1\n"),
    (b"\"to be\"", b"1 2\n5 6\n= 2\n"),
    (b"\"to\"..\"be\"^\"not\"", b"1 4\n4 6\n= 2\n"),
    (b"\"to\" + \"be\" ^ \"not\"", b"1 1\n2 4\n5 5\n= 3\n"),
    (b"[2] > \"to\" > \"be\"", b"1 2\n5 6\n= 2\n"),
];

/// A line after `add a`, in two parts, has this answer.
fn is_answered_over_a<R: Threads + Wait + Sync + RandomSource + AllocGlobal + Abort>(
    rt: &R,
    line: (&[u8], &[u8]),
    want: (Status, &[u8]),
) -> Result<(), AllocError> {
    let script = joined(rt.alloc(), &[b"add a\n", line.0, line.1])?;
    let output = joined(rt.alloc(), &[b"file 0 0 7\n", want.1])?;
    answers(
        rt,
        &line.1,
        &[],
        script.as_slice(),
        (want.0, output.as_slice()),
    )
}

#[test]
fn queries_are_answered_by_the_algebra(rt: HostRuntime) -> Result<(), Fail> {
    for (query, output) in QUERIES {
        is_answered_over_a(&rt, (b"find ", query), (Status::Done, output))?;
    }
    Ok(())
}

// Lines over the file a, each with its answer.
const COUNTS: [(&[u8], &[u8], Status); 10] = [
    (b"find \"to be\"", b"1 2\n5 6\n= 2\n", Status::Done),
    (b"count \"to be\"", b"= 2\n", Status::Done),
    (b"top 1 \"to be\"", b"1 2\n= 1\n", Status::Done),
    (b"top 0 \"to be\"", b"= 0\n", Status::Done),
    (b"top 9 \"to be\"", b"1 2\n5 6\n= 2\n", Status::Done),
    (b"top 999999999999999999 [8]", b"0 7\n= 1\n", Status::Done),
    (b"count [1]", b"= 8\n", Status::Done),
    (
        b"count (\"be\"..\"to\") > \"or not\"",
        b"= 1\n",
        Status::Done,
    ),
    (
        b"count \"to",
        b"! query at 0: open quote\n",
        Status::DoneWithRefusals,
    ),
    (
        b"top 2",
        b"! query at 0: operand expected\n",
        Status::DoneWithRefusals,
    ),
];

#[test]
fn a_list_is_counted_and_its_front_is_listed(rt: HostRuntime) -> Result<(), Fail> {
    for (line, output, status) in COUNTS {
        is_answered_over_a(&rt, (b"", line), (status, output))?;
    }
    Ok(())
}

const STRUCTURES: [Row; 2] = [
    (
        "lines of a speech",
        b"add p\nfind (\"<line>\"..\"</line>\") < ((\"<speech>\"..\"</speech>\") > ((\"<speaker>\"..\"</speaker>\") > \"hamlet\"))\nfind \"to be\"\n",
        b"file 0 0 14\n5 12\n= 1\n6 7\n10 11\n= 2\n",
    ),
    (
        "whole files, and a tag that ends at once",
        b"add a\nadd b\nfind \"<file!>\"..\"</file!>\"\nadd t\nfind \"<BR/>\"\n",
        b"file 0 0 7\nfile 1 8 9\n0 7\n8 9\n= 2\nfile 2 10 19\n14 15\n= 1\n",
    ),
];

#[test]
fn structure_is_found_in_a_play(rt: HostRuntime) -> Result<(), Fail> {
    each_is_answered(&rt, &STRUCTURES, Status::Done)?;
    Ok(())
}

// Texts that are not queries, each with the place of its first fault and what is wrong there.
const FAULTS: [(&[u8], &[u8]); 12] = [
    (b"(\"to\"", b"5: operator or close expected"),
    (b"\"to\" ..", b"7: operand expected"),
    (b"\"\"", b"0: empty term"),
    (b"[0]", b"0: bad width"),
    (b"", b"0: operand expected"),
    (b"\"a\" \"b\"", b"4: operator or close expected"),
    (b"\"a\" . \"b\"", b"4: character"),
    (b"\"abc", b"0: open quote"),
    (b"[5", b"0: bad width"),
    (b"\"a\"^)", b"4: operand expected"),
    (b"to", b"0: character"),
    (b"(((((((((((((", b"12: too deep"),
];

/// A text after `find` is refused with this fault.
fn is_no_query<R: Threads + Wait + Sync + RandomSource + AllocGlobal + Abort>(
    rt: &R,
    query: &[u8],
    fault: &[u8],
) -> Result<(), AllocError> {
    let script = joined(rt.alloc(), &[b"find ", query])?;
    let output = joined(rt.alloc(), &[b"! query at ", fault, b"\n"])?;
    let want = (Status::DoneWithRefusals, output.as_slice());
    answers(rt, &query, &[], script.as_slice(), want)
}

#[test]
fn a_text_that_is_no_query_is_refused_at_its_place(rt: HostRuntime) -> Result<(), Fail> {
    for (query, fault) in FAULTS {
        is_no_query(&rt, query, fault)?;
    }
    let terms = repeated(rt.alloc(), b"+\"a\"", 256)?;
    let large = joined(rt.alloc(), &[b"\"a\"", terms.as_slice()])?;
    is_no_query(&rt, large.as_slice(), b"1024: too large")?;
    Ok(())
}

// Words, the output over `add a`, `add b`, and the status.
const WORDS: [(&[&[u8]], &[u8], Status); 12] = [
    (
        &[b"--first", b"7"],
        b"file 0 7 14\nfile 1 15 16\n",
        Status::Done,
    ),
    (
        &[b"--first=007"],
        b"file 0 7 14\nfile 1 15 16\n",
        Status::Done,
    ),
    (
        &[b"--first", b"281474976710648"],
        b"file 0 281474976710648 281474976710655\nfile 1 281474976710656 281474976710657\n",
        Status::Done,
    ),
    (
        &[b"--first", b"72057594037927928"],
        b"file 0 72057594037927928 72057594037927935\n! no addresses\n",
        Status::DoneWithRefusals,
    ),
    (&[b"--first", b"72057594037927937"], b"", Status::Usage),
    (&[b"--first", b"1", b"--first", b"1"], b"", Status::Usage),
    (
        &[b"--readers=16", b"--first", b"7"],
        b"file 0 7 14\nfile 1 15 16\n",
        Status::Done,
    ),
    (&[b"--readers=17"], b"", Status::Usage),
    (&[b"--first"], b"", Status::Usage),
    (&[b"--first="], b"", Status::Usage),
    (&[b"--"], b"", Status::Usage),
    (&[b"--help"], b"", Status::Usage),
];

#[test]
fn words_give_the_first_address(rt: HostRuntime) -> Result<(), Fail> {
    for (words, output, status) in WORDS {
        answers(&rt, &words, words, b"add a\nadd b\n", (status, output))?;
    }
    Ok(())
}

#[test]
fn a_line_of_65_537_bytes_is_long(rt: HostRuntime) -> Result<(), Fail> {
    let blanks = repeated(rt.alloc(), b" ", 65_528)?;
    let whole = joined(rt.alloc(), &[b"find \"a\"", blanks.as_slice()])?;
    answers(
        &rt,
        &"whole",
        &[],
        whole.as_slice(),
        (Status::Done, b"= 0\n"),
    )?;
    let long = joined(rt.alloc(), &[whole.as_slice(), b" "])?;
    let refused = (Status::DoneWithRefusals, b"! long line\n".as_slice());
    answers(&rt, &"long", &[], long.as_slice(), refused)?;
    Ok(())
}

// A script; which call of the source, the sink and the files fails, none if it is 0; and how the run ends.
const ENDS: [(&str, &[u8], [u64; 3], Status, &[u8]); 10] = [
    (
        "the first read fails",
        b"add a\nfind \"to\"\n",
        [1, 0, 0],
        Status::ReadFault,
        b"",
    ),
    (
        "the second read fails",
        b"add a\nfind \"to\"\n",
        [2, 0, 0],
        Status::ReadFault,
        b"file 0 0 7\n1 1\n5 5\n= 2\n",
    ),
    (
        "the first write fails",
        b"add a\nfind \"to\"\n",
        [0, 1, 0],
        Status::WriteFault,
        b"",
    ),
    (
        "the second write fails",
        b"add a\nfind \"to\"\n",
        [0, 2, 0],
        Status::WriteFault,
        b"file 0 0 7\n",
    ),
    (
        "the file is not loaded",
        b"add a\nfind \"to\"\n",
        [0, 0, 1],
        Status::FileFault,
        b"",
    ),
    (
        "there is no such file",
        b"add missing",
        [0, 0, 0],
        Status::FileFault,
        b"",
    ),
    (
        "what is due is written before a file that is missing ends the run",
        b"add a\ncount \"to\"\nadd missing\n",
        [0, 0, 0],
        Status::FileFault,
        b"file 0 0 7\n= 2\n",
    ),
    (
        "an image is not kept behind an add",
        b"add a\nsave i\nfiles\n",
        [0, 0, 2],
        Status::FileFault,
        b"file 0 0 7\n",
    ),
    (
        "an image is not kept",
        b"save i\nfiles\n",
        [0, 0, 1],
        Status::FileFault,
        b"",
    ),
    (
        "an image is not loaded",
        b"open v\nfiles\n",
        [0, 0, 1],
        Status::FileFault,
        b"",
    ),
];

/// How a run ends if its objects fail at these calls.
fn ends_at<R: Threads + Wait + Sync + RandomSource + AllocGlobal + Abort>(
    rt: &R,
    name: &str,
    script: &[u8],
    fails: [u64; 3],
    want: (Status, &[u8]),
) -> Result<(), AllocError> {
    let [source, sink, files] = fails;
    let mut files = mem_files(rt.alloc(), files)?;
    let mut source = mem_source(rt.alloc(), script, source)?;
    let mut sink = mem_sink(rt.alloc(), sink)?;
    let status = ran(rt, &[], &mut files, &mut source, &mut sink, &FreeGate)?;
    ends(rt, &name, (status, sink.written()), want);
    Ok(())
}

#[test]
fn a_run_ends_at_the_first_fault_of_each_object(rt: HostRuntime) -> Result<(), Fail> {
    for (name, script, fails, status, output) in ENDS {
        ends_at(&rt, name, script, fails, (status, output))?;
    }
    Ok(())
}

const MERGES: [Row; 8] = [
    (
        "a merge behind each command changes no answer",
        b"add a\nmerge\nadd b\nmerge\ndel 0\nmerge\nadd a\nmerge\nfind \"to\"\nmerge\nfiles\nmerge\n",
        b"file 0 0 7\nmerging\nfile 1 8 9\nmerging\ngone 0\nmerging\nfile 2 10 17\nmerging\n11 11\n15 15\n= 2\nmerging\n1 8 9 b\n2 10 17 a\n= 2\nmerging\n",
    ),
    (
        "of no file there is no slot",
        b"shards\nmerge\nshards\n",
        b"shards 0\nmerging\nshards 0\n",
    ),
    (
        "small files share a slot",
        b"add a\nadd b\nshards\nmerge\nshards\n",
        b"file 0 0 7\nfile 1 8 9\nshards 1\nmerging\nshards 1\n",
    ),
    (
        "empty lines end no merge",
        b"add p\nadd b\nshards\nmerge\n\n \nshards\n",
        b"file 0 0 14\nfile 1 15 16\nshards 2\nmerging\nshards 1\n",
    ),
    (
        "two merges in a row come before the next add",
        b"add p\nadd b\nmerge\nmerge\nadd b\nshards\n",
        b"file 0 0 14\nfile 1 15 16\nmerging\nmerging\nfile 2 17 18\nshards 2\n",
    ),
    (
        "five small files share a slot, and the sixth has one of its own",
        b"add b\nadd b\nadd b\nadd b\nadd b\nshards\nadd b\nshards\n",
        b"file 0 0 1\nfile 1 2 3\nfile 2 4 5\nfile 3 6 7\nfile 4 8 9\nshards 1\nfile 5 10 11\nshards 2\n",
    ),
    (
        "a slot of deleted files goes at a merge",
        b"add a\ndel 0\nshards\nmerge\nadd b\nshards\n",
        b"file 0 0 7\ngone 0\nshards 1\nmerging\nfile 1 8 9\nshards 1\n",
    ),
    (
        "a query sees each edit before it",
        b"count \"to\"\nadd a\ncount \"to\"\nadd a\ncount \"to\"\ndel 0\nfind \"to\"\ndel 1\ncount \"to\"\n",
        b"= 0\nfile 0 0 7\n= 2\nfile 1 8 15\n= 4\ngone 0\n9 9\n13 13\n= 2\ngone 1\n= 0\n",
    ),
];

#[test]
fn slots_are_counted_after_the_merges_that_were_asked_for(rt: HostRuntime) -> Result<(), Fail> {
    each_is_answered(&rt, &MERGES, Status::Done)?;
    Ok(())
}

/// The file `b` is added 33 times.
fn put_additions(script: &mut Vec<u8>, want: &mut Vec<u8>) -> Result<(), AllocError> {
    for i in 0..33u64 {
        script.extend_from_slice(b"add b\n")?;
        put_file(want, i, 2 * i, 2 * i + 1)?;
    }
    Ok(())
}

/// A file is deleted: the command is the answer except for its word.
fn put_deletion(
    alloc: Global,
    script: &mut Vec<u8>,
    want: &mut Vec<u8>,
    i: u64,
) -> Result<(), AllocError> {
    let mut answer = Vec::new(alloc);
    put_gone(&mut answer, i)?;
    let number = answer
        .as_slice()
        .split_at(b"gone".len().min(answer.len()))
        .1;
    want.extend_from_slice(answer.as_slice())?;
    script.extend_from_slice(b"del")?;
    script.extend_from_slice(number)
}

/// A script of 33 files that share two slots, and what is to be written.
fn thirty_three(alloc: Global) -> Result<(Vec<u8>, Vec<u8>), AllocError> {
    let mut script = Vec::new(alloc);
    let mut want = Vec::new(alloc);
    put_additions(&mut script, &mut want)?;
    script.extend_from_slice(b"shards\nmerge\nshards\n")?;
    want.extend_from_slice(b"shards 2\nmerging\nshards 1\n")?;
    for i in 0..33u64 {
        put_deletion(alloc, &mut script, &mut want, i)?;
    }
    script.extend_from_slice(b"merge\nshards\n")?;
    want.extend_from_slice(b"merging\nshards 0\n")?;
    Ok((script, want))
}

#[test]
fn thirty_three_files_share_two_slots_and_a_merge_leaves_one(rt: HostRuntime) -> Result<(), Fail> {
    let (script, want) = thirty_three(rt.alloc())?;
    let want = (Status::Done, want.as_slice());
    answers(&rt, &"33 files", &[], script.as_slice(), want)?;
    Ok(())
}

// The most bytes of a line, a file, the script and an image; a script by these, its status, the lines that are completed, and the output.
const LIMITS: [([u64; 4], &[u8], (Status, u64, &[u8])); 12] = [
    (
        [8, 5, 100, 200],
        b"add a\nfind \"to\"\n",
        (
            Status::DoneWithRefusals,
            2,
            b"! file too long\n! long line\n",
        ),
    ),
    (
        [9, 18, 100, 200],
        b"add a\nfind \"to\"\n",
        (Status::Done, 2, b"file 0 0 7\n1 1\n5 5\n= 2\n"),
    ),
    (
        [5, 17, 100, 200],
        b"add a\nadd b\n",
        (
            Status::DoneWithRefusals,
            2,
            b"! file too long\nfile 0 0 1\n",
        ),
    ),
    (
        [100, 100, 6, 200],
        b"add a\nfiles",
        (Status::ScriptTooLong, 0, b""),
    ),
    (
        [100, 100, 11, 200],
        b"add a\nfiles",
        (Status::Done, 2, b"file 0 0 7\n0 0 7 a\n= 1\n"),
    ),
    ([1, 1, 1, 200], b"\n", (Status::Done, 1, b"")),
    (
        [1, 1, 1, 200],
        b"x",
        (Status::DoneWithRefusals, 1, b"! command\n"),
    ),
    ([1, 1, 1, 200], b"", (Status::Done, 0, b"")),
    (
        [100, 100, 100, 118],
        b"open v\nfiles\n",
        (Status::Done, 2, b"opened 1\n1 8 9 b\n= 1\n"),
    ),
    (
        [100, 100, 100, 117],
        b"open v\nfiles\n",
        (Status::DoneWithRefusals, 2, b"! file too long\n= 0\n"),
    ),
    (
        [100, 100, 100, 48],
        b"save i\n",
        (Status::Done, 1, b"saved 48\n"),
    ),
    (
        [100, 100, 100, 47],
        b"save i\nadd i\n",
        (
            Status::DoneWithRefusals,
            2,
            b"! file too long\nfile 0 0 1\n",
        ),
    ),
];

#[test]
fn each_limit_is_exact(rt: HostRuntime) -> Result<(), Fail> {
    for ([line, file, script, image], text, want) in LIMITS {
        let limits = Limits {
            line,
            file,
            script,
            image,
            batch: 64,
        };
        let got = served(&rt, 0, &limits, text)?;
        serves(&rt, &(limits, text), &got, want);
    }
    Ok(())
}

// Runs over the same files, one after another.
const RUNS: [(&str, &[u8], &[u8], Status); 9] = [
    (
        "an image is saved",
        b"add a\nadd b\ndel 0\nsave i\n",
        b"file 0 0 7\nfile 1 8 9\ngone 0\nsaved 74\n",
        Status::Done,
    ),
    (
        "a later run opens it, and gives no address twice",
        b"open i\nfiles\nadd b\nfind \"<file!>\"\n",
        b"opened 1\n1 8 9 b\n= 1\nfile 2 10 11\n8 8\n10 10\n= 2\n",
        Status::Done,
    ),
    (
        "an image in version 1 is saved in version 2",
        b"open v\nsave j\n",
        b"opened 1\nsaved 74\n",
        Status::Done,
    ),
    (
        "nothing is opened beside files",
        b"open i\nopen i\n",
        b"opened 1\n! not empty\n",
        Status::DoneWithRefusals,
    ),
    (
        "beside files no name is asked for",
        b"add a\nopen missing\n",
        b"file 0 0 7\n! not empty\n",
        Status::DoneWithRefusals,
    ),
    (
        "a text is no image",
        b"open a\nopen b\nadd a\n",
        b"! not an image\n! not an image\nfile 0 0 7\n",
        Status::DoneWithRefusals,
    ),
    (
        "an image of no file may be opened over and over",
        b"save e\nopen e\nopen e\nadd a\n",
        b"saved 48\nopened 0\nopened 0\nfile 0 0 7\n",
        Status::Done,
    ),
    (
        "a name that is not held ends the run",
        b"files\nopen missing\n",
        b"= 0\n",
        Status::FileFault,
    ),
    (
        "an image may be added as a file",
        b"add i\nadd v\n",
        b"file 0 0 5\nfile 1 6 11\n",
        Status::Done,
    ),
];

#[test]
fn what_was_saved_is_opened_by_a_later_run(rt: HostRuntime) -> Result<(), Fail> {
    let mut files = mem_files(rt.alloc(), 0)?;
    for (name, script, output, want) in RUNS {
        let (status, written) = run_over(&rt, &[], &mut files, script, &FreeGate)?;
        ends(&rt, &name, (status, written.as_slice()), (want, output));
    }
    let (i, j) = (files.content(b"i"), files.content(b"j"));
    holds(&rt, &"i and j are one image", i.is_some() && i == j);
    Ok(())
}

#[test]
fn an_image_says_nothing_of_merges(rt: HostRuntime) -> Result<(), Fail> {
    let mut files = mem_files(rt.alloc(), 0)?;
    let script = b"add p\nadd b\nadd a\ndel 1\nsave i\nmerge\nsave j\nsave a\nadd a\n";
    let (status, _) = run_over(&rt, &[], &mut files, script, &FreeGate)?;
    says(&rt, &"three saves", status, Status::Done);
    let i = files.content(b"i");
    holds(&rt, &"i", i.is_some());
    holds(&rt, &"j", i == files.content(b"j"));
    holds(&rt, &"a", i == files.content(b"a"));
    Ok(())
}
