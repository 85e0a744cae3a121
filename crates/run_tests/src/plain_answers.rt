use crate::scripts::QUERIES;
use crate::trials::{ends, one_file, run_over};
use gcl_model::{IntervalList, TokenList};
use gcl_parser::parse;
use outside::{FreeGate, SureFiles};
use plain_text::{PlainText, of_tokens, slow_list};
use query_run::Status;
use script_lang::{put_file, put_interval, put_total};
use std::alloc::{AllocError, Global};
use std::process::Abort;
use std::random::RandomSource;
use std::sync::Wait;
use std::test::Fail;
use std::thread::Threads;

// A query, and the first and last address of each interval that it denotes over a text.
type Row = (&'static str, &'static [(u64, u64)]);

/// The tokens of a file at their addresses, those of its boundary included.
#[derive(Clone, Copy)]
struct Sample {
    tokens: &'static [&'static str],
    first: u64,
    option: &'static [u8],
}

const HAMLET: [&str; 8] = ["<file!>", "to", "be", "or", "not", "to", "be", "</file!>"];

const LETTERS: [&str; 9] = ["<file!>", "a", "b", "a", "c", "b", "a", "b", "</file!>"];

const DOCUMENTS: [&str; 11] = [
    "<file!>", "<doc>", "a", "a", "b", "<doc>", "a", "</doc>", "b", "</doc>", "</file!>",
];

const WORD: [&str; 3] = ["<file!>", "to", "</file!>"];

const OFTEN: [&str; 15] = [
    "<file!>", "be", "to", "to", "be", "be", "to", "not", "not", "or", "to", "be", "to", "be",
    "</file!>",
];

// Two speeches with words in common.
const SPEECHES: [&str; 20] = [
    "<file!>",
    "<speech>",
    "<speaker>",
    "hamlet",
    "</speaker>",
    "<line>",
    "to",
    "be",
    "or",
    "not",
    "</line>",
    "</speech>",
    "<speech>",
    "<line>",
    "not",
    "to",
    "be",
    "</line>",
    "</speech>",
    "</file!>",
];

const SAMPLES: [Sample; 6] = [
    Sample {
        tokens: &HAMLET,
        first: 0,
        option: b"--first=0",
    },
    Sample {
        tokens: &LETTERS,
        first: 2,
        option: b"--first=2",
    },
    Sample {
        tokens: &DOCUMENTS,
        first: 1,
        option: b"--first=1",
    },
    Sample {
        tokens: &WORD,
        first: 9,
        option: b"--first=9",
    },
    Sample {
        tokens: &OFTEN,
        first: 7,
        option: b"--first=7",
    },
    Sample {
        tokens: &SPEECHES,
        first: 3,
        option: b"--first=3",
    },
];

// Over `HAMLET` from address 0, besides the queries that scripts ask.
const OVER_HAMLET: [Row; 31] = [
    ("\"to\"", &[(1, 1), (5, 5)]),
    ("\"missing\" + \"to\"", &[(1, 1), (5, 5)]),
    ("\"to\" + \"to\"", &[(1, 1), (5, 5)]),
    ("\"missing\" + \"missing\"", &[]),
    ("\"be\" ^ \"to\"", &[(1, 2), (2, 5), (5, 6)]),
    ("\"to\" ^ \"to\"", &[(1, 1), (5, 5)]),
    ("\"be\" ^ \"missing\"", &[]),
    ("\"be\" .. \"be\"", &[(2, 6)]),
    ("\"be\" .. \"to\"", &[(2, 5)]),
    ("\"not\" .. \"or\"", &[]),
    ("(\"to\" .. \"be\") ^ \"not\"", &[(1, 4), (4, 6)]),
    ("(\"to\" ^ \"be\") .. \"or\"", &[(1, 3)]),
    ("(\"to\" ^ \"be\") > \"not\"", &[(2, 5)]),
    ("(\"to\" ^ \"be\") < \"not\"", &[]),
    ("(\"to\" ^ \"be\") /> \"not\"", &[(1, 2), (5, 6)]),
    ("(\"to\" ^ \"be\") /< \"not\"", &[(1, 2), (2, 5), (5, 6)]),
    ("\"to\" > (\"be\" .. \"to\")", &[]),
    ("\"to\" /> (\"be\" .. \"to\")", &[(1, 1), (5, 5)]),
    (
        "((\"to\" ^ \"be\") > (\"not\" < (\"or\" .. \"to\"))) < (\"<file!>\" .. \"</file!>\")",
        &[(2, 5)],
    ),
    (
        "(\"to\" ^ \"be\") /> (\"to\" /< (\"be\" .. \"to\"))",
        &[(2, 5), (5, 6)],
    ),
    (
        "(\"be\" + \"or\") /< ((\"to\" ^ \"be\") /> \"not\")",
        &[(3, 3)],
    ),
    ("\"be to\"", &[]),
    ("[3]", &[(0, 2), (1, 3), (2, 4), (3, 5), (4, 6), (5, 7)]),
    ("[2] ^ \"not\"", &[(3, 4), (4, 5)]),
    ("\"to be\" .. [2]", &[(1, 4)]),
    ("\"to be\" + \"be\"", &[(2, 2), (6, 6)]),
    ("[3] > \"to be\"", &[(0, 2), (1, 3), (4, 6), (5, 7)]),
    ("[3] < \"to be\"", &[]),
    ("[3] /> \"to be\"", &[(2, 4), (3, 5)]),
    ("(\"be\" .. \"to\") < [3]", &[]),
    ("(\"be\" .. \"to\") < [4]", &[(2, 5)]),
];

// Over `LETTERS` from address 2.
const OVER_LETTERS: [Row; 8] = [
    ("\"c\" ^ \"a\" ^ \"b\"", &[(4, 6), (5, 7), (6, 8)]),
    ("\"a\" .. \"b\" .. \"c\"", &[(3, 6)]),
    ("\"a\" .. \"a\" .. \"b\"", &[(3, 7), (5, 9)]),
    ("\"c\" + \"b\" + \"d\"", &[(4, 4), (6, 6), (7, 7), (9, 9)]),
    ("((\"a\" ^ \"b\") + \"c\") .. \"a\"", &[(3, 5), (6, 8)]),
    ("\"a b\"", &[(3, 4), (8, 9)]),
    ("\"a b\" ^ \"b a\"", &[(3, 5), (7, 9)]),
    ("\"a\" /< \"a b\"", &[(5, 5)]),
];

// Over `DOCUMENTS` from address 1, where one document is within another.
const OVER_DOCUMENTS: [Row; 19] = [
    ("\"<doc>\" .. \"</doc>\"", &[(6, 8)]),
    ("\"</doc>\" .. \"<doc>\"", &[]),
    (
        "\"</doc>\" + \"<doc>\"",
        &[(2, 2), (6, 6), (8, 8), (10, 10)],
    ),
    ("\"a\" .. \"a\"", &[(3, 4), (4, 7)]),
    ("\"b\" .. \"a\"", &[(5, 7)]),
    ("\"a\" ^ \"b\"", &[(4, 5), (5, 7), (7, 9)]),
    ("(\"a\" .. \"a\") ^ \"b\"", &[(3, 5), (4, 7)]),
    ("(\"a\" .. \"a\") > \"b\"", &[(4, 7)]),
    ("(\"a\" .. \"a\") < \"b\"", &[]),
    ("(\"a\" .. \"a\") /> \"b\"", &[(3, 4)]),
    ("(\"a\" .. \"a\") /< \"b\"", &[(3, 4), (4, 7)]),
    ("\"a\" > (\"<doc>\" .. \"</doc>\")", &[]),
    ("\"a\" < (\"<doc>\" .. \"</doc>\")", &[(7, 7)]),
    (
        "\"a\" /> (\"<doc>\" .. \"</doc>\")",
        &[(3, 3), (4, 4), (7, 7)],
    ),
    ("\"a\" /< (\"<doc>\" .. \"</doc>\")", &[(3, 3), (4, 4)]),
    (
        "(\"<doc>\" .. \"</doc>\") > (\"<doc>\" .. \"</doc>\")",
        &[(6, 8)],
    ),
    (
        "(\"<doc>\" .. \"</doc>\") < (\"<doc>\" .. \"</doc>\")",
        &[(6, 8)],
    ),
    (
        "(\"<doc>\" .. \"</doc>\") /> (\"<doc>\" .. \"</doc>\")",
        &[],
    ),
    (
        "(\"<doc>\" .. \"</doc>\") /< (\"<doc>\" .. \"</doc>\")",
        &[],
    ),
];

// Further queries over each text, whose answers are those of the plain program.
const MORE: [&str; 6] = [
    "(\"<line>\"..\"</line>\") < ((\"<speech>\"..\"</speech>\") > ((\"<speaker>\"..\"</speaker>\") > \"hamlet\"))",
    "\"not\" < ((\"<speech>\"..\"</speech>\") /> \"hamlet\")",
    "(\"to be\" ^ \"not\") < [5]",
    "[3] /> (\"be\" + \"or not\")",
    "(\"to be\" + \"or\") .. [2]",
    "(\"be to\" /< [4]) + (\"not\" ^ \"missing\")",
];

fn text_of<R: Abort>(rt: &R, alloc: Global, sample: Sample) -> Result<PlainText, AllocError> {
    let tokens = TokenList::of(alloc, sample.tokens)?;
    assert!(rt; tokens.len() <= 1000);
    assert!(rt; sample.first <= 1000);
    of_tokens(alloc, sample.first, &tokens)
}

/// The list of a query by the plain program.
fn plain_list<R: Abort>(
    rt: &R,
    alloc: Global,
    query: &[u8],
    text: &PlainText,
) -> Result<IntervalList, AllocError> {
    let Ok(expr) = parse(alloc, query) else {
        panic!(rt; "{query:?} is no query");
    };
    slow_list(alloc, &expr, text)
}

/// What a file with these tokens says.
fn content_of(alloc: Global, tokens: &[&str]) -> Result<Vec<u8>, AllocError> {
    let mut content = Vec::new(alloc);
    for token in tokens {
        if !token.ends_with("file!>") {
            content.extend_from_slice(token.as_bytes())?;
            content.push(b' ')?;
        }
    }
    Ok(content)
}

/// What a run over the file of a sample writes.
fn written<R: Threads + Wait + Sync + RandomSource + AllocGlobal>(
    rt: &R,
    sample: Sample,
    script: &[u8],
) -> Result<(Status, Vec<u8>), AllocError> {
    let content = content_of(rt.alloc(), sample.tokens)?;
    let held = one_file(rt.alloc(), b"x", content.as_slice())?;
    let mut files = SureFiles::new(rt.alloc(), held);
    run_over(rt, &[sample.option], &mut files, script, &FreeGate)
}

/// A script of queries, and what is to be written.
#[derive(Drop)]
struct Play {
    script: Vec<u8>,
    want: Vec<u8>,
}

impl Play {
    /// The file is added.
    fn begun(alloc: Global, sample: Sample) -> Result<Self, AllocError> {
        let mut want = Vec::new(alloc);
        let last = sample.first.saturating_add(sample.tokens.len() as u64);
        put_file(&mut want, 0, sample.first, last.saturating_sub(1))?;
        Ok(Play {
            script: b"add x\n".to_vec(alloc)?,
            want,
        })
    }

    /// A query is asked for all of its list, and for its length.
    fn ask(&mut self, query: &[u8], list: &IntervalList) -> Result<(), AllocError> {
        for word in [b"find ".as_slice(), b"count ".as_slice()] {
            self.script.extend_from_slice(word)?;
            self.script.extend_from_slice(query)?;
            self.script.push(b'\n')?;
        }
        for interval in list.as_slice() {
            put_interval(&mut self.want, *interval)?;
        }
        put_total(&mut self.want, list.len() as u64)?;
        put_total(&mut self.want, list.len() as u64)
    }
}

/// The script is answered as expected, over the file of a sample.
fn is_played<R: Threads + Wait + Sync + RandomSource + AllocGlobal + Abort>(
    rt: &R,
    sample: Sample,
    play: &Play,
) -> Result<(), AllocError> {
    let (status, written) = written(rt, sample, play.script.as_slice())?;
    let want = (Status::Done, play.want.as_slice());
    ends(rt, &sample.tokens, (status, written.as_slice()), want);
    Ok(())
}

/// Each query is answered over a text as by the plain program.
fn each_is_answered_plainly<R: Threads + Wait + Sync + RandomSource + AllocGlobal + Abort>(
    rt: &R,
    sample: Sample,
) -> Result<(), AllocError> {
    let alloc = rt.alloc();
    let text = text_of(rt, alloc, sample)?;
    let mut play = Play::begun(alloc, sample)?;
    for (query, _) in QUERIES {
        play.ask(query, &plain_list(rt, alloc, query, &text)?)?;
    }
    for query in MORE {
        let query = query.as_bytes();
        play.ask(query, &plain_list(rt, alloc, query, &text)?)?;
    }
    is_played(rt, sample, &play)
}

#[test]
fn every_query_is_answered_as_by_the_plain_program(rt: HostRuntime) -> Result<(), Fail> {
    for sample in SAMPLES {
        each_is_answered_plainly(&rt, sample)?;
    }
    Ok(())
}

/// A list has these members.
fn has<R: Abort>(rt: &R, query: &str, list: &IntervalList, intervals: &[(u64, u64)]) {
    assert_eq!(rt; list.len(), intervals.len(), "{query}");
    for (member, (start, end)) in list.as_slice().iter().zip(intervals) {
        assert_eq!(rt; (member.start, member.end), (*start, *end), "{query}");
    }
}

/// Each query of a table denotes its intervals, by the plain program and by a run.
fn each_denotes<R: Threads + Wait + Sync + RandomSource + AllocGlobal + Abort>(
    rt: &R,
    sample: Sample,
    rows: &[Row],
) -> Result<(), AllocError> {
    let alloc = rt.alloc();
    let text = text_of(rt, alloc, sample)?;
    let mut play = Play::begun(alloc, sample)?;
    for (query, intervals) in rows {
        let list = plain_list(rt, alloc, query.as_bytes(), &text)?;
        has(rt, query, &list, intervals);
        play.ask(query.as_bytes(), &list)?;
    }
    is_played(rt, sample, &play)
}

#[test]
fn every_operator_denotes_its_intervals(rt: HostRuntime) -> Result<(), Fail> {
    let [hamlet, letters, documents, _, _, _] = SAMPLES;
    each_denotes(&rt, hamlet, &OVER_HAMLET)?;
    each_denotes(&rt, letters, &OVER_LETTERS)?;
    each_denotes(&rt, documents, &OVER_DOCUMENTS)?;
    Ok(())
}
