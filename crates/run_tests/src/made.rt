ghost use Rattle.std.specs.Prelude.{◌≡◌, ◌≤◌, length};
ghost use Rattle.made_corpus.specs.MadeLines.{made_lines};

use crate::trials::{ends, run_over};
use made_corpus::{MadeFiles, SummarySink, made_script};
use outside::{FreeGate, Sink, SureFiles};
use query_run::Status;
use std::alloc::{AllocError, Global};
use std::random::RandomSource;
use std::sync::Wait;
use std::test::Fail;
use std::thread::Threads;

/// The status of a run with these words over no files and an empty script, and what was written.
fn summary_run<R: Threads + Wait + Sync + RandomSource + AllocGlobal>(
    rt: &R,
    words: &[&[u8]],
) -> Result<(Status, Vec<u8>), AllocError> {
    let mut files = SureFiles::new(rt.alloc(), Vec::new(rt.alloc()));
    run_over(rt, words, &mut files, b"", &FreeGate)
}

/// The summary of these bytes.
fn summary_of(
    alloc: Global,
    written: &[u8],
    start: u64,
    count: u64,
    lines: u64,
) -> Result<Vec<u8>, Fail>
    requires { lines ≡ length (made_lines start count) }
{
    let mut summary = SummarySink::new();
    summary.write(written)?;
    let mut out = Vec::new(alloc);
    summary.put_summary(&mut out, start, count, lines)?;
    Ok(out)
}

/// The summary of the whole output that a plain run over the made files and the made script writes.
fn summed<R: Threads + Wait + Sync + RandomSource + AllocGlobal>(
    rt: &R,
    words: &[&[u8]],
    start: u64,
    count: u64,
) -> Result<Vec<u8>, Fail>
    requires { count ≤ 10000 }
{
    let script = made_script(rt.alloc(), start, count)?;
    let mut files = MadeFiles::new(rt.alloc(), start, count);
    let (_, written) = run_over(rt, words, &mut files, script.text.as_slice(), &FreeGate)?;
    summary_of(rt.alloc(), written.as_slice(), start, count, script.lines)
}

// Words, what is written, and the status.
const SUMMARIES: [(&[&[u8]], &[u8], Status); 4] = [
    (
        &[b"--made", b"0", b"--count", b"1"],
        b"made 0 1\nlines 4\nrefused 0\nbytes 24\nsum 1177\n",
        Status::Done,
    ),
    (
        &[b"--count=0", b"--made=7"],
        b"made 7 0\nlines 0\nrefused 0\nbytes 0\nsum 0\n",
        Status::Done,
    ),
    (&[b"--made", b"7"], b"", Status::Usage),
    (&[b"--made", b"7", b"--count", b"10001"], b"", Status::Usage),
];

#[test]
fn a_made_corpus_is_summed_up_in_five_lines(rt: HostRuntime) -> Result<(), Fail> {
    for (words, output, want) in SUMMARIES {
        let (status, written) = summary_run(&rt, words)?;
        ends(&rt, &words, (status, written.as_slice()), (want, output));
    }
    Ok(())
}

#[test]
fn the_five_lines_are_those_of_the_whole_output_for_every_number_of_readers(
    rt: HostRuntime,
) -> Result<(), Fail> {
    let want = summed(&rt, &[b"--first=3"], 7, 500)?;
    for readers in [b"1".as_slice(), b"4", b"16"] {
        let words = [
            b"--made=7".as_slice(),
            b"--count=500",
            b"--first=3",
            b"--readers",
            readers,
        ];
        let (status, written) = summary_run(&rt, &words)?;
        let want = (Status::DoneWithRefusals, want.as_slice());
        ends(&rt, &readers, (status, written.as_slice()), want);
    }
    Ok(())
}
