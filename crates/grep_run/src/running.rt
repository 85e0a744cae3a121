ghost use Rattle.std.specs.Prelude.{◌≡◌, ◌+◌, Ok, IfErr, OnOk, map, string_bytes};
ghost use Rattle.outside.specs.Causes.{Rose};
ghost use Rattle.grep_run.specs.Definitions.{IsStopOf, defined_by_all, define_next};
ghost use Rattle.grep_run.specs.Runs.{IsBeforeFiles, IsBeforeWriting, RunEnds, WordsEnd, end_number};

use crate::asked::{Asked, Query};
use crate::context::Context;
use crate::defining::{DefineStop, define_all};
use crate::definitions_file::{FileStop, file_definitions};
use crate::remarks::Remarks;
use crate::searching::search;
use crate::shared_files::SharedFiles;
use crate::status::{Status, number};
use gcl_model::{Bytes, Ledger, Steps};
use grep_words::{SearchWords, Task, task_of};
use outside::Sink;
use query_names::Definitions;
use std::alloc::Global;
use std::thread::Threads;

/// How a run ended.
#[derive(Clone, Copy, Debug, PartialEq, Eq)]
pub enum Ended {
    /// The words are outside the grammar. Nothing was read or written.
    BadWords,
    /// The words ask for the text about how the program is used. Nothing was read or written.
    Help,
    /// The words ask for the program's version. Nothing was read or written.
    Version,
    /// The file that the words name gave no definitions. Nothing was written.
    NoDefinitions(FileStop),
    /// A definition is refused. Nothing was written.
    BadDefinition(DefineStop),
    Searched(Status),
    /// There was no memory to read the words.
    NoMemory,
}

/// The exit status of the program.
pub fn end_number(ended: Ended) -> u8
    ensures { result ≡ end_number ended }
{
    match ended {
        Ended::Help | Ended::Version => 0,
        Ended::Searched(status) => number(status),
        _ => 2,
    }
}

/// Makes the definitions of the file, and then those of the words.
fn define_both<N: Remarks>(
    alloc: Global,
    definitions: &mut Definitions,
    texts: &[Bytes],
    more: &[Bytes],
    remarks: &mut N,
) -> Result<(), DefineStop>
    ensures ok { OnOk result (define_next (λ d. defined_by_all d more.now) (defined_by_all definitions.old texts.now) ≡
        Ok definitions.new) }
    ensures cause { IfErr result (IsStopOf (define_next (λ d. defined_by_all d more.now) (defined_by_all definitions.old texts.now))) }
{
    match define_all(alloc, definitions, texts, remarks) {
        Ok(()) => define_all(alloc, definitions, more, remarks),
        Err(stop) => Err(stop),
    }
}

/// Searches as the words ask.
fn search_by_words<R: Threads + Sync, F: SharedFiles, K: Sink, S: Ledger, N: Remarks>(
    context: &Context<'_, R>,
    words: &SearchWords,
    files: &mut F,
    sink: &mut K,
    steps: &mut Steps<S>,
    remarks: &mut N,
) -> Ended
    ensures ends { WordsEnd (F.held files.old) words.now result (K.written sink.old) (K.written sink.new)
        (F.faults files.old) (F.faults files.new) steps.old steps.new }
    ensures write_fault { result ≡ Ended.Searched Status.WriteFault → Rose (K.faults sink.old) (K.faults sink.new) }
    ensures unwritten { IsBeforeWriting result → sink.new ≡ sink.old }
    ensures held { F.held files.new ≡ F.held files.old }
{
    let texts = match file_definitions(context.alloc, files, &words.definitions) {
        Ok(texts) => texts,
        Err(stop) => return Ended::NoDefinitions(stop),
    };
    let mut definitions = Definitions::new(context.alloc);
    match define_both(
        context.alloc,
        &mut definitions,
        texts.as_slice(),
        words.defines.as_slice(),
        remarks,
    ) {
        Ok(()) => {}
        Err(stop) => return Ended::BadDefinition(stop),
    }
    let asked = Asked {
        mode: words.mode,
        named: words.named,
        numbered: words.numbered,
        most: words.most,
        threads: words.threads as usize,
        names: words.names.as_slice(),
    };
    let query = Query {
        definitions: &definitions,
        text: words.query.as_slice(),
    };
    let status = search(context, files, sink, steps, &asked, &query, remarks);
    remarks.ended(&query, status);
    Ended::Searched(status)
}

/// Does what the words of the command line ask for: all that the program does, except for the texts of `--help` and `--version`.
///
/// Words outside the grammar, and a definition or a query that is refused, write nothing; the search is that of `search`.
pub fn run<R: Threads + Sync, F: SharedFiles, K: Sink, S: Ledger, N: Remarks>(
    context: &Context<'_, R>,
    words: &[String],
    files: &mut F,
    sink: &mut K,
    steps: &mut Steps<S>,
    remarks: &mut N,
) -> Ended
    // Why it ended so, and what was written. Unless memory ran out, it is `BadWords` exactly if the words are outside the grammar.
    ensures ends { RunEnds (F.held files.old) (map string_bytes words.now) result (K.written sink.old) (K.written sink.new)
        (F.faults files.old) (F.faults files.new) steps.old steps.new }

    // A write fault is one of the sink. A run that ends before it reads files leaves them unchanged, and one that ends before it writes
    // leaves the sink unchanged.
    ensures write_fault { result ≡ Ended.Searched Status.WriteFault → Rose (K.faults sink.old) (K.faults sink.new) }
    ensures unread { IsBeforeFiles result → files.new ≡ files.old }
    ensures unwritten { IsBeforeWriting result → sink.new ≡ sink.old }
    ensures held { F.held files.new ≡ F.held files.old }
{
    let task = match task_of(context.alloc, words) {
        Ok(Some(task)) => task,
        Ok(None) => return Ended::BadWords,
        Err(_) => return Ended::NoMemory,
    };
    match task {
        Task::Help => Ended::Help,
        Task::Version => Ended::Version,
        Task::Search(words) => {
            remarks.begins(&words);
            search_by_words(context, &words, files, sink, steps, remarks)
        }
    }
}
