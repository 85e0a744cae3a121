ghost use Rattle.std.specs.Prelude.{◌≡◌, IfOk, IsNone, codes, map, option_map, string_bytes};
ghost use Rattle.clap.specs.Walk.{first_of};
ghost use Rattle.clap.specs.Words.{found_of, rows_of};
ghost use Rattle.clap.specs.declared.error.kind.ErrorKind.TheVariants.{OutOfMemory};
ghost use Rattle.grep_words.specs.Grammar.{files_from, is_given, mode_in, most_from, search_in};
ghost use Rattle.grep_words.specs.Grammar.{search_with, task_in, task_of, threads_from, values_in};

use crate::command::command;
use crate::task::{SearchWords, Task};
use crate::word_list::WordList;
use clap::ArgMatches;
use clap::error::ErrorKind;
use file_answers::Mode;
use gcl_model::Bytes;
use script_lang::number_of;
use std::alloc::{AllocError, Global};

/// The most definitions that the words may have.
const MOST_DEFINES: usize = 256;

/// The most files that are searched concurrently.
const MOST_THREADS: u64 = 16;

/// The greatest number of 18 digits: no file has that many answers.
const MOST_ANSWERS: u64 = 999_999_999_999_999_999;

/// Whether an option is given.
fn is_given(matches: &ArgMatches<'_>, name: &str) -> bool
    ensures { result ≡ is_given name.now (rows_of (found_of matches.now)) }
{
    matches.get_count(name) > 0
}

/// The mode that the options ask for. Returns None if they ask for two or more.
fn mode_in(matches: &ArgMatches<'_>) -> Option<Mode>
    ensures { result ≡ mode_in (rows_of (found_of matches.now)) }
{
    match (
        is_given(matches, "only-answers"),
        is_given(matches, "count"),
        is_given(matches, "files-with-answers"),
        is_given(matches, "quiet"),
    ) {
        (false, false, false, false) => Some(Mode::Lines),
        (true, false, false, false) => Some(Mode::Answers),
        (false, true, false, false) => Some(Mode::Count),
        (false, false, true, false) => Some(Mode::Names),
        (false, false, false, true) => Some(Mode::Quiet),
        _ => None,
    }
}

/// The number of `-m`. Returns None if its value is not a number.
fn most_from(value: Option<&str>) -> Option<u64>
    ensures { result ≡ most_from (option_map (λ text. text.now) value.entry) }
{
    match value {
        Some(text) => number_of(text.as_bytes()),
        None => Some(MOST_ANSWERS),
    }
}

/// The number of `-t`. Returns None if its value is not a number from 1 to 16.
fn threads_from(value: Option<&str>) -> Option<u64>
    ensures { result ≡ threads_from (option_map (λ text. text.now) value.entry) }
{
    match value {
        Some(text) => match number_of(text.as_bytes()) {
            Some(n) if 1 <= n && n <= MOST_THREADS => Some(n),
            _ => None,
        },
        None => Some(4),
    }
}

/// Copies of the values of an option, or of the words that are not options.
fn values_in(alloc: Global, matches: &ArgMatches<'_>, name: &str) -> Result<WordList, AllocError>
    ensures { IfOk result (λ values. values ≡ values_in name.now (rows_of (found_of matches.now))) }
{
    match matches.get_raw(name) {
        Some(values) => WordList::of(alloc, values),
        None => Ok(WordList::new(alloc)),
    }
}

/// The names of the files, or that of standard input if there are none.
fn files_from(alloc: Global, names: &[Bytes]) -> Result<WordList, AllocError>
    ensures { IfOk result (λ files. files ≡ files_from names.now) }
{
    if names.is_empty() {
        return WordList::of(alloc, &["-"]);
    }
    WordList::copy_of(alloc, names)
}

/// A copy of the value of `-D`.
fn definitions_in(alloc: Global, matches: &ArgMatches<'_>) -> Result<Option<Bytes>, AllocError>
    ensures { IfOk result (λ copy. copy ≡ first_of (codes "definitions") (rows_of (found_of matches.now))) }
{
    match matches.get_str("definitions") {
        Some(name) => Ok(Some(Bytes::copy_of(alloc, name.as_bytes())?)),
        None => Ok(None),
    }
}

/// The search with this mode and these numbers. Returns None if there is no query or there are too many definitions.
fn search_with(
    alloc: Global,
    matches: &ArgMatches<'_>,
    mode: Mode,
    most: u64,
    threads: u64,
) -> Result<Option<SearchWords>, AllocError>
    ensures { IfOk result (λ search. search ≡ search_with mode most threads (rows_of (found_of matches.now))
        (values_in (codes "define") (rows_of (found_of matches.now))) (values_in (codes "words") (rows_of (found_of matches.now)))) }
{
    let defines = values_in(alloc, matches, "define")?;
    let words = values_in(alloc, matches, "words")?;
    let [query, names @ ..] = words.as_slice() else {
        return Ok(None);
    };
    if defines.len() > MOST_DEFINES {
        return Ok(None);
    }
    Ok(Some(SearchWords {
        mode,
        named: !is_given(matches, "no-filename"),
        numbered: !is_given(matches, "no-line-number"),
        messages: !is_given(matches, "no-messages"),
        most,
        threads,
        definitions: definitions_in(alloc, matches)?,
        defines,
        query: query.copy()?,
        names: files_from(alloc, names)?,
    }))
}

/// The number of `-m`.
fn most_in(matches: &ArgMatches<'_>) -> Option<u64>
    ensures { result ≡ most_from (first_of (codes "max-count") (rows_of (found_of matches.now))) }
{
    most_from(matches.get_str("max-count"))
}

/// The number of `-t`.
fn threads_in(matches: &ArgMatches<'_>) -> Option<u64>
    ensures { result ≡ threads_from (first_of (codes "threads") (rows_of (found_of matches.now))) }
{
    threads_from(matches.get_str("threads"))
}

/// The search that the matches ask for.
fn search_in(alloc: Global, matches: &ArgMatches<'_>) -> Result<Option<SearchWords>, AllocError>
    ensures { IfOk result (λ search. search ≡ search_in (rows_of (found_of matches.now))) }
{
    let Some(mode) = mode_in(matches) else {
        return Ok(None);
    };
    let Some(most) = most_in(matches) else {
        return Ok(None);
    };
    let Some(threads) = threads_in(matches) else {
        return Ok(None);
    };
    search_with(alloc, matches, mode, most, threads)
}

/// What the matches ask for.
fn task_in(alloc: Global, matches: &ArgMatches<'_>) -> Result<Option<Task>, AllocError>
    ensures { IfOk result (λ task. task ≡ task_in (rows_of (found_of matches.now))) }
{
    if is_given(matches, "help") {
        return Ok(Some(Task::Help));
    }
    if is_given(matches, "version") {
        return Ok(Some(Task::Version));
    }
    match search_in(alloc, matches)? {
        Some(search) => Ok(Some(Task::Search(search))),
        None => Ok(None),
    }
}

/// Returns None for words that clap refuses, and `Err` if clap ran out of memory.
fn refusal(kind: ErrorKind) -> Result<Option<Task>, AllocError>
    ensures { IfOk result (λ task. IsNone task × ¬ (kind ≡ OutOfMemory)) }
{
    match kind {
        ErrorKind::OutOfMemory => Err(AllocError),
        _ => Ok(None),
    }
}

/// What the words ask for. Returns None if they are outside the grammar. `Err` means out of memory.
pub fn task_of(alloc: Global, words: &[String]) -> Result<Option<Task>, AllocError>
    ensures { IfOk result (λ task. task ≡ task_of (map string_bytes words.now)) }
{
    match command(alloc)?.try_get_matches_from(words) {
        Ok(matches) => task_in(alloc, &matches),
        Err(fault) => refusal(fault.kind()),
    }
}
