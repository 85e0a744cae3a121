//! Searches files for a structured query, and writes the lines or the passages of the answers.
//!
//! The words name the query and the files. The text goes to standard output, and each thing that was wrong gets one line on
//! standard error. What is written for which file is in the contract of `grep_run::run`.
#![tactic(auto)]

ghost use Rattle.std.specs.Prelude.{◌≡◌, drop};

mod help;
mod input;
mod notes;
mod reader_gone;
mod session;
mod tell;

use outside_std::{StdFiles, StdSink, StdSource};
use session::answer;
use std::env;
use std::process::ExitCode;
use tell::say;

/// The words after the program's name, if there is one.
fn after_name(args: &[String]) -> &[String]
    ensures { result.now ≡ drop 1 args.now }
{
    match args.split_at_checked(1) {
        Some((_, words)) => words,
        None => &[],
    }
}

/// Says why the words were not read, and returns the status.
fn refuse<R: Eprint>(rt: &R, line: &str) -> ExitCode {
    say(rt, line);
    ExitCode::from(2)
}

fn main(rt: HostRuntime) -> ExitCode {
    let args = match env::args(&rt) {
        Ok(args) => args,
        Err(_) => return refuse(
            &rt,
            "gclgrep: a word is not UTF-8, or there is no memory for it",
        ),
    };
    let words: Vec<String> = match args.collect(rt.alloc()) {
        Ok(words) => words,
        Err(_) => return refuse(&rt, "gclgrep: out of memory"),
    };
    let mut files = input::WithInput::new(
        StdFiles::new(&rt),
        StdSource::new(&rt, rt.stdin()),
        input::SystemOpener::new(&rt),
    );
    let mut sink = StdSink::new(&rt, rt.stdout());
    answer(
        &rt,
        rt.alloc(),
        after_name(words.as_slice()),
        &mut files,
        &mut sink,
    )
}

#[cfg(test)]
mod tests;
