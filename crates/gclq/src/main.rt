//! Answers a script of queries over files: the real objects, lent to `run`, and the status that it gives.
//!
//! The script comes on standard input, and the answers go to standard output. One line on standard error says what was
//! wrong if the status is 2 or more, unless the reader of the answers has gone. `main` only makes the real objects. What
//! the program promises of them and of its arguments is the contract of `begin`: that of `query_run::run` for the words
//! after the program's name, with the exit status in place of the run's.
#![tactic(auto)]

mod advice;
mod fault_name;
mod reader_gone;
mod session;
mod tell;
mod words;

use outside_std::{StdFiles, StdSink, StdSource};
use session::begin;
use std::io::IsTerminal;
use std::process::ExitCode;
use tell::refuse;
use words::arguments;

fn main(rt: HostRuntime) -> ExitCode {
    let args = match arguments(&rt) {
        Ok(args) => args,
        Err(fault) => return refuse(&rt, fault),
    };
    let awaited = rt.stdin().is_terminal();
    let mut files = StdFiles::new(&rt);
    let mut source = StdSource::new(&rt, rt.stdin());
    let mut sink = StdSink::new(&rt, rt.stdout());
    begin(
        &rt,
        rt.alloc(),
        args.as_slice(),
        awaited,
        &mut files,
        &mut source,
        &mut sink,
    )
}

#[cfg(test)]
mod tests;
