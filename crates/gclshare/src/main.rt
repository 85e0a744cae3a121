//! Has several editors, in threads over one collection, make a corpus, and prints the result.
//!
//! The words `--made X --count C --editors N` ask for it. Five lines go to standard output, and if the status is not 0 one line on
//! standard error says what was wrong. What the program promises about the objects that it borrows is the contract of `answer`: that of
//! `share_run::share`, with the exit status in place of the run's.
#![tactic(auto)]

mod session;
mod tell;
mod words;

use outside_std::StdSink;
use session::answer;
use std::process::ExitCode;
use tell::refuse;
use words::words;

fn main(rt: HostRuntime) -> ExitCode {
    let words = match words(&rt) {
        Ok(words) => words,
        Err(fault) => return refuse(&rt, fault),
    };
    let mut sink = StdSink::new(&rt, rt.stdout());
    answer(&rt, rt.alloc(), words.as_slice(), &mut sink)
}
