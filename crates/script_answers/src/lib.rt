//! The lines of a script, answered on an engine: what each does to the collection, and what is written to it.
//!
//! Each line is answered in its turn: it is read once, into a `Task`; it changes the engine, the files or the watches; its `Answer` is put
//! into text, and after that of an edit what it changed for each watch; and the sink gets it before the next line is done. Only queries in
//! a row wait for each other: they are a batch, which the engine's readers answer concurrently with a merge that is pending.
//!
//! Contracts see the state before a line, the line and the state after it, which `specs/Answers.antt` defines: the collection, the ranges
//! of the slots, what the files hold, and the watches. The layer above reads a script in pieces, and hands the whole lines of each to
//! `serve_held`; at the script's end it calls `merge_pending`. It relies on this: from whatever state the run is at, the lines are answered
//! and the state after them is kept (`Serves`); or the call ends early, some number of them is completed, each as a whole, and what is
//! written is a beginning of the answers to these and to the next query (`Halts`).
//!
//! The lines `add a`, `find "to"`, where `a` is `to be or not to be`, are answered `file 0 0 7`, `1 1`, `5 5`, `= 2`,
//! and leave a collection of one file in one slot, 0 to 7.
#![tactic(auto)]

mod acting;
mod changes;
mod limits;
mod merging;
mod progress;
mod run_fault;
mod saving;
mod serving;
mod setting;
mod task;
mod watching;

pub use answer_text::{PIECE, write_all};
pub use limits::{BATCH_MOST, IMAGE_MOST, Limits, SCRIPT_MOST};
pub use merging::merge_pending;
pub use progress::Progress;
pub use run_fault::RunFault;
pub use serving::serve_held;
pub use setting::Setting;
