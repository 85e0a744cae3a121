//! The top calls: `serve` answers the lines of a script on an engine, and `run` opens an engine, serves, and ends it.
//!
//! Contracts see the words, the files, the source and the sink that are lent to `run`. If it is known what these hold,
//! the bytes written are the output of the script, which `script_answers: specs/Answers.antt` defines: the answers to
//! its lines, each in the state that the lines before it leave, and to a query the wide list of its expression over the
//! words of the surviving files, or its first members, or their number. A file that a line saves holds the one image of
//! the collection from then on. Wherever a run ends, the engine's version stands for the collection after the lines that
//! are completed, and the files hold what these leave. Every other status has its cause in a clause. `IsRun` of
//! `specs/Promises.antt` is all clauses of `run` as one relation, for callers that hand them on.
//!
//! Over the file `a`, `to be or not to be`, the script `add a`, `find "to"` is answered `file 0 0 7`, `1 1`, `5 5`,
//! `= 2`.
#![tactic(auto)]

mod made_run;
mod open;
mod read;
mod script_run;
mod status;
mod stream;
mod stream_fault;
mod top;

pub use script_answers::{BATCH_MOST, IMAGE_MOST, Limits, SCRIPT_MOST};
pub use status::Status;
pub use stream::serve;
pub use top::run;
