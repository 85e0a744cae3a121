//! A search of files: what is asked of each, and what is written.
//!
//! Contracts see a request, the visits to the files in order, and the sink's bytes: the texts of the files that were
//! searched, one after another.
#![tactic(auto)]

mod ahead;
mod asked;
mod beside;
mod buffer;
mod context;
mod defining;
mod definitions_file;
mod fault;
mod files;
mod hand;
mod one_file;
mod outcome;
mod remarks;
mod room_sink;
mod running;
mod searching;
mod shared_files;
mod status;
mod taking;
mod tally;
mod wish;
mod work;

pub use asked::{Asked, Query};
pub use context::Context;
pub use defining::{DefineRefusal, DefineStop, definition_parts};
pub use definitions_file::FileStop;
pub use fault::SearchFault;
pub use files::search_files;
pub use one_file::MOST_FILE;
pub use outcome::{Outcome, Summary};
pub use remarks::{NoRemarks, Remarks};
pub use running::{Ended, end_number, run};
pub use searching::search;
pub use shared_files::SharedFiles;
pub use status::{Status, number};
pub use tally::{ElementTally, Tally, TermTally};
pub use wish::Wish;
