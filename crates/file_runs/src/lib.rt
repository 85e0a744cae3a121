//! The records of files, in runs that versions share.
//!
//! Contracts see `Records` as the list of their files, by rising id and address, and its runs as the parts of that list.
//!
//! The layer above finds a file by halving (`find`), and leaves one out (`without`) or appends others (`and`) at the cost
//! of one run and of the places of the others. Of 100,000 files a deletion copies at most 256 records.
#![tactic(auto)]

mod records;
mod runs;
mod shared_run;

pub use records::Records;
pub use shared_run::SharedRun;
