//! The outside as it is: a source over any reader, a sink over any writer, and the file system.
//!
//! Each adapter keeps its trait's contract, and raises its count of faults at each error of what it is over. Contracts
//! know its bytes if they know those of that reader or writer; of a real one they know only the counts. A call that a
//! signal interrupted is made again, and so is one that would have to wait, after a nap: neither counts a fault. A sink
//! never needs memory. A file is kept by a new one next to it, which is synced and then takes its name: a full disk, a
//! killed program or a loss of power leaves the old content or the new one. That order is proved over any `Disk`.
//!
//! The layer above makes the three and lends them to a run. Example: a `StdSource` over a file of `to be`, asked for
//! three bytes at a time, hands out `to `, then `be`, and then nothing, which is the end.
#![tactic(auto)]

mod beside;
mod cause;
mod disk;
mod files;
mod place;
mod replace;
mod sink;
mod source;
mod step;
mod system_disk;
mod wait;

pub use cause::FileCause;
pub use files::{FileCall, StdFiles};
pub use sink::StdSink;
pub use source::StdSource;
