//! The outside of a run: what it reads, what it writes, the files that it loads and keeps, and a gate that it passes.
//!
//! Each is a trait. Contracts see a count of faults, which never falls, explains each `Failed` and moves at nothing
//! else, and what the object holds if that is known: the bytes left of a `Source`, the bytes taken by a `Sink`, the
//! content of `Files` by name, of which a keep changes one. It is known of the objects in memory, and of nothing over a
//! real file or stream. Files also count the keeps that answered an error. The layer above proves what it wrote
//! wherever it is known, and names a fault only if that object's count rose.
//!
//! Example: a `MemSource` over `to be` whose second call is to fail hands out `to be`, and then answers `Failed`.
#![tactic(auto)]

mod fail_list;
mod faults;
mod files;
mod gate;
mod ghost_count;
mod sink;
mod source;
mod turn_gate;

pub use fail_list::FailList;
pub use faults::{Failed, FileError, WriteError};
pub use files::{Files, Loaded, MemFiles, SureFiles};
pub use gate::{FreeGate, Gate};
pub use ghost_count::GhostCount;
pub use sink::{MemSink, Sink, SureSink};
pub use source::{MemSource, Source, SureSource};
pub use turn_gate::TurnGate;
