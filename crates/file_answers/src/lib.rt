//! The answers of one file, written as text.
//!
//! A file is searched by itself, at the addresses 0 to n + 1, with n the number of its tokens. Contracts see the sink's
//! bytes, and what is written for a file as `output_of` in `specs/Outputs.antt`.
//!
//! The layer above lends the file's bytes and the words that the query looks up; the memory used is that of the file and a piece.
#![tactic(auto)]

mod handing;
mod line_writer;
mod member_places;
mod members;
mod mode;
mod part_writer;
mod whole;
mod writer;

pub use handing::{hand_over, write_all};
pub use line_writer::LineWriter;
pub use members::{Asking, put_answers};
pub use mode::Mode;
pub use part_writer::PartWriter;
pub use whole::{Label, write_file};
pub use writer::PassageWriter;
