//! Passages as text: the lines that they meet, or their own parts in their lines.
//!
//! A passage is a stretch of a file's bytes. Lines count from 1, end at a newline, and are never trimmed. Contracts see
//! the text of each way of writing as a definition of `specs/Texts.antt`: a filter of lines, or a map over passages.
//!
//! The layers above put passages in rising order, a piece of text at a time. Over all calls `put_lines` passes the file
//! once, and so does `begin_parts`, which counts newlines; contracts describe the text still to come. In `to`, a newline
//! and `be`, with the name `a`, the passage from 1 to 4 meets both lines: `a:1:to` and `a:2:be`; its parts are `a:1:o` and `a-2-b`.
#![tactic(auto)]

mod cursors;
mod lines;
mod parts;
mod passage;
mod put;
mod shown;

pub use cursors::{LineCursor, NumberedPlace, PartCursor};
pub use lines::{PIECE, put_lines};
pub use parts::{begin_parts, put_parts};
pub use passage::Passage;
pub use put::{put_count, put_name};
pub use shown::Shown;
