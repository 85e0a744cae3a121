//! The words of a text between two addresses alone.
//!
//! Contracts see the part of a text from `low` to `high` (`within`), as leaves over leaves: a look-up begins no lower than `low`, and
//! finds nothing above `high`. The addresses of the part are those of the text there; if the text has none there, the part is empty. A
//! look-up makes at most one look-up of the leaves. The layer above evaluates an expression over such a part alone: the part has the same
//! words there as the whole text, and no address that the text lacks (`windows_are_parts`).
//!
//! Of `to be or` at 0 to 2, the part from 1 to 1 is `be`: at or after 0, `be` is at 1 in it, and `or` nowhere.
#![tactic(auto)]

mod laws;
mod window;

pub use laws::windows_are_parts;
pub use window::Window;
