//! Cursors: the members of an expression, page by page, by leaping while that takes few look-ups, and by readers after that.
//!
//! Contracts see a cursor by where it stands, and by how many look-ups it may still make, whatever it is asked (`left_of`). Leaping is the
//! quickest way for most expressions, but for some it looks for the same thing again and again. So a cursor leaps while look-ups are left
//! to it, and then readers go on, which make no more in all than a merge of whole lists does. Readers are made with the cursor, before the
//! first look-up; if there is no memory for them, it leaps without a limit.
//!
//! The layer above asks for a page from where the last one ended, or for the number of members. Of `"to be"` over `to be or not to be`,
//! a cursor with a thousand look-ups finds (0, 1) and (4, 5) by leaping; one with none finds the same by readers.
#![tactic(auto)]

mod cursor;
mod leaps;

pub use cursor::Cursor;
