use crate::tally::Tally;
use file_answers::Asking;

/// What is asked of each file, and what is in front of each line: the file's name or none, and the line's number or none.
#[derive(Clone, Copy)]
pub struct Wish<'a> {
    pub asking: Asking<'a>,
    pub named: bool,
    pub numbered: bool,
    /// The most files that are searched concurrently.
    pub threads: usize,
    /// What is counted in each file, for messages.
    pub tally: &'a Tally,
}
