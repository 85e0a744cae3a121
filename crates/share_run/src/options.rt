/// The most editors that may share a collection.
pub const MOST_EDITORS: u64 = 16;

/// What the words of the command line ask for.
#[derive(Clone, Copy, Debug, PartialEq, Eq)]
pub struct ShareOptions {
    /// The number that the files are made from.
    pub start: u64,
    /// How many files there are.
    pub count: u64,
    /// How many editors add them, at least 1.
    pub editors: u64,
}
