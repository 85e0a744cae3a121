/// How many readers a run has at most.
pub const MOST_READERS: u64 = 16;

/// How many files a made corpus has at most.
pub const MOST_MADE: u64 = 10_000;

/// A corpus that is made from a number.
#[derive(Clone, Copy, Debug, PartialEq, Eq)]
pub struct Made {
    /// The number that it is made from.
    pub start: u64,
    /// How many files it has, and how many turns its script.
    pub count: u64,
}

/// What the words of the command line ask for.
#[derive(Clone, Copy, Debug, PartialEq, Eq)]
pub struct Options {
    /// The address that the collection begins at.
    pub first: u64,
    /// How many readers there are, 1 or more.
    pub readers: usize,
    /// The corpus to run over in place of the script and the files.
    pub made: Option<Made>,
}
