/// The outcome of the search of one file.
#[derive(Clone, Copy, Debug, PartialEq, Eq)]
pub enum Outcome {
    /// The file has an answer.
    Found,
    /// The file has no answer.
    NotFound,
    /// The file has more bytes than a file may have. It was left out.
    TooLong,
    /// The file could not be loaded. It was left out.
    Failed,
}

/// The outcome of the search of several files.
#[derive(Clone, Copy, Debug, PartialEq, Eq)]
pub struct Summary {
    /// Some file has an answer.
    pub found: bool,
    /// Some file was left out.
    pub left_out: bool,
}
