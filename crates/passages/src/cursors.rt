/// A place where a line begins, and the number of that line.
#[derive(Clone, Copy, Debug, PartialEq, Eq)]
pub struct LineCursor {
    pub at: usize,
    pub number: u64,
}

/// How much of a passage was written: the place of its next part, the number of that line, and the mark after name and number.
#[derive(Clone, Copy, Debug, PartialEq, Eq)]
pub struct PartCursor {
    pub at: usize,
    pub number: u64,
    pub mark: u8,
}

/// A place, and the number of the line that it belongs to.
#[derive(Clone, Copy, Debug, PartialEq, Eq)]
pub struct NumberedPlace {
    pub at: usize,
    pub number: u64,
}
