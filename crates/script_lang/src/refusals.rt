use gcl_parser::QueryFault;

/// Why a line is refused.
#[derive(Clone, Copy, Debug, PartialEq, Eq)]
pub enum Refusal {
    /// The line is no command.
    Command,
    /// The line has more bytes than a line may have.
    LongLine,
    /// The text given as a query is none: the fault says where and why.
    Query(QueryFault),
    /// No surviving file has this id.
    NoFile(u64),
    /// A file or an image has more bytes than it may have.
    TooLong,
    /// A file needs addresses at or above 2^56.
    NoAddresses,
    /// An image is to be opened although files were added before.
    NotEmpty,
    /// The bytes to open are no image.
    NotImage,
    /// No live watch has this number.
    NoWatch(u64),
    /// As many watches are live as may be.
    TooManyWatches,
}
