use crate::fault::QueryKind;
use gcl_model::Containment;

/// An operator that joins a chain of parts.
#[derive(Clone, Copy, PartialEq, Eq)]
pub enum Joint {
    /// `..`
    FollowedBy,
    /// `^`
    BothOf,
    /// `+`
    OneOf,
}

/// A query token as it occurs in the text, or what is wrong if none begins.
#[derive(Clone, Copy)]
pub enum Token {
    /// A quoted text: the bytes from the first place up to the second, without its quotes.
    Quoted(usize, usize),
    /// A quoted text of one word, with a `*` right after it: the bytes as for `Quoted`, without quotes and `*`.
    Prefix(usize, usize),
    /// A width, 1 to 2^56.
    Width(u64),
    Joint(Joint),
    Containment(Containment),
    Open,
    Close,
    Broken(QueryKind),
}

/// A query token with the place where it begins and the place after it.
#[derive(Clone, Copy)]
pub struct PlacedToken {
    pub at: usize,
    pub end: usize,
    pub token: Token,
}
