use thiserror::Error;

/// Why a query is not watched.
#[derive(Clone, Copy, Debug, PartialEq, Eq, Error)]
pub enum WatchFault {
    /// This many watches are live, and no more can be.
    #[error("{0} watches are live")]
    Full(usize),
    /// There was not enough memory.
    #[error("out of memory")]
    NoMemory,
}

/// No live watch has this number.
#[derive(Clone, Copy, Debug, PartialEq, Eq, Error)]
#[error("no live watch has the number {id}")]
pub struct NoWatch {
    pub id: u64,
}
