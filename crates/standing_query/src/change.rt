use gcl_model::Interval;

/// A change of a list.
#[derive(Clone, Copy, Debug, PartialEq, Eq)]
pub enum Change {
    /// The interval is no longer in the list.
    Went(Interval),
    /// The interval is new in the list.
    Came(Interval),
}
