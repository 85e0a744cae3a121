/// Is notified of the queries and the publications of a run, and may hold the caller for a while. It returns nothing.
pub trait Gate {
    /// Query `n` of the run, counted from 1, is about to begin.
    fn before_query(&self, n: u64);

    /// Query `n` was answered on the version with this number.
    fn after_query(&self, n: u64, version: u64);

    /// Version `n` is about to be published.
    fn before_publish(&self, n: u64);

    /// Version `n` was published.
    fn after_publish(&self, n: u64);
}

/// Never holds.
#[derive(Clone, Copy, Debug)]
pub struct FreeGate;

impl Gate for FreeGate {
    fn before_query(&self, _n: u64) {}

    fn after_query(&self, _n: u64, _version: u64) {}

    fn before_publish(&self, _n: u64) {}

    fn after_publish(&self, _n: u64) {}
}
