use outside::Sink;
use outside_std::StdSink;
use std::io::Write;
use std::rt::Clock;

/// A sink that knows whether anybody still reads what it takes.
pub trait ReaderGone: Sink {
    /// Whether its last fault was that nobody reads any more, as with a pipe into `head`.
    fn reader_gone(&self) -> bool;
}

impl<'a, R: Clock, W: Write> ReaderGone for StdSink<'a, R, W> {
    fn reader_gone(&self) -> bool {
        self.reader_is_gone()
    }
}
