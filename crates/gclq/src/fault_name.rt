use outside::Files;
use outside_std::{FileCall, FileCause, StdFiles};
use std::rt;

/// Files that say what they failed at, for a message.
pub trait FaultName: Files {
    /// The name at which they failed last, or nothing.
    fn fault_name(&self) -> &[u8];

    /// The call that failed last, or none.
    fn fault_call(&self) -> Option<FileCall>;

    /// Why it failed, or none.
    fn fault_cause(&self) -> Option<FileCause>;
}

impl<'a, R: rt::Files + AllocGlobal> FaultName for StdFiles<'a, R> {
    fn fault_name(&self) -> &[u8] {
        self.last_fault()
    }

    fn fault_call(&self) -> Option<FileCall> {
        self.last_call()
    }

    fn fault_cause(&self) -> Option<FileCause> {
        self.last_cause()
    }
}
