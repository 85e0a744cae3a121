/// How a share ended.
#[derive(Clone, Copy, Debug, PartialEq, Eq)]
pub enum ShareStatus {
    /// Every edit was answered, and the whole text was written.
    Done,
    /// The words are outside the grammar. Nothing was written.
    Usage,
    /// The text could not be written.
    WriteFault,
    /// There was no memory to go on.
    NoMemory,
}

impl ShareStatus {
    ghost use Rattle.std.specs.Prelude.{◌≡◌};
    ghost use Rattle.share_run.specs.Statuses.{number_of};

    /// The exit status of the program: 0 for `Done`, 2 for `Usage`.
    pub fn number(&self) -> u8
        ensures { result ≡ number_of self.now }
    {
        match self {
            ShareStatus::Done => 0,
            ShareStatus::Usage => 2,
            ShareStatus::WriteFault => 4,
            ShareStatus::NoMemory => 6,
        }
    }
}
