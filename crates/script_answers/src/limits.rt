ghost use Rattle.std.specs.Prelude.{◌≡◌, ◌↔◌, true};
ghost use Rattle.script_answers.specs.States.{greatest_limits, AreLimits};

/// The most bytes that the script of a run may have.
pub const SCRIPT_MOST: u64 = 1 << 32;

/// The most bytes that an image may have.
pub const IMAGE_MOST: u64 = 1 << 30;

/// The most queries that a batch may have.
pub const BATCH_MOST: u64 = 64;

/// How many bytes the parts of a run may have, and how many queries a batch: each limit is at least 1, and at most that of
/// `Limits::greatest`.
#[derive(Clone, Copy, Debug, PartialEq, Eq)]
pub struct Limits {
    /// The most bytes of a line, its newline not counted: a longer line is refused.
    pub line: u64,
    /// The most bytes of a file: a longer file is not added.
    pub file: u64,
    /// The most bytes of a script: a longer one ends the run.
    pub script: u64,
    /// The most bytes of an image: a longer one is neither kept nor opened.
    pub image: u64,
    /// The most queries that the readers share in one batch.
    pub batch: u64,
}

impl Limits {
    /// The limits of the program's runs.
    pub fn greatest() -> Limits
        ensures { result ≡ greatest_limits }
    {
        Limits {
            line: 65_536,
            file: 1 << 26,
            script: SCRIPT_MOST,
            image: IMAGE_MOST,
            batch: BATCH_MOST,
        }
    }

    /// Whether each limit is at least 1, and at most that of `Limits::greatest`.
    pub fn are_allowed(&self) -> bool
        ensures { (result ≡ true) ↔ AreLimits self.now }
    {
        let most = Limits::greatest();
        1 <= self.line
            && self.line <= most.line
            && 1 <= self.file
            && self.file <= most.file
            && 1 <= self.script
            && self.script <= most.script
            && 1 <= self.image
            && self.image <= most.image
            && 1 <= self.batch
            && self.batch <= most.batch
    }
}
