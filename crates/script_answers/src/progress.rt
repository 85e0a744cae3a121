ghost use Rattle.std.specs.Prelude.{◌≡◌, false, []};
ghost use Rattle.standing_query.specs.Watches.{watch_list};

use standing_query::WatchList;
use std::alloc::Global;

/// How far a run has come, and what it makes its answers in.
#[derive(Drop)]
pub struct Progress {
    /// How many queries were asked.
    pub asked: u64,
    /// Whether a refusal is among the answers.
    pub refused: bool,
    /// Whether a merge was asked for and is not made yet.
    pub pending: bool,
    /// The queries that are watched.
    pub watches: WatchList,
    /// Where the text of an answer is made before it is handed to the sink.
    pub out: Vec<u8>,
}

impl Progress {
    /// No line is answered, and nothing is watched.
    pub fn new(alloc: Global) -> Progress
        ensures asked { result.asked ≡ 0 }
        ensures refused { result.refused ≡ false }
        ensures pending { result.pending ≡ false }
        ensures watches { result.watches ≡ watch_list [] 0 }
    {
        Progress {
            asked: 0,
            refused: false,
            pending: false,
            watches: WatchList::new(alloc),
            out: Vec::new(alloc),
        }
    }
}
