//! The run of the program `gclshare`: several editors in threads make one collection.
//!
//! The words `--made X`, `--count C` and `--editors N` ask for it. Each editor adds its part of the made files and deletes every third
//! file that was accepted, through one engine under a lock. Concurrently a lane plans merges outside of the lock and settles them. Then
//! the engine is closed, and five lines about it are written. The contract of `share` says what the words mean, what is written, and that
//! the numbers written are those of the journal, which is a history of one thread.
//!
//! `--made 7 --count 9 --editors 3` writes `editors 3`, `added 9`, `gone 3`, `refused 0` and `files 6`.
#![tactic(auto)]

mod answer;
mod lane;
mod names;
mod options;
mod sharing;
mod sides;
mod status;
mod text;
mod top;
mod words;
mod work;

pub use answer::Share;
pub use options::{MOST_EDITORS, ShareOptions};
pub use status::ShareStatus;
pub use top::share;
pub use words::options_of;
