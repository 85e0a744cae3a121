ghost use Rattle.std.specs.Prelude.{◌≡◌};
ghost use Rattle.std.specs.Process.{exit_status};
ghost use Rattle.gclshare.specs.Exits.{word_status};
ghost use Rattle.share_run.specs.Statuses.{number_of};

use crate::words::WordFault;
use share_run::ShareStatus;
use std::process::ExitCode;

/// The words that the program takes.
pub const USAGE: &str =
    "usage: gclshare --made NUMBER --count FILES --editors EDITORS, with at most 10000 files and 1 to 16 editors";

const OUT_OF_MEMORY: &str = "gclshare: out of memory: ask for fewer files";

/// Writes one line on standard error for each status except 0: what was wrong, and what to do about it.
pub fn tell<R: Eprint>(rt: &R, status: ShareStatus) {
    let _ = match status {
        ShareStatus::Done => Ok(()),
        ShareStatus::Usage => eprintln!(rt; "gclshare: a word is unexpected or missing; {USAGE}"),
        ShareStatus::WriteFault => eprintln!(rt;
            "gclshare: cannot write to standard output: see that its disk has room and its reader goes on"
        ),
        ShareStatus::NoMemory => eprintln!(rt; "{OUT_OF_MEMORY}"),
    };
}

/// The exit status that says how a share ended.
pub fn exit(status: ShareStatus) -> ExitCode
    ensures { exit_status result ≡ number_of status }
{
    ExitCode::from(status.number())
}

/// The exit status of a run that did not begin. Also writes its line on standard error.
pub fn refuse<R: Eprint>(rt: &R, fault: WordFault) -> ExitCode
    ensures { exit_status result ≡ word_status fault }
{
    match fault {
        WordFault::NotText => {
            let _ = eprintln!(rt; "gclshare: a word is not UTF-8; {USAGE}");
            exit(ShareStatus::Usage)
        }
        WordFault::NoMemory => {
            let _ = eprintln!(rt; "{OUT_OF_MEMORY}");
            exit(ShareStatus::NoMemory)
        }
    }
}
