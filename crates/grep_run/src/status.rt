ghost use Rattle.std.specs.Prelude.{◌≡◌};
ghost use Rattle.grep_run.specs.Searches.{end_of, is_quiet, number_of};

use crate::outcome::Summary;
use file_answers::Mode;
use gcl_parser::QueryFault;
use query_names::NameFault;

/// How a search ended.
#[derive(Clone, Copy, Debug, PartialEq, Eq)]
pub enum Status {
    /// Some file has an answer, and no file was left out; or nothing is to be written, and a file has one.
    Found,
    /// No file has an answer, and no file was left out.
    NotFound,
    /// Some file could not be loaded or is too long; all others were searched.
    LeftOut,
    /// A name in the query cannot be put in. Nothing was read or written.
    BadName(NameFault),
    /// The text is not a query. Nothing was read or written.
    BadQuery(QueryFault),
    /// The sink failed.
    WriteFault,
    /// There was no memory to go on.
    NoMemory,
}

/// Whether nothing is to be written.
pub(crate) fn is_quiet(mode: Mode) -> bool
    ensures { result ≡ is_quiet mode }
{
    match mode {
        Mode::Quiet => true,
        _ => false,
    }
}

/// The exit status of the program.
pub fn number(status: Status) -> u8
    ensures { result ≡ number_of status }
{
    match status {
        Status::Found => 0,
        Status::NotFound => 1,
        _ => 2,
    }
}

/// How a search that came to its end ended. If nothing is to be written, one answer is enough.
pub(crate) fn end_of(mode: Mode, summary: Summary) -> Status
    ensures { result ≡ end_of mode summary }
{
    if summary.found && is_quiet(mode) {
        return Status::Found;
    }
    if summary.left_out {
        return Status::LeftOut;
    }
    if summary.found {
        Status::Found
    } else {
        Status::NotFound
    }
}
