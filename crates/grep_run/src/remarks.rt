use crate::asked::Query;
use crate::defining::DefineStop;
use crate::outcome::Outcome;
use crate::status::Status;
use crate::tally::Tally;
use grep_words::SearchWords;
use query_names::Definitions;

/// Receives what became of each file, and which definition or query is refused, for messages. It returns nothing.
pub trait Remarks {
    /// The words ask for this search.
    fn begins(&mut self, words: &SearchWords);

    /// The file of this name was visited.
    fn visited(&mut self, name: &[u8], outcome: Outcome);

    /// The definition `NAME=QUERY` was not made. `definitions` are the ones made before it.
    fn define_refused(&mut self, definitions: &Definitions, text: &[u8], stop: DefineStop);

    /// The search ended with this status. `tally` has what the searched files have of what the query names.
    fn counted(&mut self, tally: &Tally, status: Status);

    /// The search for this query ended with this status.
    fn ended(&mut self, query: &Query<'_>, status: Status);
}

/// Ignores all remarks.
#[derive(Clone, Copy, Debug)]
pub struct NoRemarks;

impl Remarks for NoRemarks {
    fn begins(&mut self, _words: &SearchWords) {}

    fn visited(&mut self, _name: &[u8], _outcome: Outcome) {}

    fn define_refused(&mut self, _definitions: &Definitions, _text: &[u8], _stop: DefineStop) {}

    fn counted(&mut self, _tally: &Tally, _status: Status) {}

    fn ended(&mut self, _query: &Query<'_>, _status: Status) {}
}
