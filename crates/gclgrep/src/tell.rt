use crate::notes::{tell_missing, tell_nested, tell_notes};
use file_answers::Mode;
use gcl_parser::QueryFault;
use grep_run::{
    DefineRefusal, DefineStop, Outcome, Query, Remarks, Status, Tally, definition_parts,
};
use grep_words::SearchWords;
use query_names::{Definitions, NameFault, put_in};
use std::alloc::Global;

/// Writes one line on standard error.
pub fn say<R: Eprint>(rt: &R, line: &str) {
    let _ = eprintln!(rt; "{line}");
}

/// Says on standard error which files were left out, which definition or query is refused, and what may be wrong with a query.
#[derive(Drop)]
pub struct Says<'a, R> {
    rt: &'a R,
    alloc: Global,
    messages: bool,
    // the first answer ends the search
    quiet: bool,
    // some file was searched, and some file has an answer
    searched: bool,
    found: bool,
}

impl<'a, R> Says<'a, R> {
    /// Says all, unless the words ask for silence.
    pub fn new(rt: &'a R, alloc: Global) -> Self {
        Says {
            rt,
            alloc,
            messages: true,
            quiet: false,
            searched: false,
            found: false,
        }
    }
}

impl<'a, R: Eprint> Remarks for Says<'a, R> {
    fn begins(&mut self, words: &SearchWords) {
        self.messages = words.messages;
        self.quiet = words.mode == Mode::Quiet;
    }

    fn visited(&mut self, name: &[u8], outcome: Outcome) {
        let why = match outcome {
            Outcome::Failed =>
                "cannot be read: see that it is a file that is there and may be read",
            Outcome::TooLong => "has more than 67108864 bytes: cut it",
            Outcome::Found => {
                self.searched = true;
                self.found = true;
                return;
            }
            Outcome::NotFound => {
                self.searched = true;
                return;
            }
        };
        if !self.messages {
            return;
        }
        let _ = match str::from_utf8(name) {
            Ok("-") => eprintln!(self.rt; "gclgrep: (standard input): {why}"),
            Ok(name) => eprintln!(self.rt; "gclgrep: {name}: {why}"),
            Err(_) => eprintln!(self.rt; "gclgrep: a file {why}"),
        };
    }

    fn define_refused(&mut self, definitions: &Definitions, text: &[u8], stop: DefineStop) {
        let (name, query) = definition_parts(text).unwrap_or((text, text));
        let name = str::from_utf8(name).unwrap_or("?");
        match stop {
            DefineStop::Refused(DefineRefusal::NoName) => {
                let _ = eprintln!(self.rt;
                    "gclgrep: {name}: a definition is NAME=QUERY, and a name is letters, digits and _ behind a letter"
                );
            }
            DefineStop::Refused(DefineRefusal::Name(fault)) => tell_name(
                self.rt, name, query, fault,
            ),
            DefineStop::Refused(DefineRefusal::Query(fault)) => {
                if let Ok(whole) = put_in(self.alloc, definitions, query) {
                    tell_query(self.rt, name, whole.as_slice(), fault);
                }
            }
            DefineStop::NoMemory => say(self.rt, "gclgrep: out of memory"),
        }
    }

    fn counted(&mut self, tally: &Tally, status: Status) {
        if !self.messages || !came_to_its_end(status) || !self.searched {
            return;
        }
        if !self.found {
            tell_missing(self.rt, tally);
        }
        if !self.quiet {
            tell_nested(self.rt, tally);
        }
    }

    fn ended(&mut self, query: &Query<'_>, status: Status) {
        if let Status::BadName(fault) = status {
            tell_name(self.rt, "", query.text, fault);
            return;
        }
        let Ok(whole) = put_in(self.alloc, query.definitions, query.text) else {
            return;
        };
        match status {
            Status::BadQuery(fault) => tell_query(self.rt, "", whole.as_slice(), fault),
            _ if self.messages && came_to_its_end(status) => tell_notes(self.rt, whole.as_slice()),
            _ => {}
        }
    }
}

/// Whether all files were visited, or enough of them to know that there is an answer.
fn came_to_its_end(status: Status) -> bool {
    matches!(status, Status::Found | Status::NotFound | Status::LeftOut)
}

/// How many characters are in front of a place in a text.
fn chars_before(text: &str, at: u64) -> u64 {
    let mut count = 0u64;
    for (place, _) in text.char_indices() {
        if (place as u64) < at {
            count = count.saturating_add(1);
        }
    }
    count
}

/// Shows a text with a caret below a place in it. A control character is shown as a space.
fn show<R: Eprint>(rt: &R, text: &[u8], at: u64) {
    let Ok(text) = str::from_utf8(text) else {
        return;
    };
    let _ = eprint!(rt; "  ");
    for c in text.chars() {
        let c = if c.is_control() { ' ' } else { c };
        let _ = eprint!(rt; "{c}");
    }
    let _ = eprint!(rt; "\n  ");
    for _i in 0..chars_before(text, at) {
        let _ = eprint!(rt; " ");
    }
    let _ = eprintln!(rt; "^");
}

/// Begins a line about a query: `gclgrep: `, and the name of the definition whose text it is, if there is one.
fn begin<R: Eprint>(rt: &R, whose: &str) {
    let _ = eprint!(rt; "gclgrep: ");
    if !whose.is_empty() {
        let _ = eprint!(rt; "${whose}: ");
    }
}

/// Says what is wrong with the names in a query. `whose` is the name that it defines, or empty.
fn tell_name<R: Eprint>(rt: &R, whose: &str, text: &[u8], fault: NameFault) {
    match fault {
        NameFault::Unknown(at) => {
            begin(rt, whose);
            let _ = eprintln!(rt; "query at {at}: unknown name");
            show(rt, text, at);
        }
        NameFault::TooLong(at) => {
            begin(rt, whose);
            let _ = eprintln!(rt; "query at {at}: more than 65536 bytes");
        }
        NameFault::NoMemory => say(rt, "gclgrep: out of memory"),
    }
}

/// Says what is wrong with a query in which all names are put in.
fn tell_query<R: Eprint>(rt: &R, whose: &str, text: &[u8], fault: QueryFault) {
    begin(rt, whose);
    let _ = eprintln!(rt; "query at {}: {}", fault.at, fault.kind);
    show(rt, text, fault.at);
}
