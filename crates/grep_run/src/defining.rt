ghost use Rattle.std.specs.Prelude.{◌≡◌, ◌≤◌, Ok, IfErr, OnErr, OnOk, length, not, option_map};
ghost use Rattle.std.specs.List.{position_or_len};
ghost use Rattle.grep_run.specs.Definitions.{IsStopOf, defined_by, defined_by_all, is_equals, parts_of, stop_of};

use crate::remarks::Remarks;
use gcl_model::Bytes;
use gcl_parser::QueryFault;
use query_names::{DefineFault, Definitions, NameFault, is_name};
use std::alloc::Global;

/// Why a definition is refused.
#[derive(Clone, Copy, Debug, PartialEq, Eq)]
pub enum DefineRefusal {
    /// It has no `=`, or no name in front of the first `=`.
    NoName,
    /// A name in its text is not defined, or with the names the text is too long.
    Name(NameFault),
    /// Its text, with all names put in, is not a query.
    Query(QueryFault),
}

/// Why a definition was not made.
#[derive(Clone, Copy, Debug, PartialEq, Eq)]
pub enum DefineStop {
    Refused(DefineRefusal),
    /// There was no memory to go on.
    NoMemory,
}

/// The stop that a definition's fault becomes.
fn stop_of(fault: DefineFault) -> DefineStop
    ensures { result ≡ stop_of fault }
{
    match fault {
        DefineFault::Name(fault) => DefineStop::Refused(DefineRefusal::Name(fault)),
        DefineFault::Query(fault) => DefineStop::Refused(DefineRefusal::Query(fault)),
        DefineFault::NoMemory => DefineStop::NoMemory,
    }
}

/// Not `=`.
fn is_no_equals(b: u8) -> bool
    ensures { result ≡ not (is_equals b) }
{
    b != b'='
}

/// How many bytes are in front of the first `=`, or all of them if there is none.
fn front_len(text: &[u8]) -> usize
    ensures value { result ≡ position_or_len is_equals text.now }
    ensures bound { result ≤ length text.now }
{
    text.iter().take_while(|b| is_no_equals(**b)).count()
}

/// The name and the query of `NAME=QUERY`. Returns None if there is no `=`, or no name in front of the first `=`.
pub fn definition_parts(text: &[u8]) -> Option<(&[u8], &[u8])>
    ensures { option_map (λ parts. (parts.0.now, parts.1.now)) result ≡ parts_of text.now }
{
    let (name, rest) = text.split_at(front_len(text));
    match rest {
        [_, query @ ..] if is_name(name) => Some((name, query)),
        _ => None,
    }
}

/// Defines what `NAME=QUERY` says.
fn define(alloc: Global, definitions: &mut Definitions, text: &[u8]) -> Result<(), DefineStop>
    ensures ok { OnOk result (defined_by definitions.old text.now ≡ Ok definitions.new) }
    ensures err { OnErr result (definitions.new ≡ definitions.old) }
    ensures cause { IfErr result (IsStopOf (defined_by definitions.old text.now)) }
{
    let Some((name, query)) = definition_parts(text) else {
        return Err(DefineStop::Refused(DefineRefusal::NoName));
    };
    match definitions.define(alloc, name, query) {
        Ok(()) => Ok(()),
        Err(fault) => Err(stop_of(fault)),
    }
}

/// Makes these definitions in order, up to the first that is refused.
pub(crate) fn define_all<N: Remarks>(
    alloc: Global,
    definitions: &mut Definitions,
    texts: &[Bytes],
    remarks: &mut N,
) -> Result<(), DefineStop>
    ensures ok { OnOk result (defined_by_all definitions.old texts.now ≡ Ok definitions.new) }
    ensures cause { IfErr result (IsStopOf (defined_by_all definitions.old texts.now)) }
{
    for text in texts {
        if let Err(stop) = define(alloc, definitions, text.as_slice()) {
            remarks.define_refused(definitions, text.as_slice(), stop);
            return Err(stop);
        }
    }
    Ok(())
}
