ghost use Rattle.std.specs.Prelude.{◌≡◌};
ghost use Rattle.query_names.specs.declared.fault.NameFault.TheVariants.{NoMemory};
ghost use Rattle.query_names.specs.Faults.{of_names, of_parse};
ghost use Rattle.query_names.specs.declared.fault.DefineFault.TheVariants.{NoMemory as DefineNoMemory};

use gcl_parser::{ParseFault, QueryFault};
use std::alloc::AllocError;

/// Why the names of a query are not put in.
#[derive(Clone, Copy, Debug, PartialEq, Eq)]
pub enum NameFault {
    /// The `$` at this place is not followed by a defined name.
    Unknown(u64),
    /// With the byte or the name at this place the query becomes too long.
    TooLong(u64),
    /// There is no memory for the query.
    NoMemory,
}

/// Why a name is not defined. The definitions are unchanged.
#[derive(Clone, Copy, Debug, PartialEq, Eq)]
pub enum DefineFault {
    /// A name in the text cannot be put in.
    Name(NameFault),
    /// The text, with all names put in, is not a query.
    Query(QueryFault),
    /// There is no memory for the definition.
    NoMemory,
}

impl From<AllocError> for NameFault {
    ghost from_gives = { λ _ fault. fault ≡ NoMemory };

    fn from(_: AllocError) -> Self {
        NameFault::NoMemory
    }
}

impl From<AllocError> for DefineFault {
    ghost from_gives = { λ _ fault. fault ≡ DefineNoMemory };

    fn from(_: AllocError) -> Self {
        DefineFault::NoMemory
    }
}

impl From<NameFault> for DefineFault {
    ghost from_gives = { λ fault answer. answer ≡ of_names fault };

    fn from(fault: NameFault) -> Self {
        match fault {
            NameFault::NoMemory => DefineFault::NoMemory,
            _ => DefineFault::Name(fault),
        }
    }
}

impl From<ParseFault> for DefineFault {
    ghost from_gives = { λ fault answer. answer ≡ of_parse fault };

    fn from(fault: ParseFault) -> Self {
        match fault {
            ParseFault::Query(fault) => DefineFault::Query(fault),
            ParseFault::NoMemory => DefineFault::NoMemory,
        }
    }
}
