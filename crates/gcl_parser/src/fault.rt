ghost use Rattle.std.specs.Prelude.{◌≡◌};
ghost use Rattle.gcl_parser.specs.declared.fault.ParseFault.TheVariants.{NoMemory};

use std::alloc::AllocError;
use thiserror::Error;

/// What is wrong at a place of a text that is no query.
#[derive(Clone, Copy, Debug, PartialEq, Eq, Error)]
pub enum QueryKind {
    /// An operand is expected here.
    #[error("operand expected")]
    OperandExpected,
    /// An operator is expected here, or a `)` that closes an open bracket.
    #[error("operator or close expected")]
    OperatorOrCloseExpected,
    /// The quoted text has no token.
    #[error("empty term")]
    EmptyTerm,
    /// The quoted text has a `*` right after it, and is not one word: it has several tokens, or its token is a tag.
    #[error("bad prefix")]
    BadPrefix,
    /// A `[` is not followed by digits and `]`, or the number is 0 or above 2^56.
    #[error("bad width")]
    BadWidth,
    /// A `"` has no later `"`.
    #[error("open quote")]
    OpenQuote,
    /// No query token begins with this byte.
    #[error("character")]
    Character,
    /// 256 quoted texts and widths come before this one.
    #[error("too large")]
    TooLarge,
    /// 12 brackets are open before this one.
    #[error("too deep")]
    TooDeep,
}

/// The first place at which a text is no query.
#[derive(Clone, Copy, Debug, PartialEq, Eq, Error)]
#[error("query at {at}: {kind}")]
pub struct QueryFault {
    /// The place, in bytes from 0; the length of the text if it ends too early.
    pub at: u64,
    /// What is wrong there.
    pub kind: QueryKind,
}

/// Why `parse` gives no expression.
#[derive(Debug, Drop, Error)]
pub enum ParseFault {
    /// The text is no query within the limits.
    #[error("{0}")]
    Query(QueryFault),
    /// There is not enough memory for the expression.
    #[error("out of memory")]
    NoMemory,
}

impl From<AllocError> for ParseFault {
    ghost from_gives = { λ _ fault. fault ≡ NoMemory };

    fn from(_error: AllocError) -> Self {
        ParseFault::NoMemory
    }
}
