ghost use Rattle.std.specs.Prelude.{◌≡◌};
ghost use Rattle.gcl_parser.specs.Refusal.{refused};

use crate::fault::{QueryFault, QueryKind};
use crate::scan::next_placed;
use crate::state::State;

/// The first fault of a text. It allocates nothing, and reads the text once.
pub fn refusal(text: &[u8]) -> Option<QueryFault>
    ensures { result ≡ refused text.now }
{
    let mut state = State::start();
    let mut at = 0;
    while let Some(placed) = next_placed(text, at) {
        match state.pass(placed.token) {
            Ok(next) => state = next,
            Err(kind) => return Some(fault(placed.at, kind)),
        }
        at = placed.end;
    }
    match state.fault_at_end() {
        None => None,
        Some(kind) => Some(fault(text.len(), kind)),
    }
}

fn fault(at: usize, kind: QueryKind) -> QueryFault
    ensures { result ≡ record { at = at; kind = kind } }
{
    QueryFault {
        at: at as u64,
        kind,
    }
}
