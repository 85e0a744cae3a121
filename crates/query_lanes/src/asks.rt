ghost use Rattle.std.specs.Prelude.{IfOk};
ghost use Rattle.gcl_model.specs.FormOf.{form_of};
ghost use Rattle.gcl_model.specs.WellFormed.{IsWellFormed};
ghost use Rattle.query_lanes.specs.WellFormedOnce.{query-prop};

use gcl_model::Expr;
use gcl_parser::QueryFault;
use live_version::Version;
use query_search::{Listing, PAGE, look_ups_of};
use std::sync::Arc;

/// What a query asks of the concordance list of its expression.
#[derive(Clone, Copy, Debug, PartialEq, Eq)]
pub enum Asked {
    /// All members.
    All,
    /// The first members, this many, or all if there are fewer.
    First(u64),
    /// How many members there are.
    Number,
}

/// A query of a batch. One that is refused keeps its place among the others, and is answered by its fault.
#[derive(Drop)]
pub struct Ask {
    /// Which query of the run it is, counted from 1: the gate knows it by this number.
    pub number: u64,
    /// What it asks of the list.
    pub asked: Asked,
    /// Its expression, or why it has none.
    pub query: Result<Arc<Expr>, QueryFault>,
    ghost well_formed: { IfOk query (λ expr. IsWellFormed (form_of expr.value)) } by { query-prop query },
}

impl Ask {
    /// About how many look-ups a lane needs to answer it over a version. Of a list it finds only the first page.
    pub(crate) fn look_ups(&self, version: &Version) -> u64 {
        if !self.takes_a_walk() {
            return 0;
        }
        let Ok(expr) = &self.query else {
            return 0;
        };
        let most = match self.asked {
            Asked::All => PAGE,
            Asked::First(most) => most.min(PAGE),
            Asked::Number => u64::MAX,
        };
        look_ups_of(version, expr, most)
    }

    /// Whether its answer takes a walk. The number of members of a term, or of "one of" several terms, is that of their postings, and a
    /// fault is already known.
    fn takes_a_walk(&self) -> bool {
        let Ok(expr) = &self.query else {
            return false;
        };
        match (self.asked, &**expr) {
            (Asked::Number, Expr::Term(_)) => false,
            (Asked::Number, Expr::One(operands)) => {
                operands
                    .iter()
                    .any(|operand| !matches!(operand, Expr::Term(_)))
            }
            _ => true,
        }
    }
}

/// The answer to a query.
#[derive(Drop)]
pub enum Found {
    /// The members that it asks for.
    List(Listing),
    /// How many members its list has.
    Total(u64),
    /// It was refused.
    Refused(QueryFault),
}
