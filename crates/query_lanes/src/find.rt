ghost use Rattle.std.specs.Prelude.{◌≡◌, map, IfOk};
ghost use Rattle.gcl_model.specs.FormOf.{form_of};
ghost use Rattle.gcl_model.specs.WellFormed.{IsWellFormed};
ghost use Rattle.gcl_model.specs.Wide.{wide};
ghost use Rattle.live_version.specs.Contents.{VersionContent, version_text};
ghost use Rattle.manifest_publish.specs.Histories.{IsLatest};
ghost use Rattle.query_lanes.specs.Answers.{answer_in, found_in};

use crate::asks::{Ask, Asked, Found};
use collection::Engine;
use gcl_model::Expr;
use manifest_publish::Pass;
use outside::Gate;
use query_search::{Listing, Search};
use std::alloc::{AllocError, Global};
use std::sync::Arc;

/// What is asked of the list of an expression over a pass.
pub fn find(alloc: Global, pass: Pass, asked: Asked, expr: &Arc<Expr>) -> Result<Found, AllocError>
    requires { IsWellFormed (form_of expr.now.value) }
    ensures { (v : VersionContent) → IsLatest pass.history v →
        IfOk result (λ found. found ≡ found_in asked (wide (version_text v) (form_of expr.now.value))) }
{
    let mut search = Search::of(alloc, pass, Arc::try_clone(expr)?)?;
    let most = match asked {
        Asked::All => u64::MAX,
        Asked::First(most) => most,
        Asked::Number => {
            let total = search.count();
            // dropped by name: at the end of its block this takes long to prove
            drop(search);
            return Ok(Found::Total(total));
        }
    };
    let listing = Listing::of(alloc, search, most)?;
    Ok(Found::List(listing))
}

/// Answers a query on the engine's own pass.
pub fn answer_alone(alloc: Global, engine: &Engine, ask: &Ask) -> Result<Found, AllocError>
    ensures { IfOk result (λ found. found ≡ answer_in (version_text engine.now.version) ask.now) }
{
    match &ask.query {
        Ok(expr) => {
            let pass = engine.pass()?;
            let found = find(alloc, pass, ask.asked, expr)?;
            Ok(found)
        }
        Err(fault) => Ok(Found::Refused(*fault)),
    }
}

/// Answers all queries that way, in their order. The gate is notified of each query, but of no answer: only answers of lanes count.
pub fn answer_all<G: Gate>(
    alloc: Global,
    gate: &G,
    engine: &Engine,
    asks: &[Ask],
) -> Result<Vec<Found>, AllocError>
    ensures { IfOk result (λ answers. answers.items ≡ map (answer_in (version_text engine.now.version)) asks.now) }
{
    let mut answers = Vec::with_capacity(alloc, asks.len())?;
    for ask in asks {
        gate.before_query(ask.number);
        let found = answer_alone(alloc, engine, ask)?;
        answers.push(found)?;
    }
    Ok(answers)
}
