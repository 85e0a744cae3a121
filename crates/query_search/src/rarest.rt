//! How often terms occur in a version.
use gcl_model::Expr;
use live_version::Version;

/// Whether leaping asks terms less often than they have places in all, if there are this many of them. At each place of the rarest term
/// that every member has, it asks each of them about twice. Reading asks each term at all of its own places.
pub fn leaps_well(version: &Version, expr: &Expr, terms: u64) -> bool {
    let most = rarest(version, expr);
    // counting the places of thousands of terms takes as long as asking each of them
    if most == u64::MAX {
        return false;
    }
    most.saturating_add(1)
        .saturating_mul(2)
        .saturating_mul(terms)
        < places(version, expr)
}

/// How many places the rarest of the terms that are in every member has, or `u64::MAX` if no term is certain to be.
#[cycle(rarest)]
fn rarest(version: &Version, expr: &Expr) -> u64 {
    match expr {
        Expr::Term(token) => version.count_of_term(token.as_slice()),
        Expr::Phrase(_) | Expr::Width(_) | Expr::One(_) => u64::MAX,
        Expr::Both(operands) | Expr::Seq(operands) => rarest_of_all(version, operands),
        Expr::Containing(a, b) => rarest(version, a).min(rarest(version, b)),
        Expr::ContainedIn(a, _) | Expr::NotContaining(a, _) | Expr::NotContainedIn(a, _) => {
            rarest(version, a)
        }
    }
}

#[cycle(rarest)]
fn rarest_of_all(version: &Version, operands: &[Expr]) -> u64 {
    let mut least = u64::MAX;
    for operand in operands {
        least = rarest(version, operand).min(least);
    }
    least
}

/// How many places all terms have together.
#[cycle(places)]
fn places(version: &Version, expr: &Expr) -> u64 {
    match expr {
        Expr::Term(token) => version.count_of_term(token.as_slice()),
        Expr::Phrase(_) | Expr::Width(_) => 0,
        Expr::One(operands) | Expr::Both(operands) | Expr::Seq(operands) => {
            places_of_all(version, operands)
        }
        Expr::Containing(a, b)
        | Expr::ContainedIn(a, b)
        | Expr::NotContaining(a, b)
        | Expr::NotContainedIn(a, b) => places(version, a).saturating_add(places(version, b)),
    }
}

#[cycle(places)]
fn places_of_all(version: &Version, operands: &[Expr]) -> u64 {
    let mut all = 0u64;
    for operand in operands {
        all = places(version, operand).saturating_add(all);
    }
    all
}
