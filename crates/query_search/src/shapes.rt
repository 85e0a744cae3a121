//! Which searches readers answer, and how long the others leap.
ghost use Rattle.std.specs.Prelude.{◌*◌, ◌-◌, ◌≤◌};

use crate::rarest::leaps_well;
use gcl_model::Expr;
use live_version::Version;

// Leaping through this many nested containments is left to readers.
const DEEP: u64 = 4;

// So is "one of" more operands than this.
const FEW: u64 = 3;

// The look-ups that leaping gets for each address: what people ask takes far fewer, and readers need about as many.
const LEAPS: u64 = 4;

// The places of a prefix term are gathered if its expansion is "one of" more words than this.
const WIDE: u64 = 16;

/// How many look-ups leaping is given, before readers go on: none if it may ask again and again what it has asked before.
pub fn leaps_of(version: &Version, expr: &Expr) -> u64
    ensures { result ≤ 4 * (version.now.next - version.now.first) }
{
    if may_search_again(version, expr) {
        return 0;
    }
    let addresses = version.next().saturating_sub(version.first());
    addresses.saturating_mul(LEAPS)
}

/// Whether leaping may ask again and again what it has asked before.
///
/// A containment goes on from turn to turn, and each turn asks its operands. If one of them is a chain that holds a containment, each
/// such question may be a whole search: over a text of `a` alone, that of `("a" + ("a" /< [1])) /< [1]` goes through all words for each
/// word. Nested containments alone do so only if there are many, and else leaping is quicker than reading.
///
/// For each member "one of" asks all its operands anew, and "not containing" and "not contained in" the second one, unless it is the whole
/// query, whose last answers are kept. An operand that is far away is looked for each time: in `("to" + "be or be") ^ "not"` a phrase that
/// never comes, through all words for each `to`. Readers keep the answers, and ask only those operands that were passed.
///
/// Readers also pay if "one of" has more than a few operands, as the expansion of a prefix has. They do not if each member has a rare
/// term: leaping then asks the operands only close to the places of that term, and readers would go through all places between these.
pub fn may_search_again(version: &Version, expr: &Expr) -> bool {
    if may_multiply(expr) || asks_anew(expr) {
        return true;
    }
    let shape = shape_of(expr);
    shape.widest > FEW && !leaps_well(version, expr, shape.leaves)
}

/// Whether a single access may take longer than a merge of whole lists: it goes through the words for each member that a containment goes
/// on to, and each level multiplies that.
pub fn may_multiply(expr: &Expr) -> bool {
    let shape = shape_of(expr);
    shape.asks_a_chain || shape.nesting >= DEEP
}

/// Whether some operator below the topmost one asks again for an operand that may be far away.
fn asks_anew(expr: &Expr) -> bool {
    match expr {
        Expr::One(operands) => shape_of_all(operands).asks_anew,
        Expr::NotContaining(a, b) | Expr::NotContainedIn(a, b) => {
            together(shape_of(a), shape_of(b)).asks_anew
        }
        _ => shape_of(expr).asks_anew,
    }
}

/// Whether some "one of" in it has many operands, as the expansion of a prefix that many words have.
pub fn is_wide(expr: &Expr) -> bool {
    shape_of(expr).widest > WIDE
}

#[derive(Clone, Copy)]
struct Shape {
    // How deep containments are nested at most.
    nesting: u64,
    // Whether some chain holds a containment, and whether some containment has an operand in which one does.
    has_a_chain: bool,
    asks_a_chain: bool,
    // Whether an access to it may pass many places before it finds a member, as that of a phrase or a containment, and whether some
    // operator in it asks such an operand for each member of another operand.
    is_far: bool,
    asks_anew: bool,
    // Of how many operands it is "one of": the operands of a "one of" among them count in its place, and anything else counts as one.
    choices: u64,
    // How many operands a "one of" in it has at most.
    widest: u64,
    // How many terms, phrases and widths it has.
    leaves: u64,
}

/// The shape of several expressions together.
fn together(a: Shape, b: Shape) -> Shape {
    Shape {
        nesting: a.nesting.max(b.nesting),
        has_a_chain: a.has_a_chain || b.has_a_chain,
        asks_a_chain: a.asks_a_chain || b.asks_a_chain,
        is_far: a.is_far || b.is_far,
        asks_anew: a.asks_anew || b.asks_anew,
        choices: a.choices.saturating_add(b.choices),
        widest: a.widest.max(b.widest),
        leaves: a.leaves.saturating_add(b.leaves),
    }
}

/// The shape of this many terms, phrases and widths.
fn plain(leaves: u64) -> Shape {
    Shape {
        nesting: 0,
        has_a_chain: false,
        asks_a_chain: false,
        is_far: false,
        asks_anew: false,
        choices: leaves,
        widest: 0,
        leaves,
    }
}

#[cycle(shape)]
fn shape_of(expr: &Expr) -> Shape {
    match expr {
        Expr::Term(_) | Expr::Width(_) => plain(1),
        Expr::Phrase(_) => Shape {
            is_far: true,
            ..plain(1)
        },
        Expr::One(operands) => {
            let all = shape_of_all(operands);
            Shape {
                has_a_chain: all.nesting > 0,
                asks_anew: all.asks_anew || all.is_far,
                widest: all.widest.max(all.choices),
                ..all
            }
        }
        Expr::Both(operands) | Expr::Seq(operands) => {
            let all = shape_of_all(operands);
            Shape {
                has_a_chain: all.nesting > 0,
                choices: 1,
                ..all
            }
        }
        Expr::Containing(a, b) | Expr::ContainedIn(a, b) => {
            containment(shape_of(a), shape_of(b))
        }
        Expr::NotContaining(a, b) | Expr::NotContainedIn(a, b) => {
            let (first, second) = (shape_of(a), shape_of(b));
            Shape {
                asks_anew: first.asks_anew || second.asks_anew || second.is_far,
                ..containment(first, second)
            }
        }
    }
}

/// The shape of a containment with these operands.
fn containment(first: Shape, second: Shape) -> Shape {
    let all = together(first, second);
    Shape {
        nesting: all.nesting.saturating_add(1),
        asks_a_chain: all.has_a_chain,
        is_far: true,
        choices: 1,
        ..all
    }
}

#[cycle(shape)]
fn shape_of_all(operands: &[Expr]) -> Shape {
    let mut all = plain(0);
    for operand in operands {
        all = together(all, shape_of(operand));
    }
    all
}
