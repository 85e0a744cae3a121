ghost use Rattle.std.specs.Prelude.{◌≡◌, ◌<◌, IfSome};
ghost use Rattle.gcl_model.specs.Limits.{far};
ghost use Rattle.gcl_contain.specs.Moves.{move_of, containing_move, contained_in_move, not_containing_move, not_contained_in_move};

use crate::turn::Turn;
use gcl_model::Interval;

/// Contained in: `a` is the first member that starts at or after the loop's address, and `b` the first of the other
/// list that ends at the end of `a` or after it. At (1, 2) with (3, 5) the loop goes on at 3.
pub fn in_turn(a: Interval, b: Option<Interval>) -> Turn
    requires a_below { a.end < far }
    requires b_below { IfSome b (λ b. b.end < far) }
    ensures { move_of result ≡ contained_in_move a b }
{
    match b {
        None => Turn::Finish,
        Some(b) if b.start <= a.start => Turn::Accept,
        Some(b) => Turn::GoTo(b.start),
    }
}

/// Containing: `a` is the first member that ends at or after the loop's address, and `b` the first of the other list
/// that starts at the start of `a` or after it. At (1, 2) with (2, 4) the loop goes on at 4.
pub fn has_turn(a: Interval, b: Option<Interval>) -> Turn
    requires a_below { a.end < far }
    requires b_below { IfSome b (λ b. b.end < far) }
    ensures { move_of result ≡ containing_move a b }
{
    match b {
        None => Turn::Finish,
        Some(b) if b.end <= a.end => Turn::Accept,
        Some(b) => Turn::GoTo(b.end),
    }
}

/// Not containing: `a` is the first member that starts at or after the loop's address, and `b` the first of the other
/// list that starts at the start of `a` or after it. At (1, 4) with (2, 3) the loop goes on at 3.
pub fn not_has_turn(a: Interval, b: Option<Interval>) -> Turn
    requires a_below { a.end < far }
    requires b_below { IfSome b (λ b. b.end < far) }
    ensures { move_of result ≡ not_containing_move a b }
{
    match b {
        Some(b) if b.end <= a.end => Turn::GoTo(b.start + 1),
        _ => Turn::Accept,
    }
}

/// Not contained in: `a` is the first member that ends at or after the loop's address, and `b` the first of the other
/// list that ends at the end of `a` or after it. At (2, 3) with (1, 4) the loop goes on at 5.
pub fn not_in_turn(a: Interval, b: Option<Interval>) -> Turn
    requires a_below { a.end < far }
    requires b_below { IfSome b (λ b. b.end < far) }
    ensures { move_of result ≡ not_contained_in_move a b }
{
    match b {
        Some(b) if b.start <= a.start => Turn::GoTo(b.end + 1),
        _ => Turn::Accept,
    }
}
