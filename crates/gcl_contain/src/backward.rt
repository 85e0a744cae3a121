ghost use Rattle.std.specs.Prelude.{◌≡◌, ◌<◌, IfSome};
ghost use Rattle.gcl_model.specs.Limits.{far};
ghost use Rattle.gcl_contain.specs.Moves.{
  move_of,
  contained_in_move_back,
  containing_move_back,
  not_containing_move_back,
  not_contained_in_move_back,
  before_move,
};

use crate::turn::Turn;
use gcl_model::Interval;

/// Contained in, backward: `a` is the last member that ends up to the loop's address, and `b` the last of the other
/// list that starts at the start of `a` or before it. At (4, 5) with (1, 3) the loop goes on at 3.
pub fn in_turn_back(a: Interval, b: Option<Interval>) -> Turn
    requires a_below { a.end < far }
    requires b_below { IfSome b (λ b. b.end < far) }
    ensures { move_of result ≡ contained_in_move_back a b }
{
    match b {
        None => Turn::Finish,
        Some(b) if b.end >= a.end => Turn::Accept,
        Some(b) => Turn::GoTo(b.end),
    }
}

/// Containing, backward: `a` is the last member that starts up to the loop's address, and `b` the last of the other
/// list that ends at the end of `a` or before it. At (4, 5) with (2, 4) the loop goes on at 2.
pub fn has_turn_back(a: Interval, b: Option<Interval>) -> Turn
    requires a_below { a.end < far }
    requires b_below { IfSome b (λ b. b.end < far) }
    ensures { move_of result ≡ containing_move_back a b }
{
    match b {
        None => Turn::Finish,
        Some(b) if b.start >= a.start => Turn::Accept,
        Some(b) => Turn::GoTo(b.start),
    }
}

/// Not containing, backward: `a` is the last member that ends up to the loop's address, and `b` the last of the other
/// list that ends at the end of `a` or before it. At (1, 4) with (2, 3) the loop goes on at 2.
pub fn not_has_turn_back(a: Interval, b: Option<Interval>) -> Turn
    requires a_below { a.end < far }
    requires b_below { IfSome b (λ b. b.end < far) }
    ensures { move_of result ≡ not_containing_move_back a b }
{
    match b {
        Some(b) if b.start >= a.start => before(b.end),
        _ => Turn::Accept,
    }
}

/// Not contained in, backward: `a` is the last member that starts up to the loop's address, and `b` the last of the
/// other list that starts at the start of `a` or before it. At (2, 3) with (1, 4) the loop goes on at 0.
pub fn not_in_turn_back(a: Interval, b: Option<Interval>) -> Turn
    requires a_below { a.end < far }
    requires b_below { IfSome b (λ b. b.end < far) }
    ensures { move_of result ≡ not_contained_in_move_back a b }
{
    match b {
        Some(b) if b.end >= a.end => before(b.start),
        _ => Turn::Accept,
    }
}

/// On to the address before this one; nothing lies before 0.
fn before(address: u64) -> Turn
    ensures { move_of result ≡ before_move address }
{
    match address.checked_sub(1) {
        Some(k) => Turn::GoTo(k),
        None => Turn::Finish,
    }
}
