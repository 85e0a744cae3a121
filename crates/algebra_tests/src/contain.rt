ghost use Rattle.std.specs.Prelude.{◌<◌, IfSome};
ghost use Rattle.gcl_model.specs.Limits.{far};

use crate::compared::same;
use gcl_contain::{
    Turn, has_turn, has_turn_back, in_turn, in_turn_back, not_has_turn, not_has_turn_back,
    not_in_turn, not_in_turn_back,
};
use gcl_model::Interval;
use std::process::Abort;

/// The containments.
#[derive(Clone, Copy, Debug)]
enum Kind {
    In,
    Has,
    NotIn,
    NotHas,
}

/// A containment, the name of a case, the answer of the second operand, and the turn at (2, 5).
type Row = (Kind, &'static str, Option<(u64, u64)>, Turn);

const FORWARD: [Row; 12] = [
    (Kind::In, "none", None, Turn::Finish),
    (Kind::In, "around", Some((2, 6)), Turn::Accept),
    (Kind::In, "later", Some((3, 6)), Turn::GoTo(3)),
    (Kind::Has, "none", None, Turn::Finish),
    (Kind::Has, "inside", Some((2, 5)), Turn::Accept),
    (Kind::Has, "too long", Some((4, 6)), Turn::GoTo(6)),
    (Kind::NotHas, "none", None, Turn::Accept),
    (Kind::NotHas, "too long", Some((4, 6)), Turn::Accept),
    (Kind::NotHas, "inside", Some((3, 5)), Turn::GoTo(4)),
    (Kind::NotIn, "none", None, Turn::Accept),
    (Kind::NotIn, "later", Some((3, 6)), Turn::Accept),
    (Kind::NotIn, "around", Some((2, 6)), Turn::GoTo(7)),
];

const BACKWARD: [Row; 13] = [
    (Kind::In, "none", None, Turn::Finish),
    (Kind::In, "around", Some((1, 5)), Turn::Accept),
    (Kind::In, "earlier", Some((1, 4)), Turn::GoTo(4)),
    (Kind::Has, "none", None, Turn::Finish),
    (Kind::Has, "inside", Some((2, 5)), Turn::Accept),
    (Kind::Has, "too long", Some((1, 3)), Turn::GoTo(1)),
    (Kind::NotHas, "none", None, Turn::Accept),
    (Kind::NotHas, "too long", Some((1, 3)), Turn::Accept),
    (Kind::NotHas, "inside", Some((2, 4)), Turn::GoTo(3)),
    (Kind::NotIn, "none", None, Turn::Accept),
    (Kind::NotIn, "earlier", Some((1, 4)), Turn::Accept),
    (Kind::NotIn, "around", Some((1, 5)), Turn::GoTo(0)),
    (Kind::NotIn, "from 0 on", Some((0, 5)), Turn::Finish),
];

/// An answer of these addresses, or none.
fn answer_of<R: Abort>(rt: &R, ends: Option<(u64, u64)>) -> Option<Interval>
    ensures { IfSome result (λ answer. answer.end < far) }
{
    let (start, end) = ends?;
    assert!(rt; start <= end && end < 100);
    Some(Interval::new(start, end))
}

/// The turn forward at (2, 5).
fn turn(kind: Kind, answer: Option<Interval>) -> Turn
    requires { IfSome answer (λ answer. answer.end < far) }
{
    let a = Interval::new(2, 5);
    match kind {
        Kind::In => in_turn(a, answer),
        Kind::Has => has_turn(a, answer),
        Kind::NotIn => not_in_turn(a, answer),
        Kind::NotHas => not_has_turn(a, answer),
    }
}

/// The turn backward at (2, 5).
fn turn_back(kind: Kind, answer: Option<Interval>) -> Turn
    requires { IfSome answer (λ answer. answer.end < far) }
{
    let a = Interval::new(2, 5);
    match kind {
        Kind::In => in_turn_back(a, answer),
        Kind::Has => has_turn_back(a, answer),
        Kind::NotIn => not_in_turn_back(a, answer),
        Kind::NotHas => not_has_turn_back(a, answer),
    }
}

/// A turn is that of the row.
fn is_turn<R: Abort>(rt: &R, turn: Turn, (kind, name, _, want): Row) {
    same(rt, &(kind, name), &turn, &want);
}

#[test]
fn a_turn_forward_accepts_goes_on_or_finishes(rt: HostRuntime) {
    for row in FORWARD {
        is_turn(&rt, turn(row.0, answer_of(&rt, row.2)), row);
    }
}

#[test]
fn a_turn_backward_accepts_goes_on_or_finishes(rt: HostRuntime) {
    for row in BACKWARD {
        is_turn(&rt, turn_back(row.0, answer_of(&rt, row.2)), row);
    }
}
