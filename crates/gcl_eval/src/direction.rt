ghost use Rattle.std.specs.Prelude.{◌≡◌, ◌<◌, [], MatchOption, IfSome};
ghost use Rattle.gcl_model.specs.Limits.{address_end, far};
ghost use Rattle.gcl_model.specs.Directions.{near_access, far_access, opposite, farther, IsAsFar, between, far_side};
ghost use Rattle.gcl_combine.specs.Directions.{better};
ghost use Rattle.gcl_eval.specs.Directions.{access_of, direction_of, beside, beyond, join, CanJoin, reaches, outside, resume};

use gcl_combine::{both_backward_start, both_forward_end, one_backward, one_forward};
use gcl_model::{Direction, Expr, Interval, Span};
use gcl_order::{after, before, seq_join};

/// One of the four accesses of a list.
#[derive(Clone, Copy)]
pub(crate) enum Access {
    FirstStart,
    FirstEnd,
    LastEnd,
    LastStart,
}

impl Access {
    /// Forward for the first member at or after a position, backward for the last up to it.
    #[inline(always)]
    pub(crate) fn direction(self) -> Direction
        ensures { result ≡ direction_of self }
    {
        match self {
            Access::FirstStart | Access::FirstEnd => Direction::Forward,
            Access::LastEnd | Access::LastStart => Direction::Backward,
        }
    }
}

#[inline(always)]
pub(crate) fn opposite(direction: Direction) -> Direction
    ensures { result ≡ opposite direction }
{
    match direction {
        Direction::Forward => Direction::Backward,
        Direction::Backward => Direction::Forward,
    }
}

/// The access of an operand that a chain asks.
#[inline(always)]
pub(crate) fn access_by_near_sides(direction: Direction) -> Access
    ensures { access_of result ≡ near_access direction }
{
    match direction {
        Direction::Forward => Access::FirstStart,
        Direction::Backward => Access::LastEnd,
    }
}

/// The access of the last operand of "followed by" that its access by the far sides asks.
#[inline(always)]
pub(crate) fn access_by_far_sides(direction: Direction) -> Access
    ensures { access_of result ≡ far_access direction }
{
    match direction {
        Direction::Forward => Access::FirstEnd,
        Direction::Backward => Access::LastStart,
    }
}

/// The operand that comes next, and the others.
#[inline(always)]
pub(crate) fn next_operand(direction: Direction, operands: &[Expr]) -> Option<(&Expr, &[Expr])>
    ensures { MatchOption result (operands.now ≡ []) (λ p. operands.now ≡ beside direction p.0.now p.1.now) }
{
    match direction {
        Direction::Forward => operands.split_first(),
        Direction::Backward => operands.split_last(),
    }
}

/// The farther of the place so far and the far side of the answer.
#[inline(always)]
pub(crate) fn farther(direction: Direction, so_far: u64, answer: Interval) -> u64
    ensures { result ≡ farther direction so_far (far_side direction answer) }
{
    match direction {
        Direction::Forward => both_forward_end(so_far, answer),
        Direction::Backward => both_backward_start(so_far, answer),
    }
}

#[inline(always)]
pub(crate) fn between(direction: Direction, near: u64, far: u64) -> Interval
    requires { IsAsFar direction near far }
    ensures { result ≡ between direction near far }
{
    match direction {
        Direction::Forward => Interval::new(near, far),
        Direction::Backward => Interval::new(far, near),
    }
}

/// The better of two answers of "one of".
#[inline]
pub(crate) fn better(
    direction: Direction,
    best: Option<Interval>,
    answer: Option<Interval>,
) -> Option<Interval>
    ensures { result ≡ better direction best answer }
{
    match direction {
        Direction::Forward => one_forward(best, answer),
        Direction::Backward => one_backward(best, answer),
    }
}

/// Where the next operand of "followed by" is asked, if anywhere.
#[inline(always)]
pub(crate) fn beyond(direction: Direction, answer: Interval) -> Option<u64>
    requires { answer.end < address_end }
    ensures value { result ≡ beyond direction answer }
    ensures below { IfSome result (λ k. k < far) }
{
    match direction {
        Direction::Forward => Some(after(answer)),
        Direction::Backward => before(answer),
    }
}

#[inline(always)]
pub(crate) fn join(direction: Direction, near: Interval, far: Interval) -> Interval
    requires { CanJoin direction near far }
    ensures { result ≡ join direction near far }
{
    match direction {
        Direction::Forward => seq_join(near, far),
        Direction::Backward => seq_join(far, near),
    }
}

/// Whether the far side of the answer lies at `k` or beyond.
#[inline(always)]
pub(crate) fn reaches(direction: Direction, k: u64, answer: Interval) -> bool
    ensures { result ≡ reaches direction k answer }
{
    match direction {
        Direction::Forward => k <= answer.end,
        Direction::Backward => answer.start <= k,
    }
}

/// Where the nearest member that the access of the other form passes over is looked for, if anywhere.
#[inline(always)]
pub(crate) fn outside(direction: Direction, span: Span, k: u64) -> Option<u64>
    requires { k < far }
    ensures value { result ≡ outside direction span.next k }
    ensures below { IfSome result (λ k. k < far) }
{
    match direction {
        Direction::Forward => k.checked_sub(1),
        Direction::Backward => { if k < span.next { Some(k + 1) } else { None } }
    }
}

/// Where the access of the other form goes on, past that member or from the span's edge.
#[inline(always)]
pub(crate) fn resume(direction: Direction, span: Span, passed: Option<Interval>) -> Option<u64>
    requires { IfSome passed (λ a. a.end < address_end) }
    ensures value { result ≡ resume direction span.first span.next passed }
    ensures below { IfSome result (λ k. k < far) }
{
    match (direction, passed) {
        (Direction::Forward, None) => Some(span.first),
        (Direction::Forward, Some(passed)) => Some(passed.start + 1),
        (Direction::Backward, None) => span.next.checked_sub(1),
        (Direction::Backward, Some(passed)) => passed.end.checked_sub(1),
    }
}
