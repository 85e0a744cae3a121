ghost use Rattle.std.specs.Prelude.{◌≡◌, ◌↔◌, ◌+◌, ◌<◌, ◌≤◌, IsNone};
ghost use Rattle.gcl_model.specs.Limits.{far};
ghost use Rattle.gcl_order.specs.Walks.{address_before, joined};

use gcl_model::Interval;

/// The address after the answer: where the next operand may start.
pub fn after(answer: Interval) -> u64
    requires { answer.end < far }
    ensures { result ≡ answer.end + 1 }
{
    answer.end + 1
}

/// The address before the answer: where the operand before may end.
pub fn before(answer: Interval) -> Option<u64>
    ensures value { result ≡ address_before answer.start }
    ensures none { IsNone result ↔ (answer.start ≡ 0) }
{
    answer.start.checked_sub(1)
}

/// From the start of the first operand's answer to the end of the last's. Of (1, 2) and (6, 7) it is (1, 7).
pub fn seq_join(head: Interval, tail: Interval) -> Interval
    requires { head.start ≤ tail.end }
    ensures { result ≡ joined head tail }
{
    Interval::new(head.start, tail.end)
}
