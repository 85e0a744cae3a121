ghost use Rattle.std.specs.Prelude.{◌≡◌, ◌↔◌, min, max, IsNone, IfSome, Some};
ghost use Rattle.gcl_combine.specs.Better.{nearer, IsAmong, IsFirstToEnd};

use gcl_model::Interval;

/// Going forward: the greater of the end so far and the answer's end.
pub fn both_forward_end(so_far: u64, answer: Interval) -> u64
    ensures { result ≡ max so_far answer.end }
{
    so_far.max(answer.end)
}

/// Back from that end: the lesser of the start so far and the answer's start.
pub fn both_forward_start(so_far: u64, answer: Interval) -> u64
    ensures { result ≡ min so_far answer.start }
{
    so_far.min(answer.start)
}

/// The answer of least end, and of the greater start on a tie. Of (1, 4) and (2, 4) it is (2, 4).
pub fn one_forward(best: Option<Interval>, answer: Option<Interval>) -> Option<Interval>
    ensures value { result ≡ nearer best answer }
    ensures none { IsNone result ↔ (IsNone best × IsNone answer) }
    ensures among { IfSome result (IsAmong best answer) }
    ensures first { IfSome result (IsFirstToEnd best answer) }
{
    match (best, answer) {
        (None, other) => other,
        (other, None) => other,
        (Some(best), Some(answer)) => Some(first_to_end(best, answer)),
    }
}

fn first_to_end(a: Interval, b: Interval) -> Interval
    ensures { Some result ≡ nearer (Some a) (Some b) }
{
    if a.end < b.end {
        a
    } else if b.end < a.end {
        b
    } else if a.start < b.start {
        b
    } else {
        a
    }
}
