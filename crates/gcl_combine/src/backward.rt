ghost use Rattle.std.specs.Prelude.{◌≡◌, ◌↔◌, min, max, IsNone, IfSome, Some};
ghost use Rattle.gcl_combine.specs.Better.{nearer_back, IsAmong, IsLastToStart};

use gcl_model::Interval;

/// Going backward: the lesser of the start so far and the answer's start.
pub fn both_backward_start(so_far: u64, answer: Interval) -> u64
    ensures { result ≡ min so_far answer.start }
{
    so_far.min(answer.start)
}

/// On from that start: the greater of the end so far and the answer's end.
pub fn both_backward_end(so_far: u64, answer: Interval) -> u64
    ensures { result ≡ max so_far answer.end }
{
    so_far.max(answer.end)
}

/// The answer of greatest start, and of the lesser end on a tie. Of (1, 4) and (1, 6) it is (1, 4).
pub fn one_backward(best: Option<Interval>, answer: Option<Interval>) -> Option<Interval>
    ensures value { result ≡ nearer_back best answer }
    ensures none { IsNone result ↔ (IsNone best × IsNone answer) }
    ensures among { IfSome result (IsAmong best answer) }
    ensures last { IfSome result (IsLastToStart best answer) }
{
    match (best, answer) {
        (None, other) => other,
        (other, None) => other,
        (Some(best), Some(answer)) => Some(last_to_start(best, answer)),
    }
}

fn last_to_start(a: Interval, b: Interval) -> Interval
    ensures { Some result ≡ nearer_back (Some a) (Some b) }
{
    if b.start < a.start {
        a
    } else if a.start < b.start {
        b
    } else if b.end < a.end {
        b
    } else {
        a
    }
}
