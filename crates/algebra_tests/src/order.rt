use crate::compared::same;
use gcl_model::Interval;
use gcl_order::{after, before, seq_join};
use std::process::Abort;

/// What follows this interval starts here.
fn is_after<R: Abort>(rt: &R, answer: Interval, start: u64) {
    assert!(rt; answer.end <= 5);
    same(rt, &answer, &after(answer), &start);
}

/// What comes before this interval ends here.
fn is_before<R: Abort>(rt: &R, answer: Interval, end: Option<u64>) {
    same(rt, &answer, &before(answer), &end);
}

/// Both together are this interval.
fn joins<R: Abort>(rt: &R, head: Interval, tail: Interval, want: Interval) {
    assert!(rt; head.start <= tail.end);
    same(rt, &(head, tail), &seq_join(head, tail), &want);
}

#[test]
fn followed_by_starts_after_the_end(rt: HostRuntime) {
    is_after(&rt, Interval::new(4, 5), 6);
    is_before(&rt, Interval::new(4, 5), Some(3));
    is_before(&rt, Interval::new(1, 5), Some(0));
    is_before(&rt, Interval::new(0, 5), None);
    let (head, tail) = (Interval::new(1, 2), Interval::new(6, 7));
    joins(&rt, head, tail, Interval::new(1, 7));
}
