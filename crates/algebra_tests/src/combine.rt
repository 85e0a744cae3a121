use crate::compared::same;
use gcl_combine::{
    both_backward_end, both_backward_start, both_forward_end, both_forward_start, one_backward,
    one_forward,
};
use gcl_model::Interval;
use std::process::Abort;

/// Next to 3 an answer gives this end or start.
fn gives<R: Abort>(rt: &R, part: &str, answer: Interval, got: u64, want: u64) {
    same(rt, &(part, answer), &got, &want);
}

#[test]
fn both_of_takes_the_greater_end_and_the_lesser_start(rt: HostRuntime) {
    for (start, end, greater, lesser) in [(1, 4, 4, 1), (2, 9, 9, 2), (7, 7, 7, 3)] {
        let answer = Interval::new(start, end);
        gives(&rt, "end", answer, both_forward_end(3, answer), greater);
        gives(&rt, "start", answer, both_forward_start(3, answer), lesser);
        gives(&rt, "start", answer, both_backward_start(3, answer), lesser);
        gives(&rt, "end", answer, both_backward_end(3, answer), greater);
    }
}

/// Of two answers, if there are any, this one is taken.
fn takes<R: Abort>(
    rt: &R,
    best: Option<Interval>,
    answer: Option<Interval>,
    got: Option<Interval>,
    want: Option<Interval>,
) {
    same(rt, &(best, answer), &got, &want);
}

/// Of two answers each way takes this one.
fn both_take<R: Abort>(rt: &R, best: Interval, answer: Interval, want: Interval) {
    let forward = one_forward(Some(best), Some(answer));
    takes(rt, Some(best), Some(answer), forward, Some(want));
    let backward = one_backward(Some(best), Some(answer));
    takes(rt, Some(best), Some(answer), backward, Some(want));
}

#[test]
fn a_tie_goes_to_the_shorter_answer(rt: HostRuntime) {
    let wide = Interval::new(1, 4);
    let late = Interval::new(2, 4);
    let short = Interval::new(1, 3);
    both_take(&rt, wide, late, late);
    both_take(&rt, late, wide, late);
    both_take(&rt, wide, short, short);
    both_take(&rt, short, wide, short);
}

/// If there is only one answer, this is taken.
fn is_taken<R: Abort>(rt: &R, got: Option<Interval>, want: Option<Interval>) {
    same(rt, &"with none", &got, &want);
}

#[test]
fn none_gives_way_to_any_answer(rt: HostRuntime) {
    let answer = Interval::new(3, 5);
    for got in [
        one_forward(None, Some(answer)),
        one_forward(Some(answer), None),
        one_backward(None, Some(answer)),
        one_backward(Some(answer), None),
    ] {
        is_taken(&rt, got, Some(answer));
    }
    is_taken(&rt, one_forward(None, None), None);
    is_taken(&rt, one_backward(None, None), None);
}
