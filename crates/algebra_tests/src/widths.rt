ghost use Rattle.std.specs.Prelude.{◌≤◌};
ghost use Rattle.gcl_model.specs.Limits.{address_end};

use crate::compared::same;
use fixed_width::{
    width_count, width_first_end, width_first_start, width_last_end, width_last_start,
};
use gcl_model::{Interval, Span};
use std::process::Abort;

/// The addresses 2 to 7.
const SPAN: Span = Span { first: 2, next: 8 };

/// An access.
#[derive(Clone, Copy, Debug)]
enum Access {
    FirstStart,
    FirstEnd,
    LastEnd,
    LastStart,
}

/// An access, a width, an address, and the interval that is found, if there is one.
const CASES: [(Access, u64, u64, Option<(u64, u64)>); 14] = [
    (Access::FirstStart, 4, 0, Some((2, 5))),
    (Access::FirstStart, 4, 4, Some((4, 7))),
    (Access::FirstStart, 4, 5, None),
    (Access::FirstStart, 4, u64::MAX, None),
    (Access::FirstEnd, 4, 0, Some((2, 5))),
    (Access::FirstEnd, 4, 6, Some((3, 6))),
    (Access::FirstEnd, 4, 8, None),
    (Access::LastEnd, 4, u64::MAX, Some((4, 7))),
    (Access::LastEnd, 4, 6, Some((3, 6))),
    (Access::LastEnd, 4, 4, None),
    (Access::LastStart, 4, u64::MAX, Some((4, 7))),
    (Access::LastStart, 4, 3, Some((3, 6))),
    (Access::LastStart, 4, 1, None),
    // wider than the span
    (Access::FirstStart, 7, 0, None),
];

/// What an access finds at an address.
fn found(access: Access, width: u64, k: u64) -> Option<Interval>
    requires some { 1 ≤ width }
    requires most { width ≤ address_end }
{
    match access {
        Access::FirstStart => width_first_start(width, SPAN, k),
        Access::FirstEnd => width_first_end(width, SPAN, k),
        Access::LastEnd => width_last_end(width, SPAN, k),
        Access::LastStart => width_last_start(width, SPAN, k),
    }
}

/// An access finds this interval, or none.
fn finds<R: Abort>(rt: &R, access: Access, width: u64, k: u64, want: Option<(u64, u64)>) {
    assert!(rt; 1 <= width && width <= 7);
    let got = match found(access, width, k) {
        Some(found) => Some((found.start, found.end)),
        None => None,
    };
    same(rt, &(access, k), &got, &want);
}

#[test]
fn three_intervals_of_four_addresses_lie_in_the_addresses_2_to_7(rt: HostRuntime) {
    for (access, width, k, want) in CASES {
        finds(&rt, access, width, k, want);
    }
}

/// A span has this many intervals of a width.
fn counts<R: Abort>(rt: &R, width: u64, span: Span, want: u64) {
    assert!(rt; 1 <= width);
    same(rt, &width, &width_count(width, span), &want);
}

#[test]
fn of_six_addresses_one_width_less_is_one_interval_more(rt: HostRuntime) {
    for (width, want) in [(1, 6), (4, 3), (6, 1), (7, 0), (1 << 56, 0)] {
        counts(&rt, width, SPAN, want);
    }
    let all = Span {
        first: 0,
        next: 1 << 56,
    };
    counts(&rt, 1, all, 1 << 56);
}
