use gcl_model::Expr;
use standing_query::{NoWatch, WatchFault, WatchList};
use std::process::Abort;
use std::test::Fail;

/// No test continues from a greater number.
const MOST: u64 = 1 << 62;

#[derive(Clone, Copy, Debug)]
enum Step {
    Add(Result<u64, WatchFault>),
    Remove(u64, Result<(), NoWatch>),
}

/// Watches a query of this width.
fn added(list: &mut WatchList, width: u64) -> Result<u64, WatchFault> {
    if list.next_id() >= MOST {
        return Err(WatchFault::NoMemory);
    }
    list.add(Expr::Width(width))
}

fn does<R: Abort>(rt: &R, list: &mut WatchList, step: Step) {
    match step {
        Step::Add(want) => assert_eq!(rt; added(list, 1), want, "{step:?}"),
        Step::Remove(id, want) => assert_eq!(rt; list.remove(id), want, "{step:?}"),
    }
}

#[test]
fn numbers_rise_and_are_not_given_again(rt: HostRuntime) -> Result<(), Fail> {
    let mut list = WatchList::new(rt.alloc());
    let steps = [
        Step::Remove(0, Err(NoWatch { id: 0 })),
        Step::Add(Ok(0)),
        Step::Add(Ok(1)),
        Step::Remove(0, Ok(())),
        Step::Remove(0, Err(NoWatch { id: 0 })),
        Step::Add(Ok(2)),
    ];
    for step in steps {
        does(&rt, &mut list, step);
    }
    assert_eq!(rt; list.len(), 2, "1 and 2 are live");
    Ok(())
}

#[test]
fn the_seventeenth_watch_is_refused(rt: HostRuntime) -> Result<(), Fail> {
    let mut list = WatchList::new(rt.alloc());
    for number in 0..16u64 {
        does(&rt, &mut list, Step::Add(Ok(number)));
    }
    does(&rt, &mut list, Step::Add(Err(WatchFault::Full(16))));
    does(&rt, &mut list, Step::Remove(7, Ok(())));
    does(&rt, &mut list, Step::Add(Ok(16)));
    Ok(())
}
