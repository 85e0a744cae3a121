// What the tests compare. Each comparison with its message is in a function of its own here: a body that has several is proved with all of
// them in scope.
use std::fmt::Debug;
use std::process::Abort;

/// What was found is what is expected, in this case.
pub(crate) fn same<R: Abort, C: Debug, T: Debug + PartialEq>(
    rt: &R,
    case: &C,
    found: &T,
    want: &T,
) {
    assert_eq!(rt; *found, *want, "{case:?}");
}

/// This holds, in this case.
pub(crate) fn holds<R: Abort, C: Debug>(rt: &R, case: &C, is_so: bool) {
    assert!(rt; is_so, "{case:?}");
}
