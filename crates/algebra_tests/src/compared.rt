//! The one comparison that all tests make. An `assert_eq!` in a function of its own takes several times as long to prove as a call of this.
use std::fmt::Debug;
use std::process::Abort;

/// In this case the result is what is expected.
pub(crate) fn same<R: Abort, C: Debug, T: PartialEq + Debug>(rt: &R, case: &C, got: &T, want: &T) {
    assert_eq!(rt; *got, *want, "{case:?}");
}
