//! Comparisons for tests.
use std::fmt::Debug;
use std::process::Abort;

/// Fails the test, and prints both values, unless they are equal.
pub(crate) fn same<T: PartialEq + Debug + Drop>(rt: &impl Abort, found: T, wanted: T) {
    assert_eq!(rt; found, wanted);
}

/// Fails the test, and prints the case and both values, unless they are equal.
pub(crate) fn same_at<T: PartialEq + Debug + Drop, C: PartialEq + Debug + Drop>(
    rt: &impl Abort,
    case: C,
    found: T,
    wanted: T,
) {
    same(rt, (&case, found), (&case, wanted));
}
