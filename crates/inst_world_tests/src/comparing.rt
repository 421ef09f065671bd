//! Comparisons that end a test.
use std::fmt::{Debug, Display};
use std::process::Abort;
use std::test::Fail;

/// Ends the test if the two differ, and prints both.
pub(crate) fn same<T: PartialEq + Debug + Drop>(rt: &impl Abort, found: T, wanted: T) {
    assert_eq!(rt; found, wanted);
}

/// Ends the test if the two differ, and prints both with the case.
pub(crate) fn same_at<T: PartialEq + Debug + Drop, C: PartialEq + Debug + Drop>(
    rt: &impl Abort,
    case: C,
    found: T,
    wanted: T,
) {
    same(rt, (&case, found), (&case, wanted));
}

/// Checks that the error is printed so.
pub(crate) fn tells(
    rt: &(impl Abort + AllocGlobal),
    error: &impl Display,
    told: &str,
) -> Result<(), Fail> {
    let text = format!(in rt.alloc(); "{error}")?;
    same(rt, text.as_str(), told);
    Ok(())
}
