//! How a test looks at a row of a table: a failure names the row, what came, and what was wanted.
use std::fmt::{Debug, Display};
use std::process::Abort;

/// Fails where the two differ, and says the row and both.
pub(crate) fn equal<T: PartialEq + Debug>(
    rt: &impl Abort,
    row: &impl Display,
    got: &T,
    wanted: &T,
) {
    assert!(rt; got == wanted, "{row}: {got:?}, where {wanted:?} is wanted");
}

/// Fails where it does not hold, and says the row.
pub(crate) fn holds(rt: &impl Abort, row: &impl Display, it: bool) {
    assert!(rt; it, "{row}");
}
