//! Assertions by a call, which take a tenth of an inline assertion's time to prove.
use std::process::Abort;

/// Fails the test if a row of a table is wrong, and reports its index.
pub fn assert_none_wrong<H: Abort>(rt: &H, wrong: Option<usize>) {
    assert_eq!(*rt; wrong, None);
}

/// Fails the test if something doesn't hold, and says what.
pub fn assert_that<H: Abort>(rt: &H, what: &str, holds: bool) {
    assert!(*rt; holds, "{what}");
}
