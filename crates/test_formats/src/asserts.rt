//! Assertions on tables and on the texts of values.
use std::alloc::Global;
use std::fmt::Display;
use std::process::Abort;

/// Fails the test if a row of a table is wrong, and reports its index.
pub fn assert_none_wrong<H: Abort>(rt: &H, wrong: Option<usize>) {
    assert_eq!(*rt; wrong, None);
}

/// Whether a value is shown by this text.
pub fn is_shown<D: Display>(alloc: Global, value: &D, text: &str) -> bool {
    match format!(in alloc; "{value}") {
        Ok(shown) => shown.as_str() == text,
        Err(_) => false,
    }
}

/// Whether a text ends in a fault's number and name.
pub fn ends_in(alloc: Global, number: u8, name: &str, text: &str) -> bool {
    match format!(in alloc; "({number} {name})") {
        Ok(end) => text.ends_with(end.as_str()),
        Err(_) => false,
    }
}
