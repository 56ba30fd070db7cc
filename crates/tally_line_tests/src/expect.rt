//! What the tests assert, in two functions: each `assert!` is proved anew where it stands.
use std::process::Abort;

/// Asserts what is said to hold.
pub(crate) fn expect_that(rt: &impl Abort, what: &str, holds: bool) {
    assert!(rt; holds, "{what}");
}

/// The value, where it could be made.
pub(crate) fn made<T, E: Drop>(rt: &impl Abort, value: Result<T, E>) -> T {
    match value {
        Ok(value) => value,
        Err(_) => panic!(rt; "could not be made"),
    }
}
