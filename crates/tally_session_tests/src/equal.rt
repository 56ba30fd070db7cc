//! The comparison of the tests, in one function: each `assert_eq!` is proved anew where it stands.
use std::fmt::Debug;
use std::process::Abort;

/// Asserts that a value is the one that is wanted.
pub(crate) fn expect_equal<T: Debug + PartialEq>(rt: &impl Abort, found: &T, wanted: &T) {
    assert_eq!(rt; found, wanted);
}
