//! The comparisons of the tests, in functions of their own: each `assert_eq!` is proved anew where it stands.
use std::fmt::Debug;
use std::process::Abort;

/// Asserts that a value is the one that is wanted.
pub(crate) fn expect_equal<T: Debug + PartialEq>(rt: &impl Abort, found: &T, wanted: &T) {
    assert_eq!(rt; found, wanted);
}

/// Asserts that what a word stands for is what is wanted.
pub(crate) fn expect_at(rt: &impl Abort, word: u32, found: u64, wanted: u64) {
    assert_eq!(rt; found, wanted, "at {word}");
}
