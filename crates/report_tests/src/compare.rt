//! The comparison of the tests. It stands in a function, so that a test is proved as one straight line, where `assert_eq!` would fork
//! with all that is known at it. Only a test may end the process, so each crate of tests has its own.

use std::fmt::Debug;
use std::process::Abort;

/// Ends the test where the values differ.
pub fn same<T: Drop + PartialEq + Debug>(rt: &impl Abort, found: T, wanted: T) {
    assert_eq!(rt; found, wanted);
}
