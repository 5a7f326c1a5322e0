//! The comparisons of the tests. Each stands in a function, so that a test is proved as one straight line, where `assert_eq!` would
//! fork with all that is known at it. Only a test may end the process, so each crate of tests has its own.

ghost use Rattle.std.specs.Prelude.{◌≡◌, true};

use std::fmt::Debug;
use std::process::Abort;

/// Ends the test where the values differ.
pub fn same<T: Drop + PartialEq + Debug>(rt: &impl Abort, found: T, wanted: T)
    ensures { T.eq found wanted ≡ true }
{
    assert_eq!(rt; found, wanted);
}

/// Ends the test where the condition is false.
pub fn holds(rt: &impl Abort, condition: bool)
    ensures { condition ≡ true }
{
    assert!(rt; condition);
}
