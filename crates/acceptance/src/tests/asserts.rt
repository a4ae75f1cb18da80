//! What ends a test: a function is proved once, and what a macro writes at each place.

use std::alloc::AllocError;
use std::fmt::Debug;
use std::process::Abort;

/// Ends the test where what is reported is not what is wanted.
pub fn same<T: PartialEq + Debug>(rt: &impl Abort, got: &T, wanted: &T) {
    assert_eq!(rt; *got, *wanted);
}

/// The same, for a row, which is named then.
pub fn same_in<T: PartialEq + Debug>(rt: &impl Abort, got: &T, wanted: &T, row: &str) {
    same_at(rt, got, wanted, &row);
}

/// The same, at what is named then.
pub fn same_at<T: PartialEq + Debug, A: Debug>(rt: &impl Abort, got: &T, wanted: &T, at: &A) {
    assert_eq!(rt; *got, *wanted, "at {at:?}");
}

/// The same, of texts.
pub fn same_text(rt: &impl Abort, got: &str, wanted: &str, row: &str) {
    assert_eq!(rt; got, wanted, "in {row}");
}

/// Ends the test where this does not hold.
pub fn holds(rt: &impl Abort, it: bool) {
    assert!(rt; it);
}

/// The same, at what is named then.
pub fn holds_at<A: Debug>(rt: &impl Abort, it: bool, at: &A) {
    assert!(rt; it, "at {at:?}");
}

/// What was made; the test ends where there was no memory for it.
pub fn made<T>(rt: &impl Abort, it: Result<T, AllocError>) -> T {
    it.expect(rt, "memory")
}
