//! Assertions as calls of one function each. An assertion with a message is some thirty steps of a proof, which each test
//! would have; the call is one.
use std::fmt::Debug;
use std::process::Abort;

/// Asserts that what was found is what is wanted. A failure tells both, and where it was.
pub fn assert_found<T: PartialEq + Debug + Drop, P: Debug + Drop>(
    rt: &impl Abort,
    found: T,
    wanted: T,
    place: P,
) {
    assert_eq!(rt; found, wanted, "{place:?}");
}

/// Asserts that something holds. A failure tells where it doesn't.
pub fn assert_holds<P: Debug + Drop>(rt: &impl Abort, holds: bool, place: P) {
    assert!(rt; holds, "{place:?}");
}
