//! What `assert_equal!` calls, in this crate.
use std::fmt::Debug;
use std::process::Abort;
use wasmi_vectors::asserts;

/// Ends the test if two values are not equal.
pub fn equal<T: PartialEq + Debug + Drop>(rt: &impl Abort, got: T, want: T) {
    asserts::equal(got, want).expect(rt, "assertion `left == right` failed")
}

/// As [`equal`], and says where.
pub fn equal_at<P: Debug + Drop, T: PartialEq + Debug + Drop>(
    rt: &impl Abort,
    place: P,
    got: T,
    want: T,
) {
    asserts::equal_at(place, got, want).expect(rt, "assertion `left == right` failed")
}
