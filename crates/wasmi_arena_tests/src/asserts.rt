//! What `assert_equal!` calls, and its tests: equal values pass, and where they differ it ends a test with a text of
//! both.
use std::fmt::Debug;
use std::process::Abort;
use wasmi_vectors::{assert_equal, asserts};

/// Ends the test if two values are not equal.
pub fn equal<T: PartialEq + Debug + Drop>(rt: &impl Abort, got: T, want: T) {
    asserts::equal(got, want).expect(rt, "assertion `left == right` failed")
}

/// As [`equal`], and says where.
pub fn equal_at<P: Debug + Drop, T: PartialEq + Debug + Drop>(
    rt: &impl Abort,
    place: P,
    got: T,
    want: T,
) {
    asserts::equal_at(place, got, want).expect(rt, "assertion `left == right` failed")
}

#[test]
#[should_panic]
fn values_that_differ_end_the_test(rt: HostRuntime) {
    assert_equal!(rt; 1, 2);
}

#[test]
#[should_panic]
fn values_that_differ_at_a_place_end_the_test(rt: HostRuntime) {
    assert_equal!(rt; "a", "b", at 1);
}

#[test]
fn the_text_has_the_place_and_both_values(rt: HostRuntime) {
    let told = asserts::equal(Some(1), None).err().expect(&rt, "equal");
    let text = format!(in rt.alloc(); "{told:?}").expect(&rt, "");
    assert!(rt; text.as_str() == "\n  left: Some(1)\n right: None");
    let told = asserts::equal_at(7, "a", "b").err().expect(&rt, "equal");
    let text = format!(in rt.alloc(); "{told:?}").expect(&rt, "");
    assert!(rt; text.as_str() == "at 7\n  left: \"a\"\n right: \"b\"");
}
