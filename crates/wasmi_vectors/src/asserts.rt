//! Assertions of tests as calls: `assert_equal!` says what the standard library's `assert_eq!`
//! says, and a test that uses it is proved several times as fast.
//!
//! `assert_eq!` writes a comparison, a branch and the text of a failure into the test, and each is
//! proved there again, at the types of that line. `assert_equal!` is one call without a result.
ghost use Rattle.std.specs.Prelude.{◌↔◌, IsOk, IsTrue};

use core::fmt::InlineText;
use std::fmt::{self, Debug, Display, Formatter, Write};

/// Two values that are not equal, as the text that a failed assertion prints. A text of more than 480
/// bytes is cut, and ends in dots.
#[derive(Drop)]
pub struct Differ {
    text: InlineText<480>,
}

impl Debug for Differ {
    fn fmt<W: Write>(&self, f: &mut Formatter<W>) -> fmt::Result {
        f.write_str(self.text.as_str())
    }
}

/// Fails with the text of both values if they are not equal.
pub fn equal<T: PartialEq + Debug + Drop>(got: T, want: T) -> Result<(), Differ>
    ensures { IsOk result ↔ IsTrue (T.eq got want) }
{
    if got == want {
        Ok(())
    } else {
        Err(unequal("", got, want))
    }
}

/// As [`equal`], and the text says where, such as at which turn of a loop.
pub fn equal_at<P: Debug + Drop, T: PartialEq + Debug + Drop>(
    place: P,
    got: T,
    want: T,
) -> Result<(), Differ>
    ensures { IsOk result ↔ IsTrue (T.eq got want) }
{
    if got == want {
        Ok(())
    } else {
        Err(unequal(format_args!("at {place:?}"), got, want))
    }
}

fn unequal<D: Display + Drop, T: Debug + Drop>(place: D, got: T, want: T) -> Differ {
    Differ {
        text: InlineText::of(format_args!("{place}\n  left: {got:?}\n right: {want:?}")),
    }
}

/// Ends the test if two values are not equal, and prints both, as `assert_eq!` does. It takes the
/// values, which a line with `&` keeps. A value behind `at` says where; a text in its place would be formatted
/// in the test, and that proved at each line.
///
/// It calls `equal` or `equal_at` of the module `asserts` of the crate that it is written in: a library
/// may not end the process.
///
/// ```text
/// assert_equal!(rt; vec.len(), 3);
/// assert_equal!(rt; &vec, &copy, at turn);
/// ```
#[macro_export]
macro_rules! assert_equal {
    ($rt:expr; $got:expr, $want:expr $(,)?) => {
        crate::asserts::equal(&$rt, $got, $want)
    };
    ($rt:expr; $got:expr, $want:expr, at $place:expr $(,)?) => {
        crate::asserts::equal_at(&$rt, $place, $got, $want)
    };
}
