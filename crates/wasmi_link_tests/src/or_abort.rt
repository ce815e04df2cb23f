//! What a call of a test returns where it succeeds. Only a test may end the process, so no library has this.
ghost use Rattle.std.specs.Prelude.{◌≡◌, Ok};

use std::fmt::Debug;
use std::process::Abort;

/// Results of the calls of a test.
pub trait OrAbort {
    type Value;

    // Relates a result to its value.
    ghost gives: { Self → Self.Value → Type 0 };

    /// The value, or the test ends and prints the error. A `?` there drops what lives on a way of its own,
    /// and each way is proved.
    fn or_abort<R: Abort>(self, rt: &R) -> Self::Value
        ensures { gives self result };
}

impl<T, E: Debug> OrAbort for Result<T, E> {
    type Value = T;

    ghost gives = { λ made value. made ≡ Ok value };

    fn or_abort<R: Abort>(self, rt: &R) -> T {
        self.expect(rt, "a call failed")
    }
}
