//! The value of an `Option` that has one. It lies behind the tag, which isn't read.
ghost use Rattle.std.specs.Prelude.{◌≡◌, IsSome, Some};
ghost use Rattle.std.specs.Borrow.{sem};
ghost use Rattle.wasmi_arena.specs.inner.OptionLend.{lends_value};

use std::mem::align_of;

// The value. Constant time.
#[inline]
pub(crate) fn unwrap_ref<T>(option: &Option<T>) -> &T
    requires { IsSome option.now }
    ensures { option.now ≡ Some result.now }
{
    unsafe { &*behind_tag!(option as *const Option<T>, const, T) }
}

// The value, to write to. Constant time.
#[inline]
pub(crate) fn unwrap_mut<T>(option: &mut Option<T>) -> &mut T
    requires { IsSome option.old }
    ensures* writes_back { sem 𝓛 (lends_value T.row option.entry result) }
    ensures value { option.old ≡ Some result.now }
{
    unsafe { &mut *behind_tag!(option as *mut Option<T>, mut, T) }
}
