//! A search over any stable vector.
ghost use Rattle.std.specs.Prelude.{◌≡◌, length, IfOk, None, Some};
ghost use Rattle.std.specs.List.{position};

use std::alloc::Allocator;
use wasmi_arena::{ArenaError, StableVec};
use wasmi_collections::laws::appended_values;

/// The index of the first item that equals `wanted`, if there is one. Linear in that index.
pub fn position_of<T: PartialEq, A: Allocator>(vec: &StableVec<T, A>, wanted: &T) -> Option<usize>
    ensures { result ≡ position (λ x. T.eq x wanted.now) vec.now }
{
    vec.iter().position(|x| x == wanted)
}

/// The index of the first item that `wanted` equals, if there is one. Linear in that index.
pub fn place_of<T: PartialEq, A: Allocator>(vec: &StableVec<T, A>, wanted: &T) -> Option<usize>
    ensures { result ≡ position (T.eq wanted.now) vec.now }
{
    vec.iter().position(|x| wanted == x)
}

/// Puts an item at the end, and returns where it is found. If it wasn't there, that is the end.
pub fn push_and_find<T: Eq + Copy, A: Allocator + Clone>(
    vec: &mut StableVec<T, A>,
    item: T,
) -> Result<Option<usize>, ArenaError>
    ensures { position (T.eq item) vec.old ≡ None
        → IfOk result (λ place. place ≡ Some (length vec.old)) }
{
    appended_values::<T>();
    vec.push(item)?;
    Ok(place_of(vec, &item))
}
