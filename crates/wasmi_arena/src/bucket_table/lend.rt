//! Items of an open bucket are lent.
ghost use Rattle.std.specs.Prelude.{◌≡◌, ◌<◌, length, slice_get, IsSome, Some};
ghost use Rattle.std.specs.Borrow.{sem};
ghost use Rattle.wasmi_arena.specs.inner.Table.{items_in};
ghost use Rattle.wasmi_arena.specs.inner.TableLend.{lends_slot, lends_filled};

use crate::Bucket;
use crate::raw::option::unwrap_mut;
use std::alloc::Allocator;

// The item in a filled slot of an open bucket, to write to.
// proof: a call of its own, so that what it lends is said once.
pub(crate) fn slot_mut<T, A: Allocator>(bucket: &mut Option<Bucket<T, A>>, slot: usize) -> &mut T
    requires { slot < length (items_in bucket.old) }
    ensures* writes_back { sem 𝓛 (lends_slot T.row A.row A.Allocator bucket.entry slot result) }
    ensures value { slice_get (items_in bucket.old) slot ≡ Some result.now }
{
    unwrap_mut(bucket).item_mut(slot)
}

// The items of an open bucket, to write to.
// proof: as above.
pub(crate) fn items_mut<T, A: Allocator>(bucket: &mut Option<Bucket<T, A>>) -> &mut [T]
    requires { IsSome bucket.old }
    ensures* writes_back { sem 𝓛 (lends_filled T.row A.row A.Allocator bucket.entry result) }
    ensures value { result.now ≡ items_in bucket.old }
{
    unwrap_mut(bucket).slice_mut()
}
