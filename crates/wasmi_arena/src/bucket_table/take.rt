//! Items and buckets are taken out of a table.
ghost use Rattle.std.specs.Prelude.{◌≡◌, ◌+◌, ◌<◌, length, slice_get, slice_index_or, slice_set, IsSome, Some, None};
ghost use Rattle.wasmi_arena.specs.inner.Table.{items_in, bucket_cut};

use crate::Bucket;
use crate::raw::option::unwrap_mut;
use std::alloc::Allocator;

// Takes an open bucket out of a table.
pub(crate) fn take_bucket<T, A: Allocator>(
    buckets: &mut [Option<Bucket<T, A>>],
    bucket: usize,
) -> Bucket<T, A>
    requires in_table { bucket < length buckets.old }
    requires open { IsSome (slice_index_or buckets.old bucket None) }
    ensures taken { slice_index_or buckets.old bucket None ≡ Some result }
    ensures rest { buckets.new ≡ slice_set buckets.old bucket None }
{
    match buckets[bucket].take() {
        Some(taken) => taken,
        None => unreachable!(),
    }
}

// Takes the item out of the last filled slot of an open bucket, which is closed if it was the only one.
pub(crate) fn pop_from<T: Drop, A: Allocator>(
    buckets: &mut [Option<Bucket<T, A>>],
    place: (usize, usize),
) -> T
    requires in_table { place.0 < length buckets.old }
    requires last { length (items_in (slice_index_or buckets.old place.0 None)) ≡ place.1 + 1 }
    ensures bucket { buckets.new ≡ slice_set buckets.old place.0
        (bucket_cut (slice_index_or buckets.old place.0 None) place.1) }
    ensures item { slice_get (items_in (slice_index_or buckets.old place.0 None)) place.1 ≡ Some result }
{
    if place.1 == 0 {
        let mut emptied = take_bucket(buckets, place.0);
        emptied.pop(0)
    } else {
        unwrap_mut(&mut buckets[place.0]).pop(place.1)
    }
}
