//! Items are put into the buckets of a table.
ghost use Rattle.std.specs.Prelude.{◌≡◌, ◌+◌, ◌<◌, ◌≤◌, length, slice_index_or, slice_set, IfSome, IsOk, IsSome, OnOk, OnErr, IsOkUnless, Some, None};
ghost use Rattle.std.specs.List.{All};
ghost use Rattle.std.specs.Mem.{type_size};
ghost use Rattle.std.specs.Iterator.{IsFinite, UpTo, size as count};
ghost use Rattle.std.specs.Option.{ForSome};
ghost use Rattle.wasmi_arena.specs.inner.Apart.{AreOpenApart};
ghost use Rattle.wasmi_arena.specs.Geometry.{size};
ghost use Rattle.wasmi_arena.specs.inner.Growth.{Came};
ghost use Rattle.wasmi_arena.specs.inner.Table.{items_in, bucket_with, FillsBucket};

use crate::geometry::{BUCKETS, bucket_size};
use crate::raw::option::unwrap_mut;
use crate::{ArenaError, Bucket};
use std::alloc::Allocator;

// Puts `value` into the first free slot of an open bucket, in which `free` slots are.
//
// These tell the slot, and not the bucket's length: the push before stored that, so each push would wait for it.
#[inline]
pub(crate) fn fill_next<T, A: Allocator>(
    buckets: &mut [Option<Bucket<T, A>>],
    bucket: usize,
    free: usize,
    value: T,
)
    requires in_table { bucket < length buckets.old }
    requires open { IsSome (slice_index_or buckets.old bucket None) }
    requires capacity { ForSome (slice_index_or buckets.old bucket None)
        (λ b. b.capacity ≡ size bucket) }
    requires free { length (items_in (slice_index_or buckets.old bucket None)) + free ≡ size bucket }
    requires some { 0 < free }
    ensures { buckets.new ≡ slice_set buckets.old bucket
        (bucket_with (size bucket) (slice_index_or buckets.old bucket None) value) }
{
    let open = unwrap_mut(&mut buckets[bucket]);
    let slot = open.capacity() - free;
    open.push(slot, value);
}

// Opens a bucket, and puts `value` into its first slot.
#[cold]
#[inline(never)]
pub(crate) fn open_with<T: Drop, A: Allocator + Clone>(
    buckets: &mut [Option<Bucket<T, A>>],
    bucket: usize,
    alloc: &A,
    value: T,
) -> Result<(), ArenaError>
    requires in_table { bucket < length buckets.old }
    requires exists { bucket < BUCKETS }
    ensures ok { OnOk result (buckets.new ≡ slice_set buckets.old bucket
        (bucket_with (size bucket) None value)) }
    ensures errors { IsOkUnless result ArenaError.OutOfSystemMemory }
    ensures err { OnErr result (buckets.new ≡ buckets.old) }
    ensures without_size { type_size T.row ≡ 0 → A.is_infallible alloc.now → IsOk result }
{
    let capacity = bucket_size(bucket);
    let mut opened = Bucket::open(alloc.clone()?, capacity)?;
    opened.push(0, value);
    buckets[bucket] = Some(opened);
    Ok(())
}

// Opens the buckets from `first` to before `last`, which have no item yet.
pub(crate) fn open_apart<T: Drop, A: Allocator + Clone>(
    buckets: &mut [Option<Bucket<T, A>>],
    first: usize,
    last: usize,
    alloc: &A,
) -> Result<(), ArenaError>
    requires in_table { length buckets.old ≡ BUCKETS }
    requires exist { last ≤ BUCKETS }
    ensures open { OnOk result (AreOpenApart buckets.new first last) }
    ensures errors { IsOkUnless result ArenaError.OutOfSystemMemory }
    ensures without_size { type_size T.row ≡ 0 → A.is_infallible alloc.now → IsOk result }
{
    for bucket in first..last {
        let capacity = bucket_size(bucket);
        buckets[bucket] = Some(Bucket::open(alloc.clone()?, capacity)?);
    }
    Ok(())
}

// Fills `amount` slots of an open bucket with values of `T::default()`, from `place` on, which is its first
// free one.
pub(crate) fn fill_bucket<T: Default, A: Allocator>(
    buckets: &mut [Option<Bucket<T, A>>],
    place: (usize, usize),
    amount: usize,
)
    requires in_table { place.0 < length buckets.old }
    requires open { IsSome (slice_index_or buckets.old place.0 None) }
    requires slot { place.1 ≡ length (items_in (slice_index_or buckets.old place.0 None)) }
    requires free { place.1 + amount ≤ size place.0 }
    requires capacity { ForSome (slice_index_or buckets.old place.0 None)
        (λ b. b.capacity ≡ size place.0) }
    ensures { FillsBucket (All T.is_default) amount place.0 buckets.old buckets.new }
{
    unwrap_mut(&mut buckets[place.0]).push_defaults(place.1, amount);
}

// Moves items into the free slots of an open bucket, from `place` on, which is its first free one. Returns
// how many went in, and the iterator if it may have more.
pub(crate) fn fill_bucket_from<T, A: Allocator, I: Iterator<Item = T>>(
    buckets: &mut [Option<Bucket<T, A>>],
    place: (usize, usize),
    items: I,
) -> (usize, Option<I>)
    requires in_table { place.0 < length buckets.old }
    requires open { IsSome (slice_index_or buckets.old place.0 None) }
    requires slot { place.1 ≡ length (items_in (slice_index_or buckets.old place.0 None)) }
    requires capacity { ForSome (slice_index_or buckets.old place.0 None)
        (λ b. b.capacity ≡ size place.0) }
    requires can { I.can_next items × IsFinite (I.remaining items) }
    ensures items { FillsBucket (Came I.next_gives items result.1) result.0 place.0 buckets.old buckets.new }
    ensures fits { place.1 + result.0 ≤ size place.0 }
    ensures goes { IfSome result.1 (λ rest.
        I.can_next rest × UpTo (I.remaining rest) (count (I.remaining items))) }
{
    unwrap_mut(&mut buckets[place.0]).push_from(place.1, items)
}
