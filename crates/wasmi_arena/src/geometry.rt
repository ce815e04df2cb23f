//! Which slot of which bucket an item lies in, in numbers alone.
ghost use Rattle.std.specs.Prelude.{◌≡◌, ◌+◌, ◌<◌, ◌≤◌, ◌↔◌, IsTrue};
ghost use Rattle.wasmi_arena.specs.Geometry.{size, start, max_len, IsPlace, fewest, bucket_of, slot_of};

/// How many buckets a [`StableVec`](crate::StableVec) has at the most.
pub const BUCKETS: usize = 27;

/// How many items a [`StableVec`](crate::StableVec) holds at the most, so that an index below it has a place.
pub const MAX_LEN: usize = 4_294_967_264;

// The bucket and the slot in it of an index.
#[inline]
pub(crate) fn place(index: usize) -> (usize, usize)
    requires { index < max_len }
    ensures place { IsPlace index result.0 result.1 }
    ensures bucket { result.0 ≡ bucket_of index }
    ensures slot { result.1 ≡ slot_of index }
{
    // Bucket b begins at 32 * 2^b, once 32 is added.
    let shifted = index + 32;
    let top = shifted.ilog2() as usize;
    (top - 5, shifted - (1 << top))
}

// How many slots a bucket has.
#[inline]
pub(crate) fn bucket_size(bucket: usize) -> usize
    requires { bucket < BUCKETS }
    ensures { result ≡ size bucket }
{
    32 << bucket
}

// The first index of a bucket.
#[inline]
pub(crate) fn start_of(bucket: usize) -> usize
    requires { bucket ≤ BUCKETS }
    ensures { result ≡ start bucket }
{
    (32 << bucket) - 32
}

// Whether a vector of so many items can have no more. Asked only where no slot is free, so its code stands out of
// line.
#[cold]
#[inline(never)]
pub(crate) fn is_limit(len: usize) -> bool
    ensures { IsTrue result ↔ (max_len ≤ len) }
{
    len >= MAX_LEN
}

// The place of the next item, which is in the last open bucket where that has a free slot.
#[inline]
pub(crate) fn place_in_last(len: usize, open_buckets: usize, slots: usize) -> (usize, usize)
    requires below { len < max_len }
    requires open { open_buckets ≡ fewest len }
    requires slots { slots ≡ start open_buckets }
    requires free { len < slots }
    ensures place { IsPlace len result.0 result.1 }
    ensures last { result.0 + 1 ≡ open_buckets }
{
    // The last bucket has as many slots as those before it, and 32 more.
    (open_buckets - 1, len - (slots - 32) / 2)
}

// How many buckets have room for `len` items.
pub(crate) fn buckets_for(len: usize) -> usize
    requires { len ≤ max_len }
    ensures { result ≡ fewest len }
{
    if len == 0 {
        return 0;
    }
    let (bucket, _) = place(len - 1);
    bucket + 1
}

// How many buckets the items before an index need, which has this place.
// proof: the contract alone reads the index.
pub(crate) fn buckets_before(_index: usize, place: (usize, usize)) -> usize
    requires { IsPlace _index place.0 place.1 }
    ensures { result ≡ fewest _index }
{
    if place.1 == 0 { place.0 } else { place.0 + 1 }
}

// The bucket and the slot of one index, and those of another.
// proof: a call of its own, so that of the two only `ItemsLoan::pair` is proved by hand.
pub(crate) fn two_places(first: usize, second: usize) -> (usize, usize, usize, usize)
    requires first { first < max_len }
    requires second { second < max_len }
    ensures first { IsPlace first result.0 result.1 }
    ensures second { IsPlace second result.2 result.3 }
{
    let (bucket, slot) = place(first);
    let (other_bucket, other_slot) = place(second);
    (bucket, slot, other_bucket, other_slot)
}
