//! The table of a stable vector's buckets.
ghost use Rattle.std.specs.Prelude.{◌≡◌, ℕ, ◌<◌, length, slice_index_or, None};
ghost use Rattle.std.specs.Borrow.{sem};
ghost use Rattle.wasmi_arena.specs.inner.TableLend.{lends_bucket};

pub(crate) mod fill;
pub(crate) mod lend;
pub(crate) mod take;

use crate::Bucket;
use std::alloc::Allocator;
use std::array;

/// `N` buckets, each open or not, in the value itself.
#[derive(Drop)]
pub struct BucketTable<T, A: Allocator, const N: usize> {
    pub(crate) buckets: [Option<Bucket<T, A>>; N],
}

impl<T, A: Allocator, const N: usize> BucketTable<T, A, N> {
    // A table of closed buckets.
    #[inline]
    pub(crate) fn new() -> Self
        ensures long { length result.buckets ≡ N }
        ensures closed { (bucket : ℕ) → bucket < length result.buckets → slice_index_or result.buckets bucket None ≡ None }
    {
        BucketTable {
            buckets: array::from_fn(|_| None),
        }
    }

    // A bucket, to write to.
    pub(crate) fn bucket_mut(&mut self, bucket: usize) -> &mut Option<Bucket<T, A>>
        requires { bucket < N }
        ensures* writes_back { sem 𝓛 (lends_bucket T.row A.row N.row A.Allocator self.entry bucket result) }
        ensures value { slice_index_or self.old.buckets bucket None ≡ result.now }
    {
        &mut self.buckets[bucket]
    }
}
