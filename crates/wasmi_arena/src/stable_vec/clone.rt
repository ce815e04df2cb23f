//! Clones of a stable vector.
ghost use Rattle.std.specs.Prelude.{◌≡◌, [], IfOk, IsOk, IsOkUnless};
ghost use Rattle.std.specs.List.{All, AllZip};
ghost use Rattle.std.specs.Mem.{type_size};

use crate::geometry::bucket_size;
use crate::{ArenaError, Bucket, StableVec};
use std::alloc::Allocator;

impl<T: Clone, A: Allocator> StableVec<T, A> {
    /// A clone of each item, in order, in a vector over a clone of the allocator. Linear.
    ///
    /// Fails with `OutOfSystemMemory` if there is no memory for a bucket, or the clone of an item or of
    /// the allocator fails.
    pub fn clone(&self) -> Result<Self, ArenaError>
    where
        A: Clone,
        ensures items { IfOk result (AllZip T.is_clone self.now) }
        ensures errors { IsOkUnless result ArenaError.OutOfSystemMemory }
        ensures without_size { type_size T.row ≡ 0 → All T.is_infallible self.now
            → ((a : A) → A.is_infallible a) → IsOk result }
        ensures empty { self.now ≡ [] → ((a : A) → A.is_infallible a) → IsOk result }
    {
        self.clone_in(self.alloc.clone()?)
    }

    /// A clone of each item, in order, in a vector over `alloc`. Linear.
    ///
    /// Fails with `OutOfSystemMemory` if there is no memory for a bucket, or the clone of an item or of
    /// the allocator fails.
    pub fn clone_in<B: Allocator + Clone>(&self, alloc: B) -> Result<StableVec<T, B>, ArenaError>
        ensures items { IfOk result (AllZip T.is_clone self.now) }
        ensures errors { IsOkUnless result ArenaError.OutOfSystemMemory }
        ensures without_size { type_size T.row ≡ 0 → All T.is_infallible self.now
            → ((b : B) → B.is_infallible b) → IsOk result }
        ensures empty { self.now ≡ [] → IsOk result }
    {
        let mut made = StableVec::new(alloc);
        for part in self.slices() {
            let capacity = bucket_size(made.open_buckets());
            let mut next = Bucket::open(made.alloc.clone()?, capacity)?;
            next.push_clones(part)?;
            made.append_bucket(next, part.len());
        }
        Ok(made)
    }
}
