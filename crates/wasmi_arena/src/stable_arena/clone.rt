//! Clones of a stable arena.
ghost use Rattle.std.specs.Prelude.{◌≡◌, [], IfOk, IsOk, IsOkUnless};
ghost use Rattle.std.specs.List.{All, AllZip};
ghost use Rattle.std.specs.Mem.{type_size};

use crate::{ArenaError, ArenaKey, StableArena};
use std::alloc::Allocator;
use std::marker::PhantomData;

impl<Key: ArenaKey, T: Clone, A: Allocator> StableArena<Key, T, A> {
    /// A clone of each item, under its key, in an arena over a clone of the allocator. Linear.
    ///
    /// Fails with `OutOfSystemMemory` if there is no memory for a bucket, or the clone of an item or of
    /// the allocator fails.
    pub fn clone(&self) -> Result<Self, ArenaError>
    where
        A: Clone,
        ensures items { IfOk result (AllZip T.is_clone self.now) }
        ensures errors { IsOkUnless result ArenaError.OutOfSystemMemory }
        ensures without_size { type_size T.row ≡ 0 → All T.is_infallible self.now
            → ((a : A) → A.is_infallible a) → IsOk result }
        ensures empty { self.now ≡ [] → ((a : A) → A.is_infallible a) → IsOk result }
    {
        Ok(StableArena {
            items: self.items.clone()?,
            keys: PhantomData,
        })
    }

    /// A clone of each item, under its key, in an arena over `alloc`. Linear.
    ///
    /// Fails with `OutOfSystemMemory` if there is no memory for a bucket, or the clone of an item or of
    /// the allocator fails.
    pub fn clone_in<B: Allocator + Clone>(
        &self,
        alloc: B,
    ) -> Result<StableArena<Key, T, B>, ArenaError>
        ensures items { IfOk result (AllZip T.is_clone self.now) }
        ensures errors { IsOkUnless result ArenaError.OutOfSystemMemory }
        ensures without_size { type_size T.row ≡ 0 → All T.is_infallible self.now
            → ((b : B) → B.is_infallible b) → IsOk result }
        ensures empty { self.now ≡ [] → IsOk result }
    {
        Ok(StableArena {
            items: self.items.clone_in(alloc)?,
            keys: PhantomData,
        })
    }
}
