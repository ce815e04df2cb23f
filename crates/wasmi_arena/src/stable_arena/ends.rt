//! The last item of a stable arena, its keys and its items apart, and all let go.
ghost use Rattle.std.specs.Prelude.{◌≡◌, ◌-◌, ◌≤◌, [], length, map, option_copied, slice_get};
ghost use Rattle.std.specs.List.{range_with_len};
ghost use Rattle.wasmi_arena.specs.Geometry.{max_len};

use crate::{ArenaKey, ArenaKeys, StableArena, StableVecIter};
use std::alloc::Allocator;
use std::marker::PhantomData;

impl<Key: ArenaKey, T, A: Allocator> StableArena<Key, T, A> {
    /// The last item, if there is one. Constant time.
    pub fn last(&self) -> Option<&T>
        ensures { option_copied result ≡ slice_get self.now (length self.now - 1) }
    {
        self.items.last()
    }

    /// The keys of the items, in order. Constant time for each step.
    ///
    /// The iterator doesn't borrow the arena.
    pub fn keys(&self) -> ArenaKeys<Key>
        ensures keys { result ≡ map Key.keys.key (range_with_len 0 (length self.now)) }
        ensures len { length result ≡ length self.now }
        ensures bound { length self.now ≤ max_len }
    {
        ArenaKeys {
            next: 0,
            left: self.len(),
            keys: PhantomData,
        }
    }

    /// The items, in order. Constant time for each step.
    pub fn values(&self) -> StableVecIter<'_, T, A>
        ensures items { result ≡ self.now }
        ensures bound { length self.now ≤ max_len }
    {
        self.items.iter()
    }

    /// Drops the items, first to last, and closes the buckets. The allocator stays. Linear.
    pub fn clear(&mut self)
    where
        T: Drop,
        ensures { self.new ≡ [] }
    {
        self.items.clear();
    }
}
