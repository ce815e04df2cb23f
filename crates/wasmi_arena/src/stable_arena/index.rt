//! Items of a stable arena by their key: one makes way for another, and `arena[key]`.
ghost use Rattle.std.specs.Prelude.{◌≡◌, ◌<◌, ◌≤◌, ◌↔◌, length, IfOk, OnOk, OnErr, IsErrOf, IsOkUnless, slice_get, slice_set, Some};

use crate::{ArenaError, ArenaKey, StableArena};
use std::alloc::Allocator;
use std::mem;
use std::ops::{Index, IndexMut};

impl<Key: ArenaKey, T, A: Allocator> StableArena<Key, T, A> {
    /// Puts an item under a key in place of the one there, which it returns, or drops it and fails with
    /// `KeyOutOfBounds` if there is none. Constant time.
    pub fn put(&mut self, key: Key, item: T) -> Result<T, ArenaError>
    where
        T: Drop,
        ensures old { IfOk result (λ old. slice_get self.old (Key.keys.number key) ≡ Some old) }
        ensures ok { OnOk result (self.new ≡ slice_set self.old (Key.keys.number key) item) }
        ensures out_of_bounds { IsErrOf result ArenaError.KeyOutOfBounds
            ↔ (length self.old ≤ Key.keys.number key) }
        ensures errors { IsOkUnless result ArenaError.KeyOutOfBounds }
        ensures err { OnErr result (self.new ≡ self.old) }
    {
        let there = self.get_mut(key)?;
        Ok(mem::replace(there, item))
    }
}

impl<Key: ArenaKey, T, A: Allocator> Index<Key> for StableArena<Key, T, A> {
    ghost use Rattle.std.specs.Prelude.{◌≡◌, ◌<◌, length, slice_get, Some};

    type Output = T;

    // The key reads an item.
    ghost can_index = { λ arena key. Key.keys.number key < length arena };

    ghost index_gives = { λ arena key item. slice_get arena (Key.keys.number key) ≡ Some item };

    fn index(&self, key: Key) -> &T {
        match self.get(key) {
            Ok(item) => item,
            Err(_) => unreachable!(),
        }
    }
}

impl<Key: ArenaKey, T, A: Allocator> IndexMut<Key> for StableArena<Key, T, A> {
    ghost use Rattle.std.specs.Borrow.{sem};
    ghost use Rattle.wasmi_arena.specs.ArenaLend.{lends_item};

    fn index_mut(&mut self, key: Key) -> &mut T
        requires { Key.keys.number key < length self.old }
        ensures* writes_back { sem 𝓛 (lends_item Key.row T.row A.row Key.ArenaKey A.Allocator self.entry key result) }
        ensures value { slice_get self.old (Key.keys.number key) ≡ Some result.now }
    {
        self.items.item_mut(key.into_usize())
    }
}
