//! Items of a stable vector by their index: one makes way for another, and `vec[index]`.
ghost use Rattle.std.specs.Prelude.{◌≡◌, ◌<◌, ◌≤◌, ◌↔◌, length, IfOk, OnOk, OnErr, IsErrOf, IsOkUnless, slice_get, slice_set, Some};

use crate::{ArenaError, StableVec};
use std::alloc::Allocator;
use std::mem;
use std::ops::{Index, IndexMut};

impl<T, A: Allocator> StableVec<T, A> {
    /// Puts an item at an index in place of the one there, which it returns, or drops it and fails with
    /// `KeyOutOfBounds` if there is none. Constant time.
    pub fn put(&mut self, index: usize, item: T) -> Result<T, ArenaError>
    where
        T: Drop,
        ensures old { IfOk result (λ old. slice_get self.old index ≡ Some old) }
        ensures ok { OnOk result (self.new ≡ slice_set self.old index item) }
        ensures out_of_bounds { IsErrOf result ArenaError.KeyOutOfBounds ↔ (length self.old ≤ index) }
        ensures errors { IsOkUnless result ArenaError.KeyOutOfBounds }
        ensures err { OnErr result (self.new ≡ self.old) }
    {
        if index >= self.len() {
            return Err(ArenaError::KeyOutOfBounds);
        }
        let there = self.item_mut(index);
        Ok(mem::replace(there, item))
    }
}

impl<T, A: Allocator> Index<usize> for StableVec<T, A> {
    ghost use Rattle.std.specs.Prelude.{◌≡◌, ◌<◌, length, slice_get, Some};

    type Output = T;

    // There is an item at the index.
    ghost can_index = { λ vec index. index < length vec };

    ghost index_gives = { λ vec index item. slice_get vec index ≡ Some item };

    fn index(&self, index: usize) -> &T {
        match self.get(index) {
            Some(item) => item,
            None => unreachable!(),
        }
    }
}

impl<T, A: Allocator> IndexMut<usize> for StableVec<T, A> {
    ghost use Rattle.std.specs.Borrow.{sem};
    ghost use Rattle.wasmi_arena.specs.VecLend.{lends_index};

    fn index_mut(&mut self, index: usize) -> &mut T
        requires { index < length self.old }
        ensures* writes_back { sem 𝓛 (lends_index T.row A.row A.Allocator self.entry index result) }
        ensures value { slice_get self.old index ≡ Some result.now }
    {
        self.item_mut(index)
    }
}
