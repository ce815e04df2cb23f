//! An arena whose items stay in their slots.
ghost use Rattle.std.specs.Prelude.{◌≡◌, ◌≢◌, ◌<◌, ◌≤◌, ◌==◌, ◌↔◌, ◌⊎◌, [], ◌∷◌, ◌++◌, length, IfOk, IfErr, OnOk, OnErr, IsErrOf, IsOk, IsOkUnless, IsTrue, slice_get, Some};
ghost use Rattle.std.specs.List.{swap};
ghost use Rattle.std.specs.Mem.{type_size};
ghost use Rattle.wasmi_arena.specs.Geometry.{max_len, room};
ghost use Rattle.wasmi_arena.specs.Arena.{stable_limit};
ghost use Rattle.wasmi_arena.specs.Entries.{entries};

mod any;
mod clone;
mod compared;
mod ends;
mod grow;
mod index;
mod into_iter;
mod iter;
mod iter_mut;
mod pairs;

use crate::{ArenaError, ArenaKey, StableVec, StableVecIterMut};
pub use into_iter::StableArenaIntoIter;
pub use iter::StableArenaIter;
pub use iter_mut::StableArenaIterMut;
use std::alloc::{Allocator, Global};
use std::marker::{Model, PhantomData};

/// A list of items, each under the key of its position.
///
/// It is kept in a [`StableVec`], so adding items never moves one; `swap` and `put` do. At most
/// 4,294,967,264 items go in, and at most as many as there are keys.
#[derive(Drop)]
pub struct StableArena<Key: ArenaKey, T, A: Allocator = Global> {
    pub(crate) items: StableVec<T, A>,
    keys: PhantomData<Key>,
}

impl<Key: ArenaKey, T, A: Allocator> Model for StableArena<Key, T, A> {
    ghost use Rattle.std.specs.Prelude.{List, ◌≤◌, length};

    ghost Value = { List T };

    ghost use Rattle.wasmi_arena.specs.Arena.{stable_limit};

    ghost view = { λ arena. arena.items };

    // Each position has a key.
    ghost invariant = { λ arena. length arena.items ≤ stable_limit Key.keys };
}

impl<Key: ArenaKey, T, A: Allocator> StableArena<Key, T, A> {
    ghost use Rattle.std.specs.Borrow.{sem};
    ghost use Rattle.wasmi_arena.specs.ArenaLend.{lends_get, lends_items};
    ghost use Rattle.wasmi_arena.specs.IterMut.{left, loan_of, KeepsLength};

    /// An empty arena, which clones `alloc` for each bucket that is opened. Constant time, no allocation.
    pub fn new(alloc: A) -> Self
        ensures { result ≡ [] }
    {
        StableArena {
            items: StableVec::new(alloc),
            keys: PhantomData,
        }
    }

    /// The number of items. Constant time.
    pub fn len(&self) -> usize
        ensures value { result ≡ length self.now }
        ensures keyed { length self.now ≤ stable_limit Key.keys }
    {
        self.items.len()
    }

    /// Whether there is no item. Constant time.
    pub fn is_empty(&self) -> bool
        ensures { result ≡ (length self.now == 0) }
    {
        self.items.is_empty()
    }

    /// The key that the next [`alloc`](StableArena::alloc) gives its item, or `NotEnoughKeys` if that
    /// fails with it. Constant time, and takes no memory.
    #[inline]
    pub fn next_key(&self) -> Result<Key, ArenaError>
        ensures key { IfOk result (λ key. key ≡ Key.keys.key (length self.now)) }
        ensures has_key { OnOk result (length self.now < stable_limit Key.keys) }
        ensures no_key { IsErrOf result ArenaError.NotEnoughKeys
            ↔ (stable_limit Key.keys ≤ length self.now) }
        ensures errors { IsOkUnless result ArenaError.NotEnoughKeys }
    {
        if self.items.is_full() {
            return Err(ArenaError::NotEnoughKeys);
        }
        Key::from_usize(self.len()).ok_or(ArenaError::NotEnoughKeys)
    }

    /// Puts an item at the end, and returns its key.
    ///
    /// Fails with `NotEnoughKeys` if there is no key for one more or the vector is full, and then with
    /// `OutOfSystemMemory` if a bucket must be opened, which is only where [`room`](StableArena::room) is
    /// 0, and there is no memory for it or the allocator can't be cloned. After an error the arena is as
    /// before, and the item is dropped. Constant time, but for the opening of a bucket.
    #[inline]
    pub fn alloc(&mut self, item: T) -> Result<Key, ArenaError>
    where
        T: Drop,
        A: Clone,
        ensures key { IfOk result (λ key. key ≡ Key.keys.key (length self.old)) }
        ensures ok { OnOk result (self.new ≡ self.old ++ item ∷ []) }
        ensures has_key { OnOk result (length self.old < stable_limit Key.keys) }
        ensures no_key { IsErrOf result ArenaError.NotEnoughKeys
            ↔ (stable_limit Key.keys ≤ length self.old) }
        ensures memory { IsErrOf result ArenaError.OutOfSystemMemory → room (length self.old) ≡ 0 }
        ensures errors { IfErr result (λ error. (error ≡ ArenaError.NotEnoughKeys)
            ⊎ (error ≡ ArenaError.OutOfSystemMemory)) }
        ensures with_room { length self.old < stable_limit Key.keys → 0 < room (length self.old)
            → IsOk result }
        ensures without_size { length self.old < stable_limit Key.keys → type_size T.row ≡ 0
            → ((a : A) → A.is_infallible a) → IsOk result }
        ensures err { OnErr result (self.new ≡ self.old) }
    {
        let key = self.next_key()?;
        self.items.push(item)?;
        Ok(key)
    }

    /// The item under a key, or `KeyOutOfBounds` if there is none. Constant time.
    pub fn get(&self, key: Key) -> Result<&T, ArenaError>
        ensures item { IfOk result (λ item.
            slice_get self.now (Key.keys.number key) ≡ Some item.now) }
        ensures out_of_bounds { IsErrOf result ArenaError.KeyOutOfBounds
            ↔ (length self.now ≤ Key.keys.number key) }
        ensures errors { IsOkUnless result ArenaError.KeyOutOfBounds }
    {
        self.items
            .get(key.into_usize())
            .ok_or(ArenaError::KeyOutOfBounds)
    }

    /// The item under a key to write to, or `KeyOutOfBounds` if there is none. Constant time.
    pub fn get_mut(&mut self, key: Key) -> Result<&mut T, ArenaError>
        ensures* writes_back { sem 𝓛 (lends_get Key.row T.row A.row Key.ArenaKey A.Allocator self.entry key result) }
        ensures item { IfOk result (λ item.
            slice_get self.old (Key.keys.number key) ≡ Some item.now) }
        ensures out_of_bounds { IsErrOf result ArenaError.KeyOutOfBounds
            ↔ (length self.old ≤ Key.keys.number key) }
        ensures errors { IsOkUnless result ArenaError.KeyOutOfBounds }
    {
        let index = key.into_usize();
        if index < self.items.len() {
            Ok(self.items.item_mut(index))
        } else {
            Err(ArenaError::KeyOutOfBounds)
        }
    }

    /// Exchanges the items under two keys.
    ///
    /// Fails with `AliasingPairAccess` if the keys are equal, and then with `KeyOutOfBounds` if there is
    /// no item under one. After an error the arena is as before. Constant time.
    pub fn swap(&mut self, first: Key, second: Key) -> Result<(), ArenaError>
        ensures ok { OnOk result
            (self.new ≡ swap self.old (Key.keys.number first) (Key.keys.number second)) }
        ensures aliasing { IsErrOf result ArenaError.AliasingPairAccess
            ↔ (Key.keys.number first ≡ Key.keys.number second) }
        ensures out_of_bounds { IsErrOf result ArenaError.KeyOutOfBounds
            ↔ ((Key.keys.number first ≢ Key.keys.number second)
            × ((length self.old ≤ Key.keys.number first) ⊎ (length self.old ≤ Key.keys.number second))) }
        ensures errors { IfErr result (λ error. (error ≡ ArenaError.AliasingPairAccess)
            ⊎ (error ≡ ArenaError.KeyOutOfBounds)) }
        ensures err { OnErr result (self.new ≡ self.old) }
    {
        self.items.swap(first.into_usize(), second.into_usize())
    }

    /// Whether a key reads an item. Constant time.
    pub fn has(&self, key: Key) -> bool
        ensures { IsTrue result ↔ (Key.keys.number key < length self.now) }
    {
        key.into_usize() < self.len()
    }

    /// How many items can be added, if there are keys for them, before a bucket must be opened. Constant
    /// time.
    pub fn room(&self) -> usize
        ensures { result ≡ room (length self.now) }
    {
        self.items.room()
    }

    /// The vector that keeps the items. Constant time.
    pub fn items(&self) -> &StableVec<T, A>
        ensures { result.now ≡ self.now }
    {
        &self.items
    }

    /// Each key with its item, in order. Constant time for each step.
    pub fn iter(&self) -> StableArenaIter<'_, Key, T, A>
        ensures entries { result ≡ entries Key.keys self.now }
        ensures len { length result ≡ length self.now }
        ensures bound { length self.now ≤ max_len }
    {
        StableArenaIter {
            items: self.items.iter(),
            next: 0,
            keys: PhantomData,
        }
    }

    /// Each key with its item to write, in order. Constant time for each step.
    ///
    /// The arena keeps its length and its buckets, also where the iterator is left early.
    pub fn iter_mut(&mut self) -> StableArenaIterMut<'_, Key, T, A>
        ensures* writes_back { sem 𝓛 (lends_items Key.row T.row A.row Key.ArenaKey A.Allocator self.entry (loan_of result)) }
        ensures keeps { KeepsLength self.old }
        ensures entries { left result ≡ entries Key.keys self.old }
        ensures len { length (left result) ≡ length self.old }
        ensures bound { length self.old ≤ max_len }
    {
        let (open_buckets, len) = (self.items.open_buckets(), self.items.len());
        let all = self.lend();
        StableArenaIterMut {
            items: StableVecIterMut::of_whole(all, open_buckets, len),
            next: 0,
            keys: PhantomData,
        }
    }
}

impl<'a, Key: ArenaKey, T, A: Allocator> IntoIterator for &'a StableArena<Key, T, A> {
    type Item = (Key, &'a T);

    type IntoIter = StableArenaIter<'a, Key, T, A>;

    ghost into_iter_gives = { λ arena it. it ≡ entries Key.keys arena.now };

    fn into_iter(self) -> StableArenaIter<'a, Key, T, A> {
        self.iter()
    }
}

impl<'a, Key: ArenaKey, T, A: Allocator> IntoIterator for &'a mut StableArena<Key, T, A> {
    ghost use Rattle.std.specs.Borrow.{sem};
    ghost use Rattle.wasmi_arena.specs.ArenaLend.{lends_items};
    ghost use Rattle.wasmi_arena.specs.IterMut.{left, loan_of};

    type Item = (Key, &'a mut T);

    type IntoIter = StableArenaIterMut<'a, Key, T, A>;

    ghost into_iter_gives = { λ arena it. left it ≡ entries Key.keys arena.now };

    fn into_iter(self) -> StableArenaIterMut<'a, Key, T, A>
        ensures* writes_back { sem 𝓛 (lends_items Key.row T.row A.row Key.ArenaKey A.Allocator self.entry (loan_of result)) }
        ensures into_iter_gives { left result ≡ entries Key.keys self.old }
    {
        self.iter_mut()
    }
}
