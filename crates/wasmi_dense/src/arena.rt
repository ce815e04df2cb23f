//! An arena kept in one vector.
ghost use Rattle.std.specs.Prelude.{◌≡◌, ◌+◌, ◌<◌, ◌≤◌, ◌==◌, ◌^◌, ◌↔◌, ◌⊎◌, [], ◌∷◌, ◌++◌, length, IfOk, IfErr, OnOk, OnErr, IsErrOf, IsOk, IsOkUnless, IsTrue, slice_get, slice_set, Some};
ghost use Rattle.std.specs.List.{swap};
ghost use Rattle.wasmi_arena.specs.Entries.{entries};

mod any;
mod compared;
mod grow;
mod into_iter;
mod iter;
mod iter_mut;
mod pairs;

pub use into_iter::IntoIter;
pub use iter::Iter;
pub use iter_mut::IterMut;
use std::alloc::{Allocator, Global};
use std::marker::{Model, PhantomData};
use std::mem;
use std::ops::{Index, IndexMut};
use wasmi_arena::{ArenaError, ArenaKey};

/// A list of items, each under the key of its position, kept in one vector.
///
/// At most as many items go in as there are keys. When the vector has no room for one more, it moves
/// its items to a larger block.
#[derive(Drop)]
pub struct Arena<Key: ArenaKey, T, A: Allocator = Global> {
    items: Vec<T, A>,
    keys: PhantomData<Key>,
}

impl<Key: ArenaKey, T, A: Allocator> Model for Arena<Key, T, A> {
    ghost use Rattle.std.specs.Prelude.{◌≤◌, length};
    ghost use Rattle.wasmi_arena.specs.Arena.{ArenaState};

    ghost Value = { ArenaState T };

    ghost use Rattle.wasmi_dense.specs.Arena.{state_of};

    ghost view = { λ arena. state_of arena.items };

    // Each position has a key.
    ghost invariant = { λ arena. length (state_of arena.items).items ≤ Key.keys.count };
}

impl<Key: ArenaKey, T, A: Allocator> Arena<Key, T, A> {
    ghost use Rattle.std.specs.Borrow.{sem};
    ghost use Rattle.wasmi_dense.specs.ArenaLend.{lends_get, lends_all};
    ghost use Rattle.wasmi_dense.specs.ArenaLoan.{left_entries, IsKeyed, loan_of};

    /// An empty arena, which asks `alloc` for memory when an item comes. Constant time, no allocation.
    pub fn new(alloc: A) -> Self
        ensures { result ≡ record { items = []; room = 0 } }
    {
        Arena {
            items: Vec::new(alloc),
            keys: PhantomData,
        }
    }

    /// An empty arena with room for `capacity` items. One request for memory, or none where `capacity` is 0.
    ///
    /// Fails with `OutOfSystemMemory` if there is no memory for that room.
    pub fn with_capacity(alloc: A, capacity: usize) -> Result<Self, ArenaError>
        ensures items { IfOk result (λ arena. arena.items ≡ []) }
        ensures room { IfOk result (λ arena. arena.room ≡ capacity) }
        ensures none { capacity ≡ 0 → IsOk result }
        ensures errors { IsOkUnless result ArenaError.OutOfSystemMemory }
    {
        Ok(Arena {
            items: Vec::with_capacity(alloc, capacity)?,
            keys: PhantomData,
        })
    }

    /// The number of items. Constant time.
    pub fn len(&self) -> usize
        ensures value { result ≡ length self.now.items }
        ensures keyed { length self.now.items ≤ Key.keys.count }
    {
        self.items.len()
    }

    /// Whether there is no item. Constant time.
    pub fn is_empty(&self) -> bool
        ensures { result ≡ (length self.now.items == 0) }
    {
        self.items.is_empty()
    }

    /// How many items can be added before memory is asked for. Constant time.
    pub fn room(&self) -> usize
        ensures { result ≡ self.now.room }
    {
        self.items.capacity() - self.items.len()
    }

    /// Drops all items. The block is kept, and keys begin at 0 again. Linear, no allocation.
    pub fn clear(&mut self)
    where
        T: Drop,
        ensures items { self.new.items ≡ [] }
        ensures room { self.new.room ≡ self.old.room + length self.old.items }
    {
        self.items.clear();
    }

    /// Makes room for `additional` more items. Linear where the block must grow.
    ///
    /// Fails with `OutOfSystemMemory` if that needs a larger block and there is no memory for it, which
    /// is only where `additional` is above [`room`](Arena::room). After an error the arena is as before.
    pub fn reserve(&mut self, additional: usize) -> Result<(), ArenaError>
        ensures items { self.new.items ≡ self.old.items }
        ensures ok { OnOk result (additional ≤ self.new.room) }
        ensures room { self.old.room ≤ self.new.room }
        ensures with_room { additional ≤ self.old.room → IsOk result }
        ensures kept { additional ≤ self.old.room → self.new ≡ self.old }
        ensures errors { IsOkUnless result ArenaError.OutOfSystemMemory }
        ensures err { OnErr result (self.new ≡ self.old) }
    {
        if self.room() < additional {
            self.items.reserve(additional)?;
        }
        Ok(())
    }

    /// The key that the next [`alloc`](Arena::alloc) gives its item, or `NotEnoughKeys` if that fails
    /// with it. Constant time, and takes no memory.
    #[inline]
    pub fn next_key(&self) -> Result<Key, ArenaError>
        ensures key { IfOk result (λ key. key ≡ Key.keys.key (length self.now.items)) }
        ensures has_key { OnOk result (length self.now.items < Key.keys.count) }
        ensures no_key { IsErrOf result ArenaError.NotEnoughKeys
            ↔ (Key.keys.count ≤ length self.now.items) }
        ensures errors { IsOkUnless result ArenaError.NotEnoughKeys }
    {
        Key::from_usize(self.len()).ok_or(ArenaError::NotEnoughKeys)
    }

    /// Puts an item at the end, and returns its key.
    ///
    /// Fails with `NotEnoughKeys` if there is no key for one more, and then with `OutOfSystemMemory` if
    /// the vector must grow, which is only where [`room`](Arena::room) is 0, and there is no memory for
    /// it. After an error the arena is as before, and the item is dropped. Constant time, but for the
    /// growth, which at least doubles the vector.
    #[inline]
    pub fn alloc(&mut self, item: T) -> Result<Key, ArenaError>
    where
        T: Drop,
        ensures key { IfOk result (λ key. key ≡ Key.keys.key (length self.old.items)) }
        ensures ok { OnOk result (self.new.items ≡ self.old.items ++ item ∷ []) }
        ensures room { OnOk result (self.old.room ≤ self.new.room + 1) }
        ensures kept { 0 < self.old.room → OnOk result (self.old.room ≡ self.new.room + 1) }
        ensures grown { self.old.room ≡ 0 → OnOk result (length self.old.items ≤ self.new.room + 1) }
        ensures has_key { OnOk result (length self.old.items < Key.keys.count) }
        ensures no_key { IsErrOf result ArenaError.NotEnoughKeys
            ↔ (Key.keys.count ≤ length self.old.items) }
        ensures memory { IsErrOf result ArenaError.OutOfSystemMemory → self.old.room ≡ 0 }
        ensures errors { IfErr result (λ error. (error ≡ ArenaError.NotEnoughKeys)
            ⊎ (error ≡ ArenaError.OutOfSystemMemory)) }
        ensures with_room { length self.old.items < Key.keys.count → 0 < self.old.room → IsOk result }
        ensures err { OnErr result (self.new ≡ self.old) }
    {
        let key = self.next_key()?;
        let len = self.items.len();
        // As many again: to ask for one alone promises no room for the items after it.
        if len == self.items.capacity() {
            self.items.reserve(len.max(4))?;
        }
        self.items.push_reserved(item);
        Ok(key)
    }

    /// The item under a key, or `KeyOutOfBounds` if there is none. Constant time.
    pub fn get(&self, key: Key) -> Result<&T, ArenaError>
        ensures item { IfOk result (λ item.
            slice_get self.now.items (Key.keys.number key) ≡ Some item.now) }
        ensures out_of_bounds { IsErrOf result ArenaError.KeyOutOfBounds
            ↔ (length self.now.items ≤ Key.keys.number key) }
        ensures errors { IsOkUnless result ArenaError.KeyOutOfBounds }
    {
        self.items
            .get(key.into_usize())
            .ok_or(ArenaError::KeyOutOfBounds)
    }

    /// The item under a key to write to, or `KeyOutOfBounds` if there is none. Constant time.
    pub fn get_mut(&mut self, key: Key) -> Result<&mut T, ArenaError>
        ensures* writes_back { sem 𝓛 (lends_get Key.row T.row A.row Key.ArenaKey A.Allocator self.entry key result) }
        ensures item { IfOk result (λ item.
            slice_get self.old.items (Key.keys.number key) ≡ Some item.now) }
        ensures out_of_bounds { IsErrOf result ArenaError.KeyOutOfBounds
            ↔ (length self.old.items ≤ Key.keys.number key) }
        ensures errors { IsOkUnless result ArenaError.KeyOutOfBounds }
    {
        let index = key.into_usize();
        if index < self.items.len() {
            Ok(&mut self.items[index])
        } else {
            Err(ArenaError::KeyOutOfBounds)
        }
    }

    /// Puts an item under a key in place of the one there, which it returns, or drops it and fails with
    /// `KeyOutOfBounds` if there is none. Constant time.
    pub fn put(&mut self, key: Key, item: T) -> Result<T, ArenaError>
    where
        T: Drop,
        ensures old { IfOk result (λ old. slice_get self.old.items (Key.keys.number key) ≡ Some old) }
        ensures ok { OnOk result
            (self.new.items ≡ slice_set self.old.items (Key.keys.number key) item) }
        ensures room { self.new.room ≡ self.old.room }
        ensures out_of_bounds { IsErrOf result ArenaError.KeyOutOfBounds
            ↔ (length self.old.items ≤ Key.keys.number key) }
        ensures errors { IsOkUnless result ArenaError.KeyOutOfBounds }
        ensures err { OnErr result (self.new ≡ self.old) }
    {
        let there = self.get_mut(key)?;
        Ok(mem::replace(there, item))
    }

    /// Exchanges the items under two keys.
    ///
    /// Fails with `KeyOutOfBounds` if there is no item under one, and then with `AliasingPairAccess` if
    /// the keys are equal. After an error the arena is as before. Constant time.
    pub fn swap(&mut self, first: Key, second: Key) -> Result<(), ArenaError>
        ensures ok { OnOk result (self.new.items
            ≡ swap self.old.items (Key.keys.number first) (Key.keys.number second)) }
        ensures room { self.new.room ≡ self.old.room }
        ensures out_of_bounds { IsErrOf result ArenaError.KeyOutOfBounds
            ↔ ((length self.old.items ≤ Key.keys.number first)
            ⊎ (length self.old.items ≤ Key.keys.number second)) }
        ensures aliasing { IsErrOf result ArenaError.AliasingPairAccess
            ↔ ((Key.keys.number first < length self.old.items)
            × (Key.keys.number first ≡ Key.keys.number second)) }
        ensures errors { IfErr result (λ error. (error ≡ ArenaError.KeyOutOfBounds)
            ⊎ (error ≡ ArenaError.AliasingPairAccess)) }
        ensures err { OnErr result (self.new ≡ self.old) }
    {
        let len = self.items.len();
        let one = first.into_usize();
        let other = second.into_usize();
        if one >= len || other >= len {
            return Err(ArenaError::KeyOutOfBounds);
        }
        if one == other {
            return Err(ArenaError::AliasingPairAccess);
        }
        self.items.swap(one, other);
        Ok(())
    }

    /// Whether a key reads an item. Constant time.
    pub fn has(&self, key: Key) -> bool
        ensures { IsTrue result ↔ (Key.keys.number key < length self.now.items) }
    {
        key.into_usize() < self.len()
    }

    /// Each key with its item, in order. Constant time for each step.
    pub fn iter(&self) -> Iter<'_, Key, T>
        ensures entries { result ≡ entries Key.keys self.now.items }
        ensures len { length result ≡ length self.now.items }
        ensures bound { length self.now.items < 2 ^ 64 }
    {
        Iter {
            items: self.items.iter(),
            next: 0,
            keys: PhantomData,
        }
    }

    /// Each key with its item to write to, in order. Constant time for each step.
    pub fn iter_mut(&mut self) -> IterMut<'_, Key, T>
        ensures* writes_back { sem 𝓛 (lends_all Key.row T.row A.row Key.ArenaKey A.Allocator self.entry (loan_of result)) }
        ensures entries { left_entries Key.keys result ≡ entries Key.keys self.old.items }
        ensures ready { IsKeyed Key.keys result }
        ensures len { length (left_entries Key.keys result) ≡ length self.old.items }
    {
        IterMut::new(self.items.as_mut_slice())
    }
}

impl<Key: ArenaKey, T, A: Allocator> Index<Key> for Arena<Key, T, A> {
    ghost use Rattle.std.specs.Prelude.{◌≡◌, ◌<◌, length, slice_get, Some};

    type Output = T;

    // The key reads an item.
    ghost can_index = { λ arena key. Key.keys.number key < length arena.items };

    ghost index_gives = { λ arena key item. slice_get arena.items (Key.keys.number key) ≡ Some item };

    fn index(&self, key: Key) -> &T {
        &self.items[key.into_usize()]
    }
}

impl<Key: ArenaKey, T, A: Allocator> IndexMut<Key> for Arena<Key, T, A> {
    ghost use Rattle.std.specs.Borrow.{sem};
    ghost use Rattle.wasmi_dense.specs.ArenaLend.{lends_item};

    fn index_mut(&mut self, key: Key) -> &mut T
        requires { Key.keys.number key < length self.old.items }
        ensures* writes_back { sem 𝓛 (lends_item Key.row T.row A.row Key.ArenaKey A.Allocator self.entry key result) }
        ensures value { slice_get self.old.items (Key.keys.number key) ≡ Some result.now }
    {
        &mut self.items[key.into_usize()]
    }
}

impl<'a, Key: ArenaKey, T, A: Allocator> IntoIterator for &'a Arena<Key, T, A> {
    type Item = (Key, &'a T);

    type IntoIter = Iter<'a, Key, T>;

    ghost into_iter_gives = { λ arena it. it ≡ entries Key.keys arena.now.items };

    fn into_iter(self) -> Iter<'a, Key, T> {
        self.iter()
    }
}

impl<'a, Key: ArenaKey, T, A: Allocator> IntoIterator for &'a mut Arena<Key, T, A> {
    ghost use Rattle.std.specs.Borrow.{sem};
    ghost use Rattle.wasmi_dense.specs.ArenaLend.{lends_all};
    ghost use Rattle.wasmi_dense.specs.ArenaLoan.{left_entries, IsKeyed, loan_of};

    type Item = (Key, &'a mut T);

    type IntoIter = IterMut<'a, Key, T>;

    ghost into_iter_gives = { λ arena it. (left_entries Key.keys it ≡ entries Key.keys arena.now.items) × IsKeyed Key.keys it };

    fn into_iter(self) -> IterMut<'a, Key, T>
        ensures* writes_back { sem 𝓛 (lends_all Key.row T.row A.row Key.ArenaKey A.Allocator self.entry (loan_of result)) }
        ensures into_iter_gives { (left_entries Key.keys result ≡ entries Key.keys self.old.items) × IsKeyed Key.keys result }
    {
        self.iter_mut()
    }
}
