//! An arena that gives equal values one key.
ghost use Rattle.std.specs.Prelude.{ℕ, ◌≡◌, ◌<◌, ◌≤◌, ◌==◌, ◌^◌, ◌↔◌, [], length, position, true, None, Some, Ok, IfSome, IfOk, IfErr, OnOk, OnErr, IsErrOf, IsOkUnless, IsTrue, slice_get, slice_set, IsPermutation, option_map};
ghost use Rattle.std.specs.List.{IsDistinct};
ghost use Rattle.std.specs.Cmp.{on_per, on_equiv};
ghost use Rattle.std.specs.Cmp.Lexicographic.{pointwise, lists_per, lists_equiv};
ghost use Rattle.std.specs.Iterator.{IsFiniteIterable};
ghost use Rattle.wasmi_arena.specs.Entries.{entries};
ghost use Rattle.wasmi_collections.specs.Dedup.{keyed, AddsValue, AllocatesValue, RefusesValue, TakesAll, TakesUntilRefused};
ghost use Rattle.wasmi_dense.specs.ArenaLoan.{left_entries, IsKeyed};
ghost use Rattle.wasmi_map_specs.specs.Maps.{value_at};

mod by_text;
mod replace;

use std::alloc::{Allocator, Global};
use std::fmt::{self, Debug, Formatter, Write};
use std::hash::Hash;
use std::marker::Model;
use std::ops::{Index, IndexMut};
use wasmi_arena::{ArenaError, ArenaKey};
use wasmi_dense::Arena;
use wasmi_dense::arena::{Iter, IterMut};
use wasmi_hashed::Map;
use wasmi_hashed::hash::FixedState;

/// A list of items under typed keys, into which equal values go once.
///
/// It keeps two lists of one length: the values as they were handed in, which are all distinct, and
/// the items, which begin as clones of these and may be written to. A value is looked up among those
/// handed in. So a write under a key changes no key, neither that of the value that stood there nor
/// that of the value written.
#[derive(Drop)]
pub struct DedupArena<Key: ArenaKey, T: Eq + Hash, A: Allocator = Global> {
    items: Arena<Key, T, A>,
    index: Map<T, Key, FixedState, A>,
}

impl<Key: ArenaKey, T: Eq + Hash, A: Allocator> Model for DedupArena<Key, T, A> {
    ghost use Rattle.std.specs.Prelude.{◌≡◌, ◌≤◌, length};
    ghost use Rattle.wasmi_collections.specs.Dedup.{DedupState, IsIndex, in_order};

    ghost Value = { DedupState T };

    ghost view = { λ arena. record { handed = in_order Key.keys arena.index.entries; items = arena.items.items } };

    // The index has the key of each value handed in, and nothing else.
    ghost invariant = { λ arena. IsIndex Key.keys T.eq (in_order Key.keys arena.index.entries) arena.index.entries
        × (length (in_order Key.keys arena.index.entries) ≡ length arena.items.items)
        × (length arena.items.items ≤ Key.keys.count) };
}

impl<Key: ArenaKey, T: Eq + Hash, A: Allocator> DedupArena<Key, T, A> {
    ghost use Rattle.std.specs.Borrow.{sem};
    ghost use Rattle.wasmi_collections.specs.DedupLend.{lends_get, lends_all};
    ghost use Rattle.wasmi_dense.specs.ArenaLoan.{left_entries, IsKeyed, loan_of};

    /// An empty arena, which asks `alloc` for memory when a value comes. Constant time, no allocation.
    pub fn new(alloc: A) -> Self
    where
        A: Copy,
        ensures { result ≡ record { handed = []; items = [] } }
    {
        DedupArena {
            items: Arena::new(alloc),
            index: Map::new(alloc),
        }
    }

    /// The number of items, which is that of the values handed in. Constant time.
    pub fn len(&self) -> usize
        ensures value { result ≡ length self.now.items }
        ensures lists { length self.now.handed ≡ length self.now.items }
        ensures distinct { IsDistinct T.eq self.now.handed }
        ensures keyed { length self.now.items ≤ Key.keys.count }
    {
        self.items.len()
    }

    /// Whether there is no item. Constant time.
    pub fn is_empty(&self) -> bool
        ensures { result ≡ (length self.now.items == 0) }
    {
        self.items.is_empty()
    }

    /// The values handed in, each beside its key, and nothing else. Constant time.
    pub fn index(&self) -> &Map<T, Key, FixedState, A>
        ensures entries { IsPermutation (keyed Key.keys self.now.handed) result.now.entries }
        ensures finds { (value : T) → value_at T.eq result.now.entries value
            ≡ option_map Key.keys.key (position (T.eq value) self.now.handed) }
    {
        &self.index
    }

    /// The key of a value, if one that is equal to it was handed in. Nothing is handed in. Expected
    /// constant time, no allocation.
    pub fn key_of(&self, value: &T) -> Option<Key>
        ensures value { result
            ≡ option_map Key.keys.key (position (T.eq value.now) self.now.handed) }
        ensures known { IfSome result (λ key.
            position (T.eq value.now) self.now.handed ≡ Some (Key.keys.number key)) }
        ensures within { IfSome result (λ key. Key.keys.number key < length self.now.items) }
        ensures reads { IfSome result (λ key. option_map (T.eq value.now)
            (slice_get self.now.handed (Key.keys.number key)) ≡ Some true) }
        ensures alone { (place : ℕ) (other : T) → slice_get self.now.handed place ≡ Some other
            → IsTrue (T.eq value.now other) → result ≡ Some (Key.keys.key place) }
    {
        match self.index.get(value) {
            Some(key) => Some(*key),
            None => None,
        }
    }

    /// The key that the next new value gets, or `NotEnoughKeys` if [`alloc`](DedupArena::alloc) fails
    /// with it for a new value. Constant time, no allocation.
    #[inline]
    pub fn next_key(&self) -> Result<Key, ArenaError>
        ensures key { IfOk result (λ key. key ≡ Key.keys.key (length self.now.handed)) }
        ensures has_key { OnOk result (length self.now.handed < Key.keys.count) }
        ensures no_key { IsErrOf result ArenaError.NotEnoughKeys
            ↔ (Key.keys.count ≤ length self.now.handed) }
        ensures errors { IsOkUnless result ArenaError.NotEnoughKeys }
    {
        self.items.next_key()
    }

    /// Drops all items and all values handed in. The memory is kept, and keys begin at 0 again. Linear, no
    /// allocation.
    pub fn clear(&mut self)
    where
        T: Drop,
        ensures { self.new ≡ record { handed = []; items = [] } }
    {
        self.items.clear();
        self.index.clear();
    }

    /// The key of a value. One that is equal to a value handed in before has the key of that one, and is
    /// dropped. A new one is handed in, and a clone of it becomes the last item.
    ///
    /// A value that is there is never refused, and nothing is cloned or allocated for it. For a new one
    /// it fails with `NotEnoughKeys` if there is no key for one more, and then with `OutOfSystemMemory`
    /// if there is no memory, or the clone of the value or of the allocator fails. After an error the
    /// arena is as before, and the value is dropped. Expected constant time, but for growths.
    pub fn alloc(&mut self, value: T) -> Result<Key, ArenaError>
    where
        T: Clone,
        A: Clone,
        ensures there { (p : ℕ) → position (T.eq value) self.old.handed ≡ Some p
            → (result ≡ Ok (Key.keys.key p)) × (self.new ≡ self.old) }
        ensures ok { IfOk result (λ key. AllocatesValue Key.keys T.eq T.is_clone self.old value key self.new) }
        ensures no_key { IsErrOf result ArenaError.NotEnoughKeys
            ↔ ((position (T.eq value) self.old.handed ≡ None) × (Key.keys.count ≤ length self.old.handed)) }
        ensures refused { IfErr result (λ error. RefusesValue Key.keys T.eq self.old value error) }
        ensures err { OnErr result (self.new ≡ self.old) }
        ensures known { IfOk result (λ key.
            position (T.eq value) self.new.handed ≡ Some (Key.keys.number key)) }
        ensures within { IfOk result (λ key. Key.keys.number key < length self.new.items) }
        ensures kept { (other : T) (p : ℕ) → position (T.eq other) self.old.handed ≡ Some p
            → position (T.eq other) self.new.handed ≡ Some p }
        ensures reads { IfOk result (λ key. option_map (T.eq value)
            (slice_get self.new.handed (Key.keys.number key)) ≡ Some true) }
        ensures earlier { (place : ℕ) (item : T) → slice_get self.old.items place ≡ Some item
            → slice_get self.new.items place ≡ Some item }
        ensures earlier_values { (place : ℕ) (other : T) → slice_get self.old.handed place ≡ Some other
            → slice_get self.new.handed place ≡ Some other }
    {
        if let Some(key) = self.index.get(&value) {
            return Ok(*key);
        }
        let key = self.items.next_key()?;
        self.hand_in(key, value)
    }

    // Hands a value in that is new, under the next key. Room and clone come first: once the value is in the index
    // nothing fails.
    fn hand_in(&mut self, key: Key, value: T) -> Result<Key, ArenaError>
    where
        T: Clone,
        A: Clone,
        requires absent { position (T.eq value) self.old.handed ≡ None }
        requires next { key ≡ Key.keys.key (length self.old.handed) }
        requires has_key { length self.old.handed < Key.keys.count }
        ensures ok { IfOk result (λ key. AddsValue Key.keys T.eq T.is_clone self.old value key self.new) }
        ensures errors { IsOkUnless result ArenaError.OutOfSystemMemory }
        ensures err { OnErr result (self.new ≡ self.old) }
        ensures known { IfOk result (λ key.
            position (T.eq value) self.new.handed ≡ Some (Key.keys.number key)) }
        ensures within { IfOk result (λ key. Key.keys.number key < length self.new.items) }
        ensures kept { (other : T) (p : ℕ) → position (T.eq other) self.old.handed ≡ Some p
            → position (T.eq other) self.new.handed ≡ Some p }
    {
        self.items.reserve(1)?;
        let item = value.clone()?;
        self.index.insert(value, key)?;
        self.items.alloc(item)
    }

    /// As [`alloc`](DedupArena::alloc), of a value that isn't given away. Nothing is cloned or allocated for
    /// one that is there. A new one is cloned twice: its first clone is handed in.
    ///
    /// A clone that is equal to another value that was handed in has the key of that one. Where clones are equal
    /// to their values, the key is that of the value from then on.
    pub fn alloc_ref(&mut self, value: &T) -> Result<Key, ArenaError>
    where
        T: Clone,
        A: Clone,
        ensures there { (p : ℕ) → position (T.eq value.now) self.old.handed ≡ Some p
            → (result ≡ Ok (Key.keys.key p)) × (self.new ≡ self.old) }
        ensures new { position (T.eq value.now) self.old.handed ≡ None → IfOk result (λ key.
            (clone : T) × T.is_clone value.now clone
            × AllocatesValue Key.keys T.eq T.is_clone self.old clone key self.new) }
        ensures no_key { IsErrOf result ArenaError.NotEnoughKeys
            ↔ ((position (T.eq value.now) self.old.handed ≡ None)
            × (Key.keys.count ≤ length self.old.handed)) }
        ensures refused { IfErr result (λ error. RefusesValue Key.keys T.eq self.old value.now error) }
        ensures err { OnErr result (self.new ≡ self.old) }
        ensures known { ((clone : T) → T.is_clone value.now clone → IsTrue (T.eq value.now clone))
            → IfOk result (λ key.
            position (T.eq value.now) self.new.handed ≡ Some (Key.keys.number key)) }
        ensures within { IfOk result (λ key. Key.keys.number key < length self.new.items) }
        ensures kept { (other : T) (p : ℕ) → position (T.eq other) self.old.handed ≡ Some p
            → position (T.eq other) self.new.handed ≡ Some p }
        ensures reads { ((clone : T) → T.is_clone value.now clone → IsTrue (T.eq value.now clone))
            → IfOk result (λ key. option_map (T.eq value.now)
            (slice_get self.new.handed (Key.keys.number key)) ≡ Some true) }
        ensures earlier { (place : ℕ) (item : T) → slice_get self.old.items place ≡ Some item
            → slice_get self.new.items place ≡ Some item }
        ensures earlier_values { (place : ℕ) (other : T) → slice_get self.old.handed place ≡ Some other
            → slice_get self.new.handed place ≡ Some other }
    {
        if let Some(key) = self.key_of(value) {
            return Ok(key);
        }
        self.next_key()?;
        let clone = value.clone()?;
        self.alloc(clone)
    }

    /// The values, handed in one by one to an empty arena, each of which [`alloc`](DedupArena::alloc)
    /// gives a key. Expected linear time.
    ///
    /// Fails as the first `alloc` that fails, and then drops all of them.
    pub fn from_iter<U: IntoIterator<Item = T>>(alloc: A, iter: U) -> Result<Self, ArenaError>
    where
        T: Clone,
        A: Copy,
        requires { IsFiniteIterable U.into_iter_gives U.IntoIter.can_next U.IntoIter.remaining iter }
        ensures ok { IfOk result (λ arena. TakesAll Key.keys T.eq T.is_clone U.into_iter_gives U.IntoIter.next_gives
            iter (record { handed = []; items = [] }) arena) }
        ensures err { IfErr result (TakesUntilRefused Key.keys T.eq T.is_clone U.into_iter_gives U.IntoIter.next_gives
            iter (record { handed = []; items = [] })) }
    {
        let mut arena = DedupArena::new(alloc);
        for value in iter {
            arena.alloc(value)?;
        }
        Ok(arena)
    }

    /// The item under a key, or `KeyOutOfBounds` if there is none. Constant time.
    pub fn get(&self, key: Key) -> Result<&T, ArenaError>
        ensures item { IfOk result (λ item.
            slice_get self.now.items (Key.keys.number key) ≡ Some item.now) }
        ensures out_of_bounds { IsErrOf result ArenaError.KeyOutOfBounds
            ↔ (length self.now.items ≤ Key.keys.number key) }
        ensures errors { IsOkUnless result ArenaError.KeyOutOfBounds }
    {
        self.items.get(key)
    }

    /// The item under a key to write to, or `KeyOutOfBounds` if there is none. Constant time.
    ///
    /// What is written changes the item alone: the value that was handed in for the key keeps it.
    pub fn get_mut(&mut self, key: Key) -> Result<&mut T, ArenaError>
        ensures* writes_back { sem 𝓛 (lends_get Key.row T.row A.row Key.ArenaKey T.Hash A.Allocator self.entry key result) }
        ensures item { IfOk result (λ item.
            slice_get self.old.items (Key.keys.number key) ≡ Some item.now) }
        ensures out_of_bounds { IsErrOf result ArenaError.KeyOutOfBounds
            ↔ (length self.old.items ≤ Key.keys.number key) }
        ensures errors { IsOkUnless result ArenaError.KeyOutOfBounds }
    {
        self.items.get_mut(key)
    }

    /// Puts an item under a key in place of the one there, which it returns, or drops it and fails with
    /// `KeyOutOfBounds` if there is none. Constant time.
    ///
    /// This changes the item alone: the value that was handed in for the key keeps it.
    pub fn put(&mut self, key: Key, item: T) -> Result<T, ArenaError>
    where
        T: Drop,
        ensures old { IfOk result (λ old. slice_get self.old.items (Key.keys.number key) ≡ Some old) }
        ensures ok { OnOk result
            (self.new.items ≡ slice_set self.old.items (Key.keys.number key) item) }
        ensures handed { self.new.handed ≡ self.old.handed }
        ensures out_of_bounds { IsErrOf result ArenaError.KeyOutOfBounds
            ↔ (length self.old.items ≤ Key.keys.number key) }
        ensures errors { IsOkUnless result ArenaError.KeyOutOfBounds }
        ensures err { OnErr result (self.new ≡ self.old) }
    {
        self.items.put(key, item)
    }

    /// Whether a key reads an item. Constant time.
    pub fn has(&self, key: Key) -> bool
        ensures { IsTrue result ↔ (Key.keys.number key < length self.now.items) }
    {
        self.items.has(key)
    }

    /// Each key with its item, in order. Constant time for each step.
    pub fn iter(&self) -> Iter<'_, Key, T>
        ensures entries { result ≡ entries Key.keys self.now.items }
        ensures len { length result ≡ length self.now.items }
        ensures bound { length self.now.items < 2 ^ 64 }
    {
        self.items.iter()
    }

    /// Each key with its item to write to, in order. What is written changes the items alone. Constant
    /// time for each step.
    pub fn iter_mut(&mut self) -> IterMut<'_, Key, T>
        ensures* writes_back { sem 𝓛 (lends_all Key.row T.row A.row Key.ArenaKey T.Hash A.Allocator self.entry (loan_of result)) }
        ensures entries { left_entries Key.keys result ≡ entries Key.keys self.old.items }
        ensures ready { IsKeyed Key.keys result }
        ensures len { length (left_entries Key.keys result) ≡ length self.old.items }
    {
        self.items.iter_mut()
    }
}

impl<Key: ArenaKey, T: Eq + Hash, A: Allocator> Index<Key> for DedupArena<Key, T, A> {
    ghost use Rattle.std.specs.Prelude.{◌≡◌, ◌<◌, length, slice_get, Some};

    type Output = T;

    // The key reads an item.
    ghost can_index = { λ arena key. Key.keys.number key < length arena.items };

    ghost index_gives = { λ arena key item. slice_get arena.items (Key.keys.number key) ≡ Some item };

    fn index(&self, key: Key) -> &T {
        &self.items[key]
    }
}

impl<Key: ArenaKey, T: Eq + Hash, A: Allocator> IndexMut<Key> for DedupArena<Key, T, A> {
    ghost use Rattle.std.specs.Borrow.{sem};
    ghost use Rattle.wasmi_collections.specs.DedupLend.{lends_item};

    fn index_mut(&mut self, key: Key) -> &mut T
        requires { Key.keys.number key < length self.old.items }
        ensures* writes_back { sem 𝓛 (lends_item Key.row T.row A.row Key.ArenaKey T.Hash A.Allocator self.entry key result) }
        ensures value { slice_get self.old.items (Key.keys.number key) ≡ Some result.now }
    {
        &mut self.items[key]
    }
}

impl<'a, Key: ArenaKey, T: Eq + Hash, A: Allocator> IntoIterator for &'a DedupArena<Key, T, A> {
    type Item = (Key, &'a T);

    type IntoIter = Iter<'a, Key, T>;

    ghost into_iter_gives = { λ arena it. it ≡ entries Key.keys arena.now.items };

    fn into_iter(self) -> Iter<'a, Key, T> {
        self.iter()
    }
}

impl<'a, Key: ArenaKey, T: Eq + Hash, A: Allocator> IntoIterator for &'a mut DedupArena<Key, T, A> {
    ghost use Rattle.std.specs.Borrow.{sem};
    ghost use Rattle.wasmi_collections.specs.DedupLend.{lends_all};
    ghost use Rattle.wasmi_dense.specs.ArenaLoan.{left_entries, IsKeyed, loan_of};

    type Item = (Key, &'a mut T);

    type IntoIter = IterMut<'a, Key, T>;

    ghost into_iter_gives = { λ arena it. (left_entries Key.keys it ≡ entries Key.keys arena.now.items) × IsKeyed Key.keys it };

    fn into_iter(self) -> IterMut<'a, Key, T>
        ensures* writes_back { sem 𝓛 (lends_all Key.row T.row A.row Key.ArenaKey T.Hash A.Allocator self.entry (loan_of result)) }
        ensures into_iter_gives { (left_entries Key.keys result ≡ entries Key.keys self.old.items) × IsKeyed Key.keys result }
    {
        self.iter_mut()
    }
}

/// Equality of the items, whatever was handed in for them.
impl<Key: ArenaKey, T: Eq + Hash, A: Allocator> PartialEq for DedupArena<Key, T, A> {
    ghost eq = { λ a b. pointwise T.eq a.items b.items };

    ghost laws = { on_per (λ a. a.items) (lists_per T.PartialEq.laws) };

    fn eq(&self, other: &Self) -> bool {
        self.items == other.items
    }
}

impl<Key: ArenaKey, T: Eq + Hash, A: Allocator> Eq for DedupArena<Key, T, A> {
    ghost laws = { on_equiv (λ a. a.items) (lists_equiv T.Eq.laws) };
}

/// A map from the numbers of keys to items.
impl<Key: ArenaKey, T: Eq + Hash + Debug, A: Allocator> Debug for DedupArena<Key, T, A> {
    fn fmt<W: Write>(&self, f: &mut Formatter<W>) -> fmt::Result {
        Debug::fmt(&self.items, f)
    }
}
