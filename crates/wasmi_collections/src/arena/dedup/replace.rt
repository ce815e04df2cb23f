//! A write that changes the index: a value in the place of another.
ghost use Rattle.std.specs.Prelude.{ℕ, ◌≡◌, ◌≢◌, ◌<◌, ◌≤◌, ◌↔◌, length, position, None, Some, Ok, IfOk, IfErr, OnOk, OnErr, IsOk, IsErrOf, IsOkUnless, slice_set, option_copied};
ghost use Rattle.wasmi_collections.specs.Dedup.{IsIndex, HasOtherKey, ReplacesValue, RefusesReplace, in_order, value_numbered};

use super::DedupArena;
use std::alloc::Allocator;
use std::hash::Hash;
use wasmi_arena::{ArenaError, ArenaKey};
use wasmi_hashed::Map;
use wasmi_hashed::hash::FixedState;

// The value of an index that has the key of a number, if there is one. Linear.
fn handed_at<'a, Key: ArenaKey, T: Eq + Hash, A: Allocator>(
    index: &'a Map<T, Key, FixedState, A>,
    number: usize,
) -> Option<&'a T>
    ensures { option_copied result ≡ value_numbered Key.keys index.now.entries number }
{
    for (value, key) in index {
        if key.into_usize() == number {
            return Some(value);
        }
    }
    None
}

// Puts a new value into an index in the place of one that is equal to `old`, whose key it is given.
//
// Fails with `OutOfSystemMemory` if there is no memory for it, and then the index is as before.
fn exchange_value<Key: ArenaKey, T: Eq + Hash + Drop, A: Allocator + Clone>(
    index: &mut Map<T, Key, FixedState, A>,
    old: &T,
    key: Key,
    value: T,
) -> Result<(), ArenaError>
    requires is { IsIndex Key.keys T.eq (in_order Key.keys index.old.entries) index.old.entries }
    requires few { length (in_order Key.keys index.old.entries) ≤ Key.keys.count }
    requires key_is { key ≡ Key.keys.key (Key.keys.number key) }
    requires there { position (T.eq old.now) (in_order Key.keys index.old.entries) ≡ Some (Key.keys.number key) }
    requires absent { position (T.eq value) (in_order Key.keys index.old.entries) ≡ None }
    ensures ok { OnOk result (IsIndex Key.keys T.eq
        (slice_set (in_order Key.keys index.old.entries) (Key.keys.number key) value) index.new.entries) }
    ensures errors { IsOkUnless result ArenaError.OutOfSystemMemory }
    ensures err { OnErr result (index.new ≡ index.old) }
{
    index.insert(value, key)?;
    index.remove(old);
    Ok(())
}

// The number of the key of an equal value of an index, if there is one. Expected constant time.
fn number_in<Key: ArenaKey, T: Eq + Hash, A: Allocator>(
    index: &Map<T, Key, FixedState, A>,
    value: &T,
) -> Option<usize>
    requires is { IsIndex Key.keys T.eq (in_order Key.keys index.now.entries) index.now.entries }
    requires few { length (in_order Key.keys index.now.entries) ≤ Key.keys.count }
    ensures { result ≡ position (T.eq value.now) (in_order Key.keys index.now.entries) }
{
    match index.get(value) {
        Some(key) => Some(key.into_usize()),
        None => None,
    }
}

// Puts a new value into an index in the place of the one that has a key. Where `item` is equal to that one
// it is found by its hash, and else by a walk over the index.
//
// Fails with `OutOfSystemMemory` if there is no memory for it, or the clone of the old value fails or isn't
// equal to it, and then the index is as before.
fn exchange_at_key<Key: ArenaKey, T: Eq + Hash + Clone, A: Allocator + Clone>(
    index: &mut Map<T, Key, FixedState, A>,
    item: &T,
    key: Key,
    value: T,
) -> Result<(), ArenaError>
    requires is { IsIndex Key.keys T.eq (in_order Key.keys index.old.entries) index.old.entries }
    requires few { length (in_order Key.keys index.old.entries) ≤ Key.keys.count }
    requires within { Key.keys.number key < length (in_order Key.keys index.old.entries) }
    requires absent { position (T.eq value) (in_order Key.keys index.old.entries) ≡ None }
    ensures ok { OnOk result (IsIndex Key.keys T.eq
        (slice_set (in_order Key.keys index.old.entries) (Key.keys.number key) value) index.new.entries) }
    ensures errors { IsOkUnless result ArenaError.OutOfSystemMemory }
    ensures err { OnErr result (index.new ≡ index.old) }
{
    // proof: first, for what the call says of the key.
    let number = key.into_usize();
    if number_in(index, item) == Some(number) {
        return exchange_value(index, item, key, value);
    }
    let Some(handed) = handed_at(index, number) else {
        unreachable!();
    };
    let old = handed.clone()?;
    if number_in(index, &old) != Some(number) {
        return Err(ArenaError::OutOfSystemMemory);
    }
    exchange_value(index, &old, key, value)
}

impl<Key: ArenaKey, T: Eq + Hash, A: Allocator> DedupArena<Key, T, A> {
    /// Puts a value in the place of the one that was handed in under a key: the key is this value's from
    /// then on. A clone of it becomes the item, and the item that was there is returned. The value that was
    /// handed in before is dropped, and has no key any more. A value that is equal to it becomes the item
    /// itself, and the one handed in before stays.
    ///
    /// Fails with `KeyOutOfBounds` if there is no item under the key, then with `DuplicateItem` if a value
    /// equal to this one was handed in under another key, and then with `OutOfSystemMemory` if there is no
    /// memory, or a clone fails, or that of the old value (see below) isn't equal to it. After an error the
    /// arena is as before, and the value is dropped. For a value that was handed in under that very key it
    /// never fails, and nothing is cloned or allocated.
    ///
    /// Expected constant time, but for growths, where the item is still equal to the value that was handed
    /// in under the key, or this one is. Else, after a write, linear, and the old value is cloned to be
    /// found.
    pub fn replace(&mut self, key: Key, value: T) -> Result<T, ArenaError>
    where
        T: Clone,
        A: Clone,
        ensures ok { IfOk result (λ there.
            ReplacesValue Key.keys T.eq T.is_clone self.old key value there self.new) }
        ensures out_of_bounds { IsErrOf result ArenaError.KeyOutOfBounds
            ↔ (length self.old.items ≤ Key.keys.number key) }
        ensures duplicate { IsErrOf result ArenaError.DuplicateItem
            ↔ ((Key.keys.number key < length self.old.items) × HasOtherKey Key.keys T.eq self.old key value) }
        ensures refused { IfErr result (λ error. RefusesReplace Key.keys T.eq self.old key value error) }
        ensures same_key { position (T.eq value) self.old.handed ≡ Some (Key.keys.number key) → IsOk result }
        ensures err { OnErr result (self.new ≡ self.old) }
        ensures known { OnOk result (position (T.eq value) self.new.handed ≡ Some (Key.keys.number key)) }
        ensures kept { (other : T) (p : ℕ) → position (T.eq other) self.old.handed ≡ Some p
            → p ≢ Key.keys.number key → position (T.eq other) self.new.handed ≡ Some p }
    {
        let there = self.items.get(key)?;
        if let Some(at) = number_in(&self.index, &value) {
            if at != key.into_usize() {
                return Err(ArenaError::DuplicateItem);
            }
            return self.items.put(key, value);
        }
        let item = value.clone()?;
        exchange_at_key(&mut self.index, there, key, value)?;
        self.items.put(key, item)
    }
}
