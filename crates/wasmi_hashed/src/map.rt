//! A map whose keys are found by their hash.
ghost use Rattle.std.specs.Prelude.{◌≡◌, ◌==◌, ◌<◌, ◌^◌, ◌+◌, [], ◌∷◌, length, MatchOption, IfNone, IfOk, OnOk, OnErr, IsOk, IsSome, Some, None, is_some, option_map, option_copied, if◌then◌else◌};
ghost use Rattle.std.specs.HashMap.IterMut.{iter_mut_rest, iter_mut_name, values_mut_rest, values_mut_name, drain_rest, drain_name, DrainsInOrder, IterMutCanStep};
ghost use Rattle.std.specs.List.{IsDistinct};
ghost use Rattle.std.specs.List.Sorted.{IsPermutation};
ghost use Rattle.std.specs.Map.{keys_of, values_of, lookup_key, remove_entry, set_value};
ghost use Rattle.std.specs.Map.Calls.{CalledAtPair, TakesPair, CallableOnEachPair, RetainsPairs};
ghost use Rattle.std.specs.Map.Iter.{ShowsInOrder, GivesInOrder, deref, deref_pair};
ghost use Rattle.std.specs.Option.{option_copied_mut};
ghost use Rattle.wasmi_map_specs.specs.Errors.{FailsOnlyForMemory};
ghost use Rattle.wasmi_map_specs.specs.Maps.{value_at, ChangesAt};
ghost use Rattle.wasmi_map_specs.specs.Values.{KeepsKeys};

mod by_slice;
mod by_text;
mod compared;
mod entry;
mod grow;
mod room;
mod try_insert;

use crate::hash::FixedState;
pub use entry::{Entry, OccupiedEntry, VacantEntry};
use std::alloc::{Allocator, Global};
use std::collections::HashMap;
pub use std::collections::hash_map::{
    Drain, IntoIter, IntoKeys, IntoValues, Iter, IterMut, Keys, Values, ValuesMut,
};
use std::hash::{BuildHasher, Hash};
use std::marker::Model;
use std::ops::Index;
use wasmi_arena::ArenaError;

/// A map from keys to values, kept in unspecified order: a hash table.
///
/// ```
/// if table.contains_key(&key) {
///     return Ok(false);
/// }
/// table.insert(key, value)?;
/// Ok(true)
/// ```
#[derive(Drop)]
pub struct Map<K: Eq + Hash, V, S: BuildHasher = FixedState, A: Allocator = Global> {
    inner: HashMap<K, V, S, A>,
}

impl<K: Eq + Hash, V, S: BuildHasher, A: Allocator> Model for Map<K, V, S, A> {
    ghost use Rattle.std.specs.HashMap.{hasher_of};
    ghost use Rattle.wasmi_hashed.specs.Entries.{Entries};

    ghost Value = { Entries K V S };

    ghost view = { λ map. record { entries = map.inner.entries; hasher = hasher_of map.inner } };
}

impl<K: Eq + Hash, V, A: Allocator> Map<K, V, FixedState, A> {
    /// An empty map, which asks `alloc` for memory when an entry comes. Constant time.
    pub fn new(alloc: A) -> Self
        ensures { result.entries ≡ [] }
    {
        Map {
            inner: HashMap::new(alloc),
        }
    }
}

impl<K: Eq + Hash, V, S: BuildHasher, A: Allocator> Map<K, V, S, A> {
    ghost use Rattle.std.specs.Borrow.{sem};
    ghost use Rattle.wasmi_hashed.specs.Drained.{empties_map};
    ghost use Rattle.wasmi_hashed.specs.MapEntry.{map_of};
    ghost use Rattle.wasmi_hashed.specs.inner.MapEntry.{lends_inner};
    ghost use Rattle.wasmi_hashed.specs.MapLend.{lends_get, lends_values};

    /// An empty map whose keys are hashed by `state`, which asks `alloc` for memory when an entry comes.
    /// Constant time.
    pub fn with_hasher(alloc: A, state: S) -> Self
        ensures { result ≡ record { entries = []; hasher = state } }
    {
        Map {
            inner: HashMap::with_hasher(alloc, state),
        }
    }

    /// Drops all entries. The room is kept. Linear in the room.
    pub fn clear(&mut self)
    where
        K: Drop,
        V: Drop,
        ensures { self.new ≡ record { entries = []; hasher = self.old.hasher } }
    {
        self.inner.clear();
    }

    /// The number of entries. Constant time.
    #[inline]
    pub fn len(&self) -> usize
        ensures value { result ≡ length self.now.entries }
        ensures small { result < 2 ^ 63 }
        ensures distinct { IsDistinct K.eq (keys_of self.now.entries) }
    {
        self.inner.len()
    }

    /// Whether there is no entry. Constant time.
    #[inline]
    pub fn is_empty(&self) -> bool
        ensures { result ≡ (length self.now.entries == 0) }
    {
        self.inner.len() == 0
    }

    /// Each key with its value, in unspecified order.
    /// Linear to the end, no allocation.
    pub fn iter(&self) -> Iter<'_, K, V>
        ensures entries { result ≡ self.now.entries }
        ensures distinct { IsDistinct K.eq (keys_of self.now.entries) }
        ensures bound { length self.now.entries < 2 ^ 63 }
        ensures runs { ShowsInOrder (deref_pair {K = K} {X = V}) }
    {
        self.inner.iter()
    }

    /// Each key with its value to write to, in unspecified order.
    /// Linear to the end, no allocation.
    pub fn iter_mut(&mut self) -> IterMut<'_, K, V>
        ensures* writes_back { sem 𝓛 (lends_values K.row V.row S.row A.row S.Hasher.row K.Hash S.BuildHasher S.Hasher.Hasher A.Allocator self.entry (iter_mut_name result)) }
        ensures keeps { KeepsKeys self.old.entries }
        ensures entries { iter_mut_rest result ≡ self.old.entries }
        ensures ready { IterMutCanStep result }
        ensures distinct { IsDistinct K.eq (keys_of self.old.entries) }
        ensures bound { length self.old.entries < 2 ^ 63 }
    {
        self.inner.iter_mut()
    }

    /// The keys, in unspecified order.
    /// Linear to the end, no allocation.
    pub fn keys(&self) -> Keys<'_, K, V>
        ensures keys { result ≡ keys_of self.now.entries }
        ensures len { length result ≡ length self.now.entries }
        ensures distinct { IsDistinct K.eq result }
        ensures bound { length self.now.entries < 2 ^ 63 }
        ensures runs { ShowsInOrder (deref {X = K}) }
    {
        self.inner.keys()
    }

    /// The keys, taken out of the map, in the order of [`keys`](Map::keys). The values are dropped.
    /// Linear to the end, no allocation.
    pub fn into_keys(self) -> IntoKeys<K, V, A>
    where
        S: Drop,
        ensures keys { result ≡ keys_of self.entries }
        ensures len { length result ≡ length self.entries }
        ensures distinct { IsDistinct K.eq result }
        ensures bound { length self.entries < 2 ^ 63 }
        ensures runs { GivesInOrder K }
    {
        self.inner.into_keys()
    }

    /// The values, in the order of [`keys`](Map::keys).
    /// Linear to the end, no allocation.
    pub fn values(&self) -> Values<'_, K, V>
        ensures values { result ≡ values_of self.now.entries }
        ensures len { length result ≡ length self.now.entries }
        ensures bound { length self.now.entries < 2 ^ 63 }
        ensures runs { ShowsInOrder (deref {X = V}) }
    {
        self.inner.values()
    }

    /// The values, taken out of the map, in the order of [`keys`](Map::keys). The keys are dropped.
    /// Linear to the end, no allocation.
    pub fn into_values(self) -> IntoValues<K, V, A>
    where
        S: Drop,
        ensures values { result ≡ values_of self.entries }
        ensures len { length result ≡ length self.entries }
        ensures bound { length self.entries < 2 ^ 63 }
        ensures runs { GivesInOrder V }
    {
        self.inner.into_values()
    }

    /// The values to write to, in the order of [`keys`](Map::keys).
    /// Linear to the end, no allocation.
    pub fn values_mut(&mut self) -> ValuesMut<'_, K, V>
        ensures* writes_back { sem 𝓛 (lends_values K.row V.row S.row A.row S.Hasher.row K.Hash S.BuildHasher S.Hasher.Hasher A.Allocator self.entry (values_mut_name result)) }
        ensures keeps { KeepsKeys self.old.entries }
        ensures values { values_mut_rest result ≡ values_of self.old.entries }
        ensures len { length (values_mut_rest result) ≡ length self.old.entries }
        ensures bound { length self.old.entries < 2 ^ 63 }
    {
        self.inner.values_mut()
    }

    /// The entries, taken out of the map, in unspecified order. Once the iterator has ended the map is
    /// empty, however far it was walked: what it didn't return is dropped with it. The room goes with the
    /// entries. Never fails. Linear to the end, no allocation.
    pub fn drain(&mut self) -> Drain<'_, K, V, A>
        ensures* empties { sem 𝓛 (empties_map K.row V.row S.row A.row S.Hasher.row K.Hash S.BuildHasher S.Hasher.Hasher A.Allocator self.entry (drain_name result)) }
        ensures entries { drain_rest result ≡ self.old.entries }
        ensures distinct { IsDistinct K.eq (keys_of self.old.entries) }
        ensures bound { length self.old.entries < 2 ^ 63 }
        ensures runs { DrainsInOrder K V A }
    {
        self.inner.drain()
    }

    /// Makes room for `additional` more entries. Constant time where there is room, and else linear.
    ///
    /// Fails with `OutOfSystemMemory` if there is no memory for it, or the allocator can't be cloned, and
    /// then the map is as before.
    pub fn reserve(&mut self, additional: usize) -> Result<(), ArenaError>
    where
        A: Clone,
        ensures same { IsPermutation self.old.entries self.new.entries }
        ensures hasher { self.new.hasher ≡ self.old.hasher }
        ensures errors { FailsOnlyForMemory result }
        ensures err { OnErr result (self.new ≡ self.old) }
    {
        self.inner.reserve(additional)?;
        Ok(())
    }

    /// Whether the key is there. A `String` is looked up by
    /// [`contains_key_str`](Map::contains_key_str), a vector by [`contains_key_slice`](Map::contains_key_slice).
    /// Expected constant time, no allocation.
    #[inline]
    pub fn contains_key(&self, key: &K) -> bool
        ensures { result ≡ is_some (value_at K.eq self.now.entries key.now) }
    {
        self.inner.contains_key(key)
    }

    /// The value under a key, if there is one. A `String` is looked up by
    /// [`get_str`](Map::get_str), a vector by [`get_slice`](Map::get_slice).
    /// Expected constant time, no allocation.
    #[inline]
    pub fn get(&self, key: &K) -> Option<&V>
        ensures { option_copied result ≡ value_at K.eq self.now.entries key.now }
    {
        self.inner.get(key)
    }

    /// The key that is kept and its value, if it is there.
    /// Expected constant time, no allocation.
    #[inline]
    pub fn get_key_value(&self, key: &K) -> Option<(&K, &V)>
        ensures key { option_map (λ pair. pair.0.now) result ≡ lookup_key (K.eq key.now) self.now.entries }
        ensures value { option_map (λ pair. pair.1.now) result ≡ value_at K.eq self.now.entries key.now }
    {
        self.inner.get_key_value(key)
    }

    /// The value under a key to write to, if there is one.
    /// Expected constant time, no allocation.
    #[inline]
    pub fn get_mut(&mut self, key: &K) -> Option<&mut V>
        ensures* writes_back { sem 𝓛 (lends_get K.row V.row S.row A.row S.Hasher.row K.Hash S.BuildHasher S.Hasher.Hasher A.Allocator self.entry key.now result) }
        ensures value { option_copied_mut result ≡ value_at K.eq self.old.entries key.now }
    {
        self.inner.get_mut(key)
    }

    // The map of the standard library, lent.
    // proof: a call of its own, so that of the two only `Map::entry` is proved by hand.
    #[inline]
    fn inner_mut(&mut self) -> &mut HashMap<K, V, S, A>
        ensures* lends { sem 𝓛 (lends_inner K.row V.row S.row A.row S.Hasher.row K.Hash S.BuildHasher S.Hasher.Hasher A.Allocator self.entry result) }
        ensures now { map_of result.now ≡ self.old }
    {
        &mut self.inner
    }

    /// Puts a value under a key, and returns the one that was there. A key that is there is kept.
    /// Amortised expected constant time; asks for memory only where the key is new.
    ///
    /// Fails with `OutOfSystemMemory` if the key isn't there and there is no memory for it, or the
    /// allocator can't be cloned, and then the map is as before, and the pair is dropped.
    #[inline]
    pub fn insert(&mut self, key: K, value: V) -> Result<Option<V>, ArenaError>
    where
        K: Drop,
        V: Drop,
        A: Clone,
        ensures old { IfOk result (λ old. old ≡ value_at K.eq self.old.entries key) }
        ensures value { OnOk result (value_at K.eq self.new.entries key ≡ Some value) }
        ensures changes { OnOk result (ChangesAt K.eq self.old.entries key (Some value) self.new.entries) }
        ensures entries { IfOk result (λ old. MatchOption old
            (IsPermutation ((key, value) ∷ self.old.entries) self.new.entries)
            (λ _. self.new.entries ≡ set_value (K.eq key) self.old.entries value)) }
        ensures new { value_at K.eq self.old.entries key ≡ None
            → OnOk result (IsPermutation ((key, value) ∷ self.old.entries) self.new.entries) }
        ensures keys_stay { IfOk result (λ old. IsSome old → keys_of self.new.entries ≡ keys_of self.old.entries) }
        ensures len { IfOk result (λ old. length self.new.entries
            ≡ length self.old.entries + (if is_some old then 0 else 1)) }
        ensures hasher { self.new.hasher ≡ self.old.hasher }
        ensures absent { OnErr result (value_at K.eq self.old.entries key ≡ None) }
        ensures there { IsSome (value_at K.eq self.old.entries key) → IsOk result }
        ensures errors { FailsOnlyForMemory result }
        ensures err { OnErr result (self.new ≡ self.old) }
    {
        let old = self.inner.insert(key, value)?;
        Ok(old)
    }

    /// Takes a key out, and returns its value, if it is there. Never fails. A `String` is looked up by
    /// [`remove_str`](Map::remove_str), a vector by [`remove_slice`](Map::remove_slice).
    /// Expected constant time, no allocation.
    #[inline]
    pub fn remove(&mut self, key: &K) -> Option<V>
    where
        K: Drop,
        ensures old { result ≡ value_at K.eq self.old.entries key.now }
        ensures changes { ChangesAt K.eq self.old.entries key.now None self.new.entries }
        ensures entries { IsPermutation (remove_entry (K.eq key.now) self.old.entries) self.new.entries }
        ensures unchanged { IfNone result (self.new ≡ self.old) }
        ensures len { length self.new.entries + (if is_some result then 1 else 0) ≡ length self.old.entries }
        ensures hasher { self.new.hasher ≡ self.old.hasher }
    {
        self.inner.remove(key)
    }

    /// Takes a key out, and returns it with its value, if it is there. Never fails.
    /// Expected constant time, no allocation.
    #[inline]
    pub fn remove_entry(&mut self, key: &K) -> Option<(K, V)>
        ensures key { option_map (λ pair. pair.0) result ≡ lookup_key (K.eq key.now) self.old.entries }
        ensures value { option_map (λ pair. pair.1) result ≡ value_at K.eq self.old.entries key.now }
        ensures changes { ChangesAt K.eq self.old.entries key.now None self.new.entries }
        ensures entries { IsPermutation (remove_entry (K.eq key.now) self.old.entries) self.new.entries }
        ensures unchanged { IfNone result (self.new ≡ self.old) }
        ensures len { length self.new.entries + (if is_some result then 1 else 0) ≡ length self.old.entries }
        ensures hasher { self.new.hasher ≡ self.old.hasher }
    {
        self.inner.remove_entry(key)
    }

    /// Keeps the entries for which the closure returns `true`, and drops the others. It visits each
    /// entry once, in unspecified order, and may write to the values. Never fails. Linear, no
    /// allocation.
    pub fn retain<F: FnMut(&K, &mut V) -> bool>(&mut self, keep: F)
    where
        K: Drop,
        V: Drop,
        requires { CallableOnEachPair (CalledAtPair F.FnMut) (TakesPair F.FnMut) keep self.old.entries }
        ensures entries { RetainsPairs (CalledAtPair F.FnMut) keep self.old.entries self.new.entries }
        ensures hasher { self.new.hasher ≡ self.old.hasher }
    {
        self.inner.retain(keep);
    }
}

/// `map[&key]` is the value under the key, which is there.
/// Expected constant time, no allocation.
impl<K: Eq + Hash, V, S: BuildHasher, A: Allocator> Index<&K> for Map<K, V, S, A> {
    ghost use Rattle.std.specs.Prelude.{◌≡◌, IsSome, Some};
    ghost use Rattle.wasmi_map_specs.specs.Maps.{value_at};

    type Output = V;

    // The key is there.
    ghost can_index = { λ map key. IsSome (value_at K.eq map.entries key.now) };

    ghost index_gives = { λ map key value. value_at K.eq map.entries key.now ≡ Some value };

    fn index(&self, key: &K) -> &V {
        &self.inner[key]
    }
}

/// Each key with its value, as [`iter`](Map::iter).
impl<'a, K: Eq + Hash, V, S: BuildHasher, A: Allocator> IntoIterator for &'a Map<K, V, S, A> {
    type Item = (&'a K, &'a V);

    type IntoIter = Iter<'a, K, V>;

    ghost into_iter_gives = { λ map it. (it ≡ map.now.entries) × IsDistinct K.eq (keys_of map.now.entries) × (length map.now.entries < 2 ^ 63) };

    fn into_iter(self) -> Iter<'a, K, V> {
        self.iter()
    }
}

/// Each key with its value to write to, as [`iter_mut`](Map::iter_mut).
impl<'a, K: Eq + Hash, V, S: BuildHasher, A: Allocator> IntoIterator for &'a mut Map<K, V, S, A> {
    ghost use Rattle.std.specs.Borrow.{sem};
    ghost use Rattle.wasmi_hashed.specs.MapLend.{lends_values};

    type Item = (&'a K, &'a mut V);

    type IntoIter = IterMut<'a, K, V>;

    ghost into_iter_gives = { λ map it. (iter_mut_rest it ≡ map.now.entries) × IterMutCanStep it × IsDistinct K.eq (keys_of map.now.entries) × (length map.now.entries < 2 ^ 63) };

    fn into_iter(self) -> IterMut<'a, K, V>
        ensures* writes_back { sem 𝓛 (lends_values K.row V.row S.row A.row S.Hasher.row K.Hash S.BuildHasher S.Hasher.Hasher A.Allocator self.entry (iter_mut_name result)) }
        ensures keeps { KeepsKeys self.old.entries }
        ensures into_iter_gives { (iter_mut_rest result ≡ self.old.entries) × IterMutCanStep result × IsDistinct K.eq (keys_of self.old.entries) × (length self.old.entries < 2 ^ 63) }
    {
        self.iter_mut()
    }
}

/// The entries, taken out of the map, in unspecified order.
/// Linear to the end, no allocation.
impl<K: Eq + Hash + Drop, V: Drop, S: BuildHasher + Drop, A: Allocator> IntoIterator
    for Map<K, V, S, A> {
    type Item = (K, V);

    type IntoIter = IntoIter<K, V, A>;

    ghost into_iter_gives = { λ map it. (it ≡ map.entries) × IsDistinct K.eq (keys_of map.entries) × (length map.entries < 2 ^ 63) };

    fn into_iter(self) -> IntoIter<K, V, A> {
        self.inner.into_iter()
    }
}
