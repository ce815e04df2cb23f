//! A map that keeps its keys in order.
ghost use Rattle.std.specs.Prelude.{◌≡◌, ◌==◌, ◌<◌, ◌^◌, ◌+◌, [], ◌∷◌, length, IfNone, IfOk, OnOk, OnErr, IsOk, IsSome, Some, None, is_some, option_map, option_copied, if◌then◌else◌};
ghost use Rattle.std.specs.BTreeMap.{insert_entry};
ghost use Rattle.std.specs.BTreeMap.IterMut.{iter_mut_rest, iter_mut_name, values_mut_rest, values_mut_name, IterMutCanStep};
ghost use Rattle.std.specs.List.Sorted.{IsPermutation, IsStrictlySortedBy};
ghost use Rattle.std.specs.Map.{keys_of, values_of, lookup_key, remove_entry};
ghost use Rattle.std.specs.Map.Calls.{CalledAtPair, TakesPair, CallableOnEachPair, RetainsPairs};
ghost use Rattle.std.specs.Map.Iter.{ShowsInOrder, GivesInOrder, deref, deref_pair};
ghost use Rattle.std.specs.Option.{option_copied_mut};
ghost use Rattle.std.specs.Ordering.{eq_by_cmp};
ghost use Rattle.wasmi_map_specs.specs.Errors.{FailsOnlyForMemory};
ghost use Rattle.wasmi_map_specs.specs.Maps.{value_at, ChangesAt};
ghost use Rattle.wasmi_map_specs.specs.Values.{KeepsKeys};

mod by_slice;
mod by_text;
mod compared;
mod ends;
mod entry;
mod grow;
mod parts;
mod try_insert;

pub use entry::{Entry, OccupiedEntry, VacantEntry};
use std::alloc::{Allocator, Global};
use std::collections::BTreeMap;
pub use std::collections::btree_map::{
    IntoIter, IntoKeys, IntoValues, Iter, IterMut, Keys, Range, Values, ValuesMut,
};
use std::hash::Hash;
use std::marker::Model;
use std::ops::Index;
use wasmi_arena::ArenaError;

/// A map from keys to values, kept in the order of its keys: a B-tree.
///
/// ```
/// if table.contains_key(&key) {
///     return Ok(false);
/// }
/// table.insert(key, value)?;
/// Ok(true)
/// ```
#[derive(Drop)]
pub struct Map<K: Hash + Ord, V, A: Allocator = Global> {
    inner: BTreeMap<K, V, A>,
}

impl<K: Hash + Ord, V, A: Allocator> Model for Map<K, V, A> {
    ghost use Rattle.std.specs.Prelude.{List};

    ghost Value = { List (K × V) };

    ghost view = { λ map. map.inner.entries };
}

impl<K: Hash + Ord, V, A: Allocator> Map<K, V, A> {
    ghost use Rattle.std.specs.Borrow.{sem};
    ghost use Rattle.wasmi_ordered.specs.inner.MapEntry.{lends_inner};
    ghost use Rattle.wasmi_ordered.specs.MapLend.{lends_get, lends_values};

    /// An empty map, which asks `alloc` for memory when an entry comes. Constant time.
    pub fn new(alloc: A) -> Self
        ensures { result ≡ [] }
    {
        Map {
            inner: BTreeMap::new(alloc),
        }
    }

    /// Drops all entries, and gives their memory back. Linear.
    pub fn clear(&mut self)
    where
        K: Drop,
        V: Drop,
        ensures { self.new ≡ [] }
    {
        self.inner.clear();
    }

    /// The number of entries. Constant time.
    #[inline]
    pub fn len(&self) -> usize
        ensures value { result ≡ length self.now }
        ensures small { result < 2 ^ 63 }
        ensures ascending { IsStrictlySortedBy K.cmp (keys_of self.now) }
    {
        self.inner.len()
    }

    /// Whether there is no entry. Constant time.
    #[inline]
    pub fn is_empty(&self) -> bool
        ensures { result ≡ (length self.now == 0) }
    {
        self.inner.len() == 0
    }

    /// Each key with its value, in the order of the keys.
    /// Linear to the end, no allocation.
    pub fn iter(&self) -> Iter<'_, K, V>
        ensures entries { result ≡ self.now }
        ensures ascending { IsStrictlySortedBy K.cmp (keys_of self.now) }
        ensures bound { length self.now < 2 ^ 63 }
        ensures runs { ShowsInOrder (deref_pair {K = K} {X = V}) }
    {
        self.inner.iter()
    }

    /// Each key with its value to write to, in the order of the keys.
    /// Linear to the end, no allocation.
    pub fn iter_mut(&mut self) -> IterMut<'_, K, V>
        ensures* writes_back { sem 𝓛 (lends_values K.row V.row A.row (record { hash_input = K.hash_input }) K.Ord A.Allocator self.entry (iter_mut_name result)) }
        ensures keeps { KeepsKeys self.old }
        ensures entries { iter_mut_rest result ≡ self.old }
        ensures ready { IterMutCanStep result }
        ensures ascending { IsStrictlySortedBy K.cmp (keys_of self.old) }
        ensures bound { length self.old < 2 ^ 63 }
    {
        self.inner.iter_mut()
    }

    /// The keys, in order.
    /// Linear to the end, no allocation.
    pub fn keys(&self) -> Keys<'_, K, V>
        ensures keys { result ≡ keys_of self.now }
        ensures len { length result ≡ length self.now }
        ensures ascending { IsStrictlySortedBy K.cmp result }
        ensures bound { length self.now < 2 ^ 63 }
        ensures runs { ShowsInOrder (deref {X = K}) }
    {
        self.inner.keys()
    }

    /// The keys, taken out of the map, in the order of [`keys`](Map::keys). The values are dropped.
    /// Linear to the end, no allocation.
    pub fn into_keys(self) -> IntoKeys<K, V, A>
        ensures keys { result ≡ keys_of self }
        ensures len { length result ≡ length self }
        ensures ascending { IsStrictlySortedBy K.cmp result }
        ensures bound { length self < 2 ^ 63 }
        ensures runs { GivesInOrder K }
    {
        self.inner.into_keys()
    }

    /// The values, in the order of [`keys`](Map::keys).
    /// Linear to the end, no allocation.
    pub fn values(&self) -> Values<'_, K, V>
        ensures values { result ≡ values_of self.now }
        ensures len { length result ≡ length self.now }
        ensures bound { length self.now < 2 ^ 63 }
        ensures runs { ShowsInOrder (deref {X = V}) }
    {
        self.inner.values()
    }

    /// The values, taken out of the map, in the order of [`keys`](Map::keys). The keys are dropped.
    /// Linear to the end, no allocation.
    pub fn into_values(self) -> IntoValues<K, V, A>
        ensures values { result ≡ values_of self }
        ensures len { length result ≡ length self }
        ensures bound { length self < 2 ^ 63 }
        ensures runs { GivesInOrder V }
    {
        self.inner.into_values()
    }

    /// The values to write to, in the order of [`keys`](Map::keys).
    /// Linear to the end, no allocation.
    pub fn values_mut(&mut self) -> ValuesMut<'_, K, V>
        ensures* writes_back { sem 𝓛 (lends_values K.row V.row A.row (record { hash_input = K.hash_input }) K.Ord A.Allocator self.entry (values_mut_name result)) }
        ensures keeps { KeepsKeys self.old }
        ensures values { values_mut_rest result ≡ values_of self.old }
        ensures len { length (values_mut_rest result) ≡ length self.old }
        ensures bound { length self.old < 2 ^ 63 }
    {
        self.inner.values_mut()
    }

    /// Does nothing, since entries need no room beforehand. It is here so that a hashed map can take the
    /// place. Constant time.
    pub fn reserve(&mut self, _additional: usize) -> Result<(), ArenaError>
        ensures ok { IsOk result }
        ensures same { self.new ≡ self.old }
    {
        Ok(())
    }

    /// Whether the key is there. A `String` is looked up by
    /// [`contains_key_str`](Map::contains_key_str), a vector by [`contains_key_slice`](Map::contains_key_slice).
    /// Logarithmic, no allocation.
    #[inline]
    pub fn contains_key(&self, key: &K) -> bool
        ensures { result ≡ is_some (value_at (eq_by_cmp K.cmp) self.now key.now) }
    {
        self.inner.contains_key(key)
    }

    /// The value under a key, if there is one. A `String` is looked up by
    /// [`get_str`](Map::get_str), a vector by [`get_slice`](Map::get_slice).
    /// Logarithmic, no allocation.
    #[inline]
    pub fn get(&self, key: &K) -> Option<&V>
        ensures { option_copied result ≡ value_at (eq_by_cmp K.cmp) self.now key.now }
    {
        self.inner.get(key)
    }

    /// The key that is kept and its value, if it is there.
    /// Logarithmic, no allocation.
    #[inline]
    pub fn get_key_value(&self, key: &K) -> Option<(&K, &V)>
        ensures key { option_map (λ pair. pair.0.now) result
            ≡ lookup_key (eq_by_cmp K.cmp key.now) self.now }
        ensures value { option_map (λ pair. pair.1.now) result
            ≡ value_at (eq_by_cmp K.cmp) self.now key.now }
    {
        self.inner.get_key_value(key)
    }

    /// The value under a key to write to, if there is one.
    /// Logarithmic, no allocation.
    #[inline]
    pub fn get_mut(&mut self, key: &K) -> Option<&mut V>
        ensures* writes_back { sem 𝓛 (lends_get K.row V.row A.row (record { hash_input = K.hash_input }) K.Ord A.Allocator self.entry key.now result) }
        ensures value { option_copied_mut result ≡ value_at (eq_by_cmp K.cmp) self.old key.now }
    {
        self.inner.get_mut(key)
    }

    // The map of the standard library, lent.
    // proof: a call of its own, so that of the two only `Map::entry` is proved by hand.
    #[inline]
    fn inner_mut(&mut self) -> &mut BTreeMap<K, V, A>
        ensures* lends { sem 𝓛 (lends_inner K.row V.row A.row (record { hash_input = K.hash_input }) K.Ord A.Allocator self.entry result) }
        ensures entries { result.now.entries ≡ self.old }
    {
        &mut self.inner
    }

    /// Puts a value under a key, and returns the one that was there. A key that is there is kept.
    /// Logarithmic; asks for memory only where the key is new.
    ///
    /// Fails with `OutOfSystemMemory` if the key isn't there and there is no memory for it, and then the
    /// map is as before, and the pair is dropped.
    #[inline]
    pub fn insert(&mut self, key: K, value: V) -> Result<Option<V>, ArenaError>
    where
        K: Drop,
        V: Drop,
        A: Clone,
        ensures old { IfOk result (λ old. old ≡ value_at (eq_by_cmp K.cmp) self.old key) }
        ensures value { OnOk result (value_at (eq_by_cmp K.cmp) self.new key ≡ Some value) }
        ensures changes { OnOk result (ChangesAt (eq_by_cmp K.cmp) self.old key (Some value) self.new) }
        ensures entries { OnOk result (self.new ≡ insert_entry K.cmp self.old key value) }
        ensures new { value_at (eq_by_cmp K.cmp) self.old key ≡ None
            → OnOk result (IsPermutation ((key, value) ∷ self.old) self.new) }
        ensures keys_stay { IfOk result (λ old. IsSome old → keys_of self.new ≡ keys_of self.old) }
        ensures len { IfOk result (λ old. length self.new
            ≡ length self.old + (if is_some old then 0 else 1)) }
        ensures absent { OnErr result (value_at (eq_by_cmp K.cmp) self.old key ≡ None) }
        ensures there { IsSome (value_at (eq_by_cmp K.cmp) self.old key) → IsOk result }
        ensures errors { FailsOnlyForMemory result }
        ensures err { OnErr result (self.new ≡ self.old) }
    {
        let old = self.inner.insert(key, value)?;
        Ok(old)
    }

    /// Takes a key out, and returns its value, if it is there. Never fails. A `String` is looked up by
    /// [`remove_str`](Map::remove_str), a vector by [`remove_slice`](Map::remove_slice).
    /// Logarithmic, no allocation.
    #[inline]
    pub fn remove(&mut self, key: &K) -> Option<V>
    where
        K: Drop,
        ensures old { result ≡ value_at (eq_by_cmp K.cmp) self.old key.now }
        ensures changes { ChangesAt (eq_by_cmp K.cmp) self.old key.now None self.new }
        ensures entries { self.new ≡ remove_entry (eq_by_cmp K.cmp key.now) self.old }
        ensures unchanged { IfNone result (self.new ≡ self.old) }
        ensures len { length self.new + (if is_some result then 1 else 0) ≡ length self.old }
    {
        self.inner.remove(key)
    }

    /// Takes a key out, and returns it with its value, if it is there. Never fails.
    /// Logarithmic, no allocation.
    #[inline]
    pub fn remove_entry(&mut self, key: &K) -> Option<(K, V)>
        ensures key { option_map (λ pair. pair.0) result
            ≡ lookup_key (eq_by_cmp K.cmp key.now) self.old }
        ensures value { option_map (λ pair. pair.1) result
            ≡ value_at (eq_by_cmp K.cmp) self.old key.now }
        ensures changes { ChangesAt (eq_by_cmp K.cmp) self.old key.now None self.new }
        ensures entries { self.new ≡ remove_entry (eq_by_cmp K.cmp key.now) self.old }
        ensures unchanged { IfNone result (self.new ≡ self.old) }
        ensures len { length self.new + (if is_some result then 1 else 0) ≡ length self.old }
    {
        self.inner.remove_entry(key)
    }

    /// Keeps the entries for which the closure returns `true`, and drops the others. It visits each
    /// entry once, in the order of the keys, and may write to the values. Never fails. Linear, no
    /// allocation.
    pub fn retain<F: FnMut(&K, &mut V) -> bool>(&mut self, keep: F)
    where
        K: Drop,
        V: Drop,
        requires { CallableOnEachPair (CalledAtPair F.FnMut) (TakesPair F.FnMut) keep self.old }
        ensures { RetainsPairs (CalledAtPair F.FnMut) keep self.old self.new }
    {
        self.inner.retain(keep);
    }
}

/// `map[&key]` is the value under the key, which is there.
/// Logarithmic, no allocation.
impl<K: Hash + Ord, V, A: Allocator> Index<&K> for Map<K, V, A> {
    ghost use Rattle.std.specs.Prelude.{◌≡◌, IsSome, Some};
    ghost use Rattle.std.specs.Ordering.{eq_by_cmp};
    ghost use Rattle.wasmi_map_specs.specs.Maps.{value_at};

    type Output = V;

    // The key is there.
    ghost can_index = { λ map key. IsSome (value_at (eq_by_cmp K.cmp) map key.now) };

    ghost index_gives = { λ map key value. value_at (eq_by_cmp K.cmp) map key.now ≡ Some value };

    fn index(&self, key: &K) -> &V {
        &self.inner[key]
    }
}

/// Each key with its value, as [`iter`](Map::iter).
impl<'a, K: Hash + Ord, V, A: Allocator> IntoIterator for &'a Map<K, V, A> {
    type Item = (&'a K, &'a V);

    type IntoIter = Iter<'a, K, V>;

    ghost into_iter_gives = { λ map it. (it ≡ map.now) × IsStrictlySortedBy K.cmp (keys_of map.now) × (length map.now < 2 ^ 63) };

    fn into_iter(self) -> Iter<'a, K, V> {
        self.iter()
    }
}

/// Each key with its value to write to, as [`iter_mut`](Map::iter_mut).
impl<'a, K: Hash + Ord, V, A: Allocator> IntoIterator for &'a mut Map<K, V, A> {
    ghost use Rattle.std.specs.Borrow.{sem};
    ghost use Rattle.wasmi_ordered.specs.MapLend.{lends_values};

    type Item = (&'a K, &'a mut V);

    type IntoIter = IterMut<'a, K, V>;

    ghost into_iter_gives = { λ map it. (iter_mut_rest it ≡ map.now) × IterMutCanStep it × IsStrictlySortedBy K.cmp (keys_of map.now) × (length map.now < 2 ^ 63) };

    fn into_iter(self) -> IterMut<'a, K, V>
        ensures* writes_back { sem 𝓛 (lends_values K.row V.row A.row (record { hash_input = K.hash_input }) K.Ord A.Allocator self.entry (iter_mut_name result)) }
        ensures keeps { KeepsKeys self.old }
        ensures into_iter_gives { (iter_mut_rest result ≡ self.old) × IterMutCanStep result × IsStrictlySortedBy K.cmp (keys_of self.old) × (length self.old < 2 ^ 63) }
    {
        self.iter_mut()
    }
}

/// The entries, taken out of the map, in the order of the keys.
/// Linear to the end, no allocation.
impl<K: Hash + Ord + Drop, V: Drop, A: Allocator> IntoIterator for Map<K, V, A> {
    type Item = (K, V);

    type IntoIter = IntoIter<K, V, A>;

    ghost into_iter_gives = { λ map it. (it ≡ map) × IsStrictlySortedBy K.cmp (keys_of map) × (length map < 2 ^ 63) };

    fn into_iter(self) -> IntoIter<K, V, A> {
        self.inner.into_iter()
    }
}
