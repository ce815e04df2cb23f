//! What all maps have in common.
ghost use Rattle.std.specs.Prelude.{◌≡◌, Bool, List, [], length, IfOk, IfErr, is_some};
ghost use Rattle.wasmi_map_specs.specs.Maps.{value_at};
ghost use Rattle.wasmi_collections.specs.MapCalls.{PutsValue, TakesValue, AddsValue, RefusesKey};

use std::alloc::Allocator;
use std::hash::{BuildHasher, Hash};
use wasmi_arena::ArenaError;

/// A map from keys to values.
///
/// [`run_map`](super::run_map) knows no more of a map than what stands here. Each type of maps has calls
/// of its own under the same names, whose contracts say more.
pub trait AnyMap<K, V> {
    /// Which keys are equal.
    ghost eq: { K → K → Bool };

    /// The entries, in an order of the map's own.
    ghost entries: { Self → List (K × V) };

    /// Puts a value under a key, and returns the one that was there.
    ///
    /// Fails only with `OutOfSystemMemory`, and only where the key isn't there. After an error the map is
    /// as before, and the pair is dropped.
    fn insert(&mut self, key: K, value: V) -> Result<Option<V>, ArenaError>
        ensures ok { IfOk result (λ old. PutsValue eq (entries self.old) key value old (entries self.new)) }
        ensures err { IfErr result (λ error. RefusesKey eq (entries self.old) key error
            × (entries self.new ≡ entries self.old)) };

    /// Takes a key out, and returns its value, if it is there.
    fn remove(&mut self, key: &K) -> Option<V>
        ensures { TakesValue eq (entries self.old) key.now result (entries self.new) };

    /// Whether the key is there.
    fn has(&self, key: &K) -> bool
        ensures { result ≡ is_some (value_at eq (entries self.now) key.now) };

    /// Puts a value under a key if there is none, and returns whether there was one, where the pair is dropped.
    ///
    /// Fails as [`insert`](AnyMap::insert) does.
    fn or_insert(&mut self, key: K, value: V) -> Result<bool, ArenaError>
        ensures ok { IfOk result (λ found. AddsValue eq (entries self.old) key value found (entries self.new)) }
        ensures err { IfErr result (λ error. RefusesKey eq (entries self.old) key error
            × (entries self.new ≡ entries self.old)) };

    /// The number of entries.
    fn len(&self) -> usize
        ensures { result ≡ length (entries self.now) };

    /// Drops all entries.
    fn clear(&mut self)
        ensures { entries self.new ≡ [] };
}

impl<K: Hash + Ord + Drop, V: Drop, A: Allocator + Clone> AnyMap<K, V>
    for wasmi_ordered::Map<K, V, A> {
    ghost use Rattle.std.specs.Ordering.{eq_by_cmp};

    ghost eq = { eq_by_cmp K.cmp };

    ghost entries = { λ map. map };

    fn insert(&mut self, key: K, value: V) -> Result<Option<V>, ArenaError> {
        self.insert(key, value)
    }

    fn remove(&mut self, key: &K) -> Option<V> {
        self.remove(key)
    }

    fn has(&self, key: &K) -> bool {
        self.contains_key(key)
    }

    fn or_insert(&mut self, key: K, value: V) -> Result<bool, ArenaError> {
        if self.contains_key(&key) {
            return Ok(true);
        }
        self.insert(key, value)?;
        Ok(false)
    }

    fn len(&self) -> usize {
        self.len()
    }

    fn clear(&mut self) {
        self.clear();
    }
}

impl<K: Eq + Hash + Drop, V: Drop, S: BuildHasher, A: Allocator + Clone> AnyMap<K, V>
    for wasmi_hashed::Map<K, V, S, A> {
    ghost eq = { K.eq };

    ghost entries = { λ map. map.entries };

    fn insert(&mut self, key: K, value: V) -> Result<Option<V>, ArenaError> {
        self.insert(key, value)
    }

    fn remove(&mut self, key: &K) -> Option<V> {
        self.remove(key)
    }

    fn has(&self, key: &K) -> bool {
        self.contains_key(key)
    }

    fn or_insert(&mut self, key: K, value: V) -> Result<bool, ArenaError> {
        if self.contains_key(&key) {
            return Ok(true);
        }
        self.insert(key, value)?;
        Ok(false)
    }

    fn len(&self) -> usize {
        self.len()
    }

    fn clear(&mut self) {
        self.clear();
    }
}
