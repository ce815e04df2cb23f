//! Calls that put several entries into a map, make one of them, or clone a map.
ghost use Rattle.std.specs.Prelude.{◌≡◌, [], List, map, IfOk, OnOk, OnErr};
ghost use Rattle.std.specs.Iterator.{IsFiniteIterable};
ghost use Rattle.std.specs.List.{AllZip};
ghost use Rattle.std.specs.Map.Iter.{deref_pair};
ghost use Rattle.wasmi_map_specs.specs.Errors.{FailsOnlyForMemory};
ghost use Rattle.wasmi_map_specs.specs.Maps.{TakesAll, TakesUntilRefused};

use super::Map;
use crate::hash::FixedState;
use std::alloc::Allocator;
use std::hash::{BuildHasher, Hash};
use wasmi_arena::ArenaError;

impl<K: Eq + Hash, V, S: BuildHasher, A: Allocator> Map<K, V, S, A> {
    /// A clone of each key and value, in a map over a clone of the allocator, with a clone of the state
    /// that hashes the keys. Linear. The contract speaks of the entries alone, not of that state.
    ///
    /// Fails with `OutOfSystemMemory` if there is no memory, the clone of a key, a value, the state or
    /// the allocator fails, or a key's clone doesn't equal it or has another hash.
    pub fn clone(&self) -> Result<Self, ArenaError>
    where
        K: Clone,
        V: Clone,
        S: Clone,
        A: Clone,
        ensures entries { IfOk result (λ map. AllZip
            (λ old new. K.is_clone old.0 new.0 × V.is_clone old.1 new.1) self.now.entries map.entries) }
        ensures errors { FailsOnlyForMemory result }
    {
        let inner = self.inner.clone()?;
        Ok(Map { inner })
    }
}

impl<K: Eq + Hash, V, S: BuildHasher, A: Allocator + Clone> Map<K, V, S, A> {
    /// Inserts copies of the keys and values, one by one.
    /// Expected linear in the pairs, and in the map where it grows.
    ///
    /// Fails as [`extend`](Map::extend) does.
    pub fn extend_ref<'a, U: IntoIterator<Item = (&'a K, &'a V)>>(
        &mut self,
        iter: U,
    ) -> Result<(), ArenaError>
    where
        K: Copy + 'a,
        V: Copy + 'a,
        requires { IsFiniteIterable U.into_iter_gives U.IntoIter.can_next U.IntoIter.remaining iter }
        ensures ok { OnOk result (TakesAll K.eq U.into_iter_gives U.IntoIter.next_gives
            (map deref_pair) iter self.old.entries self.new.entries) }
        ensures err { OnErr result (TakesUntilRefused K.eq U.into_iter_gives
            U.IntoIter.next_gives (map deref_pair) iter self.old.entries self.new.entries) }
        ensures hasher { self.new.hasher ≡ self.old.hasher }
        ensures errors { FailsOnlyForMemory result }
    {
        for (key, value) in iter {
            self.insert(*key, *value)?;
        }
        Ok(())
    }

    /// Inserts the pairs, one by one.
    /// Expected linear in the pairs, and in the map where it grows.
    ///
    /// Fails as the first [`insert`](Map::insert) that fails: the pairs before that one are in, and it
    /// is dropped with the iterator.
    pub fn extend<U: IntoIterator<Item = (K, V)>>(&mut self, iter: U) -> Result<(), ArenaError>
    where
        K: Drop,
        V: Drop,
        requires { IsFiniteIterable U.into_iter_gives U.IntoIter.can_next U.IntoIter.remaining iter }
        ensures ok { OnOk result (TakesAll K.eq U.into_iter_gives U.IntoIter.next_gives
            (λ pairs. pairs) iter self.old.entries self.new.entries) }
        ensures err { OnErr result (TakesUntilRefused K.eq U.into_iter_gives
            U.IntoIter.next_gives (λ pairs. pairs) iter self.old.entries self.new.entries) }
        ensures hasher { self.new.hasher ≡ self.old.hasher }
        ensures errors { FailsOnlyForMemory result }
    {
        for (key, value) in iter {
            self.insert(key, value)?;
        }
        Ok(())
    }
}

impl<K: Eq + Hash, V, A: Allocator + Clone> Map<K, V, FixedState, A> {
    /// The pairs, inserted one by one into an empty map.
    /// Expected linear in the pairs.
    ///
    /// Fails as the first [`insert`](Map::insert) that fails, and then drops all.
    pub fn from_iter<U: IntoIterator<Item = (K, V)>>(alloc: A, iter: U) -> Result<Self, ArenaError>
    where
        K: Drop,
        V: Drop,
        requires { IsFiniteIterable U.into_iter_gives U.IntoIter.can_next U.IntoIter.remaining iter }
        ensures ok { IfOk result (λ map. TakesAll K.eq U.into_iter_gives U.IntoIter.next_gives
            (λ pairs. pairs) iter [] map.entries) }
        ensures err { OnErr result ((held : List (K × V)) × TakesUntilRefused K.eq
            U.into_iter_gives U.IntoIter.next_gives (λ pairs. pairs) iter [] held) }
        ensures errors { FailsOnlyForMemory result }
    {
        let mut map = Map::new(alloc);
        map.extend(iter)?;
        Ok(map)
    }
}
