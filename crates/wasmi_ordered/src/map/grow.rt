//! Calls that put several entries into a map, make one of them, or clone a map.
ghost use Rattle.std.specs.Prelude.{[], List, map, IfOk, OnOk, OnErr};
ghost use Rattle.std.specs.Iterator.{IsFiniteIterable};
ghost use Rattle.std.specs.List.{AllZip};
ghost use Rattle.std.specs.Map.Iter.{deref_pair};
ghost use Rattle.std.specs.Ordering.{eq_by_cmp};
ghost use Rattle.wasmi_map_specs.specs.Errors.{FailsOnlyForMemory};
ghost use Rattle.wasmi_map_specs.specs.Maps.{TakesAll, TakesUntilRefused};

use super::Map;
use std::alloc::Allocator;
use std::hash::Hash;
use wasmi_arena::ArenaError;

impl<K: Hash + Ord, V, A: Allocator + Clone> Map<K, V, A> {
    /// A clone of each key and value, in a map over a clone of the allocator.
    /// Linear.
    ///
    /// Fails with `OutOfSystemMemory` if there is no memory, the clone of a key, a value or the
    /// allocator fails, or the clones of the keys aren't in order, which clones that equal their sources
    /// are.
    pub fn clone(&self) -> Result<Self, ArenaError>
    where
        K: Clone,
        V: Clone,
        ensures entries { IfOk result (AllZip
            (λ old new. K.is_clone old.0 new.0 × V.is_clone old.1 new.1) self.now) }
        ensures errors { FailsOnlyForMemory result }
    {
        let inner = self.inner.clone()?;
        Ok(Map { inner })
    }

    /// Inserts copies of the keys and values, one by one.
    /// `n log n` for `n` pairs.
    ///
    /// Fails as [`extend`](Map::extend) does.
    pub fn extend_ref<'a, U: IntoIterator<Item = (&'a K, &'a V)>>(
        &mut self,
        iter: U,
    ) -> Result<(), ArenaError>
    where
        K: Copy + 'a,
        V: Copy + 'a,
        requires { IsFiniteIterable U.into_iter_gives U.IntoIter.can_next U.IntoIter.remaining iter }
        ensures ok { OnOk result (TakesAll (eq_by_cmp K.cmp) U.into_iter_gives U.IntoIter.next_gives
            (map deref_pair) iter self.old self.new) }
        ensures err { OnErr result (TakesUntilRefused (eq_by_cmp K.cmp) U.into_iter_gives
            U.IntoIter.next_gives (map deref_pair) iter self.old self.new) }
        ensures errors { FailsOnlyForMemory result }
    {
        for (key, value) in iter {
            self.insert(*key, *value)?;
        }
        Ok(())
    }

    /// Inserts the pairs, one by one.
    /// `n log n` for `n` pairs.
    ///
    /// Fails as the first [`insert`](Map::insert) that fails: the pairs before that one are in, and it
    /// is dropped with the iterator.
    pub fn extend<U: IntoIterator<Item = (K, V)>>(&mut self, iter: U) -> Result<(), ArenaError>
    where
        K: Drop,
        V: Drop,
        requires { IsFiniteIterable U.into_iter_gives U.IntoIter.can_next U.IntoIter.remaining iter }
        ensures ok { OnOk result (TakesAll (eq_by_cmp K.cmp) U.into_iter_gives U.IntoIter.next_gives
            (λ pairs. pairs) iter self.old self.new) }
        ensures err { OnErr result (TakesUntilRefused (eq_by_cmp K.cmp) U.into_iter_gives
            U.IntoIter.next_gives (λ pairs. pairs) iter self.old self.new) }
        ensures errors { FailsOnlyForMemory result }
    {
        for (key, value) in iter {
            self.insert(key, value)?;
        }
        Ok(())
    }

    /// The pairs, inserted one by one into an empty map.
    /// `n log n` for `n` pairs.
    ///
    /// Fails as the first [`insert`](Map::insert) that fails, and then drops all.
    pub fn from_iter<U: IntoIterator<Item = (K, V)>>(alloc: A, iter: U) -> Result<Self, ArenaError>
    where
        K: Drop,
        V: Drop,
        requires { IsFiniteIterable U.into_iter_gives U.IntoIter.can_next U.IntoIter.remaining iter }
        ensures ok { IfOk result (TakesAll (eq_by_cmp K.cmp) U.into_iter_gives U.IntoIter.next_gives
            (λ pairs. pairs) iter []) }
        ensures err { OnErr result ((held : List (K × V)) × TakesUntilRefused (eq_by_cmp K.cmp)
            U.into_iter_gives U.IntoIter.next_gives (λ pairs. pairs) iter [] held) }
        ensures errors { FailsOnlyForMemory result }
    {
        let mut map = Map::new(alloc);
        map.extend(iter)?;
        Ok(map)
    }
}
