//! A part of a map, and maps that are cut in two or joined.
ghost use Rattle.std.specs.Prelude.{◌≡◌, ◌<◌, ◌+◌, ◌^◌, ◌++◌, [], length, IfOk, OnOk, OnErr};
ghost use Rattle.std.specs.BTreeMap.Range.{IsLeBy, IsLtBy, entries_below, entries_from, entries_between};
ghost use Rattle.std.specs.Map.Iter.{ShowsInOrder, ShowsInReverse, deref_pair};
ghost use Rattle.std.specs.Ordering.{eq_by_cmp};
ghost use Rattle.wasmi_map_specs.specs.Errors.{FailsOnlyForMemory};
ghost use Rattle.wasmi_map_specs.specs.Maps.{InsertsAll, TakesFront};

use super::{Map, Range};
use std::alloc::Allocator;
use std::hash::Hash;
use std::ops::RangeBounds;
use wasmi_arena::ArenaError;

impl<K: Hash + Ord, V, A: Allocator> Map<K, V, A> {
    /// Each key within the bounds with its value, in the order of the keys, from either end. The start
    /// must not be above the end.
    /// Logarithmic, then linear to the end, no allocation.
    pub fn range<R: RangeBounds<K> + Drop>(&self, range: R) -> Range<'_, K, V>
        requires { R.is_forward range (IsLeBy K.cmp) (IsLtBy K.cmp) }
        ensures entries { R.has_bounds range
            → result ≡ entries_between K.cmp (R.start_bound range) (R.end_bound range) self.now }
        ensures bound { length result < 2 ^ 63 }
        ensures runs { ShowsInOrder (deref_pair {K = K} {X = V}) }
        ensures runs_back { ShowsInReverse (deref_pair {K = K} {X = V}) }
    {
        self.inner.range(range)
    }

    /// Moves the entries from a key on to a map of their own. One of the two maps is then over a clone of
    /// the allocator.
    /// Linear at most.
    ///
    /// Fails with `OutOfSystemMemory` if there is no memory or the clone of the allocator fails, and then
    /// the map is as before.
    pub fn split_off(&mut self, key: &K) -> Result<Self, ArenaError>
    where
        A: Clone,
        ensures below { OnOk result (self.new ≡ entries_below (K.cmp key.now) self.old) }
        ensures from { IfOk result (λ rest. rest ≡ entries_from (K.cmp key.now) self.old) }
        ensures parts { IfOk result (λ rest. self.old ≡ self.new ++ rest) }
        ensures errors { FailsOnlyForMemory result }
        ensures err { OnErr result (self.new ≡ self.old) }
    {
        let inner = self.inner.split_off(key)?;
        Ok(Map { inner })
    }

    /// Moves all entries of another map here, which is empty then. Under a key that is in both stands the
    /// value of the other map; one of the two keys and the value that was here are dropped.
    /// An empty map is exchanged with one that has entries, allocators included.
    /// `n log n` for `n` moved entries, or linear in both maps.
    ///
    /// Fails with `OutOfSystemMemory` if there is no memory. The entries before the one that found no
    /// memory have moved then, and the others stay in the other map.
    pub fn append(&mut self, other: &mut Self) -> Result<(), ArenaError>
    where
        K: Drop,
        V: Drop,
        A: Clone,
        ensures ok { OnOk result (InsertsAll (eq_by_cmp K.cmp) self.old other.old self.new) }
        ensures empty { OnOk result (other.new ≡ []) }
        ensures moves { TakesFront (eq_by_cmp K.cmp) self.old other.old self.new other.new }
        ensures errors { FailsOnlyForMemory result }
    {
        self.inner.append(&mut other.inner)?;
        Ok(())
    }
}
