//! A part of a set, and sets that are cut in two or joined.
ghost use Rattle.std.specs.Prelude.{◌≡◌, ◌<◌, ◌^◌, ◌++◌, [], length, IfOk, OnOk, OnErr};
ghost use Rattle.std.specs.BTreeMap.Range.{IsLeBy, IsLtBy, range_contains};
ghost use Rattle.std.specs.List.{filter};
ghost use Rattle.std.specs.Map.Iter.{ShowsInOrder, ShowsInReverse, deref};
ghost use Rattle.std.specs.Ordering.{eq_by_cmp, is_gt, is_le};
ghost use Rattle.std.specs.Set.{IsUnion};
ghost use Rattle.wasmi_map_specs.specs.Errors.{FailsOnlyForMemory};
ghost use Rattle.wasmi_map_specs.specs.Sets.{TakesFront};

use super::{Range, Set};
use std::alloc::Allocator;
use std::hash::Hash;
use std::ops::RangeBounds;
use wasmi_arena::ArenaError;

impl<T: Hash + Ord, A: Allocator> Set<T, A> {
    /// The elements within the bounds, in order, from either end. The start must not be above the end.
    /// Logarithmic, then linear to the end, no allocation.
    pub fn range<R: RangeBounds<T> + Drop>(&self, range: R) -> Range<'_, T>
        requires { R.is_forward range (IsLeBy T.cmp) (IsLtBy T.cmp) }
        ensures elements { R.has_bounds range
            → result ≡ filter (range_contains T.cmp (R.start_bound range) (R.end_bound range)) self.now }
        ensures bound { length result < 2 ^ 63 }
        ensures runs { ShowsInOrder (deref {X = T}) }
        ensures runs_back { ShowsInReverse (deref {X = T}) }
    {
        self.inner.range(range)
    }

    /// Moves the elements from one on to a set of their own. One of the two sets is then over a clone of
    /// the allocator.
    /// Linear at most.
    ///
    /// Fails with `OutOfSystemMemory` if there is no memory or the clone of the allocator fails, and then
    /// the set is as before.
    pub fn split_off(&mut self, value: &T) -> Result<Self, ArenaError>
    where
        A: Clone,
        ensures below { OnOk result (self.new ≡ filter (λ q. is_gt (T.cmp value.now q)) self.old) }
        ensures from { IfOk result (λ rest. rest ≡ filter (λ q. is_le (T.cmp value.now q)) self.old) }
        ensures parts { IfOk result (λ rest. self.old ≡ self.new ++ rest) }
        ensures errors { FailsOnlyForMemory result }
        ensures err { OnErr result (self.new ≡ self.old) }
    {
        let inner = self.inner.split_off(value)?;
        Ok(Set { inner })
    }

    /// Moves all elements of another set here, which is empty then. Of an element that is in both, one is
    /// dropped.
    /// An empty set is exchanged with one that has elements, allocators included.
    /// `n log n` for `n` moved elements, or linear in both sets.
    ///
    /// Fails with `OutOfSystemMemory` if there is no memory. The elements before the one that found no
    /// memory have moved then, and the others stay in the other set.
    pub fn append(&mut self, other: &mut Self) -> Result<(), ArenaError>
    where
        T: Drop,
        A: Clone,
        ensures ok { OnOk result (IsUnion (eq_by_cmp T.cmp) self.old other.old self.new) }
        ensures empty { OnOk result (other.new ≡ []) }
        ensures moves { TakesFront (eq_by_cmp T.cmp) self.old other.old self.new other.new }
        ensures errors { FailsOnlyForMemory result }
    {
        self.inner.append(&mut other.inner)?;
        Ok(())
    }
}
