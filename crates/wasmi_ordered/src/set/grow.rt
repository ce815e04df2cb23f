//! Calls that put several elements into a set, make one of them, or clone a set.
ghost use Rattle.std.specs.Prelude.{[], List, map, IfOk, OnOk, OnErr};
ghost use Rattle.std.specs.Iterator.{IsFiniteIterable};
ghost use Rattle.std.specs.List.{AllZip};
ghost use Rattle.std.specs.Map.Iter.{deref};
ghost use Rattle.std.specs.Ordering.{eq_by_cmp};
ghost use Rattle.wasmi_map_specs.specs.Errors.{FailsOnlyForMemory};
ghost use Rattle.wasmi_map_specs.specs.Sets.{TakesAll, TakesUntilRefused};

use super::Set;
use std::alloc::Allocator;
use std::hash::Hash;
use wasmi_arena::ArenaError;

impl<T: Hash + Ord, A: Allocator + Clone> Set<T, A> {
    /// A clone of each element, in a set over a clone of the allocator.
    /// Linear.
    ///
    /// Fails with `OutOfSystemMemory` if there is no memory, the clone of an element or the allocator
    /// fails, or the clones aren't in order, which clones that equal their sources are.
    pub fn clone(&self) -> Result<Self, ArenaError>
    where
        T: Clone,
        ensures elements { IfOk result (AllZip T.is_clone self.now) }
        ensures errors { FailsOnlyForMemory result }
    {
        let inner = self.inner.clone()?;
        Ok(Set { inner })
    }

    /// The elements, inserted one by one into an empty set.
    /// `n log n` for `n` elements.
    ///
    /// Fails as the first [`insert`](Set::insert) that fails, and then drops all.
    pub fn from_iter<U: IntoIterator<Item = T>>(alloc: A, iter: U) -> Result<Self, ArenaError>
    where
        T: Drop,
        requires { IsFiniteIterable U.into_iter_gives U.IntoIter.can_next U.IntoIter.remaining iter }
        ensures ok { IfOk result (TakesAll (eq_by_cmp T.cmp) U.into_iter_gives U.IntoIter.next_gives
            (λ items. items) iter []) }
        ensures err { OnErr result ((held : List T) × TakesUntilRefused (eq_by_cmp T.cmp)
            U.into_iter_gives U.IntoIter.next_gives (λ items. items) iter [] held) }
        ensures errors { FailsOnlyForMemory result }
    {
        let mut set = Set::new(alloc);
        set.extend(iter)?;
        Ok(set)
    }

    /// Inserts copies of the elements, one by one.
    /// `n log n` for `n` elements.
    ///
    /// Fails as [`extend`](Set::extend) does.
    pub fn extend_ref<'a, U: IntoIterator<Item = &'a T>>(
        &mut self,
        iter: U,
    ) -> Result<(), ArenaError>
    where
        T: Copy + 'a,
        requires { IsFiniteIterable U.into_iter_gives U.IntoIter.can_next U.IntoIter.remaining iter }
        ensures ok { OnOk result (TakesAll (eq_by_cmp T.cmp) U.into_iter_gives U.IntoIter.next_gives
            (map deref) iter self.old self.new) }
        ensures err { OnErr result (TakesUntilRefused (eq_by_cmp T.cmp) U.into_iter_gives
            U.IntoIter.next_gives (map deref) iter self.old self.new) }
        ensures errors { FailsOnlyForMemory result }
    {
        for value in iter {
            self.insert(*value)?;
        }
        Ok(())
    }

    /// Inserts the elements, one by one.
    /// `n log n` for `n` elements.
    ///
    /// Fails as the first [`insert`](Set::insert) that fails: the elements before that one are in, and
    /// it is dropped with the iterator.
    pub fn extend<U: IntoIterator<Item = T>>(&mut self, iter: U) -> Result<(), ArenaError>
    where
        T: Drop,
        requires { IsFiniteIterable U.into_iter_gives U.IntoIter.can_next U.IntoIter.remaining iter }
        ensures ok { OnOk result (TakesAll (eq_by_cmp T.cmp) U.into_iter_gives U.IntoIter.next_gives
            (λ items. items) iter self.old self.new) }
        ensures err { OnErr result (TakesUntilRefused (eq_by_cmp T.cmp) U.into_iter_gives
            U.IntoIter.next_gives (λ items. items) iter self.old self.new) }
        ensures errors { FailsOnlyForMemory result }
    {
        for value in iter {
            self.insert(value)?;
        }
        Ok(())
    }
}
