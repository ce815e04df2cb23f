//! Calls that put several elements into a set, make one of them, or clone a set.
ghost use Rattle.std.specs.Prelude.{◌≡◌, [], List, map, IfOk, OnOk, OnErr};
ghost use Rattle.std.specs.Iterator.{IsFiniteIterable};
ghost use Rattle.std.specs.List.{AllZip};
ghost use Rattle.std.specs.Map.Iter.{deref};
ghost use Rattle.wasmi_map_specs.specs.Errors.{FailsOnlyForMemory};
ghost use Rattle.wasmi_map_specs.specs.Sets.{TakesAll, TakesUntilRefused};

use super::Set;
use crate::hash::FixedState;
use std::alloc::Allocator;
use std::hash::{BuildHasher, Hash};
use wasmi_arena::ArenaError;

impl<T: Eq + Hash, S: BuildHasher, A: Allocator> Set<T, S, A> {
    /// A clone of each element, in a set over a clone of the allocator, with a clone of the state that
    /// hashes the elements. Linear. The contract speaks of the elements alone, not of that state.
    ///
    /// Fails with `OutOfSystemMemory` if there is no memory, the clone of an element, the state or the
    /// allocator fails, or an element's clone doesn't equal it or has another hash.
    pub fn clone(&self) -> Result<Self, ArenaError>
    where
        T: Clone,
        S: Clone,
        A: Clone,
        ensures elements { IfOk result (λ set. AllZip T.is_clone self.now.elements set.elements) }
        ensures errors { FailsOnlyForMemory result }
    {
        let inner = self.inner.clone()?;
        Ok(Set { inner })
    }
}

impl<T: Eq + Hash, A: Allocator + Clone> Set<T, FixedState, A> {
    /// The elements, inserted one by one into an empty set.
    /// Expected linear in the elements.
    ///
    /// Fails as the first [`insert`](Set::insert) that fails, and then drops all.
    pub fn from_iter<U: IntoIterator<Item = T>>(alloc: A, iter: U) -> Result<Self, ArenaError>
    where
        T: Drop,
        requires { IsFiniteIterable U.into_iter_gives U.IntoIter.can_next U.IntoIter.remaining iter }
        ensures ok { IfOk result (λ set. TakesAll T.eq U.into_iter_gives U.IntoIter.next_gives
            (λ items. items) iter [] set.elements) }
        ensures err { OnErr result ((held : List T) × TakesUntilRefused T.eq
            U.into_iter_gives U.IntoIter.next_gives (λ items. items) iter [] held) }
        ensures errors { FailsOnlyForMemory result }
    {
        let mut set = Set::new(alloc);
        set.extend(iter)?;
        Ok(set)
    }
}

impl<T: Eq + Hash, S: BuildHasher, A: Allocator + Clone> Set<T, S, A> {
    /// Inserts copies of the elements, one by one.
    /// Expected linear in the elements, and in the set where it grows.
    ///
    /// Fails as [`extend`](Set::extend) does.
    pub fn extend_ref<'a, U: IntoIterator<Item = &'a T>>(
        &mut self,
        iter: U,
    ) -> Result<(), ArenaError>
    where
        T: Copy + 'a,
        requires { IsFiniteIterable U.into_iter_gives U.IntoIter.can_next U.IntoIter.remaining iter }
        ensures ok { OnOk result (TakesAll T.eq U.into_iter_gives U.IntoIter.next_gives
            (map deref) iter self.old.elements self.new.elements) }
        ensures err { OnErr result (TakesUntilRefused T.eq U.into_iter_gives
            U.IntoIter.next_gives (map deref) iter self.old.elements self.new.elements) }
        ensures hasher { self.new.hasher ≡ self.old.hasher }
        ensures errors { FailsOnlyForMemory result }
    {
        for value in iter {
            self.insert(*value)?;
        }
        Ok(())
    }

    /// Inserts the elements, one by one.
    /// Expected linear in the elements, and in the set where it grows.
    ///
    /// Fails as the first [`insert`](Set::insert) that fails: the elements before that one are in, and
    /// it is dropped with the iterator.
    pub fn extend<U: IntoIterator<Item = T>>(&mut self, iter: U) -> Result<(), ArenaError>
    where
        T: Drop,
        requires { IsFiniteIterable U.into_iter_gives U.IntoIter.can_next U.IntoIter.remaining iter }
        ensures ok { OnOk result (TakesAll T.eq U.into_iter_gives U.IntoIter.next_gives
            (λ items. items) iter self.old.elements self.new.elements) }
        ensures err { OnErr result (TakesUntilRefused T.eq U.into_iter_gives
            U.IntoIter.next_gives (λ items. items) iter self.old.elements self.new.elements) }
        ensures hasher { self.new.hasher ≡ self.old.hasher }
        ensures errors { FailsOnlyForMemory result }
    {
        for value in iter {
            self.insert(value)?;
        }
        Ok(())
    }
}
