//! A set whose elements are found by their hash.
ghost use Rattle.std.specs.Prelude.{◌≡◌, ◌==◌, ◌<◌, ◌^◌, ◌+◌, [], ◌∷◌, true, false, not, length, MatchOption, find, IfNone, IfOk, OnOk, OnErr, IsOk, IsTrue, is_some, option_copied, if◌then◌else◌};
ghost use Rattle.std.specs.Bool.{MatchBool, OnFalse};
ghost use Rattle.std.specs.Fn.{CalledAt};
ghost use Rattle.std.specs.HashSet.Drain.{drain_rest, drain_name, DrainsInOrder};
ghost use Rattle.std.specs.List.{IsDistinct};
ghost use Rattle.std.specs.List.Retain.{IsFiltered};
ghost use Rattle.std.specs.List.Sorted.{IsPermutation};
ghost use Rattle.std.specs.Map.Iter.{ShowsInOrder, deref};
ghost use Rattle.std.specs.Set.{is_member, remove_key, swap_key};
ghost use Rattle.wasmi_map_specs.specs.Errors.{FailsOnlyForMemory};
ghost use Rattle.wasmi_map_specs.specs.Sets.{ChangesAt};

mod algebra;
mod by_slice;
mod by_text;
mod compared;
mod grow;
mod room;

use crate::hash::FixedState;
pub use algebra::{Difference, Intersection, SymmetricDifference, Union};
use std::alloc::{Allocator, Global};
use std::collections::HashSet;
pub use std::collections::hash_set::{Drain, IntoIter, Iter};
use std::hash::{BuildHasher, Hash};
use std::marker::Model;
use wasmi_arena::ArenaError;

/// A set of elements, kept in unspecified order: a hash table.
///
/// ```
/// if !offered.contains(&name) {
///     return Ok(false);
/// }
/// taken.insert(name)?;
/// Ok(true)
/// ```
#[derive(Drop)]
pub struct Set<T: Eq + Hash, S: BuildHasher = FixedState, A: Allocator = Global> {
    inner: HashSet<T, S, A>,
}

impl<T: Eq + Hash, S: BuildHasher, A: Allocator> Model for Set<T, S, A> {
    ghost use Rattle.std.specs.HashSet.{hasher_of};
    ghost use Rattle.wasmi_hashed.specs.Entries.{Elements};

    ghost Value = { Elements T S };

    ghost view = { λ set. record { elements = set.inner.keys; hasher = hasher_of set.inner } };
}

impl<T: Eq + Hash, A: Allocator> Set<T, FixedState, A> {
    /// An empty set, which asks `alloc` for memory when an element comes. Constant time.
    pub fn new(alloc: A) -> Self
        ensures { result.elements ≡ [] }
    {
        Set {
            inner: HashSet::new(alloc),
        }
    }
}

impl<T: Eq + Hash, S: BuildHasher, A: Allocator> Set<T, S, A> {
    ghost use Rattle.std.specs.Borrow.{sem};
    ghost use Rattle.wasmi_hashed.specs.Drained.{empties_set};

    /// An empty set whose elements are hashed by `state`, which asks `alloc` for memory when an element
    /// comes. Constant time.
    pub fn with_hasher(alloc: A, state: S) -> Self
        ensures { result ≡ record { elements = []; hasher = state } }
    {
        Set {
            inner: HashSet::with_hasher(alloc, state),
        }
    }

    /// Drops all elements. The room is kept. Linear in the room.
    pub fn clear(&mut self)
    where
        T: Drop,
        ensures { self.new ≡ record { elements = []; hasher = self.old.hasher } }
    {
        self.inner.clear();
    }

    /// Keeps the elements for which the closure returns `true`, and drops the others. It visits each
    /// element once, in unspecified order. Never fails. Linear, no allocation.
    pub fn retain<F: FnMut(&T) -> bool>(&mut self, keep: F)
    where
        T: Drop,
        requires { F.IsAlwaysCallable keep }
        ensures elements { IsFiltered (CalledAt F.FnMut) keep self.old.elements self.new.elements }
        ensures hasher { self.new.hasher ≡ self.old.hasher }
    {
        self.inner.retain(keep);
    }

    /// The number of elements. Constant time.
    #[inline]
    pub fn len(&self) -> usize
        ensures value { result ≡ length self.now.elements }
        ensures small { result < 2 ^ 63 }
        ensures distinct { IsDistinct T.eq self.now.elements }
    {
        self.inner.len()
    }

    /// Whether there is no element. Constant time.
    #[inline]
    pub fn is_empty(&self) -> bool
        ensures { result ≡ (length self.now.elements == 0) }
    {
        self.inner.len() == 0
    }

    /// The elements, in unspecified order.
    /// Linear to the end, no allocation.
    pub fn iter(&self) -> Iter<'_, T>
        ensures elements { result ≡ self.now.elements }
        ensures distinct { IsDistinct T.eq self.now.elements }
        ensures bound { length self.now.elements < 2 ^ 63 }
        ensures runs { ShowsInOrder (deref {X = T}) }
    {
        self.inner.iter()
    }

    /// The elements, taken out of the set, in unspecified order. Once the iterator has ended the set is
    /// empty, however far it was walked: what it didn't return is dropped with it. The room goes with the
    /// elements. Never fails. Linear to the end, no allocation.
    pub fn drain(&mut self) -> Drain<'_, T, A>
        ensures* empties { sem 𝓛 (empties_set T.row S.row A.row S.Hasher.row T.Hash S.BuildHasher S.Hasher.Hasher A.Allocator self.entry (drain_name result)) }
        ensures elements { drain_rest result ≡ self.old.elements }
        ensures distinct { IsDistinct T.eq self.old.elements }
        ensures bound { length self.old.elements < 2 ^ 63 }
        ensures runs { DrainsInOrder T A }
    {
        self.inner.drain()
    }

    /// Makes room for `additional` more elements. Constant time where there is room, and else linear.
    ///
    /// Fails with `OutOfSystemMemory` if there is no memory for it, or the allocator can't be cloned, and
    /// then the set is as before.
    pub fn reserve(&mut self, additional: usize) -> Result<(), ArenaError>
    where
        A: Clone,
        ensures same { IsPermutation self.old.elements self.new.elements }
        ensures hasher { self.new.hasher ≡ self.old.hasher }
        ensures errors { FailsOnlyForMemory result }
        ensures err { OnErr result (self.new ≡ self.old) }
    {
        self.inner.reserve(additional)?;
        Ok(())
    }

    /// Whether the element is there.
    /// Expected constant time, no allocation.
    #[inline]
    pub fn contains(&self, value: &T) -> bool
        ensures { result ≡ is_member T.eq self.now.elements value.now }
    {
        self.inner.contains(value)
    }

    /// The element that is kept, if it is there.
    /// Expected constant time, no allocation.
    #[inline]
    pub fn get(&self, value: &T) -> Option<&T>
        ensures element { option_copied result ≡ find (T.eq value.now) self.now.elements }
        ensures there { is_some result ≡ is_member T.eq self.now.elements value.now }
    {
        self.inner.get(value)
    }

    /// Puts an element in, and returns whether it is new. An element that is there is kept.
    /// Amortised expected constant time; asks for memory only where the element is new.
    ///
    /// Fails with `OutOfSystemMemory` if it isn't there and there is no memory for it, or the allocator
    /// can't be cloned, and then the set is as before, and the element is dropped.
    #[inline]
    pub fn insert(&mut self, value: T) -> Result<bool, ArenaError>
    where
        T: Drop,
        A: Clone,
        ensures added { IfOk result (λ added. added ≡ not (is_member T.eq self.old.elements value)) }
        ensures element { OnOk result (is_member T.eq self.new.elements value ≡ true) }
        ensures changes { OnOk result (ChangesAt T.eq self.old.elements value true self.new.elements) }
        ensures elements { IfOk result (λ added. MatchBool added
            (IsPermutation (value ∷ self.old.elements) self.new.elements)
            (self.new.elements ≡ self.old.elements)) }
        ensures unchanged { IfOk result (λ added. OnFalse added (self.new ≡ self.old)) }
        ensures len { IfOk result (λ added. length self.new.elements
            ≡ length self.old.elements + (if added then 1 else 0)) }
        ensures hasher { self.new.hasher ≡ self.old.hasher }
        ensures absent { OnErr result (is_member T.eq self.old.elements value ≡ false) }
        ensures there { IsTrue (is_member T.eq self.old.elements value) → IsOk result }
        ensures errors { FailsOnlyForMemory result }
        ensures err { OnErr result (self.new ≡ self.old) }
    {
        let added = self.inner.insert(value)?;
        Ok(added)
    }

    /// Drops the element, and returns whether it was there. Never fails.
    /// Expected constant time, no allocation.
    #[inline]
    pub fn remove(&mut self, value: &T) -> bool
    where
        T: Drop,
        ensures there { result ≡ is_member T.eq self.old.elements value.now }
        ensures changes { ChangesAt T.eq self.old.elements value.now false self.new.elements }
        ensures elements { IsPermutation (remove_key (T.eq value.now) self.old.elements) self.new.elements }
        ensures unchanged { OnFalse result (self.new ≡ self.old) }
        ensures len { length self.new.elements + (if result then 1 else 0) ≡ length self.old.elements }
        ensures hasher { self.new.hasher ≡ self.old.hasher }
    {
        self.inner.remove(value)
    }

    /// Takes the element out, and returns the one that was kept, if it was there. Never fails.
    /// Expected constant time, no allocation.
    #[inline]
    pub fn take(&mut self, value: &T) -> Option<T>
        ensures element { result ≡ find (T.eq value.now) self.old.elements }
        ensures there { is_some result ≡ is_member T.eq self.old.elements value.now }
        ensures changes { ChangesAt T.eq self.old.elements value.now false self.new.elements }
        ensures elements { IsPermutation (remove_key (T.eq value.now) self.old.elements) self.new.elements }
        ensures unchanged { IfNone result (self.new ≡ self.old) }
        ensures len { length self.new.elements + (if is_some result then 1 else 0) ≡ length self.old.elements }
        ensures hasher { self.new.hasher ≡ self.old.hasher }
    {
        self.inner.take(value)
    }

    /// Puts an element in, in the place of the one that is there, and returns that one.
    /// Amortised expected constant time: one search where the element is there, and else two; asks for
    /// memory only where the element is new.
    ///
    /// Fails as [`insert`](Set::insert) does.
    #[inline]
    pub fn replace(&mut self, value: T) -> Result<Option<T>, ArenaError>
    where
        T: Drop,
        A: Clone,
        ensures old { IfOk result (λ old. old ≡ find (T.eq value) self.old.elements) }
        ensures changes { OnOk result (ChangesAt T.eq self.old.elements value true self.new.elements) }
        ensures elements { IfOk result (λ old. MatchOption old
            (IsPermutation (value ∷ self.old.elements) self.new.elements)
            (λ _. self.new.elements ≡ swap_key (T.eq value) self.old.elements value)) }
        ensures len { IfOk result (λ old. length self.new.elements
            ≡ length self.old.elements + (if is_some old then 0 else 1)) }
        ensures hasher { self.new.hasher ≡ self.old.hasher }
        ensures absent { OnErr result (is_member T.eq self.old.elements value ≡ false) }
        ensures there { IsTrue (is_member T.eq self.old.elements value) → IsOk result }
        ensures errors { FailsOnlyForMemory result }
        ensures err { OnErr result (self.new ≡ self.old) }
    {
        let old = self.inner.replace(value)?;
        Ok(old)
    }
}

/// The elements, as [`iter`](Set::iter).
impl<'a, T: Eq + Hash, S: BuildHasher, A: Allocator> IntoIterator for &'a Set<T, S, A> {
    type Item = &'a T;

    type IntoIter = Iter<'a, T>;

    ghost into_iter_gives = { λ set it. (it ≡ set.now.elements) × IsDistinct T.eq set.now.elements × (length set.now.elements < 2 ^ 63) };

    fn into_iter(self) -> Iter<'a, T> {
        self.iter()
    }
}

/// The elements, taken out of the set, in unspecified order.
/// Linear to the end, no allocation.
impl<T: Eq + Hash + Drop, S: BuildHasher + Drop, A: Allocator> IntoIterator for Set<T, S, A> {
    type Item = T;

    type IntoIter = IntoIter<T, A>;

    ghost into_iter_gives = { λ set it. (it ≡ set.elements) × IsDistinct T.eq set.elements × (length set.elements < 2 ^ 63) };

    fn into_iter(self) -> IntoIter<T, A> {
        self.inner.into_iter()
    }
}
