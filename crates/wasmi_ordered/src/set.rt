//! A set that keeps its elements in order.
ghost use Rattle.std.specs.Prelude.{◌≡◌, ◌==◌, ◌<◌, ◌^◌, ◌+◌, [], true, false, not, length, find, IfNone, IfOk, OnOk, OnErr, IsOk, IsTrue, is_some, option_copied, if◌then◌else◌};
ghost use Rattle.std.specs.BTreeSet.{insert_key, replace_key};
ghost use Rattle.std.specs.Bool.{OnFalse};
ghost use Rattle.std.specs.Fn.{CalledAt};
ghost use Rattle.std.specs.List.Retain.{IsFiltered};
ghost use Rattle.std.specs.List.Sorted.{IsStrictlySortedBy};
ghost use Rattle.std.specs.Map.Iter.{ShowsInOrder, deref};
ghost use Rattle.std.specs.Ordering.{eq_by_cmp};
ghost use Rattle.std.specs.Set.{is_member, remove_key};
ghost use Rattle.wasmi_map_specs.specs.Errors.{FailsOnlyForMemory};
ghost use Rattle.wasmi_map_specs.specs.Sets.{ChangesAt};

mod algebra;
mod by_slice;
mod by_text;
mod compared;
mod ends;
mod grow;
mod parts;

pub use algebra::{Difference, Intersection, SymmetricDifference, Union};
use std::alloc::{Allocator, Global};
use std::collections::BTreeSet;
pub use std::collections::btree_set::{IntoIter, Iter, Range};
use std::hash::Hash;
use std::marker::Model;
use wasmi_arena::ArenaError;

/// A set of elements, kept in their order: a B-tree.
///
/// ```
/// if !offered.contains(&name) {
///     return Ok(false);
/// }
/// taken.insert(name)?;
/// Ok(true)
/// ```
#[derive(Drop)]
pub struct Set<T: Hash + Ord, A: Allocator = Global> {
    inner: BTreeSet<T, A>,
}

impl<T: Hash + Ord, A: Allocator> Model for Set<T, A> {
    ghost use Rattle.std.specs.Prelude.{List};

    ghost Value = { List T };

    ghost view = { λ set. set.inner.keys };
}

impl<T: Hash + Ord, A: Allocator> Set<T, A> {
    /// An empty set, which asks `alloc` for memory when an element comes. Constant time.
    pub fn new(alloc: A) -> Self
        ensures { result ≡ [] }
    {
        Set {
            inner: BTreeSet::new(alloc),
        }
    }

    /// Drops all elements, and gives their memory back. Linear.
    pub fn clear(&mut self)
    where
        T: Drop,
        ensures { self.new ≡ [] }
    {
        self.inner.clear();
    }

    /// Keeps the elements for which the closure returns `true`, and drops the others. It visits each
    /// element once, in order. Never fails. Linear, no allocation.
    pub fn retain<F: FnMut(&T) -> bool>(&mut self, keep: F)
    where
        T: Drop,
        requires { F.IsAlwaysCallable keep }
        ensures { IsFiltered (CalledAt F.FnMut) keep self.old self.new }
    {
        self.inner.retain(keep);
    }

    /// The number of elements. Constant time.
    #[inline]
    pub fn len(&self) -> usize
        ensures value { result ≡ length self.now }
        ensures small { result < 2 ^ 63 }
        ensures ascending { IsStrictlySortedBy T.cmp self.now }
    {
        self.inner.len()
    }

    /// Whether there is no element. Constant time.
    #[inline]
    pub fn is_empty(&self) -> bool
        ensures { result ≡ (length self.now == 0) }
    {
        self.inner.len() == 0
    }

    /// The elements, in order.
    /// Linear to the end, no allocation.
    pub fn iter(&self) -> Iter<'_, T>
        ensures elements { result ≡ self.now }
        ensures ascending { IsStrictlySortedBy T.cmp self.now }
        ensures bound { length self.now < 2 ^ 63 }
        ensures runs { ShowsInOrder (deref {X = T}) }
    {
        self.inner.iter()
    }

    /// Does nothing, since elements need no room beforehand. It is here so that a hashed set can take
    /// the place. Constant time.
    pub fn reserve(&mut self, _additional: usize) -> Result<(), ArenaError>
        ensures ok { IsOk result }
        ensures same { self.new ≡ self.old }
    {
        Ok(())
    }

    /// Whether the element is there.
    /// Logarithmic, no allocation.
    #[inline]
    pub fn contains(&self, value: &T) -> bool
        ensures { result ≡ is_member (eq_by_cmp T.cmp) self.now value.now }
    {
        self.inner.contains(value)
    }

    /// The element that is kept, if it is there.
    /// Logarithmic, no allocation.
    #[inline]
    pub fn get(&self, value: &T) -> Option<&T>
        ensures element { option_copied result ≡ find (eq_by_cmp T.cmp value.now) self.now }
        ensures there { is_some result ≡ is_member (eq_by_cmp T.cmp) self.now value.now }
    {
        self.inner.get(value)
    }

    /// Puts an element in, and returns whether it is new. An element that is there is kept.
    /// Logarithmic; asks for memory only where the element is new.
    ///
    /// Fails with `OutOfSystemMemory` if it isn't there and there is no memory for it, and then the set
    /// is as before, and the element is dropped.
    #[inline]
    pub fn insert(&mut self, value: T) -> Result<bool, ArenaError>
    where
        T: Drop,
        A: Clone,
        ensures added { IfOk result (λ added. added ≡ not (is_member (eq_by_cmp T.cmp) self.old value)) }
        ensures element { OnOk result (is_member (eq_by_cmp T.cmp) self.new value ≡ true) }
        ensures changes { OnOk result (ChangesAt (eq_by_cmp T.cmp) self.old value true self.new) }
        ensures elements { OnOk result (self.new ≡ insert_key T.cmp self.old value) }
        ensures unchanged { IfOk result (λ added. OnFalse added (self.new ≡ self.old)) }
        ensures len { IfOk result (λ added. length self.new
            ≡ length self.old + (if added then 1 else 0)) }
        ensures absent { OnErr result (is_member (eq_by_cmp T.cmp) self.old value ≡ false) }
        ensures there { IsTrue (is_member (eq_by_cmp T.cmp) self.old value) → IsOk result }
        ensures errors { FailsOnlyForMemory result }
        ensures err { OnErr result (self.new ≡ self.old) }
    {
        let added = self.inner.insert(value)?;
        Ok(added)
    }

    /// Drops the element, and returns whether it was there. Never fails.
    /// Logarithmic, no allocation.
    #[inline]
    pub fn remove(&mut self, value: &T) -> bool
    where
        T: Drop,
        ensures there { result ≡ is_member (eq_by_cmp T.cmp) self.old value.now }
        ensures changes { ChangesAt (eq_by_cmp T.cmp) self.old value.now false self.new }
        ensures elements { self.new ≡ remove_key (eq_by_cmp T.cmp value.now) self.old }
        ensures unchanged { OnFalse result (self.new ≡ self.old) }
        ensures len { length self.new + (if result then 1 else 0) ≡ length self.old }
    {
        self.inner.remove(value)
    }

    /// Takes the element out, and returns the one that was kept, if it was there. Never fails.
    /// Logarithmic, no allocation.
    #[inline]
    pub fn take(&mut self, value: &T) -> Option<T>
        ensures element { result ≡ find (eq_by_cmp T.cmp value.now) self.old }
        ensures there { is_some result ≡ is_member (eq_by_cmp T.cmp) self.old value.now }
        ensures changes { ChangesAt (eq_by_cmp T.cmp) self.old value.now false self.new }
        ensures elements { self.new ≡ remove_key (eq_by_cmp T.cmp value.now) self.old }
        ensures unchanged { IfNone result (self.new ≡ self.old) }
        ensures len { length self.new + (if is_some result then 1 else 0) ≡ length self.old }
    {
        self.inner.take(value)
    }

    /// Puts an element in, in the place of the one that is there, and returns that one.
    /// Logarithmic: one search where the element is there, and else two; asks for memory only where the
    /// element is new.
    ///
    /// Fails as [`insert`](Set::insert) does.
    #[inline]
    pub fn replace(&mut self, value: T) -> Result<Option<T>, ArenaError>
    where
        T: Drop,
        A: Clone,
        ensures old { IfOk result (λ old. old ≡ find (eq_by_cmp T.cmp value) self.old) }
        ensures changes { OnOk result (ChangesAt (eq_by_cmp T.cmp) self.old value true self.new) }
        ensures elements { OnOk result (self.new ≡ replace_key T.cmp self.old value) }
        ensures len { IfOk result (λ old. length self.new
            ≡ length self.old + (if is_some old then 0 else 1)) }
        ensures absent { OnErr result (is_member (eq_by_cmp T.cmp) self.old value ≡ false) }
        ensures there { IsTrue (is_member (eq_by_cmp T.cmp) self.old value) → IsOk result }
        ensures errors { FailsOnlyForMemory result }
        ensures err { OnErr result (self.new ≡ self.old) }
    {
        let old = self.inner.replace(value)?;
        Ok(old)
    }
}

/// The elements, as [`iter`](Set::iter).
impl<'a, T: Hash + Ord, A: Allocator> IntoIterator for &'a Set<T, A> {
    type Item = &'a T;

    type IntoIter = Iter<'a, T>;

    ghost into_iter_gives = { λ set it. (it ≡ set.now) × IsStrictlySortedBy T.cmp set.now × (length set.now < 2 ^ 63) };

    fn into_iter(self) -> Iter<'a, T> {
        self.iter()
    }
}

/// The elements, taken out of the set, in order.
/// Linear to the end, no allocation.
impl<T: Hash + Ord + Drop, A: Allocator> IntoIterator for Set<T, A> {
    type Item = T;

    type IntoIter = IntoIter<T, A>;

    ghost into_iter_gives = { λ set it. (it ≡ set) × IsStrictlySortedBy T.cmp set × (length set < 2 ^ 63) };

    fn into_iter(self) -> IntoIter<T, A> {
        self.inner.into_iter()
    }
}
