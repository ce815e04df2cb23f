//! Look-ups by a slice, where the elements are vectors: no element has to be made for them.
ghost use Rattle.std.specs.Prelude.{◌≡◌, ◌+◌, vec_items, false, length, find, IfNone, is_some, option_copied, if◌then◌else◌};
ghost use Rattle.std.specs.Bool.{OnFalse};
ghost use Rattle.std.specs.List.Sorted.{IsPermutation};
ghost use Rattle.std.specs.Cmp.Lexicographic.{pointwise};
ghost use Rattle.std.specs.Set.{remove_key};
ghost use Rattle.wasmi_map_specs.specs.Seen.{is_seen_as, has_seen_as, ElementsChange};

use super::Set;
use std::alloc::Allocator;
use std::hash::{BuildHasher, Hash};

impl<T: Eq + Hash, B: Allocator, S: BuildHasher, A: Allocator> Set<Vec<T, B>, S, A> {
    /// Whether an element of these items is there.
    /// Expected constant time, no allocation.
    #[inline]
    pub fn contains_slice(&self, value: &[T]) -> bool
        ensures items { result ≡ has_seen_as (pointwise T.eq) vec_items self.now.elements value.now }
    {
        self.inner.contains(value)
    }

    /// The element of these items that is kept, if there is one.
    /// Expected constant time, no allocation.
    #[inline]
    pub fn get_slice(&self, value: &[T]) -> Option<&Vec<T, B>>
        ensures element { option_copied result
            ≡ find (is_seen_as (pointwise T.eq) vec_items value.now) self.now.elements }
        ensures items { is_some result
            ≡ has_seen_as (pointwise T.eq) vec_items self.now.elements value.now }
    {
        self.inner.get(value)
    }

    /// Takes the element of these items out, drops it, and returns whether it was there. Never fails.
    /// Expected constant time, no allocation.
    #[inline]
    pub fn remove_slice(&mut self, value: &[T]) -> bool
    where
        T: Drop,
        ensures items { result ≡ has_seen_as (pointwise T.eq) vec_items self.old.elements value.now }
        ensures changes { ElementsChange (pointwise T.eq) vec_items self.old.elements value.now false self.new.elements }
        ensures elements { IsPermutation (remove_key (is_seen_as (pointwise T.eq) vec_items value.now) self.old.elements) self.new.elements }
        ensures unchanged { OnFalse result (self.new ≡ self.old) }
        ensures len { length self.new.elements + (if result then 1 else 0) ≡ length self.old.elements }
        ensures hasher { self.new.hasher ≡ self.old.hasher }
    {
        self.inner.remove(value)
    }

    /// Takes the element of these items out, and returns it, if it is there. Never fails.
    /// Expected constant time, no allocation.
    #[inline]
    pub fn take_slice(&mut self, value: &[T]) -> Option<Vec<T, B>>
        ensures element { result
            ≡ find (is_seen_as (pointwise T.eq) vec_items value.now) self.old.elements }
        ensures items { is_some result
            ≡ has_seen_as (pointwise T.eq) vec_items self.old.elements value.now }
        ensures changes { ElementsChange (pointwise T.eq) vec_items self.old.elements value.now false self.new.elements }
        ensures elements { IsPermutation (remove_key (is_seen_as (pointwise T.eq) vec_items value.now) self.old.elements) self.new.elements }
        ensures unchanged { IfNone result (self.new ≡ self.old) }
        ensures len { length self.new.elements + (if is_some result then 1 else 0) ≡ length self.old.elements }
        ensures hasher { self.new.hasher ≡ self.old.hasher }
    {
        self.inner.take(value)
    }
}
