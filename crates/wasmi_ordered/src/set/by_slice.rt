//! Look-ups by a slice, where the elements are vectors: no element has to be made for them.
ghost use Rattle.std.specs.Prelude.{◌≡◌, ◌+◌, vec_items, false, length, find, IfNone, is_some, option_copied, if◌then◌else◌};
ghost use Rattle.std.specs.Bool.{OnFalse};
ghost use Rattle.std.specs.Cmp.Lexicographic.{slice_cmp};
ghost use Rattle.std.specs.Ordering.{eq_by_cmp};
ghost use Rattle.std.specs.Set.{remove_key};
ghost use Rattle.wasmi_map_specs.specs.Seen.{is_seen_as, has_seen_as, ElementsChange};

use super::Set;
use std::alloc::Allocator;
use std::hash::Hash;

impl<T: Ord + Hash, B: Allocator, A: Allocator> Set<Vec<T, B>, A> {
    /// Whether an element of these items is there.
    /// Logarithmic, no allocation.
    #[inline]
    pub fn contains_slice(&self, value: &[T]) -> bool
        ensures items { result ≡ has_seen_as (eq_by_cmp (slice_cmp T.cmp)) vec_items self.now value.now }
    {
        self.inner.contains(value)
    }

    /// The element of these items that is kept, if there is one.
    /// Logarithmic, no allocation.
    #[inline]
    pub fn get_slice(&self, value: &[T]) -> Option<&Vec<T, B>>
        ensures element { option_copied result
            ≡ find (is_seen_as (eq_by_cmp (slice_cmp T.cmp)) vec_items value.now) self.now }
        ensures items { is_some result
            ≡ has_seen_as (eq_by_cmp (slice_cmp T.cmp)) vec_items self.now value.now }
    {
        self.inner.get(value)
    }

    /// Takes the element of these items out, drops it, and returns whether it was there. Never fails.
    /// Logarithmic, no allocation.
    #[inline]
    pub fn remove_slice(&mut self, value: &[T]) -> bool
    where
        T: Drop,
        ensures items { result ≡ has_seen_as (eq_by_cmp (slice_cmp T.cmp)) vec_items self.old value.now }
        ensures changes { ElementsChange (eq_by_cmp (slice_cmp T.cmp)) vec_items self.old value.now false self.new }
        ensures elements { self.new
            ≡ remove_key (is_seen_as (eq_by_cmp (slice_cmp T.cmp)) vec_items value.now) self.old }
        ensures unchanged { OnFalse result (self.new ≡ self.old) }
        ensures len { length self.new + (if result then 1 else 0) ≡ length self.old }
    {
        self.inner.remove(value)
    }

    /// Takes the element of these items out, and returns it, if it is there. Never fails.
    /// Logarithmic, no allocation.
    #[inline]
    pub fn take_slice(&mut self, value: &[T]) -> Option<Vec<T, B>>
        ensures element { result
            ≡ find (is_seen_as (eq_by_cmp (slice_cmp T.cmp)) vec_items value.now) self.old }
        ensures items { is_some result
            ≡ has_seen_as (eq_by_cmp (slice_cmp T.cmp)) vec_items self.old value.now }
        ensures changes { ElementsChange (eq_by_cmp (slice_cmp T.cmp)) vec_items self.old value.now false self.new }
        ensures elements { self.new
            ≡ remove_key (is_seen_as (eq_by_cmp (slice_cmp T.cmp)) vec_items value.now) self.old }
        ensures unchanged { IfNone result (self.new ≡ self.old) }
        ensures len { length self.new + (if is_some result then 1 else 0) ≡ length self.old }
    {
        self.inner.take(value)
    }
}
