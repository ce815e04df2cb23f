//! Look-ups by a slice, where the keys are vectors: no key has to be made for them.
ghost use Rattle.std.specs.Prelude.{◌≡◌, ◌+◌, vec_items, length, None, IfNone, is_some, option_map, option_copied, if◌then◌else◌};
ghost use Rattle.std.specs.Cmp.Lexicographic.{slice_cmp};
ghost use Rattle.std.specs.Map.{lookup_key, remove_entry};
ghost use Rattle.std.specs.Option.{option_copied_mut};
ghost use Rattle.std.specs.Ordering.{eq_by_cmp};
ghost use Rattle.wasmi_map_specs.specs.Seen.{is_seen_as, value_seen_as, EntriesChange};

use super::Map;
use std::alloc::Allocator;
use std::hash::Hash;

impl<T: Ord + Hash, B: Allocator, V, A: Allocator> Map<Vec<T, B>, V, A> {
    ghost use Rattle.std.specs.Borrow.{sem};
    ghost use Rattle.wasmi_ordered.specs.MapLend.{lends_items};

    /// Whether a key of these items is there.
    /// Logarithmic, no allocation.
    #[inline]
    pub fn contains_key_slice(&self, key: &[T]) -> bool
        ensures items { result
            ≡ is_some (value_seen_as (eq_by_cmp (slice_cmp T.cmp)) vec_items self.now key.now) }
    {
        self.inner.contains_key(key)
    }

    /// The value under the key of these items, if there is one.
    /// Logarithmic, no allocation.
    #[inline]
    pub fn get_slice(&self, key: &[T]) -> Option<&V>
        ensures items { option_copied result
            ≡ value_seen_as (eq_by_cmp (slice_cmp T.cmp)) vec_items self.now key.now }
    {
        self.inner.get(key)
    }

    /// The key of these items that is kept and its value, if it is there.
    /// Logarithmic, no allocation.
    #[inline]
    pub fn get_key_value_slice(&self, key: &[T]) -> Option<(&Vec<T, B>, &V)>
        ensures key { option_map (λ pair. pair.0.now) result
            ≡ lookup_key (is_seen_as (eq_by_cmp (slice_cmp T.cmp)) vec_items key.now) self.now }
        ensures items { option_map (λ pair. pair.1.now) result
            ≡ value_seen_as (eq_by_cmp (slice_cmp T.cmp)) vec_items self.now key.now }
    {
        self.inner.get_key_value(key)
    }

    /// The value under the key of these items to write to, if there is one.
    /// Logarithmic, no allocation.
    #[inline]
    pub fn get_mut_slice(&mut self, key: &[T]) -> Option<&mut V>
        ensures* writes_back { sem 𝓛 (lends_items T.row B.row V.row A.row (record { hash_input = T.hash_input }) T.Ord B.Allocator A.Allocator self.entry key.now result) }
        ensures items { option_copied_mut result
            ≡ value_seen_as (eq_by_cmp (slice_cmp T.cmp)) vec_items self.old key.now }
    {
        self.inner.get_mut(key)
    }

    /// Takes the key of these items out, and returns its value, if it is there. Never fails.
    /// Logarithmic, no allocation.
    #[inline]
    pub fn remove_slice(&mut self, key: &[T]) -> Option<V>
    where
        T: Drop,
        ensures items { result
            ≡ value_seen_as (eq_by_cmp (slice_cmp T.cmp)) vec_items self.old key.now }
        ensures changes { EntriesChange (eq_by_cmp (slice_cmp T.cmp)) vec_items self.old key.now None self.new }
        ensures entries { self.new
            ≡ remove_entry (is_seen_as (eq_by_cmp (slice_cmp T.cmp)) vec_items key.now) self.old }
        ensures unchanged { IfNone result (self.new ≡ self.old) }
        ensures len { length self.new + (if is_some result then 1 else 0) ≡ length self.old }
    {
        self.inner.remove(key)
    }

    /// Takes the key of these items out, and returns it with its value, if it is there. Never fails.
    /// Logarithmic, no allocation.
    #[inline]
    pub fn remove_entry_slice(&mut self, key: &[T]) -> Option<(Vec<T, B>, V)>
        ensures key { option_map (λ pair. pair.0) result
            ≡ lookup_key (is_seen_as (eq_by_cmp (slice_cmp T.cmp)) vec_items key.now) self.old }
        ensures items { option_map (λ pair. pair.1) result
            ≡ value_seen_as (eq_by_cmp (slice_cmp T.cmp)) vec_items self.old key.now }
        ensures changes { EntriesChange (eq_by_cmp (slice_cmp T.cmp)) vec_items self.old key.now None self.new }
        ensures entries { self.new
            ≡ remove_entry (is_seen_as (eq_by_cmp (slice_cmp T.cmp)) vec_items key.now) self.old }
        ensures unchanged { IfNone result (self.new ≡ self.old) }
        ensures len { length self.new + (if is_some result then 1 else 0) ≡ length self.old }
    {
        self.inner.remove_entry(key)
    }
}
