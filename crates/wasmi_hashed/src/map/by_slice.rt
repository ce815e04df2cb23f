//! Look-ups by a slice, where the keys are vectors: no key has to be made for them.
ghost use Rattle.std.specs.Prelude.{◌≡◌, ◌+◌, vec_items, length, None, IfNone, is_some, option_map, option_copied, if◌then◌else◌};
ghost use Rattle.std.specs.List.Sorted.{IsPermutation};
ghost use Rattle.std.specs.Cmp.Lexicographic.{pointwise};
ghost use Rattle.std.specs.Map.{lookup_key, remove_entry};
ghost use Rattle.std.specs.Option.{option_copied_mut};
ghost use Rattle.wasmi_map_specs.specs.Seen.{is_seen_as, value_seen_as, EntriesChange};

use super::Map;
use std::alloc::Allocator;
use std::hash::{BuildHasher, Hash};

impl<T: Eq + Hash, B: Allocator, V, S: BuildHasher, A: Allocator> Map<Vec<T, B>, V, S, A> {
    ghost use Rattle.std.specs.Borrow.{sem};
    ghost use Rattle.wasmi_hashed.specs.MapLend.{lends_items};

    /// Whether a key of these items is there.
    /// Expected constant time, no allocation.
    #[inline]
    pub fn contains_key_slice(&self, key: &[T]) -> bool
        ensures items { result
            ≡ is_some (value_seen_as (pointwise T.eq) vec_items self.now.entries key.now) }
    {
        self.inner.contains_key(key)
    }

    /// The value under the key of these items, if there is one.
    /// Expected constant time, no allocation.
    #[inline]
    pub fn get_slice(&self, key: &[T]) -> Option<&V>
        ensures items { option_copied result
            ≡ value_seen_as (pointwise T.eq) vec_items self.now.entries key.now }
    {
        self.inner.get(key)
    }

    /// The key of these items that is kept and its value, if it is there.
    /// Expected constant time, no allocation.
    #[inline]
    pub fn get_key_value_slice(&self, key: &[T]) -> Option<(&Vec<T, B>, &V)>
        ensures key { option_map (λ pair. pair.0.now) result
            ≡ lookup_key (is_seen_as (pointwise T.eq) vec_items key.now) self.now.entries }
        ensures items { option_map (λ pair. pair.1.now) result
            ≡ value_seen_as (pointwise T.eq) vec_items self.now.entries key.now }
    {
        self.inner.get_key_value(key)
    }

    /// The value under the key of these items to write to, if there is one.
    /// Expected constant time, no allocation.
    #[inline]
    pub fn get_mut_slice(&mut self, key: &[T]) -> Option<&mut V>
        ensures* writes_back { sem 𝓛 (lends_items T.row B.row V.row S.row A.row S.Hasher.row T.Hash B.Allocator S.BuildHasher S.Hasher.Hasher A.Allocator self.entry key.now result) }
        ensures items { option_copied_mut result
            ≡ value_seen_as (pointwise T.eq) vec_items self.old.entries key.now }
    {
        self.inner.get_mut(key)
    }

    /// Takes the key of these items out, and returns its value, if it is there. Never fails.
    /// Expected constant time, no allocation.
    #[inline]
    pub fn remove_slice(&mut self, key: &[T]) -> Option<V>
    where
        T: Drop,
        ensures items { result
            ≡ value_seen_as (pointwise T.eq) vec_items self.old.entries key.now }
        ensures changes { EntriesChange (pointwise T.eq) vec_items self.old.entries key.now None self.new.entries }
        ensures entries { IsPermutation (remove_entry (is_seen_as (pointwise T.eq) vec_items key.now) self.old.entries) self.new.entries }
        ensures unchanged { IfNone result (self.new ≡ self.old) }
        ensures len { length self.new.entries + (if is_some result then 1 else 0) ≡ length self.old.entries }
        ensures hasher { self.new.hasher ≡ self.old.hasher }
    {
        self.inner.remove(key)
    }

    /// Takes the key of these items out, and returns it with its value, if it is there. Never fails.
    /// Expected constant time, no allocation.
    #[inline]
    pub fn remove_entry_slice(&mut self, key: &[T]) -> Option<(Vec<T, B>, V)>
        ensures key { option_map (λ pair. pair.0) result
            ≡ lookup_key (is_seen_as (pointwise T.eq) vec_items key.now) self.old.entries }
        ensures items { option_map (λ pair. pair.1) result
            ≡ value_seen_as (pointwise T.eq) vec_items self.old.entries key.now }
        ensures changes { EntriesChange (pointwise T.eq) vec_items self.old.entries key.now None self.new.entries }
        ensures entries { IsPermutation (remove_entry (is_seen_as (pointwise T.eq) vec_items key.now) self.old.entries) self.new.entries }
        ensures unchanged { IfNone result (self.new ≡ self.old) }
        ensures len { length self.new.entries + (if is_some result then 1 else 0) ≡ length self.old.entries }
        ensures hasher { self.new.hasher ≡ self.old.hasher }
    {
        self.inner.remove_entry(key)
    }
}
