//! The entry of a key that is there, with its value.
ghost use Rattle.std.specs.Prelude.{◌≡◌, Some};
ghost use Rattle.std.specs.BTreeMap.Entry.{entry_follows, entry_key, entry_value, IsWritten};
ghost use Rattle.std.specs.Borrow.{sem};
ghost use Rattle.wasmi_ordered.specs.MapEntry.{inner_without, lends_held, inner_entry, with_value};
ghost use Rattle.wasmi_ordered.specs.declared.map.entry.Entry.TheVariants.{Occupied};

use super::OccupiedEntry;
use std::alloc::Allocator;
use std::collections::btree_map;
use std::hash::Hash;

impl<'a, K: Hash + Ord, V, A: Allocator> OccupiedEntry<'a, K, V, A> {
    // The same entry, as one of the standard library.
    // proof: a call of its own, so that only its callers are proved by hand.
    #[inline]
    fn into_inner(self) -> btree_map::OccupiedEntry<'a, K, V, A>
        ensures { result ≡ self.entry.entry }
    {
        self.entry
    }

    /// The key that is kept.
    /// Logarithmic, without comparing keys; no allocation.
    pub fn key(&self) -> &K
        ensures { entry_key (inner_entry (Occupied self.now)) ≡ result.now }
    {
        self.entry.key()
    }

    /// The value.
    /// Logarithmic, without comparing keys; no allocation.
    pub fn get(&self) -> &V
        ensures { Some result.now ≡ entry_value (inner_entry (Occupied self.now)) }
    {
        self.entry.get()
    }

    /// The value to write to, while the entry is kept.
    /// Logarithmic, without comparing keys; no allocation.
    pub fn get_mut(&mut self) -> &mut V
        ensures* writes_back { sem 𝓛 (lends_held K.row V.row A.row A.Allocator self.entry result) }
        ensures value { entry_value (inner_entry (Occupied self.old)) ≡ Some result.now }
        ensures written { (last : V) → IsWritten (inner_entry (Occupied self.old)) last (inner_entry (Occupied (with_value self.old last))) }
    {
        self.entry.get_mut()
    }

    /// Puts another value under the key, which stays, and returns the one that was there.
    /// Logarithmic, without comparing keys; no allocation.
    #[inline]
    pub fn insert(&mut self, value: V) -> V
        ensures was { entry_value (inner_entry (Occupied self.old)) ≡ Some result }
        ensures written { IsWritten (inner_entry (Occupied self.old)) value (inner_entry (Occupied self.new)) }
    {
        self.entry.insert(value)
    }

    /// The value to write to, for as long as the map is borrowed.
    /// Logarithmic, without comparing keys; no allocation.
    #[inline]
    pub fn into_mut(self) -> &'a mut V
        ensures* writes_back { sem 𝓛 (entry_follows K.row V.row A.row A.Allocator (inner_entry (Occupied self.entry)) result) }
        ensures value { entry_value (inner_entry (Occupied self.entry)) ≡ Some result.now }
    {
        self.into_inner().into_mut()
    }

    /// Takes the key and its value out of the map. Never fails.
    /// Logarithmic, without comparing keys; no allocation.
    #[inline]
    pub fn remove_entry(self) -> (K, V)
        ensures* removed { sem 𝓛 (inner_without K.row V.row A.row A.Allocator (inner_entry (Occupied self.entry))) }
        ensures key { result.0 ≡ entry_key (inner_entry (Occupied self.entry)) }
        ensures was { entry_value (inner_entry (Occupied self.entry)) ≡ Some result.1 }
    {
        self.into_inner().remove_entry()
    }

    /// Takes the key out of the map, and returns its value. Never fails.
    /// Logarithmic, without comparing keys; no allocation.
    #[inline]
    pub fn remove(self) -> V
    where
        K: Drop,
        ensures* removed { sem 𝓛 (inner_without K.row V.row A.row A.Allocator (inner_entry (Occupied self.entry))) }
        ensures was { entry_value (inner_entry (Occupied self.entry)) ≡ Some result }
    {
        self.into_inner().remove()
    }
}
