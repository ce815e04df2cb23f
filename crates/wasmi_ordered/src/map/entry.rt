//! The entry of a key in a map, found by one search.
ghost use Rattle.std.specs.Prelude.{◌≡◌, IfOk, IsOk, IsSome, OnErr, Some, None, unwrap_or};
ghost use Rattle.std.specs.Borrow.{Bor, MutBor, sem};
ghost use Rattle.std.specs.Fn.{FnOnceReturnsAt};
ghost use Rattle.std.specs.BTreeMap.{insert_entry, IsUnchanged};
ghost use Rattle.std.specs.BTreeMap.Entry.{entry_follows_ok, entry_key, entry_map_ref, entry_value, map_with_value, map_without_entry, MatchEntry};
ghost use Rattle.std.specs.Map.{lookup_key, remove_entry};
ghost use Rattle.std.specs.Map.Calls.{ModifiesValue};
ghost use Rattle.std.specs.Option.{UnwrapsOrElse};
ghost use Rattle.std.specs.Ordering.{eq_by_cmp};
ghost use Rattle.std.specs.declared.cmp.Ordering.TheVariants.{Equal};
ghost use Rattle.wasmi_map_specs.specs.Errors.{FailsOnlyForMemory};
ghost use Rattle.wasmi_map_specs.specs.Maps.{value_at};
ghost use Rattle.wasmi_ordered.specs.MapEntry.{inner_entry, lends_entry};
ghost use Rattle.wasmi_ordered.specs.inner.MapEntry.{IsEntryOf, IsOfInner, inner_rests};

mod occupied;
mod vacant;

use super::Map;
use std::alloc::{AllocFailed, Allocator, Global};
use std::collections::{BTreeMap, btree_map};
use std::default::MadeWith;
use std::hash::Hash;
use std::marker::PhantomData;
use wasmi_arena::ArenaError;

/// The entry of a key in a map: with its value, or free.
#[derive(Drop)]
pub enum Entry<'a, K: Hash + Ord, V, A: Allocator = Global> {
    /// The key is there.
    Occupied(OccupiedEntry<'a, K, V, A>),
    /// The key isn't there.
    Vacant(VacantEntry<'a, K, V, A>),
}

/// The entry of a key that is there, with its value.
#[derive(Drop)]
pub struct OccupiedEntry<'a, K: Hash + Ord, V, A: Allocator = Global> {
    entry: btree_map::OccupiedEntry<'a, K, V, A>,
    // proof: without bytes; it lets callers use the entry up (docs/LIMITS.md).
    lent: PhantomData<&'a ()>,
}

/// The entry of a key that isn't there, with room for it.
#[derive(Drop)]
pub struct VacantEntry<'a, K: Hash + Ord, V, A: Allocator = Global> {
    // proof: of this one callers can let go without a field `lent`.
    entry: btree_map::VacantEntry<'a, K, V, A>,
}

impl<K: Hash + Ord, V, A: Allocator> Map<K, V, A> {
    /// The entry of a key.
    /// Logarithmic; asks for memory only where the key is new.
    ///
    /// Fails with `OutOfSystemMemory` if the key isn't there and there is no memory for it, or the
    /// allocator can't be cloned, and then the map is as before, and the key is dropped. What is done with
    /// the entry needs no search and no memory.
    #[inline]
    pub fn entry(&mut self, key: K) -> Result<Entry<'_, K, V, A>, ArenaError>
    where
        K: Drop,
        A: Clone,
        ensures* lends { sem 𝓛 (lends_entry K.row V.row A.row (record { hash_input = K.hash_input }) K.Ord A.Allocator self.entry result) }
        ensures key { IfOk result (λ entry. entry_value (inner_entry entry) ≡ None → entry_key (inner_entry entry) ≡ key) }
        ensures same_key { IfOk result (λ entry. K.cmp key (entry_key (inner_entry entry)) ≡ Equal) }
        ensures value { IfOk result (λ entry. entry_value (inner_entry entry)
            ≡ value_at (eq_by_cmp K.cmp) self.old key) }
        ensures found { IfOk result (λ entry. MatchEntry (inner_entry entry)
            (IsSome (value_at (eq_by_cmp K.cmp) self.old key)
            × (lookup_key (eq_by_cmp K.cmp key) self.old ≡ Some (entry_key (inner_entry entry))))
            (value_at (eq_by_cmp K.cmp) self.old key ≡ None)) }
        ensures entries { IfOk result (λ entry. (entry_map_ref (inner_entry entry)).now.entries ≡ self.old) }
        ensures written { IfOk result (λ entry. (last : V) → (map_with_value (inner_entry entry) last).entries
            ≡ insert_entry K.cmp self.old key last) }
        ensures removed { IfOk result (λ entry. (map_without_entry (inner_entry entry)).entries
            ≡ remove_entry (eq_by_cmp K.cmp key) self.old) }
        ensures absent { OnErr result (value_at (eq_by_cmp K.cmp) self.old key ≡ None) }
        ensures errors { FailsOnlyForMemory result }
    {
        of_inner(entry_in(self.inner_mut(), key))
    }
}

// The entry of a key in the map of the standard library.
// proof: a call of its own, so that of the two only `Map::entry` is proved by hand.
#[inline]
fn entry_in<'a, K: Hash + Ord + Drop, V, A: Allocator + Clone>(
    inner: &'a mut BTreeMap<K, V, A>,
    key: K,
) -> Result<btree_map::Entry<'a, K, V, A>, AllocFailed<K>>
    ensures* rests { sem 𝓛 (inner_rests K.row V.row A.row A.Allocator inner.entry result) }
    ensures same_map { IfOk result (λ there. (entry_map_ref there).ghost_name ≡ inner.entry.ghost_name) }
    ensures entry { IfOk result (IsEntryOf K.cmp inner.old.entries key) }
    ensures absent { OnErr result (value_at (eq_by_cmp K.cmp) inner.old.entries key ≡ None) }
{
    inner.entry(key)
}

// What a map returns where the map of the standard library returns this.
// proof: a call of its own, so that of the two only `Map::entry` is proved by hand.
#[inline]
fn of_inner<'a, K: Hash + Ord + Drop, V, A: Allocator>(
    there: Result<btree_map::Entry<'a, K, V, A>, AllocFailed<K>>,
) -> Result<Entry<'a, K, V, A>, ArenaError>
    ensures { IsOfInner there.entry result }
{
    Ok(Entry::of(there?))
}

impl<'a, K: Hash + Ord, V, A: Allocator> Entry<'a, K, V, A> {
    // The same entry, as one of a map of this crate.
    #[inline]
    fn of(entry: btree_map::Entry<'a, K, V, A>) -> Self
        ensures { inner_entry result ≡ entry.entry }
    {
        match entry {
            btree_map::Entry::Occupied(entry) => Entry::Occupied(OccupiedEntry {
                entry,
                lent: PhantomData,
            }),
            btree_map::Entry::Vacant(entry) => Entry::Vacant(VacantEntry { entry }),
        }
    }

    // The same entry, as one of the standard library.
    // proof: a call of its own, so that only its callers are proved by hand.
    #[inline]
    fn into_inner(self) -> btree_map::Entry<'a, K, V, A>
        ensures { result ≡ inner_entry self.entry }
    {
        match self {
            Entry::Occupied(occupied) => btree_map::Entry::Occupied(occupied.entry),
            Entry::Vacant(vacant) => btree_map::Entry::Vacant(vacant.entry),
        }
    }

    /// The value that is there, or else this one, which is put in. Never fails, since the entry has
    /// room.
    /// At most logarithmic, without comparing keys; no allocation.
    #[inline]
    pub fn or_insert(self, default: V) -> Result<&'a mut V, ArenaError>
    where
        V: Drop,
        ensures* writes_back { sem 𝓛 (entry_follows_ok K.row V.row A.row A.Allocator (inner_entry self.entry) result) }
        ensures value { IfOk result (λ value. value.now ≡ unwrap_or (entry_value (inner_entry self.entry)) default) }
        ensures ok { IsOk result }
    {
        Ok(self.into_inner().or_insert(default))
    }

    /// The value that is there, or else what the closure returns, which is put in. The closure isn't
    /// called where the key is there. Never fails.
    /// At most logarithmic, without comparing keys; no allocation.
    #[inline]
    pub fn or_insert_with<F: FnOnce() -> V>(self, default: F) -> Result<&'a mut V, ArenaError>
        requires { entry_value (inner_entry self) ≡ None → F.pre default }
        ensures* writes_back { sem 𝓛 (entry_follows_ok K.row V.row A.row A.Allocator (inner_entry self.entry) result) }
        ensures value { IfOk result (λ value. UnwrapsOrElse (entry_value (inner_entry self.entry)) (F.post default) value.now) }
        ensures ok { IsOk result }
    {
        Ok(self.into_inner().or_insert_with(default))
    }

    /// As [`or_insert_with`](Entry::or_insert_with), with the key handed to the closure.
    /// At most logarithmic, without comparing keys; no allocation.
    #[inline]
    pub fn or_insert_with_key<F: FnOnce(&K) -> V>(self, default: F) -> Result<&'a mut V, ArenaError>
        requires { entry_value (inner_entry self) ≡ None → (p : Bor K) → p.now ≡ entry_key (inner_entry self) → F.pre default p }
        ensures* writes_back { sem 𝓛 (entry_follows_ok K.row V.row A.row A.Allocator (inner_entry self.entry) result) }
        ensures value { IfOk result (λ value. UnwrapsOrElse (entry_value (inner_entry self.entry))
            (FnOnceReturnsAt F.FnOnce default (entry_key (inner_entry self.entry))) value.now) }
        ensures ok { IsOk result }
    {
        Ok(self.into_inner().or_insert_with_key(default))
    }

    /// The key: the one that is kept, or else the one that was asked for.
    /// Logarithmic, without comparing keys; no allocation.
    pub fn key(&self) -> &K
        ensures { result.now ≡ entry_key (inner_entry self.now) }
    {
        match self {
            Entry::Occupied(occupied) => occupied.key(),
            Entry::Vacant(vacant) => vacant.key(),
        }
    }

    /// The same entry, with its value changed by the closure, if there is one.
    /// Logarithmic, without comparing keys; no allocation.
    #[inline]
    pub fn and_modify<F: FnOnce(&mut V)>(self, modify: F) -> Self
        requires { (p : MutBor V) → entry_value (inner_entry self) ≡ Some p.now → F.pre modify p }
        ensures same_map { (entry_map_ref (inner_entry result)).ghost_name ≡ (entry_map_ref (inner_entry self.entry)).ghost_name }
        ensures key { entry_key (inner_entry result) ≡ entry_key (inner_entry self.entry) }
        ensures value { ModifiesValue F.FnOnce modify (entry_value (inner_entry self.entry)) (entry_value (inner_entry result)) }
        ensures written { (last : V) → map_with_value (inner_entry result) last ≡ map_with_value (inner_entry self.entry) last }
        ensures removed { IsUnchanged (map_without_entry (inner_entry self.entry)) (map_without_entry (inner_entry result)) }
    {
        Entry::of(self.into_inner().and_modify(modify))
    }

    /// The value that is there, or else the default, which is put in. Never fails.
    /// At most logarithmic, without comparing keys; no allocation.
    #[inline]
    pub fn or_default(self) -> Result<&'a mut V, ArenaError>
    where
        V: MadeWith<A>,
        ensures* writes_back { sem 𝓛 (entry_follows_ok K.row V.row A.row A.Allocator (inner_entry self.entry) result) }
        ensures value { IfOk result (λ value. UnwrapsOrElse (entry_value (inner_entry self.entry)) V.is_made_with value.now) }
        ensures ok { IsOk result }
    {
        Ok(self.into_inner().or_default())
    }
}
