//! The call that puts a value only under a key that isn't there.
ghost use Rattle.std.specs.Prelude.{◌≡◌, ◌∷◌, Err, IfOk, IsSome, None, Ok, OnErr, OnOk, Some};
ghost use Rattle.std.specs.BTreeMap.{insert_entry};
ghost use Rattle.std.specs.List.Sorted.{IsPermutation};
ghost use Rattle.std.specs.Ordering.{eq_by_cmp};
ghost use Rattle.wasmi_map_specs.specs.Errors.{FailsOnlyForMemory};
ghost use Rattle.wasmi_map_specs.specs.Maps.{value_at, ChangesAt};

use super::Map;
use std::alloc::Allocator;
use std::collections::{BTreeMap, btree_map};
use std::hash::Hash;
use wasmi_arena::ArenaError;

impl<K: Hash + Ord, V, A: Allocator> Map<K, V, A> {
    /// Puts a value under a key that isn't there. Where the key is there nothing changes, and the value comes
    /// back in `Ok(Err(value))`. Logarithmic, one search; asks for memory only where the key is new.
    ///
    /// Fails with `OutOfSystemMemory` if the key isn't there and there is no memory for it, or the
    /// allocator can't be cloned, and then the map is as before, and the pair is dropped.
    #[inline]
    pub fn try_insert(&mut self, key: K, value: V) -> Result<Result<(), V>, ArenaError>
    where
        K: Drop,
        V: Drop,
        A: Clone,
        ensures there { IsSome (value_at (eq_by_cmp K.cmp) self.old key) → result ≡ Ok (Err value) }
        ensures unchanged { IsSome (value_at (eq_by_cmp K.cmp) self.old key) → self.new ≡ self.old }
        ensures added { value_at (eq_by_cmp K.cmp) self.old key ≡ None → IfOk result (λ put. put ≡ Ok tt) }
        ensures changes { value_at (eq_by_cmp K.cmp) self.old key ≡ None
            → OnOk result (ChangesAt (eq_by_cmp K.cmp) self.old key (Some value) self.new) }
        ensures entries { value_at (eq_by_cmp K.cmp) self.old key ≡ None
            → OnOk result (self.new ≡ insert_entry K.cmp self.old key value) }
        ensures new { value_at (eq_by_cmp K.cmp) self.old key ≡ None
            → OnOk result (IsPermutation ((key, value) ∷ self.old) self.new) }
        ensures absent { OnErr result (value_at (eq_by_cmp K.cmp) self.old key ≡ None) }
        ensures errors { FailsOnlyForMemory result }
        ensures err { OnErr result (self.new ≡ self.old) }
    {
        put_new(&mut self.inner, key, value)
    }
}

// The same of the map of the standard library.
// proof: a call of its own, since what an entry leaves is known only of a parameter's own map.
#[inline]
fn put_new<K: Ord + Drop, V: Drop, A: Allocator + Clone>(
    inner: &mut BTreeMap<K, V, A>,
    key: K,
    value: V,
) -> Result<Result<(), V>, ArenaError>
    ensures there { IsSome (value_at (eq_by_cmp K.cmp) inner.old.entries key) → result ≡ Ok (Err value) }
    ensures unchanged { IsSome (value_at (eq_by_cmp K.cmp) inner.old.entries key)
        → inner.new.entries ≡ inner.old.entries }
    ensures added { value_at (eq_by_cmp K.cmp) inner.old.entries key ≡ None → IfOk result (λ put. put ≡ Ok tt) }
    ensures changes { value_at (eq_by_cmp K.cmp) inner.old.entries key ≡ None → OnOk result
        (ChangesAt (eq_by_cmp K.cmp) inner.old.entries key (Some value) inner.new.entries) }
    ensures entries { value_at (eq_by_cmp K.cmp) inner.old.entries key ≡ None
        → OnOk result (inner.new.entries ≡ insert_entry K.cmp inner.old.entries key value) }
    ensures absent { OnErr result (value_at (eq_by_cmp K.cmp) inner.old.entries key ≡ None) }
    ensures errors { FailsOnlyForMemory result }
    ensures err { OnErr result (inner.new.entries ≡ inner.old.entries) }
{
    match inner.entry(key)? {
        btree_map::Entry::Occupied(entry) => {
            // proof: the map ends with the value that it has there.
            entry.into_mut();
            Ok(Err(value))
        }
        btree_map::Entry::Vacant(entry) => {
            entry.insert(value);
            Ok(Ok(()))
        }
    }
}
