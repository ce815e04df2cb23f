//! The call that puts a value only under a key that isn't there.
ghost use Rattle.std.specs.Prelude.{◌≡◌, ◌∷◌, Err, IfOk, IsSome, None, Ok, OnErr, OnOk, Some};
ghost use Rattle.std.specs.HashMap.{hasher_of};
ghost use Rattle.std.specs.List.Sorted.{IsPermutation};
ghost use Rattle.wasmi_map_specs.specs.Errors.{FailsOnlyForMemory};
ghost use Rattle.wasmi_map_specs.specs.Maps.{value_at, ChangesAt};

use super::Map;
use std::alloc::Allocator;
use std::collections::{HashMap, hash_map};
use std::hash::{BuildHasher, Hash};
use wasmi_arena::ArenaError;

impl<K: Eq + Hash, V, S: BuildHasher, A: Allocator> Map<K, V, S, A> {
    /// Puts a value under a key that isn't there. Where the key is there nothing changes, and the value comes
    /// back in `Ok(Err(value))`. Amortised expected constant time; the key is hashed once, and memory is asked for
    /// only where it is new.
    ///
    /// Fails with `OutOfSystemMemory` if the key isn't there and there is no memory for it, or the
    /// allocator can't be cloned, and then the map has the entries that it had, and the pair is dropped.
    #[inline]
    pub fn try_insert(&mut self, key: K, value: V) -> Result<Result<(), V>, ArenaError>
    where
        K: Drop,
        V: Drop,
        A: Clone,
        ensures there { IsSome (value_at K.eq self.old.entries key) → result ≡ Ok (Err value) }
        ensures unchanged { IsSome (value_at K.eq self.old.entries key) → self.new ≡ self.old }
        ensures added { value_at K.eq self.old.entries key ≡ None → IfOk result (λ put. put ≡ Ok tt) }
        ensures changes { value_at K.eq self.old.entries key ≡ None
            → OnOk result (ChangesAt K.eq self.old.entries key (Some value) self.new.entries) }
        ensures new { value_at K.eq self.old.entries key ≡ None
            → OnOk result (IsPermutation ((key, value) ∷ self.old.entries) self.new.entries) }
        ensures hasher { OnOk result (self.new.hasher ≡ self.old.hasher) }
        ensures absent { OnErr result (value_at K.eq self.old.entries key ≡ None) }
        ensures errors { FailsOnlyForMemory result }
        ensures err { OnErr result (self.new.entries ≡ self.old.entries) }
    {
        put_new(&mut self.inner, key, value)
    }
}

// The same of the map of the standard library.
// proof: a call of its own, since what an entry leaves is known only of a parameter's own map.
#[inline]
fn put_new<K: Eq + Hash + Drop, V: Drop, S: BuildHasher, A: Allocator + Clone>(
    inner: &mut HashMap<K, V, S, A>,
    key: K,
    value: V,
) -> Result<Result<(), V>, ArenaError>
    ensures there { IsSome (value_at K.eq inner.old.entries key) → result ≡ Ok (Err value) }
    ensures unchanged { IsSome (value_at K.eq inner.old.entries key)
        → inner.new.entries ≡ inner.old.entries }
    ensures added { value_at K.eq inner.old.entries key ≡ None → IfOk result (λ put. put ≡ Ok tt) }
    ensures changes { value_at K.eq inner.old.entries key ≡ None → OnOk result
        (ChangesAt K.eq inner.old.entries key (Some value) inner.new.entries) }
    ensures new { value_at K.eq inner.old.entries key ≡ None
        → OnOk result (IsPermutation ((key, value) ∷ inner.old.entries) inner.new.entries) }
    ensures hasher { OnOk result (hasher_of inner.new ≡ hasher_of inner.old) }
    ensures absent { OnErr result (value_at K.eq inner.old.entries key ≡ None) }
    ensures errors { FailsOnlyForMemory result }
    ensures err { OnErr result (inner.new.entries ≡ inner.old.entries) }
{
    match inner.entry(key)? {
        hash_map::Entry::Occupied(entry) => {
            // proof: the map ends with the value that it has there.
            entry.into_mut();
            Ok(Err(value))
        }
        hash_map::Entry::Vacant(entry) => {
            entry.insert(value);
            Ok(Ok(()))
        }
    }
}
