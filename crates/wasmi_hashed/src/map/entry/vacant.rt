//! The entry of a key that isn't there, with room for it.
ghost use Rattle.std.specs.Prelude.{◌≡◌, IfOk, IsOk};
ghost use Rattle.std.specs.HashMap.Entry.{entry_follows_ok, entry_key};
ghost use Rattle.std.specs.Borrow.{sem};
ghost use Rattle.wasmi_hashed.specs.MapEntry.{inner_entry, inner_stays};
ghost use Rattle.wasmi_hashed.specs.declared.map.entry.Entry.TheVariants.{Vacant};

use super::VacantEntry;
use std::alloc::Allocator;
use std::collections::hash_map;
use std::hash::{BuildHasher, Hash};
use wasmi_arena::ArenaError;

impl<'a, K: Eq + Hash, V, S: BuildHasher, A: Allocator> VacantEntry<'a, K, V, S, A> {
    // The same entry, as one of the standard library.
    // proof: a call of its own, so that only its callers are proved by hand.
    #[inline]
    fn into_inner(self) -> hash_map::VacantEntry<'a, K, V, S, A>
        ensures { result ≡ self.entry.entry }
    {
        self.entry
    }

    /// The key that was asked for. Constant time.
    pub fn key(&self) -> &K
        ensures { result.now ≡ entry_key (inner_entry (Vacant self.now)) }
    {
        self.entry.key()
    }

    /// The key that was asked for, and the map is as before. Constant time.
    pub fn into_key(self) -> K
        ensures* unchanged { sem 𝓛 (inner_stays K.row V.row S.row A.row S.Hasher.row A.Allocator (inner_entry (Vacant self.entry))) }
        ensures key { result ≡ entry_key (inner_entry (Vacant self.entry)) }
    {
        self.into_inner().into_key()
    }

    /// Puts a value under the key. Never fails, since the entry has room.
    /// Expected constant time, no allocation.
    #[inline]
    pub fn insert(self, value: V) -> Result<&'a mut V, ArenaError>
        ensures* writes_back { sem 𝓛 (entry_follows_ok K.row V.row S.row A.row S.Hasher.row A.Allocator (inner_entry (Vacant self.entry)) result) }
        ensures value { IfOk result (λ there. there.now ≡ value) }
        ensures ok { IsOk result }
    {
        Ok(self.into_inner().insert(value))
    }
}
