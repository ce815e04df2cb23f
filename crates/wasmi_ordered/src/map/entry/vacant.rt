//! The entry of a key that isn't there, with room for it.
ghost use Rattle.std.specs.Prelude.{◌≡◌, IfOk, IsOk};
ghost use Rattle.std.specs.BTreeMap.Entry.{entry_follows_ok, entry_key};
ghost use Rattle.std.specs.Borrow.{sem};
ghost use Rattle.wasmi_ordered.specs.MapEntry.{inner_entry};
ghost use Rattle.wasmi_ordered.specs.declared.map.entry.Entry.TheVariants.{Vacant};

use super::VacantEntry;
use std::alloc::Allocator;
use std::collections::btree_map;
use std::hash::Hash;
use wasmi_arena::ArenaError;

impl<'a, K: Hash + Ord, V, A: Allocator> VacantEntry<'a, K, V, A> {
    // The same entry, as one of the standard library.
    // proof: a call of its own, so that only its callers are proved by hand.
    #[inline]
    fn into_inner(self) -> btree_map::VacantEntry<'a, K, V, A>
        ensures { result ≡ self.entry.entry }
    {
        self.entry
    }

    /// The key that was asked for. Constant time.
    pub fn key(&self) -> &K
        ensures { result.now ≡ entry_key (inner_entry (Vacant self.now)) }
    {
        self.entry.key()
    }

    /// The key that was asked for, and the map is as before. Constant time.
    pub fn into_key(self) -> K
        ensures { result ≡ entry_key (inner_entry (Vacant self.entry)) }
    {
        self.entry.into_key()
    }

    /// Puts a value under the key. Never fails, since the entry has room.
    /// At most logarithmic, without comparing keys; no allocation.
    #[inline]
    pub fn insert(self, value: V) -> Result<&'a mut V, ArenaError>
        ensures* writes_back { sem 𝓛 (entry_follows_ok K.row V.row A.row A.Allocator (inner_entry (Vacant self.entry)) result) }
        ensures value { IfOk result (λ there. there.now ≡ value) }
        ensures ok { IsOk result }
    {
        Ok(self.into_inner().insert(value))
    }
}
