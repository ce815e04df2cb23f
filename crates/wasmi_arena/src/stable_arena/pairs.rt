//! Two items of a stable arena at once.
ghost use Rattle.std.specs.Prelude.{◌≡◌, ◌≢◌, ◌<◌, ◌≤◌, ◌↔◌, ◌⊎◌, [], ◌∷◌, length, IfOk, IfErr, IsErrOf, slice_get, Some};
ghost use Rattle.std.specs.Borrow.{sem};
ghost use Rattle.wasmi_arena.specs.ArenaLend.{lends_both};
ghost use Rattle.wasmi_arena.specs.inner.Pairs.{PairAnswer, AreNumbers};
ghost use Rattle.wasmi_arena.specs.inner.ArenaLend.{lends_two, lends_pair};

use super::StableArena;
use crate::{ArenaError, ArenaKey};
use std::alloc::Allocator;

impl<Key: ArenaKey, T, A: Allocator> StableArena<Key, T, A> {
    // The items at two positions that have one each.
    // proof: this, `checked_pair` and `get_disjoint_mut` stand as in the vector's file, since what is lent there
    // can't be handed on (`docs/LIMITS.md`).
    fn pair(&mut self, first: usize, second: usize) -> (&mut T, &mut T)
        requires disjoint { first ≢ second }
        requires first { first < length self.old }
        requires second { second < length self.old }
        ensures* writes_back { sem 𝓛 (lends_two Key.row T.row A.row Key.ArenaKey A.Allocator self.entry first second result) }
        ensures first { slice_get self.old first ≡ Some result.0.now }
        ensures second { slice_get self.old second ≡ Some result.1.now }
    {
        let all = self.lend();
        all.pair(first, second)
    }

    // The items at two positions, of an arena of this length.
    fn checked_pair(
        &mut self,
        len: usize,
        first: usize,
        second: usize,
    ) -> Result<(&mut T, &mut T), ArenaError>
        requires len { len ≡ length self.old }
        ensures* writes_back { sem 𝓛 (lends_pair Key.row T.row A.row Key.ArenaKey A.Allocator self.entry first second result) }
        ensures answer { PairAnswer self.old first second result }
    {
        if first == second {
            return Err(ArenaError::AliasingPairAccess);
        }
        if len <= first {
            return Err(ArenaError::KeyOutOfBounds);
        }
        if len <= second {
            return Err(ArenaError::KeyOutOfBounds);
        }
        Ok(self.pair(first, second))
    }

    // The arena itself, with its length and the numbers of the two keys.
    // proof: a call of its own, so that of the two only `get_disjoint_mut` is proved by hand.
    fn with_numbers(&mut self, keys: [Key; 2]) -> (&mut Self, usize, usize, usize)
        ensures same { result.0.ghost_name ≡ self.entry.ghost_name }
        ensures arena { result.0.now ≡ self.old }
        ensures len { result.1 ≡ length self.old }
        ensures keys { AreNumbers Key.keys.number keys result.2 result.3 }
    {
        let len = self.len();
        let [first, second] = keys;
        (self, len, first.into_usize(), second.into_usize())
    }

    /// The items under two keys to write to, in the order of the keys.
    ///
    /// Fails with `AliasingPairAccess` if the keys are equal, and then with `KeyOutOfBounds` if there is
    /// no item under one. After an error the arena is as before. Constant time.
    pub fn get_disjoint_mut(&mut self, keys: [Key; 2]) -> Result<(&mut T, &mut T), ArenaError>
        ensures* writes_back { sem 𝓛 (lends_both Key.row T.row A.row Key.ArenaKey A.Allocator self.entry keys result) }
        ensures items { (first second : Key) → keys ≡ first ∷ second ∷ [] → IfOk result (λ pair.
            (slice_get self.old (Key.keys.number first) ≡ Some pair.0.now)
            × (slice_get self.old (Key.keys.number second) ≡ Some pair.1.now)) }
        ensures aliasing { (first second : Key) → keys ≡ first ∷ second ∷ []
            → (IsErrOf result ArenaError.AliasingPairAccess
            ↔ (Key.keys.number first ≡ Key.keys.number second)) }
        ensures out_of_bounds { (first second : Key) → keys ≡ first ∷ second ∷ []
            → (IsErrOf result ArenaError.KeyOutOfBounds
            ↔ ((Key.keys.number first ≢ Key.keys.number second)
            × ((length self.old ≤ Key.keys.number first) ⊎ (length self.old ≤ Key.keys.number second)))) }
        ensures errors { IfErr result (λ error. (error ≡ ArenaError.AliasingPairAccess)
            ⊎ (error ≡ ArenaError.KeyOutOfBounds)) }
    {
        let (arena, len, first, second) = self.with_numbers(keys);
        arena.checked_pair(len, first, second)
    }
}
