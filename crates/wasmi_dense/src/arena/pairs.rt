//! Two items of an arena in one vector at once.
ghost use Rattle.std.specs.Prelude.{◌≡◌, ◌<◌, ◌≤◌, ◌↔◌, ◌⊎◌, [], ◌∷◌, length, IfOk, IfErr, IsErrOf, slice_get, slice_set, Some};
ghost use Rattle.std.specs.Borrow.{sem, Array};
ghost use Rattle.wasmi_arena.specs.Pairs.{LendsBothIfOk};
ghost use Rattle.wasmi_arena.specs.inner.Pairs.{AreNumbers};
ghost use Rattle.wasmi_dense.specs.ArenaLend.{lends_all};
ghost use Rattle.wasmi_dense.specs.ArenaPair.{lends_both};

use super::Arena;
use crate::slice_pair::pair_within;
use std::alloc::Allocator;
use wasmi_arena::{ArenaError, ArenaKey};

// Two items of a slice, or why it has no two such items.
fn checked_pair<T>(
    items: &mut [T],
    one: usize,
    other: usize,
) -> Result<(&mut T, &mut T), ArenaError>
    ensures* writes_back { sem 𝓛 (LendsBothIfOk (Array T.row 0) T.row items.entry result
        (λ x y. slice_set (slice_set items.old one x) other y)) }
    ensures items { IfOk result (λ pair. (slice_get items.old one ≡ Some pair.0.now)
        × (slice_get items.old other ≡ Some pair.1.now)) }
    ensures out_of_bounds { IsErrOf result ArenaError.KeyOutOfBounds
        ↔ ((length items.old ≤ one) ⊎ (length items.old ≤ other)) }
    ensures aliasing { IsErrOf result ArenaError.AliasingPairAccess
        ↔ ((one < length items.old) × (one ≡ other)) }
    ensures errors { IfErr result (λ error. (error ≡ ArenaError.KeyOutOfBounds)
        ⊎ (error ≡ ArenaError.AliasingPairAccess)) }
{
    let len = items.len();
    if one >= len {
        return Err(ArenaError::KeyOutOfBounds);
    }
    if other >= len {
        return Err(ArenaError::KeyOutOfBounds);
    }
    if one == other {
        return Err(ArenaError::AliasingPairAccess);
    }
    Ok(pair_within(items, one, other))
}

// The numbers of two keys.
// proof: a call of its own, so that of the two only `get_disjoint_mut` is proved by hand.
fn numbers_of<Key: ArenaKey>(keys: [Key; 2]) -> (usize, usize)
    ensures { AreNumbers Key.keys.number keys result.0 result.1 }
{
    let [first, second] = keys;
    (first.into_usize(), second.into_usize())
}

impl<Key: ArenaKey, T, A: Allocator> Arena<Key, T, A> {
    // All items.
    // proof: a call of its own, so that of the two only `get_disjoint_mut` is proved by hand.
    fn items_mut(&mut self) -> &mut [T]
        ensures* writes_back { sem 𝓛 (lends_all Key.row T.row A.row Key.ArenaKey A.Allocator self.entry result.ghost_name) }
        ensures items { result.now ≡ self.old.items }
    {
        self.items.as_mut_slice()
    }

    /// The items under two keys to write to, in the order of the keys.
    ///
    /// Fails with `KeyOutOfBounds` if there is no item under one, and then with `AliasingPairAccess` if
    /// the keys are equal. After an error the arena is as before. Constant time.
    pub fn get_disjoint_mut(&mut self, keys: [Key; 2]) -> Result<(&mut T, &mut T), ArenaError>
        ensures* writes_back { sem 𝓛 (lends_both Key.row T.row A.row Key.ArenaKey A.Allocator self.entry keys result) }
        ensures items { (first second : Key) → keys ≡ first ∷ second ∷ [] → IfOk result (λ pair.
            (slice_get self.old.items (Key.keys.number first) ≡ Some pair.0.now)
            × (slice_get self.old.items (Key.keys.number second) ≡ Some pair.1.now)) }
        ensures out_of_bounds { (first second : Key) → keys ≡ first ∷ second ∷ []
            → (IsErrOf result ArenaError.KeyOutOfBounds
            ↔ ((length self.old.items ≤ Key.keys.number first)
            ⊎ (length self.old.items ≤ Key.keys.number second))) }
        ensures aliasing { (first second : Key) → keys ≡ first ∷ second ∷ []
            → (IsErrOf result ArenaError.AliasingPairAccess
            ↔ ((Key.keys.number first < length self.old.items)
            × (Key.keys.number first ≡ Key.keys.number second))) }
        ensures errors { IfErr result (λ error. (error ≡ ArenaError.KeyOutOfBounds)
            ⊎ (error ≡ ArenaError.AliasingPairAccess)) }
    {
        let (one, other) = numbers_of(keys);
        checked_pair(self.items_mut(), one, other)
    }
}
