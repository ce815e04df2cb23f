//! Two items of a stable vector at once.
ghost use Rattle.std.specs.Prelude.{◌≡◌, ◌≢◌, ◌<◌, ◌≤◌, ◌↔◌, ◌⊎◌, ℕ, [], ◌∷◌, length, IfOk, IfErr, OnOk, OnErr, IsErrOf, slice_get, Some};
ghost use Rattle.std.specs.Borrow.{sem};
ghost use Rattle.wasmi_arena.specs.inner.Pairs.{PairAnswer, AreNumbers};
ghost use Rattle.std.specs.List.{swap};
ghost use Rattle.wasmi_arena.specs.VecLend.{lends_both};
ghost use Rattle.wasmi_arena.specs.inner.VecLend.{lends_two, lends_pair};

use super::StableVec;
use crate::ArenaError;
use crate::geometry::place;
use std::alloc::Allocator;

impl<T, A: Allocator> StableVec<T, A> {
    /// Exchanges the items at two indices.
    ///
    /// Fails with `AliasingPairAccess` if the indices are equal, and then with `KeyOutOfBounds` if one
    /// isn't below the length. After an error the vector is as before. Constant time.
    pub fn swap(&mut self, first: usize, second: usize) -> Result<(), ArenaError>
        ensures ok { OnOk result (self.new ≡ swap self.old first second) }
        ensures aliasing { IsErrOf result ArenaError.AliasingPairAccess ↔ (first ≡ second) }
        ensures out_of_bounds { IsErrOf result ArenaError.KeyOutOfBounds
            ↔ ((first ≢ second) × ((length self.old ≤ first) ⊎ (length self.old ≤ second))) }
        ensures errors { IfErr result (λ error. (error ≡ ArenaError.AliasingPairAccess)
            ⊎ (error ≡ ArenaError.KeyOutOfBounds)) }
        ensures err { OnErr result (self.new ≡ self.old) }
    {
        if first == second {
            return Err(ArenaError::AliasingPairAccess);
        }
        if first >= self.len || second >= self.len {
            return Err(ArenaError::KeyOutOfBounds);
        }
        let (bucket, slot) = place(first);
        let (other_bucket, other_slot) = place(second);
        self.table.swap(bucket, slot, other_bucket, other_slot);
        Ok(())
    }

    // The items at two indices that have one each.
    fn pair(&mut self, first: usize, second: usize) -> (&mut T, &mut T)
        requires disjoint { first ≢ second }
        requires first { first < length self.old }
        requires second { second < length self.old }
        ensures* writes_back { sem 𝓛 (lends_two T.row A.row A.Allocator self.entry first second result) }
        ensures first { slice_get self.old first ≡ Some result.0.now }
        ensures second { slice_get self.old second ≡ Some result.1.now }
    {
        let all = self.lend();
        all.pair(first, second)
    }

    // The items at two indices, of a vector of this length.
    fn checked_pair(
        &mut self,
        len: usize,
        first: usize,
        second: usize,
    ) -> Result<(&mut T, &mut T), ArenaError>
        requires len { len ≡ length self.old }
        ensures* writes_back { sem 𝓛 (lends_pair T.row A.row A.Allocator self.entry first second result) }
        ensures answer { PairAnswer self.old first second result }
    {
        if first == second {
            return Err(ArenaError::AliasingPairAccess);
        }
        if len <= first {
            return Err(ArenaError::KeyOutOfBounds);
        }
        if len <= second {
            return Err(ArenaError::KeyOutOfBounds);
        }
        Ok(self.pair(first, second))
    }

    // The vector itself, with its length and the two indices.
    // proof: a call of its own, so that of the two only `get_disjoint_mut` is proved by hand.
    fn with_numbers(&mut self, indices: [usize; 2]) -> (&mut Self, usize, usize, usize)
        ensures same { result.0.ghost_name ≡ self.entry.ghost_name }
        ensures vec { result.0.now ≡ self.old }
        ensures len { result.1 ≡ length self.old }
        ensures indices { AreNumbers (λ index. index) indices result.2 result.3 }
    {
        let len = self.len;
        let [first, second] = indices;
        (self, len, first, second)
    }

    /// The items at two indices to write to, in the order of the indices.
    ///
    /// Fails with `AliasingPairAccess` if the indices are equal, and then with `KeyOutOfBounds` if one
    /// isn't below the length. After an error the vector is as before. Constant time.
    pub fn get_disjoint_mut(&mut self, indices: [usize; 2]) -> Result<(&mut T, &mut T), ArenaError>
        ensures* writes_back { sem 𝓛 (lends_both T.row A.row A.Allocator self.entry indices result) }
        ensures items { (first second : ℕ) → indices ≡ first ∷ second ∷ [] → IfOk result (λ pair.
            (slice_get self.old first ≡ Some pair.0.now)
            × (slice_get self.old second ≡ Some pair.1.now)) }
        ensures aliasing { (first second : ℕ) → indices ≡ first ∷ second ∷ []
            → (IsErrOf result ArenaError.AliasingPairAccess ↔ (first ≡ second)) }
        ensures out_of_bounds { (first second : ℕ) → indices ≡ first ∷ second ∷ []
            → (IsErrOf result ArenaError.KeyOutOfBounds
            ↔ ((first ≢ second) × ((length self.old ≤ first) ⊎ (length self.old ≤ second)))) }
        ensures errors { IfErr result (λ error. (error ≡ ArenaError.AliasingPairAccess)
            ⊎ (error ≡ ArenaError.KeyOutOfBounds)) }
    {
        let (vec, len, first, second) = self.with_numbers(indices);
        vec.checked_pair(len, first, second)
    }
}
