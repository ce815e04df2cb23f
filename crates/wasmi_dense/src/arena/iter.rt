//! The iterator over an arena in one vector.
ghost use Rattle.std.specs.Prelude.{◌≡◌, length};
ghost use Rattle.std.specs.Iterator.{YieldsFirstBy, YieldsLastBy, item_count};

use std::marker::{Model, PhantomData};
use std::slice;
use wasmi_arena::{ArenaKey, key_at};

/// The keys and items of an [`Arena`](crate::Arena) that are left to visit, in order, from both ends.
#[derive(Drop)]
pub struct Iter<'a, Key: ArenaKey, T> {
    pub(super) items: slice::Iter<'a, T>,
    // The position of the first of `items`.
    pub(super) next: usize,
    pub(super) keys: PhantomData<Key>,
}

impl<'a, Key: ArenaKey, T> Model for Iter<'a, Key, T> {
    ghost use Rattle.std.specs.Prelude.{List, ◌+◌, ◌<◌, ◌≤◌, ◌^◌, length};
    ghost use Rattle.std.specs.Slice.Iter.{iter_rest};

    ghost Value = { List (Key × T) };

    ghost use Rattle.wasmi_arena.specs.Entries.{entries_from};

    ghost view = { λ it. entries_from Key.keys it.next (iter_rest it.items) };

    // Each position that is left has a key, and the one behind them is a number too.
    ghost invariant = { λ it. (it.next + length (iter_rest it.items) ≤ Key.keys.count)
        × (it.next + length (iter_rest it.items) < 2 ^ 64) };
}

impl<'a, Key: ArenaKey, T> Iter<'a, Key, T> {
    /// How many entries are left. Constant time.
    pub fn len(&self) -> usize
        ensures { result ≡ length self.now }
    {
        self.items.len()
    }
}

impl<'a, Key: ArenaKey, T> Iterator for Iter<'a, Key, T> {
    type Item = (Key, &'a T);

    ghost next_gives = { YieldsFirstBy (λ entry. (entry.0, entry.1.now)) (λ entries. entries) };

    ghost remaining = { item_count (λ entries. entries) };

    fn next(&mut self) -> Option<(Key, &'a T)> {
        let item = self.items.next()?;
        let key = key_at(self.next);
        self.next += 1;
        Some((key, item))
    }
}

impl<'a, Key: ArenaKey, T> DoubleEndedIterator for Iter<'a, Key, T> {
    ghost next_back_gives = { YieldsLastBy (λ entry. (entry.0, entry.1.now)) (λ entries. entries) };

    #[tactic(auto, using(wasmi_arena::proofs::Entries::entries_from_last))]
    fn next_back(&mut self) -> Option<(Key, &'a T)> {
        let item = self.items.next_back()?;
        let key = key_at(self.next + self.items.len());
        Some((key, item))
    }
}
