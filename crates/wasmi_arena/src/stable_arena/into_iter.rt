//! The iterator that takes the items out of a stable arena.
ghost use Rattle.std.specs.Prelude.{◌≡◌, length};
ghost use Rattle.std.specs.Iterator.{YieldsFirstBy, YieldsLastBy, item_count};
ghost use Rattle.wasmi_arena.specs.Entries.{entries};

use super::StableArena;
use crate::{ArenaKey, StableVecIntoIter, key_at};
use std::alloc::{Allocator, Global};
use std::marker::{Model, PhantomData};

/// The keys and items of a [`StableArena`](crate::StableArena) that are left to take out, in order,
/// from both ends.
///
/// The items that are left when it ends are dropped.
#[derive(Drop)]
pub struct StableArenaIntoIter<Key: ArenaKey, T, A: Allocator = Global> {
    items: StableVecIntoIter<T, A>,
    // The position of the first of `items`.
    next: usize,
    keys: PhantomData<Key>,
}

impl<Key: ArenaKey, T, A: Allocator> Model for StableArenaIntoIter<Key, T, A> {
    ghost use Rattle.std.specs.Prelude.{List, ◌+◌, ◌≤◌, length};

    ghost Value = { List (Key × T) };

    ghost use Rattle.wasmi_arena.specs.Arena.{stable_limit};
    ghost use Rattle.wasmi_arena.specs.Entries.{entries_from};

    ghost view = { λ it. entries_from Key.keys it.next it.items };

    // Each position that is left has a key.
    ghost invariant = { λ it. it.next + length it.items ≤ stable_limit Key.keys };
}

impl<Key: ArenaKey, T: Drop, A: Allocator> StableArenaIntoIter<Key, T, A> {
    /// How many entries are left. Constant time.
    pub fn len(&self) -> usize
        ensures { result ≡ length self.now }
    {
        self.items.len()
    }
}

impl<Key: ArenaKey, T: Drop, A: Allocator> Iterator for StableArenaIntoIter<Key, T, A> {
    type Item = (Key, T);

    ghost next_gives = { YieldsFirstBy (λ entry. entry) (λ entries. entries) };

    ghost remaining = { item_count (λ entries. entries) };

    fn next(&mut self) -> Option<(Key, T)> {
        let item = self.items.next()?;
        let key = key_at(self.next);
        self.next += 1;
        Some((key, item))
    }
}

impl<Key: ArenaKey, T: Drop, A: Allocator> DoubleEndedIterator for StableArenaIntoIter<Key, T, A> {
    ghost next_back_gives = { YieldsLastBy (λ entry. entry) (λ entries. entries) };

    fn next_back(&mut self) -> Option<(Key, T)> {
        let item = self.items.next_back()?;
        let key = key_at(self.next + self.items.len());
        Some((key, item))
    }
}

/// Each key with its item, taken out of the arena, in order. No memory is asked for.
impl<Key: ArenaKey, T: Drop, A: Allocator> IntoIterator for StableArena<Key, T, A> {
    type Item = (Key, T);

    type IntoIter = StableArenaIntoIter<Key, T, A>;

    ghost into_iter_gives = { λ arena it. it ≡ entries Key.keys arena };

    fn into_iter(self) -> StableArenaIntoIter<Key, T, A> {
        StableArenaIntoIter {
            items: self.items.into_iter(),
            next: 0,
            keys: PhantomData,
        }
    }
}
