//! The iterator that takes the items out of an arena in one vector.
ghost use Rattle.std.specs.Prelude.{◌≡◌, ◌<◌, ◌^◌, length};
ghost use Rattle.std.specs.Iterator.{YieldsFirstBy, YieldsLastBy, item_count};
ghost use Rattle.wasmi_arena.specs.Entries.{entries};

use super::Arena;
use std::alloc::{Allocator, Global};
use std::collections::VecDeque;
use std::marker::{Model, PhantomData};
use wasmi_arena::{ArenaKey, key_at};

/// The keys and items of an [`Arena`](crate::Arena) that are left to take out, in order, from both ends.
///
/// The items that are left when it ends are dropped.
#[derive(Drop)]
pub struct IntoIter<Key: ArenaKey, T, A: Allocator = Global> {
    items: VecDeque<T, A>,
    // The position of the first of `items`.
    next: usize,
    keys: PhantomData<Key>,
}

impl<Key: ArenaKey, T, A: Allocator> Model for IntoIter<Key, T, A> {
    ghost use Rattle.std.specs.Prelude.{List, ◌≡◌, ◌+◌, ◌<◌, ◌≤◌, ◌^◌, length};
    ghost use Rattle.std.specs.VecDeque.{deque_len};

    ghost Value = { List (Key × T) };

    ghost use Rattle.wasmi_arena.specs.Entries.{entries_from};

    ghost view = { λ it. entries_from Key.keys it.next it.items.items };

    // Each position that is left has a key, and the one behind them is a number too.
    ghost invariant = { λ it. (it.next + length it.items.items ≤ Key.keys.count)
        × (it.next + length it.items.items < 2 ^ 64)
        × (deque_len it.items ≡ length it.items.items) };
}

impl<Key: ArenaKey, T: Drop, A: Allocator> IntoIter<Key, T, A> {
    /// How many entries are left. Constant time.
    pub fn len(&self) -> usize
        ensures { result ≡ length self.now }
    {
        self.items.len()
    }
}

impl<Key: ArenaKey, T: Drop, A: Allocator> Iterator for IntoIter<Key, T, A> {
    type Item = (Key, T);

    ghost next_gives = { YieldsFirstBy (λ entry. entry) (λ entries. entries) };

    ghost remaining = { item_count (λ entries. entries) };

    fn next(&mut self) -> Option<(Key, T)> {
        let item = self.items.pop_front()?;
        let key = key_at(self.next);
        self.next += 1;
        Some((key, item))
    }
}

impl<Key: ArenaKey, T: Drop, A: Allocator> DoubleEndedIterator for IntoIter<Key, T, A> {
    ghost next_back_gives = { YieldsLastBy (λ entry. entry) (λ entries. entries) };

    #[tactic(auto, using(wasmi_arena::proofs::Entries::entries_from_last))]
    fn next_back(&mut self) -> Option<(Key, T)> {
        let item = self.items.pop_back()?;
        let key = key_at(self.next + self.items.len());
        Some((key, item))
    }
}

/// Each key with its item, taken out of the arena, in order. No memory is asked for.
impl<Key: ArenaKey, T: Drop, A: Allocator> IntoIterator for Arena<Key, T, A> {
    type Item = (Key, T);

    type IntoIter = IntoIter<Key, T, A>;

    ghost into_iter_gives = { λ arena it. it ≡ entries Key.keys arena.items };

    fn into_iter(self) -> IntoIter<Key, T, A> {
        IntoIter {
            items: VecDeque::from(self.items),
            next: 0,
            keys: PhantomData,
        }
    }
}
