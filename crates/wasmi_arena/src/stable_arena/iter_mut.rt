//! The iterator over a stable arena, whose items can be written.
ghost use Rattle.std.specs.Prelude.{◌≡◌, length};
ghost use Rattle.std.specs.Iterator.{YieldsFirstBy, YieldsLastBy, item_count};
ghost use Rattle.wasmi_arena.specs.IterMut.{left};

use crate::{ArenaKey, StableVecIterMut, key_at};
use std::alloc::{Allocator, Global};
use std::marker::{Model, PhantomData};

/// The keys and items of a [`StableArena`](crate::StableArena) that are left to visit, each item to
/// write, in order, from both ends.
#[derive(Drop)]
pub struct StableArenaIterMut<'a, Key: ArenaKey, T, A: Allocator = Global> {
    pub(super) items: StableVecIterMut<'a, T, A>,
    // The position of the first of `items`.
    pub(super) next: usize,
    pub(super) keys: PhantomData<Key>,
}

impl<'a, Key: ArenaKey, T, A: Allocator> Model for StableArenaIterMut<'a, Key, T, A> {
    ghost use base.Fml.{GName};
    ghost use Rattle.std.specs.Prelude.{List, ◌+◌, ◌≤◌, length};

    ghost Value = { List (Key × T) × GName };

    ghost use Rattle.wasmi_arena.specs.Arena.{stable_limit};
    ghost use Rattle.wasmi_arena.specs.Entries.{entries_from};
    ghost use Rattle.wasmi_arena.specs.IterMut.{left, loan_of};

    ghost view = { λ it. (entries_from Key.keys it.next (left it.items), loan_of it.items) };

    // Each position that is left has a key.
    ghost invariant = { λ it. it.next + length (left it.items) ≤ stable_limit Key.keys };
}

impl<'a, Key: ArenaKey, T, A: Allocator> StableArenaIterMut<'a, Key, T, A> {
    /// How many entries are left. Constant time.
    pub fn len(&self) -> usize
        ensures { result ≡ length (left self.now) }
    {
        self.items.len()
    }
}

impl<'a, Key: ArenaKey, T, A: Allocator> Iterator for StableArenaIterMut<'a, Key, T, A> {
    type Item = (Key, &'a mut T);

    ghost next_gives = { YieldsFirstBy (λ entry. (entry.0, entry.1.now)) left };

    ghost remaining = { item_count left };

    fn next(&mut self) -> Option<(Key, &'a mut T)> {
        let item = self.items.next()?;
        let key = key_at(self.next);
        self.next += 1;
        Some((key, item))
    }
}

impl<'a, Key: ArenaKey, T, A: Allocator> DoubleEndedIterator for StableArenaIterMut<'a, Key, T, A> {
    ghost next_back_gives = { YieldsLastBy (λ entry. (entry.0, entry.1.now)) left };

    #[tactic(auto, using(crate::proofs::Entries::entries_from_last))]
    fn next_back(&mut self) -> Option<(Key, &'a mut T)> {
        let item = self.items.next_back()?;
        let key = key_at(self.next + self.items.len());
        Some((key, item))
    }
}
