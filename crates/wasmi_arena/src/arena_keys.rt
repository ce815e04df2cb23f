//! The keys of an arena, one after another.
ghost use Rattle.std.specs.Prelude.{◌≡◌, length};
ghost use Rattle.std.specs.Iterator.{YieldsFirst, YieldsLast, item_count};

use crate::{ArenaKey, key_at};
use std::marker::{Model, PhantomData};

/// The keys of the items of an arena that are left to visit, in order, from both ends.
///
/// It doesn't borrow the arena, so that items can be written or added while it goes on. It has the
/// keys of the items that there were.
#[derive(Drop)]
pub struct ArenaKeys<Key: ArenaKey> {
    // The position of the first.
    pub(crate) next: usize,
    pub(crate) left: usize,
    pub(crate) keys: PhantomData<Key>,
}

impl<Key: ArenaKey> Model for ArenaKeys<Key> {
    ghost use Rattle.std.specs.Prelude.{List, map, ◌+◌, ◌<◌, ◌≤◌, ◌^◌};
    ghost use Rattle.std.specs.List.{range_with_len};

    ghost Value = { List Key };

    ghost view = { λ it. map Key.keys.key (range_with_len it.next it.left) };

    // Each position that is left has a key.
    ghost invariant = { λ it. (it.next + it.left ≤ Key.keys.count) × (it.next + it.left < 2 ^ 64) };
}

impl<Key: ArenaKey> ArenaKeys<Key> {
    /// How many keys are left. Constant time.
    pub fn len(&self) -> usize
        ensures { result ≡ length self.now }
    {
        self.left
    }
}

impl<Key: ArenaKey> Iterator for ArenaKeys<Key> {
    type Item = Key;

    ghost next_gives = { YieldsFirst (λ keys. keys) };

    ghost remaining = { item_count (λ keys. keys) };

    fn next(&mut self) -> Option<Key> {
        if self.left == 0 {
            return None;
        }
        let key = key_at(self.next);
        self.next += 1;
        self.left -= 1;
        Some(key)
    }
}

impl<Key: ArenaKey> DoubleEndedIterator for ArenaKeys<Key> {
    ghost next_back_gives = { YieldsLast (λ keys. keys) };

    fn next_back(&mut self) -> Option<Key> {
        if self.left == 0 {
            return None;
        }
        self.left -= 1;
        Some(key_at(self.next + self.left))
    }
}
