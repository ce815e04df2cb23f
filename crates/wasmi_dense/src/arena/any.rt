//! An arena in one vector as any arena.
ghost use Rattle.std.specs.Prelude.{false};

use super::Arena;
use std::alloc::Allocator;
use wasmi_arena::{AnyArena, ArenaError, ArenaKey};

impl<Key: ArenaKey, T: Drop, A: Allocator> AnyArena<Key, T> for Arena<Key, T, A> {
    ghost state = { λ arena. arena };

    ghost BOUNDED = { false };

    const BOUNDED: bool = false;

    fn len(&self) -> usize {
        self.len()
    }

    fn room(&self) -> usize {
        self.room()
    }

    fn alloc(&mut self, item: T) -> Result<Key, ArenaError> {
        self.alloc(item)
    }

    fn has(&self, key: Key) -> bool {
        self.has(key)
    }

    fn put(&mut self, key: Key, item: T) -> Result<T, ArenaError> {
        self.put(key, item)
    }

    fn swap(&mut self, first: Key, second: Key) -> Result<(), ArenaError> {
        self.swap(first, second)
    }
}
