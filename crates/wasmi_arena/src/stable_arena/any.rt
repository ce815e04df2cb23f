//! A stable arena as any arena.
ghost use Rattle.std.specs.Prelude.{true};
ghost use Rattle.wasmi_arena.specs.Arena.{stable_state};

use crate::{AnyArena, ArenaError, ArenaKey, StableArena};
use std::alloc::Allocator;

impl<Key: ArenaKey, T: Drop, A: Allocator + Clone> AnyArena<Key, T> for StableArena<Key, T, A> {
    ghost state = { λ arena. stable_state arena };

    ghost BOUNDED = { true };

    const BOUNDED: bool = true;

    fn len(&self) -> usize {
        self.len()
    }

    fn room(&self) -> usize {
        self.room()
    }

    #[tactic(auto, using(crate::proofs::ArenaSteps::room_of_append))]
    fn alloc(&mut self, item: T) -> Result<Key, ArenaError> {
        self.alloc(item)
    }

    fn has(&self, key: Key) -> bool {
        self.has(key)
    }

    fn put(&mut self, key: Key, item: T) -> Result<T, ArenaError> {
        self.put(key, item)
    }

    fn swap(&mut self, first: Key, second: Key) -> Result<(), ArenaError> {
        self.swap(first, second)
    }
}
