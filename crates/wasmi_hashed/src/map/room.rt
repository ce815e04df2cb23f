//! The room that a map has.
ghost use Rattle.std.specs.Prelude.{◌≡◌, ◌≤◌, length};
ghost use Rattle.std.specs.List.Sorted.{IsPermutation};

use super::Map;
use std::alloc::Allocator;
use std::hash::{BuildHasher, Hash};

impl<K: Eq + Hash, V, S: BuildHasher, A: Allocator> Map<K, V, S, A> {
    /// The number of entries that the map has room for, those that it has included. Constant time.
    pub fn capacity(&self) -> usize
        ensures { length self.now.entries ≤ result }
    {
        self.inner.capacity()
    }

    /// Gives back room that no entry needs, as far as there is memory for smaller blocks. Never fails. Linear.
    pub fn shrink_to_fit(&mut self)
    where
        A: Clone,
        ensures same { IsPermutation self.old.entries self.new.entries }
        ensures hasher { self.new.hasher ≡ self.old.hasher }
    {
        self.inner.shrink_to_fit();
    }
}
