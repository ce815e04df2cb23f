//! The room that a set has.
ghost use Rattle.std.specs.Prelude.{◌≡◌, ◌≤◌, length};
ghost use Rattle.std.specs.List.Sorted.{IsPermutation};

use super::Set;
use std::alloc::Allocator;
use std::hash::{BuildHasher, Hash};

impl<T: Eq + Hash, S: BuildHasher, A: Allocator> Set<T, S, A> {
    /// The number of elements that the set has room for, those that it has included. Constant time.
    pub fn capacity(&self) -> usize
        ensures { length self.now.elements ≤ result }
    {
        self.inner.capacity()
    }

    /// Gives back room that no element needs, as far as there is memory for smaller blocks. Never fails. Linear.
    pub fn shrink_to_fit(&mut self)
    where
        A: Clone,
        ensures same { IsPermutation self.old.elements self.new.elements }
        ensures hasher { self.new.hasher ≡ self.old.hasher }
    {
        self.inner.shrink_to_fit();
    }
}
