//! Equality and text of stable arenas.
ghost use Rattle.std.specs.Cmp.Lexicographic.{pointwise, lists_per, lists_equiv};

use crate::{ArenaKey, StableArena};
use std::alloc::Allocator;
use std::fmt::{self, Debug, Formatter, Write};

impl<Key: ArenaKey, T: PartialEq, A: Allocator> PartialEq for StableArena<Key, T, A> {
    ghost laws = { lists_per T.laws };

    ghost eq = { pointwise T.eq };

    fn eq(&self, other: &Self) -> bool {
        self.items == other.items
    }
}

impl<Key: ArenaKey, T: Eq, A: Allocator> Eq for StableArena<Key, T, A> {
    ghost laws = { lists_equiv T.Eq.laws };
}

/// A map from the numbers of the keys to the items.
impl<Key: ArenaKey, T: Debug, A: Allocator> Debug for StableArena<Key, T, A> {
    fn fmt<W: Write>(&self, f: &mut Formatter<W>) -> fmt::Result {
        let mut map = f.debug_map();
        for number in 0..self.items.len() {
            if let Some(item) = self.items.get(number) {
                map.entry(&number, item);
            }
        }
        map.finish()
    }
}
