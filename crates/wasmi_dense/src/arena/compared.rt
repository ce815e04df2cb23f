//! Equality and text of arenas in one vector.
ghost use Rattle.std.specs.Cmp.{on_per, on_equiv};
ghost use Rattle.std.specs.Cmp.Lexicographic.{pointwise, lists_per, lists_equiv};

use super::Arena;
use std::alloc::Allocator;
use std::fmt::{self, Debug, Formatter, Write};
use wasmi_arena::ArenaKey;

impl<Key: ArenaKey, T: PartialEq, A: Allocator> PartialEq for Arena<Key, T, A> {
    ghost eq = { λ a b. pointwise T.eq a.items b.items };

    ghost laws = { on_per (λ a. a.items) (lists_per T.laws) };

    fn eq(&self, other: &Self) -> bool {
        self.items == other.items
    }
}

impl<Key: ArenaKey, T: Eq, A: Allocator> Eq for Arena<Key, T, A> {
    ghost laws = { on_equiv (λ a. a.items) (lists_equiv T.Eq.laws) };
}

/// A map from the numbers of keys to items.
impl<Key: ArenaKey, T: Debug, A: Allocator> Debug for Arena<Key, T, A> {
    fn fmt<W: Write>(&self, f: &mut Formatter<W>) -> fmt::Result {
        Debug::fmt(&DebugItems(self.items.as_slice()), f)
    }
}

// What `Debug` writes for the items.
#[derive(Clone, Copy)]
struct DebugItems<'a, T>(&'a [T]);

impl<T: Debug> Debug for DebugItems<'_, T> {
    fn fmt<W: Write>(&self, f: &mut Formatter<W>) -> fmt::Result {
        let mut map = f.debug_map();
        for (number, item) in self.0.iter().enumerate() {
            map.entry(&number, item);
        }
        map.finish()
    }
}
