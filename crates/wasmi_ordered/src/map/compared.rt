//! Equality of maps, and their text.
ghost use Rattle.std.specs.Prelude.{◌&&◌};
ghost use Rattle.std.specs.Cmp.{on_per, and_per, on_equiv, and_equiv};
ghost use Rattle.std.specs.Cmp.Lexicographic.{pointwise, lists_per, lists_equiv};

use super::Map;
use std::alloc::Allocator;
use std::fmt::{self, Debug, Formatter, Write};
use std::hash::Hash;

/// Two maps are equal where each key has equal values in both, or is in neither.
/// Linear, no allocation.
impl<K: Hash + Ord, V: PartialEq, A: Allocator> PartialEq for Map<K, V, A> {
    ghost eq = { pointwise (λ one other. K.eq one.0 other.0 && V.eq one.1 other.1) };

    ghost laws = { lists_per (and_per (on_per (λ pair. pair.0) K.PartialEq.laws) (on_per (λ pair. pair.1) V.laws)) };

    fn eq(&self, other: &Self) -> bool {
        self.inner == other.inner
    }
}

impl<K: Hash + Ord, V: Eq, A: Allocator> Eq for Map<K, V, A> {
    ghost laws = { lists_equiv (and_equiv (on_equiv (λ pair. pair.0) K.Eq.laws) (on_equiv (λ pair. pair.1) V.Eq.laws)) };
}

/// A map from keys to values, in the order of the keys. Linear.
impl<K: Hash + Ord + Debug, V: Debug, A: Allocator> Debug for Map<K, V, A> {
    fn fmt<W: Write>(&self, f: &mut Formatter<W>) -> fmt::Result {
        f.debug_map().entries(&self.inner).finish()
    }
}
