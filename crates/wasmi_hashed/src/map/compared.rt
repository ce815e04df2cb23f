//! Equality of maps, and their text.
ghost use Rattle.std.specs.Cmp.{on_per, on_equiv};
ghost use Rattle.wasmi_map_specs.specs.Same.{same_map, same_map-per, same_map-equiv};

use super::Map;
use std::alloc::Allocator;
use std::fmt::{self, Debug, Formatter, Write};
use std::hash::{BuildHasher, Hash};

/// Two maps are equal where each key has equal values in both, or is in neither. How they hash doesn't
/// count.
/// Expected linear, no allocation.
impl<K: Eq + Hash, V: PartialEq, S: BuildHasher, A: Allocator> PartialEq for Map<K, V, S, A> {
    ghost eq = { λ a b. same_map K.eq V.eq a.entries b.entries };

    ghost laws = { on_per (λ map. map.entries) (same_map-per K.Eq.laws V.eq V.laws) };

    fn eq(&self, other: &Self) -> bool {
        self.inner == other.inner
    }
}

impl<K: Eq + Hash, V: Eq, S: BuildHasher, A: Allocator> Eq for Map<K, V, S, A> {
    ghost laws = { on_equiv (λ map. map.entries) (same_map-equiv K.Eq.laws V.eq V.Eq.laws) };
}

/// A map from keys to values, in unspecified order. Linear.
impl<K: Eq + Hash + Debug, V: Debug, S: BuildHasher, A: Allocator> Debug for Map<K, V, S, A> {
    fn fmt<W: Write>(&self, f: &mut Formatter<W>) -> fmt::Result {
        f.debug_map().entries(&self.inner).finish()
    }
}
