//! Equality of sets, and their text.
ghost use Rattle.std.specs.Cmp.{partial_equiv_from_equiv, on_per, on_equiv};
ghost use Rattle.wasmi_map_specs.specs.Same.{same_set, same_set-equiv};

use super::Set;
use std::alloc::Allocator;
use std::fmt::{self, Debug, Formatter, Write};
use std::hash::{BuildHasher, Hash};

/// Two sets are equal where each element is in both, or in neither. How they hash doesn't count.
/// Expected linear, no allocation.
impl<T: Eq + Hash, S: BuildHasher, A: Allocator> PartialEq for Set<T, S, A> {
    ghost eq = { λ a b. same_set T.eq a.elements b.elements };

    ghost laws = { on_per (λ set. set.elements) (partial_equiv_from_equiv (same_set-equiv T.Eq.laws)) };

    fn eq(&self, other: &Self) -> bool {
        self.inner == other.inner
    }
}

impl<T: Eq + Hash, S: BuildHasher, A: Allocator> Eq for Set<T, S, A> {
    ghost laws = { on_equiv (λ set. set.elements) (same_set-equiv T.Eq.laws) };
}

/// A set of the elements, in unspecified order. Linear.
impl<T: Eq + Hash + Debug, S: BuildHasher, A: Allocator> Debug for Set<T, S, A> {
    fn fmt<W: Write>(&self, f: &mut Formatter<W>) -> fmt::Result {
        f.debug_set().entries(&self.inner).finish()
    }
}
