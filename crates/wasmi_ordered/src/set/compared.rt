//! Equality of sets, and their text.
ghost use Rattle.std.specs.Cmp.Lexicographic.{pointwise, lists_per, lists_equiv};

use super::Set;
use std::alloc::Allocator;
use std::fmt::{self, Debug, Formatter, Write};
use std::hash::Hash;

/// Two sets are equal where each element is in both, or in neither.
/// Linear, no allocation.
impl<T: Hash + Ord, A: Allocator> PartialEq for Set<T, A> {
    ghost eq = { pointwise T.eq };

    ghost laws = { lists_per T.PartialEq.laws };

    fn eq(&self, other: &Self) -> bool {
        self.inner == other.inner
    }
}

impl<T: Hash + Ord, A: Allocator> Eq for Set<T, A> {
    ghost laws = { lists_equiv T.Eq.laws };
}

/// A set of the elements, in order. Linear.
impl<T: Hash + Ord + Debug, A: Allocator> Debug for Set<T, A> {
    fn fmt<W: Write>(&self, f: &mut Formatter<W>) -> fmt::Result {
        f.debug_set().entries(&self.inner).finish()
    }
}
