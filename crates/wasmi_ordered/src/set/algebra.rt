//! Set theory: tests of two sets, iterators over two, and sets made of two.
ghost use Rattle.std.specs.Prelude.{◌≡◌, ◌<◌, ◌^◌, ◌↔◌, not, true, false, length, filter, IfOk, IsTrue};
ghost use Rattle.std.specs.List.Sorted.{IsStrictlySortedBy};
ghost use Rattle.std.specs.Map.Iter.{ShowsInOrder, deref};
ghost use Rattle.std.specs.Ordering.{eq_by_cmp};
ghost use Rattle.std.specs.Set.{is_member, sorted_merge, IsUnion, IsIntersection, IsDifference, IsSymmetricDifference};
ghost use Rattle.wasmi_map_specs.specs.Errors.{FailsOnlyForMemory};
ghost use Rattle.wasmi_map_specs.specs.Sets.{IsSubset, IsDisjoint, HoldsClones};

use super::Set;
use std::alloc::Allocator;
pub use std::collections::btree_set::{Difference, Intersection, SymmetricDifference, Union};
use std::hash::Hash;
use wasmi_arena::ArenaError;

impl<T: Hash + Ord, A: Allocator> Set<T, A> {
    /// Whether the two sets have no element in common.
    /// At most linear in both sizes, no allocation.
    pub fn is_disjoint(&self, other: &Self) -> bool
        ensures { IsTrue result ↔ IsDisjoint (eq_by_cmp T.cmp) self.now other.now }
    {
        self.inner.is_disjoint(&other.inner)
    }

    /// Whether each element of this set is in the other.
    /// At most linear in both sizes, no allocation.
    pub fn is_subset(&self, other: &Self) -> bool
        ensures { IsTrue result ↔ IsSubset (eq_by_cmp T.cmp) self.now other.now }
    {
        self.inner.is_subset(&other.inner)
    }

    /// Whether each element of the other set is in this one.
    /// At most linear in both sizes, no allocation.
    pub fn is_superset(&self, other: &Self) -> bool
        ensures { IsTrue result ↔ IsSubset (eq_by_cmp T.cmp) other.now self.now }
    {
        self.inner.is_superset(&other.inner)
    }

    /// The elements of this set that the other lacks, in order.
    /// At most linear in both sizes, no allocation.
    pub fn difference<'a>(&'a self, other: &'a Self) -> Difference<'a, T, A>
        ensures elements { result ≡ filter (λ element. not (is_member (eq_by_cmp T.cmp) other.now element)) self.now }
        ensures members { IsDifference (eq_by_cmp T.cmp) self.now other.now result }
        ensures ascending { IsStrictlySortedBy T.cmp result }
        ensures bound { length result < 2 ^ 63 }
        ensures runs { ShowsInOrder (deref {X = T}) }
    {
        self.inner.difference(&other.inner)
    }

    /// The elements that exactly one of the two sets has, in order.
    /// At most linear in both sizes, no allocation.
    pub fn symmetric_difference<'a>(&'a self, other: &'a Self) -> SymmetricDifference<'a, T>
        ensures elements { result ≡ sorted_merge T.cmp false self.now other.now }
        ensures members { IsSymmetricDifference (eq_by_cmp T.cmp) self.now other.now result }
        ensures ascending { IsStrictlySortedBy T.cmp result }
        ensures bound { length result < 2 ^ 64 }
        ensures runs { ShowsInOrder (deref {X = T}) }
    {
        self.inner.symmetric_difference(&other.inner)
    }

    /// The elements that both sets have, in order, each as this one has it.
    /// At most linear in both sizes, no allocation.
    pub fn intersection<'a>(&'a self, other: &'a Self) -> Intersection<'a, T, A>
        ensures elements { result ≡ filter (is_member (eq_by_cmp T.cmp) other.now) self.now }
        ensures members { IsIntersection (eq_by_cmp T.cmp) self.now other.now result }
        ensures ascending { IsStrictlySortedBy T.cmp result }
        ensures bound { length result < 2 ^ 63 }
        ensures runs { ShowsInOrder (deref {X = T}) }
    {
        self.inner.intersection(&other.inner)
    }

    /// The elements that one of the sets has, or both, each once, in order; what both have, as this one
    /// has it.
    /// At most linear in both sizes, no allocation.
    pub fn union<'a>(&'a self, other: &'a Self) -> Union<'a, T>
        ensures elements { result ≡ sorted_merge T.cmp true self.now other.now }
        ensures members { IsUnion (eq_by_cmp T.cmp) self.now other.now result }
        ensures ascending { IsStrictlySortedBy T.cmp result }
        ensures bound { length result < 2 ^ 64 }
        ensures runs { ShowsInOrder (deref {X = T}) }
    {
        self.inner.union(&other.inner)
    }
}

impl<T: Hash + Ord + Clone, A: Allocator + Clone> Set<T, A> {
    /// A set of clones of the elements that both sets have, each as this one has it.
    /// Linear in both sizes but for a sort of the clones.
    ///
    /// It is over a clone of this set's allocator. Fails with `OutOfSystemMemory` if there is no memory, or
    /// a clone fails.
    pub fn bitand(&self, other: &Self) -> Result<Self, ArenaError>
        ensures ok { IfOk result (HoldsClones (eq_by_cmp T.cmp) T.is_clone
            (IsIntersection (eq_by_cmp T.cmp) self.now other.now)) }
        ensures errors { FailsOnlyForMemory result }
    {
        let inner = (&self.inner & &other.inner)?;
        Ok(Set { inner })
    }

    /// A set of clones of the elements that one of the sets has, or both; what both have, as this one
    /// has it.
    /// Linear in both sizes but for a sort of the clones.
    ///
    /// Fails as [`bitand`](Set::bitand) does.
    pub fn bitor(&self, other: &Self) -> Result<Self, ArenaError>
        ensures ok { IfOk result (HoldsClones (eq_by_cmp T.cmp) T.is_clone
            (IsUnion (eq_by_cmp T.cmp) self.now other.now)) }
        ensures errors { FailsOnlyForMemory result }
    {
        let inner = (&self.inner | &other.inner)?;
        Ok(Set { inner })
    }

    /// A set of clones of the elements that exactly one of the sets has.
    /// Linear in both sizes but for a sort of the clones.
    ///
    /// Fails as [`bitand`](Set::bitand) does.
    pub fn bitxor(&self, other: &Self) -> Result<Self, ArenaError>
        ensures ok { IfOk result (HoldsClones (eq_by_cmp T.cmp) T.is_clone
            (IsSymmetricDifference (eq_by_cmp T.cmp) self.now other.now)) }
        ensures errors { FailsOnlyForMemory result }
    {
        let inner = (&self.inner ^ &other.inner)?;
        Ok(Set { inner })
    }

    /// A set of clones of the elements of this set that the other lacks.
    /// Linear in both sizes but for a sort of the clones.
    ///
    /// Fails as [`bitand`](Set::bitand) does.
    pub fn sub(&self, other: &Self) -> Result<Self, ArenaError>
        ensures ok { IfOk result (HoldsClones (eq_by_cmp T.cmp) T.is_clone
            (IsDifference (eq_by_cmp T.cmp) self.now other.now)) }
        ensures errors { FailsOnlyForMemory result }
    {
        let inner = (&self.inner - &other.inner)?;
        Ok(Set { inner })
    }
}
