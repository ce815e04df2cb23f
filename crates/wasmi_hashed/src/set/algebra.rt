//! Set theory: tests of two sets, iterators over two, and sets made of two.
ghost use Rattle.std.specs.Prelude.{◌<◌, ◌^◌, ◌↔◌, ◌++◌, length, IfOk, IsTrue};
ghost use Rattle.std.specs.List.{AllByRecursion, IsAmong, IsDistinct};
ghost use Rattle.std.specs.Map.Iter.{ShowsInOrder, deref};
ghost use Rattle.std.specs.Set.{IsUnion, IsIntersection, IsDifference, IsSymmetricDifference};
ghost use Rattle.wasmi_map_specs.specs.Errors.{FailsOnlyForMemory};
ghost use Rattle.wasmi_map_specs.specs.Sets.{IsSubset, IsDisjoint, HoldsClones};

use super::Set;
use crate::hash::FixedState;
use std::alloc::Allocator;
pub use std::collections::hash_set::{Difference, Intersection, SymmetricDifference, Union};
use std::hash::{BuildHasher, Hash};
use wasmi_arena::ArenaError;

impl<T: Eq + Hash, S: BuildHasher, A: Allocator> Set<T, S, A> {
    /// Whether the two sets have no element in common.
    /// Expected linear, no allocation.
    pub fn is_disjoint(&self, other: &Self) -> bool
        ensures { IsTrue result ↔ IsDisjoint T.eq self.now.elements other.now.elements }
    {
        self.inner.is_disjoint(&other.inner)
    }

    /// Whether each element of this set is in the other.
    /// Expected linear, no allocation.
    pub fn is_subset(&self, other: &Self) -> bool
        ensures { IsTrue result ↔ IsSubset T.eq self.now.elements other.now.elements }
    {
        self.inner.is_subset(&other.inner)
    }

    /// Whether each element of the other set is in this one.
    /// Expected linear, no allocation.
    pub fn is_superset(&self, other: &Self) -> bool
        ensures { IsTrue result ↔ IsSubset T.eq other.now.elements self.now.elements }
    {
        self.inner.is_superset(&other.inner)
    }

    /// The elements of this set that the other lacks, in unspecified order.
    /// Expected linear, no allocation.
    pub fn difference<'a>(&'a self, other: &'a Self) -> Difference<'a, T, S, A>
        ensures elements { AllByRecursion (IsAmong (self.now.elements ++ other.now.elements)) result }
        ensures members { IsDifference T.eq self.now.elements other.now.elements result }
        ensures distinct { IsDistinct T.eq result }
        ensures bound { length result < 2 ^ 63 }
        ensures runs { ShowsInOrder (deref {X = T}) }
    {
        self.inner.difference(&other.inner)
    }

    /// The elements that exactly one of the two sets has, in unspecified order.
    /// Expected linear, no allocation.
    pub fn symmetric_difference<'a>(&'a self, other: &'a Self) -> SymmetricDifference<'a, T, S, A>
        ensures elements { AllByRecursion (IsAmong (self.now.elements ++ other.now.elements)) result }
        ensures members { IsSymmetricDifference T.eq self.now.elements other.now.elements result }
        ensures distinct { IsDistinct T.eq result }
        ensures bound { length result < 2 ^ 64 }
        ensures runs { ShowsInOrder (deref {X = T}) }
    {
        self.inner.symmetric_difference(&other.inner)
    }

    /// The elements that both sets have, in unspecified order, each as one of the two has it.
    /// Expected linear, no allocation.
    pub fn intersection<'a>(&'a self, other: &'a Self) -> Intersection<'a, T, S, A>
        ensures elements { AllByRecursion (IsAmong (self.now.elements ++ other.now.elements)) result }
        ensures members { IsIntersection T.eq self.now.elements other.now.elements result }
        ensures distinct { IsDistinct T.eq result }
        ensures bound { length result < 2 ^ 63 }
        ensures runs { ShowsInOrder (deref {X = T}) }
    {
        self.inner.intersection(&other.inner)
    }

    /// The elements that one of the sets has, or both, each once, in unspecified order; what both have, as one
    /// of the two has it.
    /// Expected linear, no allocation.
    pub fn union<'a>(&'a self, other: &'a Self) -> Union<'a, T, S, A>
        ensures elements { AllByRecursion (IsAmong (self.now.elements ++ other.now.elements)) result }
        ensures members { IsUnion T.eq self.now.elements other.now.elements result }
        ensures distinct { IsDistinct T.eq result }
        ensures bound { length result < 2 ^ 64 }
        ensures runs { ShowsInOrder (deref {X = T}) }
    {
        self.inner.union(&other.inner)
    }
}

impl<T: Eq + Hash + Clone, A: Allocator + Clone> Set<T, FixedState, A> {
    /// A set of clones of the elements that both sets have, each as one of the two has it.
    /// Expected linear.
    ///
    /// It is over a clone of this set's allocator. Fails with `OutOfSystemMemory` if there is no memory, or
    /// a clone fails.
    pub fn bitand(&self, other: &Self) -> Result<Self, ArenaError>
        ensures ok { IfOk result (λ set. HoldsClones T.eq T.is_clone
            (IsIntersection T.eq self.now.elements other.now.elements) set.elements) }
        ensures errors { FailsOnlyForMemory result }
    {
        let inner = (&self.inner & &other.inner)?;
        Ok(Set { inner })
    }

    /// A set of clones of the elements that one of the sets has, or both; what both have, as one of the two
    /// has it.
    /// Expected linear.
    ///
    /// Fails as [`bitand`](Set::bitand) does.
    pub fn bitor(&self, other: &Self) -> Result<Self, ArenaError>
        ensures ok { IfOk result (λ set. HoldsClones T.eq T.is_clone
            (IsUnion T.eq self.now.elements other.now.elements) set.elements) }
        ensures errors { FailsOnlyForMemory result }
    {
        let inner = (&self.inner | &other.inner)?;
        Ok(Set { inner })
    }

    /// A set of clones of the elements that exactly one of the sets has.
    /// Expected linear.
    ///
    /// Fails as [`bitand`](Set::bitand) does.
    pub fn bitxor(&self, other: &Self) -> Result<Self, ArenaError>
        ensures ok { IfOk result (λ set. HoldsClones T.eq T.is_clone
            (IsSymmetricDifference T.eq self.now.elements other.now.elements) set.elements) }
        ensures errors { FailsOnlyForMemory result }
    {
        let inner = (&self.inner ^ &other.inner)?;
        Ok(Set { inner })
    }

    /// A set of clones of the elements of this set that the other lacks.
    /// Expected linear.
    ///
    /// Fails as [`bitand`](Set::bitand) does.
    pub fn sub(&self, other: &Self) -> Result<Self, ArenaError>
        ensures ok { IfOk result (λ set. HoldsClones T.eq T.is_clone
            (IsDifference T.eq self.now.elements other.now.elements) set.elements) }
        ensures errors { FailsOnlyForMemory result }
    {
        let inner = (&self.inner - &other.inner)?;
        Ok(Set { inner })
    }
}
