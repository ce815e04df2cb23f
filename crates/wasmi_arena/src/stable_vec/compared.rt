//! Equality, order, hash and text of stable vectors: those of the lists of their items.
ghost use Rattle.std.specs.Hash as fed;
ghost use Rattle.std.specs.Hash.{items_Alike};
ghost use Rattle.std.specs.Cmp.Lexicographic.{pointwise, slice_cmp, slice_partial_cmp, lists_per, lists_equiv, lists_po, lists_total, lists_agrees, lists_ties};

use crate::StableVec;
use std::alloc::Allocator;
use std::cmp::Ordering;
use std::fmt;
use std::hash::{Hash, Hasher};

// Each goes bucket by bucket. The first buckets of two vectors have as many slots, the second ones
// too, and so on: so where two buckets differ, that is where the lists do.

impl<T: PartialEq, A: Allocator> PartialEq for StableVec<T, A> {
    ghost laws = { lists_per T.laws };

    ghost eq = { pointwise T.eq };

    fn eq(&self, other: &Self) -> bool {
        self.len == other.len && self.slices().eq(other.slices())
    }
}

impl<T: Eq, A: Allocator> Eq for StableVec<T, A> {
    ghost laws = { lists_equiv T.Eq.laws };
}

impl<T: Hash, A: Allocator> Hash for StableVec<T, A> {
    ghost hash_input = { fed.slice T.hash_input };

    ghost respects_eq = { (items_Alike (record { fed = T.respects_eq })).fed };

    fn hash<H: Hasher>(&self, state: &mut H) {
        state.write_usize(self.len);
        for items in self.slices() {
            T::hash_slice(items, state);
        }
    }
}

impl<T: PartialOrd, A: Allocator> PartialOrd for StableVec<T, A> {
    ghost laws = { lists_po T.PartialOrd.laws };

    ghost partial_cmp = { slice_partial_cmp T.partial_cmp };

    fn partial_cmp(&self, other: &Self) -> Option<Ordering> {
        self.slices().partial_cmp(other.slices())
    }
}

impl<T: Ord, A: Allocator> Ord for StableVec<T, A> {
    ghost matches_eq = { lists_ties T.cmp T.matches_eq };

    ghost matches_partial_cmp = { lists_agrees T.matches_partial_cmp };

    ghost total = { lists_total T.total };

    ghost cmp = { slice_cmp T.cmp };

    fn cmp(&self, other: &Self) -> Ordering {
        self.slices().cmp(other.slices())
    }
}

impl<T: fmt::Debug, A: Allocator> fmt::Debug for StableVec<T, A> {
    fn fmt<W: fmt::Write>(&self, f: &mut fmt::Formatter<W>) -> fmt::Result {
        f.debug_list().entries(self).finish()
    }
}
