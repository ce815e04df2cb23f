//! The iterator over the buckets of a stable vector.
ghost use Rattle.std.specs.Prelude.{◌≡◌, length};
ghost use Rattle.std.specs.Iterator.{YieldsFirstBy, YieldsLastBy, item_count};

use crate::Bucket;
use std::alloc::{Allocator, Global};
use std::marker::Model;
use std::slice;

/// The buckets of a [`StableVec`](crate::StableVec) that are left to visit, each as the slice of its
/// items, in order, from both ends.
///
/// All items cost what at most 27 slices cost.
#[derive(Drop)]
pub struct StableVecSlices<'a, T, A: Allocator = Global> {
    // Each has an item.
    pub(super) buckets: slice::Iter<'a, Option<Bucket<T, A>>>,
}

impl<'a, T, A: Allocator> Model for StableVecSlices<'a, T, A> {
    ghost use Rattle.std.specs.Prelude.{List, map};
    ghost use Rattle.std.specs.Slice.Iter.{iter_rest};

    ghost Value = { List (List T) };

    ghost use Rattle.wasmi_arena.specs.inner.Table.{items_in, AreFilled};

    ghost view = { λ it. map items_in (iter_rest it.buckets) };

    ghost invariant = { λ it. AreFilled (iter_rest it.buckets) };
}

impl<'a, T, A: Allocator> StableVecSlices<'a, T, A> {
    /// How many slices are left. Constant time.
    pub fn len(&self) -> usize
        ensures { result ≡ length self.now }
    {
        self.buckets.len()
    }
}

impl<'a, T, A: Allocator> Iterator for StableVecSlices<'a, T, A> {
    type Item = &'a [T];

    ghost next_gives = { YieldsFirstBy (λ part. part.now) (λ parts. parts) };

    ghost remaining = { item_count (λ parts. parts) };

    fn next(&mut self) -> Option<&'a [T]> {
        let bucket = self.buckets.next()?;
        Some(bucket.as_ref()?.slice())
    }
}

impl<'a, T, A: Allocator> DoubleEndedIterator for StableVecSlices<'a, T, A> {
    ghost next_back_gives = { YieldsLastBy (λ part. part.now) (λ parts. parts) };

    #[tactic(auto, using(crate::proofs::Table::filled_last, crate::proofs::Table::filled_last_open))]
    fn next_back(&mut self) -> Option<&'a [T]> {
        let bucket = self.buckets.next_back()?;
        Some(bucket.as_ref()?.slice())
    }
}
