//! The iterator over a stable vector.
ghost use Rattle.std.specs.Prelude.{◌≡◌, length};
ghost use Rattle.std.specs.Iterator.{YieldsFirstRef, YieldsLastRef, item_count};

use crate::Bucket;
use std::alloc::{Allocator, Global};
use std::marker::Model;
use std::slice;

/// The items of a [`StableVec`](crate::StableVec) that are left to visit, in order, from both ends.
///
/// It goes bucket by bucket, so an item costs what a slice's item costs.
#[derive(Drop)]
pub struct StableVecIter<'a, T, A: Allocator = Global> {
    // What is left of the bucket that is visited from the front.
    pub(super) front: slice::Iter<'a, T>,
    // The buckets that neither end has come to, each with an item.
    pub(super) buckets: slice::Iter<'a, Option<Bucket<T, A>>>,
    // What is left of the bucket that is visited from the back.
    pub(super) back: slice::Iter<'a, T>,
    // How many items `buckets` have.
    pub(super) between: usize,
}

impl<'a, T, A: Allocator> Model for StableVecIter<'a, T, A> {
    ghost use Rattle.std.specs.Prelude.{List, ◌++◌};
    ghost use Rattle.std.specs.Slice.Iter.{iter_rest};

    ghost Value = { List T };

    ghost use Rattle.wasmi_arena.specs.inner.Table.{items_of};
    ghost use Rattle.wasmi_arena.specs.inner.Ahead.{IsAhead};

    ghost view = { λ it. iter_rest it.front ++ items_of (iter_rest it.buckets) ++ iter_rest it.back };

    ghost invariant = { λ it. IsAhead (iter_rest it.front) (iter_rest it.buckets) (iter_rest it.back)
        it.between };
}

impl<'a, T, A: Allocator> StableVecIter<'a, T, A> {
    /// How many items are left. Constant time.
    pub fn len(&self) -> usize
        ensures { result ≡ length self.now }
    {
        self.front.len() + self.between + self.back.len()
    }
}

impl<'a, T, A: Allocator> Iterator for StableVecIter<'a, T, A> {
    type Item = &'a T;

    ghost next_gives = { YieldsFirstRef (λ items. items) };

    ghost remaining = { item_count (λ items. items) };

    fn next(&mut self) -> Option<&'a T> {
        if let Some(item) = self.front.next() {
            return Some(item);
        }
        match self.buckets.next() {
            Some(bucket) => {
                let items = bucket.as_ref()?.slice();
                self.between -= items.len();
                self.front = items.iter();
                self.front.next()
            }
            None => self.back.next(),
        }
    }
}

impl<'a, T, A: Allocator> DoubleEndedIterator for StableVecIter<'a, T, A> {
    ghost next_back_gives = { YieldsLastRef (λ items. items) };

    #[tactic(auto, using(crate::proofs::Table::filled_last_open))]
    fn next_back(&mut self) -> Option<&'a T> {
        if let Some(item) = self.back.next_back() {
            return Some(item);
        }
        match self.buckets.next_back() {
            Some(bucket) => {
                let items = bucket.as_ref()?.slice();
                self.between -= items.len();
                self.back = items.iter();
                self.back.next_back()
            }
            None => self.front.next_back(),
        }
    }
}
