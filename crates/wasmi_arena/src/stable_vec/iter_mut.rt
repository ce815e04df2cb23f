//! The iterator over a stable vector, whose items can be written.
ghost use Rattle.std.specs.Prelude.{◌≡◌, length};
ghost use Rattle.std.specs.Iterator.{YieldsFirstMut, YieldsLastMut, item_count};
ghost use Rattle.wasmi_arena.specs.Geometry.{fewest};
ghost use Rattle.wasmi_arena.specs.IterMut.{left, loan_of};
ghost use Rattle.wasmi_arena.specs.inner.Table.{items_of, HasBuckets};

use super::StableVecSlicesMut;
use crate::ItemsLoan;
use std::alloc::{Allocator, Global};
use std::marker::Model;
use std::slice;

/// The items of a [`StableVec`](crate::StableVec) that are left to visit, each to write, in order, from
/// both ends.
///
/// It goes bucket by bucket, so an item costs what a slice's item costs.
#[derive(Drop)]
pub struct StableVecIterMut<'a, T, A: Allocator = Global> {
    // What is left of the bucket that is visited from the front.
    pub(super) front: slice::IterMut<'a, T>,
    // The buckets that neither end has come to.
    pub(super) slices: StableVecSlicesMut<'a, T, A>,
    // What is left of the bucket that is visited from the back.
    pub(super) back: slice::IterMut<'a, T>,
    // How many items `slices` have.
    pub(super) between: usize,
}

impl<'a, T, A: Allocator> Model for StableVecIterMut<'a, T, A> {
    ghost use base.Fml.{GName};
    ghost use Rattle.std.specs.Prelude.{List, ◌++◌};
    ghost use Rattle.std.specs.Slice.Iter.{iter_mut_rest};

    ghost Value = { List T × GName };

    ghost use Rattle.wasmi_arena.specs.IterMut.{left, loan_of};
    ghost use Rattle.wasmi_arena.specs.inner.Ahead.{joined, HasAhead};

    ghost view = { λ it. (
      iter_mut_rest it.front ++ joined (left it.slices) ++ iter_mut_rest it.back,
      loan_of it.slices,
    ) };

    ghost invariant = { λ it. HasAhead (iter_mut_rest it.front) (left it.slices) (iter_mut_rest it.back)
        it.between };
}

impl<'a, T, A: Allocator> StableVecIterMut<'a, T, A> {
    // All items of a vector that are lent, of which there are `len`.
    pub(crate) fn of_whole(all: ItemsLoan<'a, T, A>, open_buckets: usize, len: usize) -> Self
        requires buckets { HasBuckets (items_of all.buckets) all.buckets }
        requires open { open_buckets ≡ fewest len }
        requires len { len ≡ length (items_of all.buckets) }
        ensures items { left result ≡ items_of all.entry.buckets }
        ensures loan { loan_of result ≡ all.entry.whole }
    {
        let nothing: &mut [T] = &mut [];
        let also_nothing: &mut [T] = &mut [];
        StableVecIterMut {
            front: nothing.iter_mut(),
            slices: StableVecSlicesMut::of_open(all, open_buckets),
            back: also_nothing.iter_mut(),
            between: len,
        }
    }

    /// How many items are left. Constant time.
    pub fn len(&self) -> usize
        ensures { result ≡ length (left self.now) }
    {
        self.front.len() + self.between + self.back.len()
    }
}

impl<'a, T, A: Allocator> Iterator for StableVecIterMut<'a, T, A> {
    type Item = &'a mut T;

    ghost next_gives = { YieldsFirstMut left };

    ghost remaining = { item_count left };

    fn next(&mut self) -> Option<&'a mut T> {
        if let Some(item) = self.front.next() {
            return Some(item);
        }
        match self.slices.next() {
            Some(items) => {
                self.between -= items.len();
                self.front = items.iter_mut();
                self.front.next()
            }
            None => self.back.next(),
        }
    }
}

impl<'a, T, A: Allocator> DoubleEndedIterator for StableVecIterMut<'a, T, A> {
    ghost next_back_gives = { YieldsLastMut left };

    fn next_back(&mut self) -> Option<&'a mut T> {
        if let Some(item) = self.back.next_back() {
            return Some(item);
        }
        match self.slices.next_back() {
            Some(items) => {
                self.between -= items.len();
                self.back = items.iter_mut();
                self.back.next_back()
            }
            None => self.front.next_back(),
        }
    }
}
