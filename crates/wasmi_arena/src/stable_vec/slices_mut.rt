//! The iterator over the buckets of a stable vector, whose items can be written.
ghost use Rattle.std.specs.Prelude.{◌≡◌, length};
ghost use Rattle.std.specs.Iterator.{YieldsFirstMut, YieldsLastMut, item_count};
ghost use Rattle.wasmi_arena.specs.Geometry.{fewest};
ghost use Rattle.wasmi_arena.specs.IterMut.{left, loan_of};
ghost use Rattle.wasmi_arena.specs.StableVec.{filled_parts};
ghost use Rattle.wasmi_arena.specs.inner.Table.{items_of, HasBuckets};

use crate::ItemsLoan;
use std::alloc::{Allocator, Global};
use std::marker::Model;

/// The buckets of a [`StableVec`](crate::StableVec) that are left to visit, each as the `&mut` slice of
/// its items, in order, from both ends.
///
/// All items cost what at most 27 slices cost.
#[derive(Drop)]
pub struct StableVecSlicesMut<'a, T, A: Allocator = Global> {
    // The buckets that are left, each with an item. It is `None` only while a bucket is cut off.
    pub(super) loan: Option<ItemsLoan<'a, T, A>>,
    // How many these are.
    pub(super) len: usize,
}

impl<'a, T, A: Allocator> Model for StableVecSlicesMut<'a, T, A> {
    ghost use base.Fml.{GName};
    ghost use Rattle.std.specs.Prelude.{List};

    ghost Value = { List (List T) × GName };

    ghost use Rattle.wasmi_arena.specs.inner.LoanParts.{parts_of, IsLent};

    ghost view = { λ it. parts_of it.loan };

    ghost invariant = { λ it. IsLent it.loan it.len };
}

impl<'a, T, A: Allocator> StableVecSlicesMut<'a, T, A> {
    // The open buckets of a vector whose items are all lent.
    pub(crate) fn of_open(all: ItemsLoan<'a, T, A>, open_buckets: usize) -> Self
        requires buckets { HasBuckets (items_of all.buckets) all.buckets }
        requires open { open_buckets ≡ fewest (length (items_of all.buckets)) }
        ensures parts { left result ≡ filled_parts (items_of all.entry.buckets) }
        ensures loan { loan_of result ≡ all.entry.whole }
    {
        let (open, _) = all.cut(open_buckets);
        StableVecSlicesMut {
            loan: Some(open),
            len: open_buckets,
        }
    }

    /// How many slices are left. Constant time.
    pub fn len(&self) -> usize
        ensures { result ≡ length (left self.now) }
    {
        self.len
    }
}

impl<'a, T, A: Allocator> Iterator for StableVecSlicesMut<'a, T, A> {
    type Item = &'a mut [T];

    ghost next_gives = { YieldsFirstMut left };

    ghost remaining = { item_count left };

    fn next(&mut self) -> Option<&'a mut [T]> {
        if self.len == 0 {
            return None;
        }
        let loan = self.loan.take()?;
        let (first, rest) = loan.cut(1);
        self.loan = Some(rest);
        self.len -= 1;
        Some(first.into_slice())
    }
}

impl<'a, T, A: Allocator> DoubleEndedIterator for StableVecSlicesMut<'a, T, A> {
    ghost next_back_gives = { YieldsLastMut left };

    fn next_back(&mut self) -> Option<&'a mut [T]> {
        if self.len == 0 {
            return None;
        }
        self.len -= 1;
        let loan = self.loan.take()?;
        let (rest, last) = loan.cut(self.len);
        self.loan = Some(rest);
        Some(last.into_slice())
    }
}
