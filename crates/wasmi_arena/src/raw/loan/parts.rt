//! A loan of items is cut in two, and one bucket of it is lent on as a slice.
ghost use Rattle.std.specs.Prelude.{◌≡◌, ◌≤◌, length, slice_index_or, IsSome, None};
ghost use Rattle.std.specs.Borrow.{sem};
ghost use Rattle.wasmi_arena.specs.inner.LoanLend.{lends_bucket};
ghost use Rattle.wasmi_arena.specs.inner.LoanParts.{IsCut};
ghost use Rattle.wasmi_arena.specs.inner.Table.{items_in, items_of, AreFilled};

use super::ItemsLoan;
use crate::Bucket;
use crate::bucket_table::lend::items_mut;
use std::alloc::Allocator;
use std::marker::PhantomData;

impl<'a, T, A: Allocator> ItemsLoan<'a, T, A> {
    // Two loans: of the first buckets, of which there are `count`, and of those behind them.
    pub(crate) fn cut(self, count: usize) -> (ItemsLoan<'a, T, A>, ItemsLoan<'a, T, A>)
        requires { count ≤ length self.buckets }
        ensures { IsCut self.entry result.0 result.1 count }
    {
        let ItemsLoan { start, marker: _ } = self;
        let rest = unsafe { start.add(count) };
        (
            ItemsLoan {
                start,
                marker: PhantomData,
            },
            ItemsLoan {
                start: rest,
                marker: PhantomData,
            },
        )
    }

    // The items of one of the buckets, which is open.
    pub(crate) fn bucket(self, bucket: usize) -> &'a mut [T]
        requires { IsSome (slice_index_or self.buckets bucket None) }
        ensures* writes_back { sem 𝓛 (lends_bucket T.row A.row self.entry bucket result) }
        ensures value { result.now ≡ items_in (slice_index_or self.entry.buckets bucket None) }
    {
        let ItemsLoan { start, marker: _ } = self;
        items_mut(unsafe { &mut *start.add(bucket) })
    }

    // The items of the one bucket of the loan.
    pub(crate) fn into_slice(self) -> &'a mut [T]
        requires one { length self.buckets ≡ 1 }
        requires open { AreFilled self.buckets }
        ensures { result.now ≡ items_of self.entry.buckets }
    {
        self.bucket(0)
    }
}
