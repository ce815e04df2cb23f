//! All items of a vector and of an arena are lent to write to. Each has a function of its own, since the checker
//! doesn't hand on what a field lends.
ghost use Rattle.std.specs.Prelude.{◌≡◌};
ghost use Rattle.std.specs.Borrow.{sem};
ghost use Rattle.wasmi_arena.specs.inner.Table.{HasBuckets};

use crate::raw::loan::ItemsLoan;
use crate::{ArenaKey, Bucket, StableArena, StableVec};
use std::alloc::Allocator;
use std::marker::PhantomData;

impl<T, A: Allocator> StableVec<T, A> {
    ghost use Rattle.wasmi_arena.specs.VecLend.{lends_items};

    // The right to write all items.
    pub(crate) fn lend<'a>(&'a mut self) -> ItemsLoan<'a, T, A>
        ensures* writes_back { sem 𝓛 (lends_items T.row A.row A.Allocator self.entry result.whole) }
        ensures one_name { result.name ≡ result.whole }
        ensures buckets { HasBuckets self.old result.buckets }
    {
        ItemsLoan {
            start: &raw mut self.table.buckets as *mut Option<Bucket<T, A>>,
            marker: PhantomData,
        }
    }
}

impl<Key: ArenaKey, T, A: Allocator> StableArena<Key, T, A> {
    ghost use Rattle.wasmi_arena.specs.ArenaLend.{lends_items};

    // The right to write all items.
    pub(crate) fn lend<'a>(&'a mut self) -> ItemsLoan<'a, T, A>
        ensures* writes_back { sem 𝓛 (lends_items Key.row T.row A.row Key.ArenaKey A.Allocator self.entry result.whole) }
        ensures one_name { result.name ≡ result.whole }
        ensures buckets { HasBuckets self.old result.buckets }
    {
        ItemsLoan {
            start: &raw mut self.items.table.buckets as *mut Option<Bucket<T, A>>,
            marker: PhantomData,
        }
    }
}
