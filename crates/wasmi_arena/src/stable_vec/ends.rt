//! The first and the last item of a stable vector: read, taken off, and all let go.
ghost use Rattle.std.specs.Prelude.{◌≡◌, ◌↔◌, ◌+◌, ◌-◌, ◌<◌, [], ◌++◌, length, take, option_copied, option_to_list, slice_get, IsSome, Some, None};

use crate::bucket_table::take::pop_from;
use crate::geometry::{buckets_before, place, start_of};
use crate::{BucketTable, StableVec};
use std::alloc::Allocator;

impl<T, A: Allocator> StableVec<T, A> {
    /// The first item, if there is one. Constant time.
    pub fn first(&self) -> Option<&T>
        ensures { option_copied result ≡ slice_get self.now 0 }
    {
        self.get(0)
    }

    /// The last item, if there is one. Constant time.
    pub fn last(&self) -> Option<&T>
        ensures { option_copied result ≡ slice_get self.now (length self.now - 1) }
    {
        match self.len().checked_sub(1) {
            Some(index) => self.get(index),
            None => None,
        }
    }

    /// Takes the last item out, or returns `None` if there is none.
    ///
    /// No item moves. Constant time, but a bucket whose only item it takes is closed, so that there
    /// are still the fewest buckets: pushing and popping in turn there opens and closes it each time.
    pub fn pop(&mut self) -> Option<T>
    where
        T: Drop,
        ensures items { self.old ≡ self.new ++ option_to_list result }
        ensures some { IsSome result ↔ (0 < length self.old) }
        ensures value { result ≡ slice_get self.old (length self.old - 1) }
        ensures rest { self.new ≡ take (length self.old - 1) self.old }
    {
        if self.len == 0 {
            return None;
        }
        let last = self.len - 1;
        let place = place(last);
        let item = pop_from(&mut self.table.buckets[..], place);
        self.open_buckets = buckets_before(last, place);
        self.slots = start_of(self.open_buckets);
        self.len = last;
        Some(item)
    }

    /// Drops the items, first to last, and closes the buckets. The allocator stays. Linear.
    pub fn clear(&mut self)
    where
        T: Drop,
        ensures { self.new ≡ [] }
    {
        self.table = BucketTable::new();
        self.open_buckets = 0;
        self.slots = 0;
        self.len = 0;
    }
}
