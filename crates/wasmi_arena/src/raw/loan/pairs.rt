//! Two items of a loan at once.
ghost use Rattle.std.specs.Prelude.{◌≡◌, ◌≢◌, ◌<◌, length, slice_get, slice_index_or, Some, None};
ghost use Rattle.std.specs.Borrow.{sem};
ghost use Rattle.wasmi_arena.specs.inner.LoanLend.{lends_slots, lends_pair};
ghost use Rattle.wasmi_arena.specs.inner.Table.{items_in, items_of, HasBuckets};

use super::ItemsLoan;
use crate::Bucket;
use crate::geometry::two_places;
use std::alloc::Allocator;
use std::mem::align_of;

impl<'a, T, A: Allocator> ItemsLoan<'a, T, A> {
    // The items in two filled slots, of one bucket or of two. Each is found by its own bucket's pointer, so
    // nothing is tested.
    fn pair_slots(
        self,
        bucket: usize,
        slot: usize,
        other_bucket: usize,
        other_slot: usize,
    ) -> (&'a mut T, &'a mut T)
        requires apart { bucket ≡ other_bucket → slot ≢ other_slot }
        requires first { slot < length (items_in (slice_index_or self.buckets bucket None)) }
        requires second { other_slot < length (items_in (slice_index_or self.buckets other_bucket None)) }
        ensures* writes_back { sem 𝓛 (lends_slots T.row A.row self.entry bucket slot other_bucket other_slot result) }
        ensures first { slice_get (items_in (slice_index_or self.entry.buckets bucket None)) slot
            ≡ Some result.0.now }
        ensures second { slice_get (items_in (slice_index_or self.entry.buckets other_bucket None)) other_slot
            ≡ Some result.1.now }
    {
        let ItemsLoan { start, marker: _ } = self;
        unsafe {
            let one = block_of!(start, bucket);
            let other = block_of!(start, other_bucket);
            (&mut *one.add(slot), &mut *other.add(other_slot))
        }
    }

    // The items at two indices.
    pub(crate) fn pair(self, first: usize, second: usize) -> (&'a mut T, &'a mut T)
        requires buckets { HasBuckets (items_of self.buckets) self.buckets }
        requires disjoint { first ≢ second }
        requires first { first < length (items_of self.buckets) }
        requires second { second < length (items_of self.buckets) }
        ensures* writes_back { sem 𝓛 (lends_pair T.row A.row self.entry first second result) }
        ensures first { slice_get (items_of self.entry.buckets) first ≡ Some result.0.now }
        ensures second { slice_get (items_of self.entry.buckets) second ≡ Some result.1.now }
    {
        let (bucket, slot, other_bucket, other_slot) = two_places(first, second);
        self.pair_slots(bucket, slot, other_bucket, other_slot)
    }
}
