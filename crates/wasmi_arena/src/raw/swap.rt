//! Two items of a table change places.
ghost use Rattle.std.specs.Prelude.{◌≡◌, ◌≢◌, ◌<◌, length, slice_get, slice_index_or, Some, None};
ghost use Rattle.wasmi_arena.specs.inner.Table.{items_in, write};

use crate::{Bucket, BucketTable};
use std::alloc::Allocator;
use std::mem::align_of;

impl<T, A: Allocator, const N: usize> BucketTable<T, A, N> {
    // Exchanges the items in two filled slots, of one bucket or of two. Each is found by its own bucket's
    // pointer, so nothing is tested.
    pub(crate) fn swap(
        &mut self,
        bucket: usize,
        slot: usize,
        other_bucket: usize,
        other_slot: usize,
    )
        requires apart { bucket ≡ other_bucket → slot ≢ other_slot }
        requires first { slot < length (items_in (slice_index_or self.old.buckets bucket None)) }
        requires second { other_slot < length (items_in (slice_index_or self.old.buckets other_bucket None)) }
        ensures { (x y : T) → slice_get (items_in (slice_index_or self.old.buckets bucket None)) slot ≡ Some x
            → slice_get (items_in (slice_index_or self.old.buckets other_bucket None)) other_slot ≡ Some y
            → self.new.buckets ≡ write (write self.old.buckets bucket slot y) other_bucket other_slot x }
    {
        let first = &raw mut self.buckets as *mut Option<Bucket<T, A>>;
        unsafe {
            let one = block_of!(first, bucket).add(slot);
            let other = block_of!(first, other_bucket).add(other_slot);
            let item = one.read();
            one.write(other.read());
            other.write(item);
        }
    }
}
