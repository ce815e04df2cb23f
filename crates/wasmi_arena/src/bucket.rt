//! The buckets of a stable vector.
ghost use Rattle.std.specs.Prelude.{◌≡◌, ◌^◌, ◌+◌, ◌<◌, [], ◌∷◌, ◌++◌, length, take, slice_get, Some, IfOk, IsOk};
ghost use Rattle.std.specs.Borrow.{sem};
ghost use Rattle.std.specs.Mem.{type_size};
ghost use Rattle.wasmi_arena.specs.Bucket.{bucket};

mod fill;
mod into_items;

use crate::raw::block::{BlockPtr, DeallocRight, Slots, allocate, without_block};
pub(crate) use into_items::BucketItems;
use std::alloc::{AllocError, Allocator, Global};
use std::marker::Model;
use std_alloc::room::may_hold;

/// A block of slots that is filled from its first slot on, and never grows or moves.
///
/// A [`StableVec`](crate::StableVec) keeps its items in buckets, and lends each one by
/// [`bucket`](crate::StableVec::bucket). The block is one block of the allocator's; items without a
/// size need none.
pub struct Bucket<T, A: Allocator = Global> {
    pub(crate) ptr: BlockPtr<T>,
    len: usize,
    capacity: usize,
    slots: Slots<T>,
    right: DeallocRight<T, A>,
    alloc: A,
}

impl<T, A: Allocator> Model for Bucket<T, A> {
    ghost use Rattle.wasmi_arena.specs.Bucket.{Bucket, bucket, bucket_code};
    ghost use Rattle.wasmi_arena.specs.inner.Filled.{IsFilledBlock};

    ghost Value = { Bucket T };

    ghost coded = { bucket_code T.code };

    ghost view = { λ b. bucket b.slots.items b.capacity };

    ghost invariant = { λ b. IsFilledBlock b.ptr b.len b.capacity b.slots b.right b.alloc };
}

impl<T, A: Allocator> Bucket<T, A> {
    ghost use Rattle.wasmi_arena.specs.inner.BucketLend.{lends_items, lends_item};

    // An empty bucket of `capacity` slots, in one block that it asks of `alloc`, which it keeps. Nothing is
    // asked for where the items take no memory.
    pub(crate) fn open(alloc: A, capacity: usize) -> Result<Self, AllocError>
        requires { (0 < capacity) × (capacity < 2 ^ 63) }
        ensures items { IfOk result (λ b. b ≡ bucket [] capacity) }
        ensures without_size { type_size T.row ≡ 0 → IsOk result }
    {
        let (ptr, slots, right) = match without_block(&alloc, capacity) {
            Some(block) => block,
            None => {
                if !may_hold::<T>(capacity) {
                    return Err(AllocError);
                }
                allocate(&alloc, capacity)?
            }
        };
        Ok(Bucket {
            ptr,
            len: 0,
            capacity,
            slots,
            right,
            alloc,
        })
    }

    // Puts an item into the first free slot, which is `slot`. Constant time, no allocation.
    #[inline]
    pub(crate) fn push(&mut self, slot: usize, item: T)
        requires slot { slot ≡ length self.old.items }
        requires free { length self.old.items < self.old.capacity }
        ensures { self.new ≡ bucket (self.old.items ++ item ∷ []) self.old.capacity }
    {
        self.slots.write(self.ptr, slot, item);
        self.len = slot + 1;
    }

    // Takes the item out of the last filled slot, which is `slot`. Constant time.
    pub(crate) fn pop(&mut self, slot: usize) -> T
        requires { length self.old.items ≡ slot + 1 }
        ensures rest { self.new ≡ bucket (take slot self.old.items) self.old.capacity }
        ensures item { slice_get self.old.items slot ≡ Some result }
    {
        self.len = slot;
        self.slots.take_last(self.ptr, slot)
    }

    /// The items of the filled slots, in order. Constant time.
    pub fn slice(&self) -> &[T]
        ensures { result.now ≡ self.now.items }
    {
        self.slots.slice(self.ptr, self.len)
    }

    /// How many slots there are, filled and free. Constant time.
    pub fn capacity(&self) -> usize
        ensures { result ≡ self.now.capacity }
    {
        self.capacity
    }

    // The items of the filled slots, to write to.
    pub(crate) fn slice_mut(&mut self) -> &mut [T]
        ensures* writes_back { sem 𝓛 (lends_items T.row A.row A.Allocator self.entry result) }
        ensures value { result.now ≡ self.old.items }
    {
        let (ptr, len) = (self.ptr, self.len);
        self.slots.slice_mut(ptr, len)
    }

    // The item in a filled slot, to write to.
    pub(crate) fn item_mut(&mut self, slot: usize) -> &mut T
        requires { slot < length self.old.items }
        ensures* writes_back { sem 𝓛 (lends_item T.row A.row A.Allocator self.entry slot result) }
        ensures value { slice_get self.old.items slot ≡ Some result.now }
    {
        let ptr = self.ptr;
        self.slots.item_mut(ptr, slot)
    }

    // The items, to take out.
    pub(crate) fn into_items(self) -> BucketItems<T, A>
        ensures { result ≡ self.items }
    {
        let Bucket {
            ptr,
            len,
            capacity,
            slots,
            right,
            alloc,
        } = self;
        BucketItems::of_block(ptr, len, capacity, slots, right, alloc)
    }

    // Drops the items, first to last, and gives the block back to the allocator that it is of.
    pub(crate) fn close(self)
    where
        T: Drop,
    {
        let _items = self.into_items();
    }
}

impl<T: Drop, A: Allocator> Drop for Bucket<T, A> {
    fn drop(self) {
        self.close();
    }
}
