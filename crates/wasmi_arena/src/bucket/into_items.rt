//! The items of a bucket by value, taken out from both ends.
ghost use Rattle.std.specs.Prelude.{◌≡◌, length};
ghost use Rattle.std.specs.Iterator.{YieldsFirst, YieldsLast, item_count};
ghost use Rattle.wasmi_arena.specs.inner.Filled.{IsFilledBlock};

use crate::raw::block::{BlockPtr, DeallocRight, Slots, deallocate};
use std::alloc::Allocator;
use std::marker::Model;

/// The items that are left of a [`Bucket`](crate::Bucket) whose items are taken out. They are dropped
/// with it, first to last, and the block goes back to the allocator that it is of.
pub struct BucketItems<T, A: Allocator> {
    ptr: BlockPtr<T>,
    // The slot of the first item, and the one behind the last.
    first: usize,
    end: usize,
    capacity: usize,
    slots: Slots<T>,
    right: DeallocRight<T, A>,
    alloc: A,
}

impl<T, A: Allocator> Model for BucketItems<T, A> {
    ghost use Rattle.std.specs.Prelude.{List};
    ghost use Rattle.wasmi_arena.specs.inner.Filled.{IsTakenFrom};

    ghost Value = { List T };

    ghost view = { λ b. b.slots.items };

    ghost invariant = { λ b. IsTakenFrom b.ptr b.first b.end b.capacity b.slots b.right b.alloc };
}

impl<T, A: Allocator> BucketItems<T, A> {
    // All items of a block, whose first `len` slots hold them.
    pub(super) fn of_block(
        ptr: BlockPtr<T>,
        len: usize,
        capacity: usize,
        slots: Slots<T>,
        right: DeallocRight<T, A>,
        alloc: A,
    ) -> Self
        requires { IsFilledBlock ptr len capacity slots right alloc }
        ensures { result ≡ slots.items }
    {
        BucketItems {
            ptr,
            first: 0,
            end: len,
            capacity,
            slots,
            right,
            alloc,
        }
    }

    // How many items are left. Constant time.
    pub(crate) fn len(&self) -> usize
        ensures { result ≡ length self.now }
    {
        self.end - self.first
    }
}

impl<T: Drop, A: Allocator> Iterator for BucketItems<T, A> {
    type Item = T;

    ghost next_gives = { YieldsFirst (λ items. items) };

    ghost remaining = { item_count (λ items. items) };

    fn next(&mut self) -> Option<T> {
        let first = self.first;
        if first == self.end {
            return None;
        }
        self.first = first + 1;
        Some(self.slots.take(self.ptr, first))
    }
}

impl<T: Drop, A: Allocator> DoubleEndedIterator for BucketItems<T, A> {
    ghost next_back_gives = { YieldsLast (λ items. items) };

    fn next_back(&mut self) -> Option<T> {
        if self.first == self.end {
            return None;
        }
        self.end -= 1;
        Some(self.slots.take_last(self.ptr, self.end))
    }
}

impl<T: Drop, A: Allocator> Drop for BucketItems<T, A> {
    fn drop(self) {
        let BucketItems {
            ptr,
            first,
            end,
            capacity,
            mut slots,
            right,
            alloc,
        } = self;
        for slot in first..end {
            let _item = slots.take(ptr, slot);
        }
        deallocate(&alloc, ptr, capacity, slots, right);
    }
}
