//! Calls that fill many slots of a bucket. Each is one loop, which has the block's pointer and the slot in
//! hand; the bucket's length is stored at its end.
ghost use Rattle.std.specs.Prelude.{◌≡◌, ◌+◌, ◌≤◌, [], length, IsOk, OnOk, IfSome};
ghost use Rattle.std.specs.Iterator.{IsFinite, UpTo, size as count};
ghost use Rattle.std.specs.List.{All, AllZip};
ghost use Rattle.wasmi_arena.specs.Growth.{AppendsMany};
ghost use Rattle.wasmi_arena.specs.inner.Growth.{TakesSome};

use super::Bucket;
use std::alloc::{AllocError, Allocator};

impl<T, A: Allocator> Bucket<T, A> {
    // Puts `amount` values of `T::default()` into the first free slots, from `slot` on. No allocation.
    pub(crate) fn push_defaults(&mut self, slot: usize, amount: usize)
    where
        T: Default,
        requires slot { slot ≡ length self.old.items }
        requires free { slot + amount ≤ self.old.capacity }
        ensures items { AppendsMany T.is_default amount self.old.items self.new.items }
        ensures capacity { self.new.capacity ≡ self.old.capacity }
    {
        let ptr = self.ptr;
        for filled in 0..amount {
            self.slots.write(ptr, slot + filled, T::default());
        }
        self.len = slot + amount;
    }

    // Puts clones of these items into the first slots. After a refusal the clones that were made are in.
    pub(crate) fn push_clones(&mut self, items: &[T]) -> Result<(), AllocError>
    where
        T: Clone,
        requires empty { self.old.items ≡ [] }
        requires free { length items.now ≤ self.old.capacity }
        ensures items { OnOk result (AllZip T.is_clone items.now self.new.items) }
        ensures capacity { self.new.capacity ≡ self.old.capacity }
        ensures infallible { All T.is_infallible items.now → IsOk result }
    {
        let ptr = self.ptr;
        for (slot, item) in items.iter().enumerate() {
            match item.clone() {
                Ok(clone) => self.slots.write(ptr, slot, clone),
                Err(refused) => {
                    self.len = slot;
                    return Err(refused);
                }
            }
        }
        self.len = items.len();
        Ok(())
    }

    // Moves items into the free slots, from `slot` on, until none is free or none comes. Returns how many
    // went in, and the iterator if it may have more.
    pub(crate) fn push_from<I: Iterator<Item = T>>(
        &mut self,
        slot: usize,
        mut items: I,
    ) -> (usize, Option<I>)
        requires slot { slot ≡ length self.old.items }
        requires can { I.can_next items × IsFinite (I.remaining items) }
        ensures items { TakesSome I.next_gives items result.1 self.old.items self.new.items }
        ensures filled { length self.old.items + result.0 ≡ length self.new.items }
        ensures fits { length self.new.items ≤ self.old.capacity }
        ensures capacity { self.new.capacity ≡ self.old.capacity }
        ensures goes { IfSome result.1 (λ rest.
            I.can_next rest × UpTo (I.remaining rest) (count (I.remaining items))) }
    {
        let (ptr, free) = (self.ptr, self.capacity - slot);
        for filled in 0..free {
            match items.next() {
                Some(item) => self.slots.write(ptr, slot + filled, item),
                None => {
                    self.len = slot + filled;
                    return (filled, None);
                }
            }
        }
        self.len = slot + free;
        (free, Some(items))
    }
}
