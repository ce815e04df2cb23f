//! Calls that add several items to a stable vector, or make one of them.
ghost use Rattle.std.specs.Prelude.{◌≡◌, ◌+◌, ◌<◌, ◌≤◌, List, [], ◌++◌, length, None, IfSome, IfOk, OnOk, IfErr, IsOkUnless};
ghost use Rattle.std.specs.Mem.{type_size};
ghost use Rattle.std.specs.Iterator.{IsFinite, IsFiniteIterable, UpTo, size as count};
ghost use Rattle.wasmi_arena.specs.Geometry.{size, max_len, fewest, slots, room};
ghost use Rattle.wasmi_arena.specs.Growth.{RefusesOneMore, TakesAll, TakesUntilRefused};
ghost use Rattle.wasmi_arena.specs.inner.Growth.{TakesSome};

use crate::bucket_table::fill::fill_bucket_from;
use crate::geometry::{place_in_last, start_of};
use crate::{ArenaError, Bucket, StableVec};
use std::alloc::Allocator;

impl<T: Drop, A: Allocator + Clone> StableVec<T, A> {
    // Puts `next`, which holds `amount` items, behind the other buckets, of which none has a free slot.
    pub(super) fn append_bucket(&mut self, next: Bucket<T, A>, amount: usize)
        requires full { room (length self.old) ≡ 0 }
        requires below { length self.old + amount ≤ max_len }
        requires some { 0 < amount }
        requires fits { amount ≤ size (fewest (length self.old)) }
        requires items { amount ≡ length next.items }
        requires capacity { next.capacity ≡ size (fewest (length self.old)) }
        ensures { self.new ≡ self.old ++ next.items }
    {
        let place = self.table.bucket_mut(self.open_buckets);
        *place = Some(next);
        self.open_buckets += 1;
        self.slots = start_of(self.open_buckets);
        self.len += amount;
    }

    // Moves items into the free slots of the last bucket, until none is free or none comes, and returns the
    // iterator if it may have more.
    pub(crate) fn fill_last_from<I: Iterator<Item = T>>(&mut self, items: I) -> Option<I>
        requires can { I.can_next items × IsFinite (I.remaining items) }
        ensures items { TakesSome I.next_gives items result self.old self.new }
        ensures within { length self.new ≤ slots (length self.old) }
        ensures goes { IfSome result (λ rest.
            I.can_next rest × UpTo (I.remaining rest) (count (I.remaining items))) }
    {
        if self.len == self.slots {
            return Some(items);
        }
        let place = place_in_last(self.len, self.open_buckets, self.slots);
        let (filled, rest) = fill_bucket_from(&mut self.table.buckets[..], place, items);
        self.len += filled;
        rest
    }

    /// Pushes the items, one by one.
    ///
    /// Fails as the first [`push`](StableVec::push) that fails: the items before that one are in, and it
    /// is dropped with the iterator, which gives no more. Costs what the pushes cost.
    pub fn extend<U: IntoIterator<Item = T>>(&mut self, iter: U) -> Result<(), ArenaError>
        requires { IsFiniteIterable U.into_iter_gives U.IntoIter.can_next U.IntoIter.remaining iter }
        ensures ok { OnOk result (TakesAll U.into_iter_gives U.IntoIter.next_gives iter self.old self.new) }
        ensures err { IfErr result (TakesUntilRefused U.into_iter_gives U.IntoIter.next_gives
            (RefusesOneMore max_len) iter self.old self.new) }
        ensures without_size { type_size T.row ≡ 0 → ((a : A) → A.is_infallible a)
            → IsOkUnless result ArenaError.NotEnoughKeys }
    {
        let mut items = iter.into_iter();
        while let Some(item) = items.next() {
            self.push(item)?;
            match self.fill_last_from(items) {
                Some(rest) => items = rest,
                None => return Ok(()),
            }
        }
        Ok(())
    }

    /// The items, pushed one by one into an empty vector. Linear.
    ///
    /// Fails as the first [`push`](StableVec::push) that fails, and then drops what came and the iterator.
    pub fn from_iter<U: IntoIterator<Item = T>>(alloc: A, iter: U) -> Result<Self, ArenaError>
        requires { IsFiniteIterable U.into_iter_gives U.IntoIter.can_next U.IntoIter.remaining iter }
        ensures ok { IfOk result (TakesAll U.into_iter_gives U.IntoIter.next_gives iter []) }
        ensures err { IfErr result (λ error. (held : List T)
            × TakesUntilRefused U.into_iter_gives U.IntoIter.next_gives (RefusesOneMore max_len) iter [] held error) }
        ensures without_size { type_size T.row ≡ 0 → ((a : A) → A.is_infallible a)
            → IsOkUnless result ArenaError.NotEnoughKeys }
    {
        let mut vec = StableVec::new(alloc);
        vec.extend(iter)?;
        Ok(vec)
    }
}
