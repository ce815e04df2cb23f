//! Adding many default values to a stable vector, all or none.
ghost use Rattle.std.specs.Prelude.{◌≡◌, ◌+◌, ◌<◌, ◌≤◌, min, length, IsOk, OnOk, OnErr, IsOkUnless, None};
ghost use Rattle.std.specs.Mem.{type_size};
ghost use Rattle.wasmi_arena.specs.Geometry.{max_len, fewest, room};
ghost use Rattle.wasmi_arena.specs.Growth.{AppendsMany};
ghost use Rattle.wasmi_arena.specs.inner.Apart.{AreOpenApart};

use crate::bucket_table::fill::{fill_bucket, open_apart};
use crate::bucket_table::take::take_bucket;
use crate::geometry::{BUCKETS, buckets_for, place_in_last};
use crate::{ArenaError, Bucket, BucketTable, StableVec};
use std::alloc::Allocator;

impl<T: Default + Drop, A: Allocator + Clone> StableVec<T, A> {
    // Fills free slots of the last bucket with values of `T::default()`, at most `amount` of them, and
    // returns how many.
    fn fill_last(&mut self, amount: usize) -> usize
        ensures filled { result ≡ min amount (room (length self.old)) }
        ensures items { AppendsMany T.is_default result self.old self.new }
    {
        let filled = amount.min(self.slots - self.len);
        if filled == 0 {
            return 0;
        }
        let place = place_in_last(self.len, self.open_buckets, self.slots);
        fill_bucket(&mut self.table.buckets[..], place, filled);
        self.len += filled;
        filled
    }

    // Pushes `amount` values of `T::default()`, with the buckets in `apart`.
    fn fill_from(&mut self, apart: &mut [Option<Bucket<T, A>>], amount: usize)
        requires below { length self.old + amount ≤ max_len }
        requires apart { AreOpenApart apart.old (fewest (length self.old)) (fewest (length self.old + amount)) }
        ensures { AppendsMany T.is_default amount self.old self.new }
    {
        let mut left = amount - self.fill_last(amount);
        while left > 0 {
            // No slot is free.
            let mut next = take_bucket(apart, self.open_buckets());
            let filled = left.min(next.capacity());
            next.push_defaults(0, filled);
            self.append_bucket(next, filled);
            left -= filled;
        }
    }

    // Pushes `amount` values of `T::default()`, or none.
    //
    // The buckets that they need are opened first, apart from the vector's own, so that after an error the
    // vector is as before.
    pub(crate) fn push_defaults(&mut self, amount: usize) -> Result<(), ArenaError>
        requires { length self.old + amount ≤ max_len }
        ensures ok { OnOk result (AppendsMany T.is_default amount self.old self.new) }
        ensures with_room { amount ≤ room (length self.old) → IsOk result }
        ensures errors { IsOkUnless result ArenaError.OutOfSystemMemory }
        ensures without_size { type_size T.row ≡ 0 → ((a : A) → A.is_infallible a) → IsOk result }
        ensures err { OnErr result (self.new ≡ self.old) }
    {
        if amount <= self.room() {
            let _filled = self.fill_last(amount);
            return Ok(());
        }
        let needed = buckets_for(self.len + amount);
        let mut apart: BucketTable<T, A, BUCKETS> = BucketTable::new();
        open_apart(
            &mut apart.buckets[..],
            self.open_buckets,
            needed,
            &self.alloc,
        )?;
        self.fill_from(&mut apart.buckets[..], amount);
        Ok(())
    }
}
