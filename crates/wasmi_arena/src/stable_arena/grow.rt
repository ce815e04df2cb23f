//! Calls that add several items to a stable arena, or make one of them.
ghost use Rattle.std.specs.Prelude.{◌≡◌, ◌+◌, ◌<◌, ◌≤◌, ◌↔◌, ◌⊎◌, List, [], length, IfSome, IsOk, IfOk, OnOk, IfErr, OnErr, IsErrOf, IsOkUnless};
ghost use Rattle.std.specs.Mem.{type_size};
ghost use Rattle.std.specs.Iterator.{IsFinite, IsFiniteIterable, UpTo, size as count};
ghost use Rattle.wasmi_arena.specs.Geometry.{max_len, room};
ghost use Rattle.wasmi_arena.specs.Arena.{stable_limit};
ghost use Rattle.wasmi_arena.specs.Growth.{RefusesOneMore, TakesAll, TakesUntilRefused, AppendsMany};
ghost use Rattle.wasmi_arena.specs.inner.Growth.{TakesSome};

use crate::{ArenaError, ArenaKey, MAX_LEN, StableArena};
use std::alloc::Allocator;
use std::marker::PhantomData;
use std::ops::Range;

impl<Key: ArenaKey, T: Drop, A: Allocator + Clone> StableArena<Key, T, A> {
    /// Puts `amount` values of `T::default()` at the end, and returns their keys: those from the old
    /// length to before the new one. Linear in `amount`.
    ///
    /// Fails with `NotEnoughKeys` if the new length has no key or is above
    /// [`MAX_LEN`](crate::MAX_LEN), and then with `OutOfSystemMemory` if buckets must be opened, which
    /// is only where `amount` is above [`room`](StableArena::room), and there is no memory for them or the
    /// allocator can't be cloned. After an error the arena is as before: the buckets are opened before a
    /// value is added, and those that were opened are closed.
    pub fn alloc_many(&mut self, amount: usize) -> Result<Range<Key>, ArenaError>
    where
        T: Default,
        ensures keys { IfOk result (λ keys. (keys.start ≡ Key.keys.key (length self.old))
            × (keys.end ≡ Key.keys.key (length self.old + amount))) }
        ensures ok { OnOk result (AppendsMany T.is_default amount self.old self.new) }
        ensures no_key { IsErrOf result ArenaError.NotEnoughKeys
            ↔ ((Key.keys.count ≤ length self.old + amount) ⊎ (max_len < length self.old + amount)) }
        ensures memory { IsErrOf result ArenaError.OutOfSystemMemory → room (length self.old) < amount }
        ensures errors { IfErr result (λ error. (error ≡ ArenaError.NotEnoughKeys)
            ⊎ (error ≡ ArenaError.OutOfSystemMemory)) }
        ensures with_room { length self.old + amount < Key.keys.count → amount ≤ room (length self.old)
            → IsOk result }
        ensures without_size { length self.old + amount < Key.keys.count → length self.old + amount ≤ max_len
            → type_size T.row ≡ 0 → ((a : A) → A.is_infallible a) → IsOk result }
        ensures err { OnErr result (self.new ≡ self.old) }
    {
        let len = self.len();
        if amount > MAX_LEN - len {
            return Err(ArenaError::NotEnoughKeys);
        }
        let start = Key::from_usize(len).ok_or(ArenaError::NotEnoughKeys)?;
        let end = Key::from_usize(len + amount).ok_or(ArenaError::NotEnoughKeys)?;
        self.items.push_defaults(amount)?;
        Ok(start..end)
    }

    // Moves items into the free slots of the last bucket, until none is free or none comes, and returns the
    // iterator if it may have more. Where not each of these slots has a key, none is moved.
    fn fill_last_from<I: Iterator<Item = T>>(&mut self, items: I) -> Option<I>
        requires can { I.can_next items × IsFinite (I.remaining items) }
        ensures items { TakesSome I.next_gives items result self.old self.new }
        ensures goes { IfSome result (λ rest.
            I.can_next rest × UpTo (I.remaining rest) (count (I.remaining items))) }
    {
        let slots = self.items.slots();
        if slots == 0 || Key::from_usize(slots - 1).is_none() {
            return Some(items);
        }
        self.items.fill_last_from(items)
    }

    /// The items, put one by one into an empty arena. Linear.
    ///
    /// Fails as the first [`alloc`](StableArena::alloc) that fails, and then drops what came and the
    /// iterator.
    pub fn from_iter<U: IntoIterator<Item = T>>(alloc: A, iter: U) -> Result<Self, ArenaError>
        requires { IsFiniteIterable U.into_iter_gives U.IntoIter.can_next U.IntoIter.remaining iter }
        ensures ok { IfOk result (TakesAll U.into_iter_gives U.IntoIter.next_gives iter []) }
        ensures err { IfErr result (λ error. (held : List T) × TakesUntilRefused U.into_iter_gives
            U.IntoIter.next_gives (RefusesOneMore (stable_limit Key.keys)) iter [] held error) }
        ensures without_size { type_size T.row ≡ 0 → ((a : A) → A.is_infallible a)
            → IsOkUnless result ArenaError.NotEnoughKeys }
    {
        let mut arena = StableArena::new(alloc);
        let mut items = iter.into_iter();
        while let Some(item) = items.next() {
            arena.alloc(item)?;
            match arena.fill_last_from(items) {
                Some(rest) => items = rest,
                None => return Ok(arena),
            }
        }
        Ok(arena)
    }
}
