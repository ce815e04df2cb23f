//! Calls that add several items to an arena in one vector, or make one of them.
ghost use Rattle.std.specs.Prelude.{◌≡◌, ◌+◌, ◌<◌, ◌≤◌, ◌↔◌, ◌⊎◌, List, [], ◌∷◌, ◌++◌, length, IsOk, IfOk, OnOk, IfErr, OnErr, IsErrOf};
ghost use Rattle.std.specs.Iterator.{IsFiniteIterable};
ghost use Rattle.wasmi_arena.specs.Growth.{TakesAll, TakesUntilRefused, AppendsMany};
ghost use Rattle.wasmi_dense.specs.Arena.{state_of};
ghost use Rattle.wasmi_dense.specs.ArenaGrowth.{FillsBlock, RefusesOneMore};

use super::Arena;
use core::mem;
use std::alloc::{AllocError, Allocator};
use std::marker::PhantomData;
use std::ops::Range;
use wasmi_arena::{ArenaError, ArenaKey};

// A vector that has room for `amount` values of `T::default()`, with these at its end.
//
// It is taken by value, so that its length and its pointer stay in registers while it is filled.
fn with_defaults<T: Default, A: Allocator>(mut items: Vec<T, A>, amount: usize) -> (Vec<T, A>, ())
    requires { amount ≤ (state_of items).room }
    ensures values { AppendsMany T.is_default amount (state_of items).items (state_of result.0).items }
    ensures room { (state_of items).room ≡ (state_of result.0).room + amount }
{
    for _ in 0..amount {
        items.push_reserved(T::default());
    }
    // `replace_with` hands the second on.
    (items, ())
}

// Puts `amount` values of `T::default()` at the end of a vector, or leaves it as it is where it can't grow.
fn push_defaults<T: Default, A: Allocator>(
    items: &mut Vec<T, A>,
    amount: usize,
) -> Result<(), AllocError>
    ensures ok { OnOk result
        (AppendsMany T.is_default amount (state_of items.old).items (state_of items.new).items) }
    ensures room { OnOk result ((state_of items.old).room ≤ (state_of items.new).room + amount) }
    ensures kept { amount ≤ (state_of items.old).room
        → OnOk result ((state_of items.old).room ≡ (state_of items.new).room + amount) }
    ensures memory { OnErr result ((state_of items.old).room < amount) }
    ensures err { OnErr result (state_of items.new ≡ state_of items.old) }
{
    if items.capacity() - items.len() < amount {
        items.reserve(amount)?;
    }
    mem::replace_with(items, amount, with_defaults);
    Ok(())
}

// Makes room for one more item where there is none: the block then holds twice as many, and 4 at least.
fn double<T, A: Allocator>(items: &mut Vec<T, A>) -> Result<(), AllocError>
    ensures items { (state_of items.new).items ≡ (state_of items.old).items }
    ensures ok { OnOk result (0 < (state_of items.new).room) }
    ensures block { FillsBlock (length (state_of items.old).items + (state_of items.old).room)
        → FillsBlock (length (state_of items.new).items + (state_of items.new).room) }
    ensures memory { OnErr result ((state_of items.old).room ≡ 0) }
    ensures err { OnErr result (state_of items.new ≡ state_of items.old) }
{
    let len = items.len();
    if len == items.capacity() {
        items.reserve_exact(len.max(4))?;
    }
    Ok(())
}

impl<Key: ArenaKey, T: Drop, A: Allocator> Arena<Key, T, A> {
    // Puts an item at the end, as `alloc` does, in a block that grows by `double`, to exactly twice its length.
    fn add(&mut self, item: T) -> Result<(), ArenaError>
        ensures ok { OnOk result (self.new.items ≡ self.old.items ++ item ∷ []) }
        ensures block { OnOk result (FillsBlock (length self.old.items + self.old.room)
            → FillsBlock (length self.new.items + self.new.room)) }
        ensures no_key { IsErrOf result ArenaError.NotEnoughKeys
            ↔ (Key.keys.count ≤ length self.old.items) }
        ensures memory { IsErrOf result ArenaError.OutOfSystemMemory → self.old.room ≡ 0 }
        ensures errors { IfErr result (λ error. (error ≡ ArenaError.NotEnoughKeys)
            ⊎ (error ≡ ArenaError.OutOfSystemMemory)) }
    {
        self.next_key()?;
        double(&mut self.items)?;
        self.items.push_reserved(item);
        Ok(())
    }

    /// Puts `amount` values of `T::default()` at the end, and returns their keys: those from the old
    /// length to before the new one. Linear in `amount`, and in the length where the vector must grow.
    ///
    /// Fails with `NotEnoughKeys` if the new length is above `usize::MAX` or has no key, and then with
    /// `OutOfSystemMemory` if the vector must grow, which is only where `amount` is above
    /// [`room`](Arena::room), and there is no memory for it. After an error the arena is as before.
    /// It grows once at the most, before the first value is added.
    pub fn alloc_many(&mut self, amount: usize) -> Result<Range<Key>, ArenaError>
    where
        T: Default,
        ensures keys { IfOk result (λ keys. (keys.start ≡ Key.keys.key (length self.old.items))
            × (keys.end ≡ Key.keys.key (length self.old.items + amount))) }
        ensures ok { OnOk result (AppendsMany T.is_default amount self.old.items self.new.items) }
        ensures room { OnOk result (self.old.room ≤ self.new.room + amount) }
        ensures kept { amount ≤ self.old.room → OnOk result (self.old.room ≡ self.new.room + amount) }
        ensures no_key { IsErrOf result ArenaError.NotEnoughKeys
            ↔ (Key.keys.count ≤ length self.old.items + amount) }
        ensures memory { IsErrOf result ArenaError.OutOfSystemMemory → self.old.room < amount }
        ensures errors { IfErr result (λ error. (error ≡ ArenaError.NotEnoughKeys)
            ⊎ (error ≡ ArenaError.OutOfSystemMemory)) }
        ensures with_room { length self.old.items + amount < Key.keys.count → amount ≤ self.old.room
            → IsOk result }
        ensures err { OnErr result (self.new ≡ self.old) }
    {
        let len = self.items.len();
        let start = self.next_key()?;
        let new_len = len.checked_add(amount).ok_or(ArenaError::NotEnoughKeys)?;
        let end = Key::from_usize(new_len).ok_or(ArenaError::NotEnoughKeys)?;
        push_defaults(&mut self.items, amount)?;
        Ok(start..end)
    }

    /// The items, put one by one into an empty arena. Linear.
    ///
    /// Fails as the first [`alloc`](Arena::alloc) that fails, and then drops what came. It asks for
    /// memory where an item finds its block full, which holds 4 of them, then 8, 16 and so on.
    pub fn from_iter<U: IntoIterator<Item = T>>(alloc: A, iter: U) -> Result<Self, ArenaError>
        requires { IsFiniteIterable U.into_iter_gives U.IntoIter.can_next U.IntoIter.remaining iter }
        ensures ok { IfOk result (λ arena. TakesAll U.into_iter_gives U.IntoIter.next_gives iter [] arena.items) }
        ensures err { IfErr result (λ error. (held : List T) × TakesUntilRefused U.into_iter_gives
            U.IntoIter.next_gives (RefusesOneMore Key.keys.count) iter [] held error) }
    {
        let mut arena = Arena::new(alloc);
        for item in iter {
            arena.add(item)?;
        }
        Ok(arena)
    }
}
