//! The items in the slots of a block: one goes in, one comes out, all are lent as a slice.
ghost use Rattle.std.specs.Prelude.{◌≡◌, ◌+◌, ◌<◌, [], ◌∷◌, ◌++◌, length, slice_get, Some};
ghost use Rattle.std.specs.Borrow.{sem};
ghost use Rattle.wasmi_arena.specs.inner.Slots.{with_last, without_first, without_last};
ghost use Rattle.wasmi_arena.specs.inner.SlotsLend.{lends_items, lends_item};

use super::{BlockPtr, Slots};
use std::slice;

impl<T> Slots<T> {
    // Fills the slot behind the items, which is `slot`.
    pub(crate) fn write(&mut self, ptr: BlockPtr<T>, slot: usize, item: T)
        requires block { ptr.start ≡ self.old.block }
        requires next { slot ≡ self.old.taken + length self.old.items }
        requires free { 0 < self.old.free }
        ensures { self.new ≡ with_last self.old item }
    {
        unsafe { ptr.start.add(slot).write(item) }
    }

    // Takes the first item out of its slot, which is `slot`.
    pub(crate) fn take(&mut self, ptr: BlockPtr<T>, slot: usize) -> T
        requires block { ptr.start ≡ self.old.block }
        requires first { slot ≡ self.old.taken }
        requires some { 0 < length self.old.items }
        ensures item { self.old.items ≡ result ∷ self.new.items }
        ensures slots { self.new ≡ without_first self.old }
    {
        unsafe { ptr.start.add(slot).read() }
    }

    // Takes the last item out of its slot, which is `slot`, and is free then.
    pub(crate) fn take_last(&mut self, ptr: BlockPtr<T>, slot: usize) -> T
        requires block { ptr.start ≡ self.old.block }
        requires last { slot + 1 ≡ self.old.taken + length self.old.items }
        requires some { 0 < length self.old.items }
        ensures item { self.old.items ≡ self.new.items ++ result ∷ [] }
        ensures slots { self.new ≡ without_last self.old }
    {
        unsafe { ptr.start.add(slot).read() }
    }

    // The items, of which there are `len`.
    pub(crate) fn slice(&self, ptr: BlockPtr<T>, len: usize) -> &[T]
        requires block { ptr.start ≡ self.now.block }
        requires whole { self.now.taken ≡ 0 }
        requires len { len ≡ length self.now.items }
        ensures { result.now ≡ self.now.items }
    {
        unsafe { slice::from_raw_parts(ptr.start, len) }
    }

    // The items, of which there are `len`, to write to.
    pub(crate) fn slice_mut(&mut self, ptr: BlockPtr<T>, len: usize) -> &mut [T]
        requires block { ptr.start ≡ self.old.block }
        requires whole { self.old.taken ≡ 0 }
        requires len { len ≡ length self.old.items }
        ensures* writes_back { sem 𝓛 (lends_items T.row self.entry result) }
        ensures value { result.now ≡ self.old.items }
    {
        unsafe { slice::from_raw_parts_mut(ptr.start, len) }
    }

    // The item in a slot, to write to.
    pub(crate) fn item_mut(&mut self, ptr: BlockPtr<T>, slot: usize) -> &mut T
        requires block { ptr.start ≡ self.old.block }
        requires whole { self.old.taken ≡ 0 }
        requires filled { slot < length self.old.items }
        ensures* writes_back { sem 𝓛 (lends_item T.row self.entry slot result) }
        ensures value { slice_get self.old.items slot ≡ Some result.now }
    {
        unsafe { &mut *ptr.start.add(slot) }
    }
}
