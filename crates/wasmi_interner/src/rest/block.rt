//! A block of entries.
ghost use Rattle.std.specs.Prelude.{◌≡◌, ◌++◌, ◌+◌, ◌==◌, ◌<◌, ◌≤◌, [], ◌∷◌, length, IfOk, OnErr, OnOk, Some, slice_get, vec_capacity, vec_items};
ghost use Rattle.std.specs.List.{insert};
ghost use Rattle.wasmi_interner.specs.inner.RestBlocks.{BlockState, with_entries};

use super::width::Width;
use crate::entry::Entry;
use std::alloc::{AllocError, Allocator};
use std::collections::VecDeque;
use std::marker::Model;

// At most as many entries as its width. It has room for them from the beginning, and they lie in a ring, so that an
// entry goes to the front as to the end, and moves no other.
#[derive(Drop)]
pub(super) struct Block<A: Allocator> {
    entries: VecDeque<Entry, A>,
    width: usize,
}

impl<A: Allocator> Model for Block<A> {
    ghost use Rattle.std.specs.Prelude.{◌≤◌};
    ghost use Rattle.wasmi_interner.specs.inner.RestBlocks.{BlockState};

    ghost Value = { BlockState };

    ghost view = { λ block. record { entries = block.entries.items; width = block.width } };

    ghost invariant = { λ block. (block.entries.len ≤ block.width) × (block.width ≤ block.entries.cap) };
}

impl<A: Allocator> Block<A> {
    // A block without entries.
    pub(super) fn new(alloc: A, width: &Width) -> Result<Self, AllocError>
        ensures { IfOk result (λ block. (block.entries ≡ []) × (block.width ≡ width.now)) }
    {
        Ok(Block {
            entries: VecDeque::with_capacity(alloc, width.get())?,
            width: width.get(),
        })
    }

    // The entries of two full blocks of one width in a block of the next width.
    pub(super) fn joined(
        alloc: A,
        one: &Block<A>,
        other: &Block<A>,
        width: &Width,
    ) -> Result<Self, AllocError>
        requires one { length one.now.entries ≡ one.now.width }
        requires other { length other.now.entries ≡ other.now.width }
        requires width { one.now.width + other.now.width ≡ width.now }
        ensures { IfOk result (λ block. (block.entries ≡ one.now.entries ++ other.now.entries) × (block.width ≡ width.now)) }
    {
        let mut entries = Vec::with_capacity(alloc, width.get())?;
        one.copy_to(&mut entries)?;
        other.copy_to(&mut entries)?;
        Ok(Block {
            entries: VecDeque::from_vec(entries),
            width: width.get(),
        })
    }

    // Copies its entries behind others.
    fn copy_to(&self, others: &mut Vec<Entry, A>) -> Result<(), AllocError>
        ensures entries { OnOk result (vec_items others.new ≡ vec_items others.old ++ self.now.entries) }
        ensures room { vec_capacity others.old ≤ vec_capacity others.new }
    {
        let (front, back) = self.entries.as_slices();
        others.extend_from_slice(front)?;
        others.extend_from_slice(back)
    }

    // Makes room for as many entries more as it has. Without memory for them, it is as before.
    pub(super) fn widen(&mut self, width: &Width) -> Result<(), AllocError>
        requires full { length self.old.entries ≡ self.old.width }
        requires width { self.old.width + self.old.width ≡ width.now }
        ensures entries { self.new.entries ≡ self.old.entries }
        ensures ok { OnOk result (self.new.width ≡ width.now) }
        ensures err { OnErr result (self.new.width ≡ self.old.width) }
    {
        self.entries.reserve(self.width)?;
        self.width = width.get();
        Ok(())
    }

    // Whether there is room for no more entry.
    pub(super) fn is_full(&self) -> bool
        ensures { result ≡ (length self.now.entries == self.now.width) }
    {
        self.entries.len() == self.width
    }

    // The entry of a place.
    pub(super) fn at(&self, place: usize) -> Entry
        requires { place < length self.now.entries }
        ensures { slice_get self.now.entries place ≡ Some result }
    {
        self.entries[place]
    }

    // Puts an entry at a place. There is room.
    pub(super) fn put(&mut self, place: usize, entry: Entry)
        requires within { place ≤ length self.old.entries }
        requires free { length self.old.entries < self.old.width }
        ensures { self.new ≡ with_entries self.old (insert self.old.entries place entry) }
    {
        match self.entries.insert(place, entry) {
            Ok(()) => {}
            Err(_) => unreachable!(),
        }
    }

    // Puts an entry at a place, and takes the last out. The block is full.
    pub(super) fn push_out(&mut self, place: usize, entry: Entry) -> Entry
        requires full { length self.old.entries ≡ self.old.width }
        requires within { place < self.old.width }
        ensures entries { self.new.entries ++ result ∷ [] ≡ insert self.old.entries place entry }
        ensures width { self.new.width ≡ self.old.width }
    {
        let Some(last) = self.entries.pop_back() else {
            unreachable!();
        };
        self.put(place, entry);
        last
    }
}

impl<A: Allocator + Clone> Clone for Block<A> {
    ghost is_clone = { λ block copy. copy ≡ block };

    ghost is_infallible = { λ _. ⊥ };

    fn clone(&self) -> Result<Self, AllocError> {
        let alloc = self.entries.allocator().clone()?;
        let mut entries = Vec::with_capacity(alloc, self.width)?;
        self.copy_to(&mut entries)?;
        Ok(Block {
            entries: VecDeque::from_vec(entries),
            width: self.width,
        })
    }
}
