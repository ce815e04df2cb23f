//! A vector whose items stay in the slots that they were pushed into.
ghost use Rattle.std.specs.Prelude.{◌≡◌, ◌+◌, ◌*◌, ◌<◌, ◌≤◌, ◌==◌, ◌↔◌, [], ◌∷◌, ◌++◌, length, IfOk, IfErr, OnOk, OnErr, IsOk, IsErrOf, IsTrue, ◌⊎◌, option_copied, slice_get, Some, None};
ghost use Rattle.std.specs.Borrow.{sem};
ghost use Rattle.std.specs.Mem.{type_size};
ghost use Rattle.std.specs.Option.{option_copied_mut};
ghost use Rattle.wasmi_arena.specs.Geometry.{size, max_len, IsPlace, fewest, slots, room, bucket_of, slot_of};
ghost use Rattle.wasmi_arena.specs.IterMut.{left, loan_of, KeepsLength};
ghost use Rattle.wasmi_arena.specs.VecLend.{lends_items};
ghost use Rattle.wasmi_arena.specs.StableVec.{bucket_at, filled_parts};

mod clone;
mod compared;
mod defaults;
mod ends;
mod grow;
mod index;
mod into_iter;
mod iter;
mod iter_mut;
mod pairs;
mod slices;
mod slices_mut;

use crate::bucket_table::fill::{fill_next, open_with};
use crate::bucket_table::lend::slot_mut;
use crate::geometry::{BUCKETS, MAX_LEN, bucket_size, is_limit, place, start_of};
use crate::raw::option::unwrap_ref;
use crate::{ArenaError, Bucket, BucketTable};
pub use into_iter::StableVecIntoIter;
pub use iter::StableVecIter;
pub use iter_mut::StableVecIterMut;
pub use slices::StableVecSlices;
pub use slices_mut::StableVecSlicesMut;
use std::alloc::{Allocator, Global};
use std::marker::{Model, PhantomData};

/// A vector whose items stay where they are: a push never moves an item that is there.
///
/// The items lie in at most 27 buckets, of 32, 64, 128 and so on slots, which are opened in order,
/// each when its first item is pushed. So a vector of n items has exactly the fewest buckets with
/// room for n, and holds at most 4,294,967,264 items. The item at an index lies in the slot that
/// [`place`](StableVec::place) gives, whatever the length.
#[derive(Drop)]
pub struct StableVec<T, A: Allocator = Global> {
    pub(crate) table: BucketTable<T, A, BUCKETS>,
    open_buckets: usize,
    // How many slots these have.
    slots: usize,
    len: usize,
    alloc: A,
}

impl<T, A: Allocator> Model for StableVec<T, A> {
    ghost use Rattle.std.specs.Prelude.{List};

    ghost Value = { List T };

    ghost use Rattle.wasmi_arena.specs.inner.Table.{items_of, IsLaidOut};

    ghost view = { λ vec. items_of vec.table.buckets };

    ghost invariant = { λ vec. IsLaidOut vec.table.buckets vec.open_buckets vec.slots vec.len };
}

impl<T> StableVec<T> {
    /// The bucket and the slot in it of the item at an index below [`MAX_LEN`]. Constant time.
    pub fn place(index: usize) -> (usize, usize)
        requires { index < max_len }
        ensures place { IsPlace index result.0 result.1 }
        ensures bucket { result.0 ≡ bucket_of index }
        ensures slot { result.1 ≡ slot_of index }
    {
        place(index)
    }

    /// How many slots a bucket has. Constant time.
    pub fn size_of_bucket_at(bucket: usize) -> usize
        requires { bucket < BUCKETS }
        ensures { result ≡ size bucket }
    {
        bucket_size(bucket)
    }
}

impl<T, A: Allocator> StableVec<T, A> {
    ghost use Rattle.wasmi_arena.specs.VecLend.{lends_index, lends_get};

    /// An empty vector, which clones `alloc` for each bucket that is opened. Constant time, no allocation.
    pub fn new(alloc: A) -> Self
        ensures { result ≡ [] }
    {
        StableVec {
            table: BucketTable::new(),
            open_buckets: 0,
            slots: 0,
            len: 0,
            alloc,
        }
    }

    /// The number of items. Constant time.
    pub fn len(&self) -> usize
        ensures value { result ≡ length self.now }
        ensures bound { result ≤ max_len }
    {
        self.len
    }

    /// Whether there is no item. Constant time.
    pub fn is_empty(&self) -> bool
        ensures { result ≡ (length self.now == 0) }
    {
        self.len == 0
    }

    /// How many buckets are open: the fewest with room for the items. Constant time.
    pub fn open_buckets(&self) -> usize
        ensures { result ≡ fewest (length self.now) }
    {
        self.open_buckets
    }

    /// How many slots the open buckets have: at most 30 more than twice as many as there are items.
    /// Constant time.
    pub fn slots(&self) -> usize
        ensures value { result ≡ slots (length self.now) }
        ensures enough { length self.now ≤ result }
        ensures few { result ≤ 2 * length self.now + 30 }
        ensures none { self.now ≡ [] → result ≡ 0 }
    {
        self.slots
    }

    /// How many items can be pushed before a bucket must be opened. Constant time.
    pub fn room(&self) -> usize
        ensures { result ≡ room (length self.now) }
    {
        self.slots() - self.len
    }

    // Whether it can have no more items.
    #[inline]
    pub(crate) fn is_full(&self) -> bool
        ensures { IsTrue result ↔ (max_len ≤ length self.now) }
    {
        if self.len < self.slots {
            return false;
        }
        is_limit(self.len)
    }

    /// The item at an index, if there is one. Constant time.
    pub fn get(&self, index: usize) -> Option<&T>
        ensures { option_copied result ≡ slice_get self.now index }
    {
        if index >= self.len {
            return None;
        }
        let (bucket, slot) = place(index);
        // proof: by the slice, since an index into the array asks for the size of all of it.
        let buckets = &self.table.buckets[..];
        let open = unwrap_ref(&buckets[bucket]);
        Some(&open.slice()[slot])
    }

    // The item at an index, to write to.
    pub(crate) fn item_mut(&mut self, index: usize) -> &mut T
        requires { index < length self.old }
        ensures* writes_back { sem 𝓛 (lends_index T.row A.row A.Allocator self.entry index result) }
        ensures value { slice_get self.old index ≡ Some result.now }
    {
        // proof: an index of an item has a place, which the invariant of the table tells.
        let _ = &self.table;
        let (bucket, slot) = place(index);
        let found = self.table.bucket_mut(bucket);
        slot_mut(found, slot)
    }

    /// The item at an index to write to, or `None` when `index >= len`. Constant time.
    pub fn get_mut(&mut self, index: usize) -> Option<&mut T>
        ensures* writes_back { sem 𝓛 (lends_get T.row A.row A.Allocator self.entry index result) }
        ensures value { option_copied_mut result ≡ slice_get self.old index }
    {
        if index < self.len {
            Some(self.item_mut(index))
        } else {
            None
        }
    }

    /// A bucket as the vector keeps it: its items are the filled part, and its capacity the number of
    /// its slots. `None` if it isn't open. Constant time.
    pub fn bucket(&self, bucket: usize) -> Option<&Bucket<T, A>>
        ensures { option_copied result ≡ bucket_at self.now bucket }
    {
        self.table.buckets.get(bucket)?.as_ref()
    }

    /// The items, in order. Constant time for each step.
    pub fn iter(&self) -> StableVecIter<'_, T, A>
        ensures items { result ≡ self.now }
        ensures bound { length self.now ≤ max_len }
    {
        let nothing: &[T] = &[];
        let buckets = &self.table.buckets[..];
        StableVecIter {
            front: nothing.iter(),
            buckets: buckets[..self.open_buckets].iter(),
            back: nothing.iter(),
            between: self.len,
        }
    }

    /// The items of each open bucket as a slice, in order. Constant time for each slice.
    pub fn slices(&self) -> StableVecSlices<'_, T, A>
        ensures parts { result ≡ filled_parts self.now }
        ensures bound { length self.now ≤ max_len }
    {
        let buckets = &self.table.buckets[..];
        let open = &buckets[..self.open_buckets];
        StableVecSlices {
            buckets: open.iter(),
        }
    }

    /// The items of each open bucket as a `&mut` slice, in order. Constant time for each slice.
    ///
    /// The vector keeps its length and its buckets, also where the iterator is left early.
    pub fn slices_mut(&mut self) -> StableVecSlicesMut<'_, T, A>
        ensures* writes_back { sem 𝓛 (lends_items T.row A.row A.Allocator self.entry (loan_of result)) }
        ensures keeps { KeepsLength self.old }
        ensures parts { left result ≡ filled_parts self.old }
        ensures bound { length self.old ≤ max_len }
    {
        let open_buckets = self.open_buckets;
        let all = self.lend();
        StableVecSlicesMut::of_open(all, open_buckets)
    }

    /// The items, each to write, in order. Constant time for each step.
    ///
    /// The vector keeps its length and its buckets, also where the iterator is left early.
    pub fn iter_mut(&mut self) -> StableVecIterMut<'_, T, A>
        ensures* writes_back { sem 𝓛 (lends_items T.row A.row A.Allocator self.entry (loan_of result)) }
        ensures keeps { KeepsLength self.old }
        ensures items { left result ≡ self.old }
        ensures bound { length self.old ≤ max_len }
    {
        let (open_buckets, len) = (self.open_buckets, self.len);
        let all = self.lend();
        StableVecIterMut::of_whole(all, open_buckets, len)
    }

    /// Puts an item at the end, and returns its index.
    ///
    /// A bucket is opened only where [`room`](StableVec::room) is 0, over one clone of the allocator; no
    /// item moves. Fails with `NotEnoughKeys` if the vector is full, and then with `OutOfSystemMemory` if
    /// a bucket must be opened and there is no memory for it, or that clone fails. After an error the
    /// vector is as before, and the item is dropped. Constant time, but for the opening.
    #[inline]
    pub fn push(&mut self, value: T) -> Result<usize, ArenaError>
    where
        T: Drop,
        A: Clone,
        ensures index { IfOk result (λ index. index ≡ length self.old) }
        ensures ok { OnOk result (self.new ≡ self.old ++ value ∷ []) }
        ensures full { IsErrOf result ArenaError.NotEnoughKeys ↔ (max_len ≤ length self.old) }
        ensures memory { IsErrOf result ArenaError.OutOfSystemMemory → room (length self.old) ≡ 0 }
        ensures errors { IfErr result (λ error. (error ≡ ArenaError.NotEnoughKeys)
            ⊎ (error ≡ ArenaError.OutOfSystemMemory)) }
        ensures with_room { 0 < room (length self.old) → IsOk result }
        ensures without_size { length self.old < max_len → type_size T.row ≡ 0
            → ((a : A) → A.is_infallible a) → IsOk result }
        ensures err { OnErr result (self.new ≡ self.old) }
    {
        let index = self.len;
        if index < self.slots {
            let last = self.open_buckets - 1;
            fill_next(&mut self.table.buckets[..], last, self.slots - index, value);
            self.len = index + 1;
            return Ok(index);
        }
        if index == MAX_LEN {
            return Err(ArenaError::NotEnoughKeys);
        }
        open_with(
            &mut self.table.buckets[..],
            self.open_buckets,
            &self.alloc,
            value,
        )?;
        self.open_buckets += 1;
        self.slots = start_of(self.open_buckets);
        self.len = index + 1;
        Ok(index)
    }
}

impl<'a, T, A: Allocator> IntoIterator for &'a StableVec<T, A> {
    type Item = &'a T;

    type IntoIter = StableVecIter<'a, T, A>;

    ghost into_iter_gives = { λ vec it. it ≡ vec.now };

    fn into_iter(self) -> StableVecIter<'a, T, A> {
        self.iter()
    }
}

impl<'a, T, A: Allocator> IntoIterator for &'a mut StableVec<T, A> {
    type Item = &'a mut T;

    type IntoIter = StableVecIterMut<'a, T, A>;

    ghost into_iter_gives = { λ vec it. left it ≡ vec.now };

    fn into_iter(self) -> StableVecIterMut<'a, T, A>
        ensures* writes_back { sem 𝓛 (lends_items T.row A.row A.Allocator self.entry (loan_of result)) }
        ensures into_iter_gives { left result ≡ self.old }
    {
        self.iter_mut()
    }
}
