//! The iterator that takes the items out of a stable vector.
ghost use Rattle.std.specs.Prelude.{◌≡◌, length};
ghost use Rattle.std.specs.Iterator.{YieldsFirst, YieldsLast, item_count};
ghost use Rattle.wasmi_arena.specs.inner.Ahead.{in_hand};

use crate::bucket::BucketItems;
use crate::geometry::BUCKETS;
use crate::{Bucket, StableVec};
use std::alloc::{Allocator, Global};
use std::array;
use std::marker::Model;

/// The items of a [`StableVec`](crate::StableVec) that are left to take out, in order, from both ends.
///
/// No item moves but out. A bucket is given back once the end that took its items out of it opens
/// another, and the others with the iterator, which drops the items that are left.
#[derive(Drop)]
pub struct StableVecIntoIter<T, A: Allocator = Global> {
    // What is left of the bucket that is taken from at the front.
    front: Option<BucketItems<T, A>>,
    // The buckets that neither end has come to, each with an item.
    buckets: array::IntoIter<Option<Bucket<T, A>>, BUCKETS>,
    // What is left of the bucket that is taken from at the back.
    back: Option<BucketItems<T, A>>,
    // How many items `buckets` have.
    between: usize,
}

impl<T, A: Allocator> Model for StableVecIntoIter<T, A> {
    ghost use Rattle.std.specs.Prelude.{List, ◌++◌};
    ghost use Rattle.std.specs.Array.Iter.{array_into_iter_items};

    ghost Value = { List T };

    ghost use Rattle.wasmi_arena.specs.inner.Table.{items_of};
    ghost use Rattle.wasmi_arena.specs.inner.Ahead.{IsAhead, in_hand};

    ghost view = { λ it. in_hand it.front ++ items_of (array_into_iter_items it.buckets) ++ in_hand it.back };

    ghost invariant = { λ it. IsAhead (in_hand it.front) (array_into_iter_items it.buckets)
        (in_hand it.back) it.between };
}

// The first item of what is left of a bucket.
fn first_of<T: Drop, A: Allocator>(items: &mut Option<BucketItems<T, A>>) -> Option<T>
    ensures { YieldsFirst in_hand items.old result items.new }
{
    match items {
        Some(items) => items.next(),
        None => None,
    }
}

// The last item of what is left of a bucket.
fn last_of<T: Drop, A: Allocator>(items: &mut Option<BucketItems<T, A>>) -> Option<T>
    ensures { YieldsLast in_hand items.old result items.new }
{
    match items {
        Some(items) => items.next_back(),
        None => None,
    }
}

// How many items are left of a bucket.
fn count_of<T, A: Allocator>(items: &Option<BucketItems<T, A>>) -> usize
    ensures { result ≡ length (in_hand items.now) }
{
    match items {
        Some(items) => items.len(),
        None => 0,
    }
}

impl<T: Drop, A: Allocator> StableVecIntoIter<T, A> {
    /// How many items are left. Constant time.
    pub fn len(&self) -> usize
        ensures { result ≡ length self.now }
    {
        count_of(&self.front) + self.between + count_of(&self.back)
    }
}

impl<T: Drop, A: Allocator> Iterator for StableVecIntoIter<T, A> {
    type Item = T;

    ghost next_gives = { YieldsFirst (λ items. items) };

    ghost remaining = { item_count (λ items. items) };

    fn next(&mut self) -> Option<T> {
        if let Some(item) = first_of(&mut self.front) {
            return Some(item);
        }
        match self.buckets.next() {
            Some(Some(bucket)) => {
                let mut items = bucket.into_items();
                self.between -= items.len();
                let item = items.next();
                self.front = Some(items);
                item
            }
            Some(None) => unreachable!(),
            None => first_of(&mut self.back),
        }
    }
}

impl<T: Drop, A: Allocator> DoubleEndedIterator for StableVecIntoIter<T, A> {
    ghost next_back_gives = { YieldsLast (λ items. items) };

    fn next_back(&mut self) -> Option<T> {
        if let Some(item) = last_of(&mut self.back) {
            return Some(item);
        }
        match self.buckets.next_back() {
            Some(Some(bucket)) => {
                let mut items = bucket.into_items();
                self.between -= items.len();
                let item = items.next_back();
                self.back = Some(items);
                item
            }
            Some(None) => unreachable!(),
            None => last_of(&mut self.front),
        }
    }
}

/// The items, taken out of the vector, in order. No memory is asked for.
impl<T: Drop, A: Allocator> IntoIterator for StableVec<T, A> {
    type Item = T;

    type IntoIter = StableVecIntoIter<T, A>;

    ghost into_iter_gives = { λ vec it. it ≡ vec };

    fn into_iter(self) -> StableVecIntoIter<T, A> {
        let StableVec {
            table,
            open_buckets,
            slots: _,
            len,
            alloc: _alloc,
        } = self;
        let mut buckets = table.buckets.into_iter();
        for _ in open_buckets..BUCKETS {
            let _none = buckets.next_back();
        }
        StableVecIntoIter {
            front: None,
            buckets,
            back: None,
            between: len,
        }
    }
}
