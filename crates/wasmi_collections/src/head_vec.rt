//! A list with fast access to its last item.
ghost use Rattle.std.specs.Prelude.{◌≡◌, ◌+◌, ◌<◌, ◌≤◌, ◌==◌, [], ◌∷◌, ◌++◌, length, IfOk, OnOk, OnErr, IsOk, IsOkUnless, option_copied};
ghost use Rattle.std.specs.List.{AllZip};
ghost use Rattle.std.specs.Option.{option_copied_mut};
ghost use Rattle.std.specs.Cmp.{on_per, on_equiv, on_po, on_total};
ghost use Rattle.std.specs.Cmp.Lexicographic.{pointwise, lists_per, lists_equiv};
ghost use Rattle.wasmi_collections.specs.HeadVec.{last_item, before_last, head_cmp, head_partial_cmp};
ghost use Rattle.wasmi_collections.specs.HeadVecLaws.{head_po, head_total, head_agrees, head_ties};

use crate::arena::ArenaError;
use std::alloc::{Allocator, Global};
use std::cmp::Ordering;
use std::fmt::{self, Debug, Formatter, Write};
use std::marker::Model;
use std::mem;

/// A list with fast access to its last item, which it keeps apart from the others.
///
/// One item alone needs no memory. There are at most 2^63 items, since a `Vec` has room for no more.
#[derive(Drop)]
pub struct HeadVec<T, A: Allocator = Global> {
    // The last item.
    head: Option<T>,
    // What stands before the last item.
    rest: Vec<T, A>,
}

impl<T, A: Allocator> Model for HeadVec<T, A> {
    ghost use Rattle.std.specs.Prelude.{◌≡◌, [], IfNone};
    ghost use Rattle.wasmi_collections.specs.HeadVec.{HeadState, state_of};

    ghost Value = { HeadState T };

    ghost view = { λ vec. state_of vec.head vec.rest };

    // Without a last item there is none.
    ghost invariant = { λ vec. IfNone vec.head (vec.rest.items ≡ []) };
}

impl<T, A: Allocator> HeadVec<T, A> {
    ghost use Rattle.std.specs.Borrow.{sem};
    ghost use Rattle.wasmi_collections.specs.HeadVecLend.{lends_last};

    /// An empty list, which asks `alloc` for memory when a second item is pushed. Constant time, no
    /// allocation.
    pub fn new(alloc: A) -> Self
        ensures { result ≡ record { items = []; room = 1 } }
    {
        HeadVec {
            head: None,
            rest: Vec::new(alloc),
        }
    }

    /// Drops all items. The block is kept. Linear in the length.
    pub fn clear(&mut self)
    where
        T: Drop,
        ensures items { self.new.items ≡ [] }
        ensures room { self.new.room ≡ self.old.room + length self.old.items }
    {
        self.head = None;
        self.rest.clear();
    }

    /// The number of items. Constant time.
    #[inline]
    pub fn len(&self) -> usize
        ensures { result ≡ length self.now.items }
    {
        match self.head {
            Some(_) => 1 + self.rest.len(),
            None => 0,
        }
    }

    /// Whether there is no item. Constant time.
    pub fn is_empty(&self) -> bool
        ensures { result ≡ (length self.now.items == 0) }
    {
        self.len() == 0
    }

    /// The last item, if there is one. Constant time.
    #[inline]
    pub fn last(&self) -> Option<&T>
        ensures { option_copied result ≡ last_item self.now.items }
    {
        self.head.as_ref()
    }

    /// The last item to write to, if there is one. Constant time.
    #[inline]
    pub fn last_mut(&mut self) -> Option<&mut T>
        ensures* writes_back { sem 𝓛 (lends_last T.row A.row A.Allocator self.entry result) }
        ensures value { option_copied_mut result ≡ last_item self.old.items }
    {
        match &mut self.head {
            Some(head) => Some(head),
            None => None,
        }
    }

    /// Puts an item at the end.
    ///
    /// Fails with `OutOfSystemMemory` if there is no memory for the item that was the last, and then the
    /// list is as before, and the item is dropped. Into an empty list it needs no memory, nor in the place of
    /// an item that was taken out, and then it doesn't fail. Amortized constant time.
    #[inline]
    pub fn push(&mut self, value: T) -> Result<(), ArenaError>
    where
        T: Drop,
        ensures ok { OnOk result (self.new.items ≡ self.old.items ++ value ∷ []) }
        ensures room { OnOk result (self.old.room ≤ self.new.room + 1) }
        ensures with_room { 0 < self.old.room → IsOk result }
        ensures first { length self.old.items ≡ 0 → IsOk result }
        ensures errors { IsOkUnless result ArenaError.OutOfSystemMemory }
        ensures err { OnErr result (self.new ≡ self.old) }
    {
        match &mut self.head {
            Some(head) => {
                self.rest.reserve(1)?;
                self.rest.push_reserved(mem::replace(head, value));
            }
            None => self.head = Some(value),
        }
        Ok(())
    }

    /// Takes out the last item, if there is one. Constant time, and gives no memory back.
    #[inline]
    pub fn pop(&mut self) -> Option<T>
        ensures item { result ≡ last_item self.old.items }
        ensures rest { self.new.items ≡ before_last self.old.items }
        ensures room { self.new.room + length self.new.items ≡ self.old.room + length self.old.items }
    {
        let Some(next) = self.rest.pop() else {
            return self.head.take();
        };
        match &mut self.head {
            Some(head) => Some(mem::replace(head, next)),
            None => unreachable!(),
        }
    }
}

impl<T: Clone, A: Allocator> HeadVec<T, A> {
    /// A list of a clone of each item, over a clone of the allocator. Linear.
    ///
    /// Fails with `OutOfSystemMemory` if there is no memory for the items before the last, or the clone
    /// of an item or of the allocator fails.
    pub fn clone(&self) -> Result<Self, ArenaError>
    where
        A: Clone,
        ensures items { IfOk result (λ other. AllZip T.is_clone self.now.items other.items) }
        ensures errors { IsOkUnless result ArenaError.OutOfSystemMemory }
    {
        match &self.head {
            Some(head) => Ok(HeadVec {
                head: Some(head.clone()?),
                rest: self.rest.clone()?,
            }),
            None => Ok(HeadVec::new(self.rest.allocator().clone()?)),
        }
    }
}

impl<T: PartialEq, A: Allocator> PartialEq for HeadVec<T, A> {
    ghost eq = { λ a b. pointwise T.eq a.items b.items };

    ghost laws = { on_per (λ v. v.items) (lists_per T.laws) };

    fn eq(&self, other: &Self) -> bool {
        self.head == other.head && self.rest == other.rest
    }
}

impl<T: Eq, A: Allocator> Eq for HeadVec<T, A> {
    ghost laws = { on_equiv (λ v. v.items) (lists_equiv T.Eq.laws) };
}

/// The last items are compared first, and then the lists of the others. An empty list is less than any
/// other.
impl<T: PartialOrd, A: Allocator> PartialOrd for HeadVec<T, A> {
    ghost partial_cmp = { λ a b. head_partial_cmp T.partial_cmp a.items b.items };

    ghost laws = { on_po (λ v. v.items) (head_po T.PartialOrd.laws) };

    fn partial_cmp(&self, other: &Self) -> Option<Ordering> {
        match self.head.partial_cmp(&other.head)? {
            Ordering::Equal => self.rest.partial_cmp(&other.rest),
            order => Some(order),
        }
    }
}

impl<T: Ord, A: Allocator> Ord for HeadVec<T, A> {
    ghost cmp = { λ a b. head_cmp T.cmp a.items b.items };

    ghost total = { on_total (λ v. v.items) (head_total T.total) };

    ghost matches_partial_cmp = { λ a b. head_agrees T.matches_partial_cmp a.items b.items };

    ghost matches_eq = { λ a b. head_ties T.cmp T.matches_eq a.items b.items };

    fn cmp(&self, other: &Self) -> Ordering {
        match self.head.cmp(&other.head) {
            Ordering::Equal => self.rest.cmp(&other.rest),
            order => order,
        }
    }
}

/// A list of the items, in order.
impl<T: Debug, A: Allocator> Debug for HeadVec<T, A> {
    fn fmt<W: Write>(&self, f: &mut Formatter<W>) -> fmt::Result {
        let mut list = f.debug_list();
        list.entries(&self.rest);
        list.entries(&self.head);
        list.finish()
    }
}
