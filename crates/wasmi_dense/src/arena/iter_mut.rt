//! The iterator over an arena in one vector that lends its items to be written.
ghost use Rattle.std.specs.Prelude.{◌≡◌, ◌+◌, ◌<◌, ◌≤◌, ◌^◌, length};
ghost use Rattle.std.specs.Slice.Iter.{iter_mut_rest};
ghost use Rattle.wasmi_arena.specs.Entries.{entries};

use std::marker::PhantomData;
use std::slice;
use wasmi_arena::{ArenaKey, key_at};

/// The keys and items of an [`Arena`](crate::Arena) that are left to visit, in order, from both ends,
/// each item to write to.
#[derive(Drop)]
pub struct IterMut<'a, Key: ArenaKey, T> {
    items: slice::IterMut<'a, T>,
    // The position of the first of `items`.
    next: usize,
    keys: PhantomData<Key>,
    // Each position that is left has a key, and the one behind them is a number too. A fact of the value, so
    // that no step asks for it.
    ghost keyed: { (next + length (iter_mut_rest items) ≤ Key.keys.count)
        × (next + length (iter_mut_rest items) < 2 ^ 64) },
}

impl<'a, Key: ArenaKey, T> IterMut<'a, Key, T> {
    ghost use Rattle.wasmi_dense.specs.ArenaLoan.{left_entries, IsKeyed, loan_of};

    // Over the items of an arena.
    pub(super) fn new(items: &'a mut [T]) -> Self
        requires { length items.old ≤ Key.keys.count }
        ensures entries { left_entries Key.keys result ≡ entries Key.keys items.old }
        ensures ready { IsKeyed Key.keys result }
        ensures name { loan_of result ≡ items.entry.ghost_name }
    {
        IterMut {
            items: items.iter_mut(),
            next: 0,
            keys: PhantomData,
        }
    }

    /// How many entries are left. Constant time.
    pub fn len(&self) -> usize
        ensures { result ≡ length (left_entries Key.keys self.now) }
    {
        self.items.len()
    }
}

impl<'a, Key: ArenaKey, T> Iterator for IterMut<'a, Key, T> {
    ghost use Rattle.std.specs.Iterator.{YieldsFirstBy, item_count};
    ghost use Rattle.wasmi_dense.specs.ArenaLoan.{left_entries};

    type Item = (Key, &'a mut T);

    ghost next_gives = { YieldsFirstBy (λ entry. (entry.0, entry.1.now)) (left_entries Key.keys) };

    ghost remaining = { item_count (left_entries Key.keys) };

    fn next(&mut self) -> Option<(Key, &'a mut T)> {
        let item = self.items.next()?;
        let key = key_at(self.next);
        self.next += 1;
        Some((key, item))
    }
}

impl<'a, Key: ArenaKey, T> DoubleEndedIterator for IterMut<'a, Key, T> {
    ghost use Rattle.std.specs.Iterator.{YieldsLastBy};
    ghost use Rattle.wasmi_dense.specs.ArenaLoan.{left_entries};

    ghost next_back_gives = { YieldsLastBy (λ entry. (entry.0, entry.1.now)) (left_entries Key.keys) };

    #[tactic(auto, using(wasmi_arena::proofs::Entries::entries_from_last))]
    fn next_back(&mut self) -> Option<(Key, &'a mut T)> {
        let item = self.items.next_back()?;
        let key = key_at(self.next + self.items.len());
        Some((key, item))
    }
}
