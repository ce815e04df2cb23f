//! The iterator over an interner.
ghost use Rattle.std.specs.Prelude.{◌≡◌, length};
ghost use Rattle.std.specs.Iterator.{YieldsFirstBy, YieldsLastBy, item_count};

use crate::Sym;
use crate::texts::Texts;
use std::alloc::{Allocator, Global};
use std::marker::Model;

/// The symbols and texts of a [`StringInterner`](crate::StringInterner) that are left to visit, in the order
/// of the symbols, from both ends.
#[derive(Drop)]
pub struct Iter<'a, A: Allocator = Global> {
    pub(crate) texts: &'a Texts<A>,
    // The numbers of those that are left: from here on,
    pub(crate) next: usize,
    // and below.
    pub(crate) end: usize,
}

impl<'a, A: Allocator> Model for Iter<'a, A> {
    ghost use Rattle.std.specs.Prelude.{ℕ, List, ◌≤◌, ◌^◌, length, slice_range};
    ghost use Rattle.wasmi_interner.specs.Interner.{with_symbols_from};

    ghost Value = { List (ℕ × List ℕ) };

    ghost view = { λ it. with_symbols_from it.next (slice_range it.texts.now it.next it.end) };

    // Each text that is left has a symbol.
    ghost invariant = { λ it. (it.next ≤ it.end) × (it.end ≤ length it.texts.now) × (it.end ≤ 2 ^ 32) };
}

impl<'a, A: Allocator> Iter<'a, A> {
    /// How many texts are left. Constant time.
    pub fn len(&self) -> usize
        ensures { result ≡ length self.now }
    {
        self.end - self.next
    }
}

impl<'a, A: Allocator> Iterator for Iter<'a, A> {
    type Item = (Sym, &'a str);

    ghost next_gives = { YieldsFirstBy (λ entry. (entry.0, entry.1.now)) (λ entries. entries) };

    ghost remaining = { item_count (λ entries. entries) };

    fn next(&mut self) -> Option<(Sym, &'a str)> {
        if self.next == self.end {
            return None;
        }
        let number = self.next;
        self.next += 1;
        Some((Sym::from_usize(number), self.texts.get(number)))
    }
}

impl<'a, A: Allocator> DoubleEndedIterator for Iter<'a, A> {
    ghost next_back_gives = { YieldsLastBy (λ entry. (entry.0, entry.1.now)) (λ entries. entries) };

    fn next_back(&mut self) -> Option<(Sym, &'a str)> {
        if self.next == self.end {
            return None;
        }
        self.end -= 1;
        Some((Sym::from_usize(self.end), self.texts.get(self.end)))
    }
}
