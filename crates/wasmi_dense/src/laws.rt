//! Laws: what the definitions of `specs/` tell, as contracts of functions.
ghost use Rattle.std.specs.Prelude.{◌≡◌, ◌↔◌, ℕ, List, Option, IsTrue};
ghost use Rattle.wasmi_arena.specs.BothEnds.{DrainsFromEnds};
ghost use Rattle.wasmi_dense.specs.ArenaLoan.{left_entries};
ghost use Rattle.wasmi_dense.specs.ComponentLoan.{left_components};
ghost use Rattle.wasmi_dense.specs.Components.{component_at, extent};

use crate::arena::{IntoIter, Iter, IterMut};
use crate::{Arena, ComponentVec, ComponentVecIter, ComponentVecIterMut};
use std::alloc::Allocator;
use wasmi_arena::ArenaKey;

/// Two component vectors of one extent, with the same components, are the same.
pub fn components_and_extent<T>()
    ensures { (a b : List (Option T)) → extent a ≡ extent b
        → ((number : ℕ) → component_at a number ≡ component_at b number) → a ≡ b }
{}

/// Two component vectors are equal where their extents are and their components, if two components
/// are.
pub fn equal_components<Key, T: PartialEq>(
    a: &ComponentVec<Key, T>,
    b: &ComponentVec<Key, T>,
) -> bool
    ensures { ((x y : T) → (IsTrue (T.eq x y) ↔ (x ≡ y)))
        → (IsTrue result ↔ ((extent a.now ≡ extent b.now)
        × ((number : ℕ) → component_at a.now number ≡ component_at b.now number))) }
{
    a == b
}

/// Two arenas are equal where their items are, if two items are. Their rooms don't count.
pub fn equal_arenas<Key: ArenaKey, T: PartialEq>(a: &Arena<Key, T>, b: &Arena<Key, T>) -> bool
    ensures { ((x y : T) → (IsTrue (T.eq x y) ↔ (x ≡ y)))
        → (IsTrue result ↔ (a.now.items ≡ b.now.items)) }
{
    a == b
}

/// Each iterator over an arena gives each entry once: however calls of `next` and `next_back` are mixed,
/// by the first `None` the entries from the front, and then those from the back in reverse, are the ones
/// that were left, and from then on both ends give `None`.
pub fn entries_from_both_ends<'a, Key: ArenaKey, T: Drop + 'a, A: Allocator>()
    ensures read { DrainsFromEnds ⟦<Iter<'a, Key, T> as Iterator>⟧.next_gives
        ⟦<Iter<'a, Key, T> as DoubleEndedIterator>⟧.next_back_gives
        (λ entry. (entry.0, entry.1.now)) (λ entries. entries) }
    ensures written { DrainsFromEnds ⟦<IterMut<'a, Key, T> as Iterator>⟧.next_gives
        ⟦<IterMut<'a, Key, T> as DoubleEndedIterator>⟧.next_back_gives
        (λ entry. (entry.0, entry.1.now)) (left_entries Key.keys) }
    ensures taken { DrainsFromEnds ⟦<IntoIter<Key, T, A> as Iterator>⟧.next_gives
        ⟦<IntoIter<Key, T, A> as DoubleEndedIterator>⟧.next_back_gives
        (λ entry. entry) (λ entries. entries) }
{}

/// Each iterator over the components of a component vector gives each of them once, in the same way.
pub fn components_from_both_ends<'a, Key: ArenaKey, T: 'a>()
    ensures read { DrainsFromEnds ⟦<ComponentVecIter<'a, Key, T> as Iterator>⟧.next_gives
        ⟦<ComponentVecIter<'a, Key, T> as DoubleEndedIterator>⟧.next_back_gives
        (λ entry. (entry.0, entry.1.now)) (λ entries. entries) }
    ensures written { DrainsFromEnds ⟦<ComponentVecIterMut<'a, Key, T> as Iterator>⟧.next_gives
        ⟦<ComponentVecIterMut<'a, Key, T> as DoubleEndedIterator>⟧.next_back_gives
        (λ entry. (entry.0, entry.1.now)) (left_components Key.keys) }
{}
