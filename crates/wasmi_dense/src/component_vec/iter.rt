//! The iterator over the components of a component vector.
ghost use Rattle.std.specs.Prelude.{◌≡◌, ◌+◌, ◌<◌, ◌≤◌, ◌^◌, [], ◌∷◌, ◌++◌, length, MatchOption};
ghost use Rattle.std.specs.Iterator.{YieldsFirstBy, YieldsLastBy, item_count};
ghost use Rattle.std.specs.Slice.Iter.{iter_rest};
ghost use Rattle.wasmi_dense.specs.ComponentEntries.{components_from};

use std::marker::{Model, PhantomData};
use std::slice;
use wasmi_arena::ArenaKey;

/// The keys and components of a [`ComponentVec`](crate::ComponentVec) that are left to visit, ascending,
/// from both ends.
#[derive(Drop)]
pub struct ComponentVecIter<'a, Key: ArenaKey, T> {
    pub(super) slots: slice::Iter<'a, Option<T>>,
    // The number of the first of `slots`.
    pub(super) next: usize,
    pub(super) keys: PhantomData<Key>,
}

impl<'a, Key: ArenaKey, T> Model for ComponentVecIter<'a, Key, T> {
    ghost use Rattle.std.specs.Prelude.{List, ◌+◌, ◌<◌, ◌^◌, length};
    ghost use Rattle.std.specs.Slice.Iter.{iter_rest};
    ghost use Rattle.wasmi_dense.specs.ComponentEntries.{components_from};

    ghost Value = { List (Key × T) };

    ghost view = { λ it. components_from Key.keys it.next (iter_rest it.slots) };

    // The number behind the last place is a number too.
    ghost invariant = { λ it. it.next + length (iter_rest it.slots) < 2 ^ 64 };
}

// The first component of these places, the first of which has the number `next`.
fn first_of<'a, Key: ArenaKey, T>(
    slots: &mut slice::Iter<'a, Option<T>>,
    next: &mut usize,
) -> Option<(Key, &'a T)>
    requires { next.old + length (iter_rest slots.old) < 2 ^ 64 }
    ensures steps { MatchOption result
        ((components_from Key.keys next.old (iter_rest slots.old) ≡ [])
        × (components_from Key.keys next.new (iter_rest slots.new) ≡ []))
        (λ entry. components_from Key.keys next.old (iter_rest slots.old)
        ≡ (entry.0, entry.1.now) ∷ components_from Key.keys next.new (iter_rest slots.new)) }
    ensures end { next.new + length (iter_rest slots.new) ≡ next.old + length (iter_rest slots.old) }
{
    while let Some(slot) = slots.next() {
        let key = Key::from_usize(*next);
        *next += 1;
        if let Some(component) = slot {
            if let Some(key) = key {
                return Some((key, component));
            }
        }
    }
    None
}

// The last component of these places, the first of which has the number `next`.
#[tactic(auto, using(crate::proofs::ComponentEntries::components_from_last))]
fn last_of<'a, Key: ArenaKey, T>(
    slots: &mut slice::Iter<'a, Option<T>>,
    next: usize,
) -> Option<(Key, &'a T)>
    requires { next + length (iter_rest slots.old) < 2 ^ 64 }
    ensures steps { MatchOption result
        ((components_from Key.keys next (iter_rest slots.old) ≡ [])
        × (components_from Key.keys next (iter_rest slots.new) ≡ []))
        (λ entry. components_from Key.keys next (iter_rest slots.old)
        ≡ components_from Key.keys next (iter_rest slots.new) ++ (entry.0, entry.1.now) ∷ []) }
    ensures end { length (iter_rest slots.new) ≤ length (iter_rest slots.old) }
{
    while let Some(slot) = slots.next_back() {
        if let Some(component) = slot {
            if let Some(key) = Key::from_usize(next + slots.len()) {
                return Some((key, component));
            }
        }
    }
    None
}

impl<'a, Key: ArenaKey, T> Iterator for ComponentVecIter<'a, Key, T> {
    type Item = (Key, &'a T);

    ghost next_gives = { YieldsFirstBy (λ entry. (entry.0, entry.1.now)) (λ entries. entries) };

    ghost remaining = { item_count (λ entries. entries) };

    fn next(&mut self) -> Option<(Key, &'a T)> {
        first_of(&mut self.slots, &mut self.next)
    }
}

impl<'a, Key: ArenaKey, T> DoubleEndedIterator for ComponentVecIter<'a, Key, T> {
    ghost next_back_gives = { YieldsLastBy (λ entry. (entry.0, entry.1.now)) (λ entries. entries) };

    fn next_back(&mut self) -> Option<(Key, &'a T)> {
        let next = self.next;
        last_of(&mut self.slots, next)
    }
}
