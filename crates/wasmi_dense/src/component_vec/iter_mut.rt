//! The iterator over a component vector that lends its components to be written.
ghost use Rattle.std.specs.Prelude.{◌≡◌, ◌+◌, ◌<◌, ◌≤◌, ◌^◌, [], ◌∷◌, ◌++◌, length, MatchOption};
ghost use Rattle.std.specs.Iterator.{YieldsFirstBy, YieldsLastBy, item_count};
ghost use Rattle.std.specs.Slice.Iter.{iter_mut_rest};
ghost use Rattle.wasmi_dense.specs.ComponentEntries.{components_from, component_entries};

use std::marker::PhantomData;
use std::slice;
use wasmi_arena::ArenaKey;

/// The keys and components of a [`ComponentVec`](crate::ComponentVec) that are left to visit, ascending,
/// from both ends, each component to write to.
#[derive(Drop)]
pub struct ComponentVecIterMut<'a, Key: ArenaKey, T> {
    slots: slice::IterMut<'a, Option<T>>,
    // The number of the first of `slots`.
    next: usize,
    keys: PhantomData<Key>,
    // The number behind the last place is a number too. A fact of the value, so that no step asks for it.
    ghost numbered: { next + length (iter_mut_rest slots) < 2 ^ 64 },
}

impl<'a, Key: ArenaKey, T> ComponentVecIterMut<'a, Key, T> {
    ghost use Rattle.wasmi_dense.specs.ComponentLoan.{left_components, IsNumbered, loan_of};

    // Over the places of a component vector.
    pub(super) fn new(slots: &'a mut [Option<T>]) -> Self
        requires { length slots.old < 2 ^ 64 }
        ensures entries { left_components Key.keys result ≡ component_entries Key.keys slots.old }
        ensures ready { IsNumbered result }
        ensures name { loan_of result ≡ slots.entry.ghost_name }
    {
        ComponentVecIterMut {
            slots: slots.iter_mut(),
            next: 0,
            keys: PhantomData,
        }
    }
}

// The first component of these places, the first of which has the number `next`.
fn first_of<'a, Key: ArenaKey, T>(
    slots: &mut slice::IterMut<'a, Option<T>>,
    next: &mut usize,
) -> Option<(Key, &'a mut T)>
    requires { next.old + length (iter_mut_rest slots.old) < 2 ^ 64 }
    ensures steps { MatchOption result
        ((components_from Key.keys next.old (iter_mut_rest slots.old) ≡ [])
        × (components_from Key.keys next.new (iter_mut_rest slots.new) ≡ []))
        (λ entry. components_from Key.keys next.old (iter_mut_rest slots.old)
        ≡ (entry.0, entry.1.now) ∷ components_from Key.keys next.new (iter_mut_rest slots.new)) }
    ensures end { next.new + length (iter_mut_rest slots.new) ≡ next.old + length (iter_mut_rest slots.old) }
{
    while let Some(slot) = slots.next() {
        let key = Key::from_usize(*next);
        *next += 1;
        if let Some(component) = slot {
            if let Some(key) = key {
                return Some((key, component));
            }
        }
    }
    None
}

// The last component of these places, the first of which has the number `next`.
#[tactic(auto, using(crate::proofs::ComponentEntries::components_from_last))]
fn last_of<'a, Key: ArenaKey, T>(
    slots: &mut slice::IterMut<'a, Option<T>>,
    next: usize,
) -> Option<(Key, &'a mut T)>
    requires { next + length (iter_mut_rest slots.old) < 2 ^ 64 }
    ensures steps { MatchOption result
        ((components_from Key.keys next (iter_mut_rest slots.old) ≡ [])
        × (components_from Key.keys next (iter_mut_rest slots.new) ≡ []))
        (λ entry. components_from Key.keys next (iter_mut_rest slots.old)
        ≡ components_from Key.keys next (iter_mut_rest slots.new) ++ (entry.0, entry.1.now) ∷ []) }
    ensures end { length (iter_mut_rest slots.new) ≤ length (iter_mut_rest slots.old) }
{
    while let Some(slot) = slots.next_back() {
        if let Some(component) = slot {
            if let Some(key) = Key::from_usize(next + slots.len()) {
                return Some((key, component));
            }
        }
    }
    None
}

impl<'a, Key: ArenaKey, T> Iterator for ComponentVecIterMut<'a, Key, T> {
    ghost use Rattle.wasmi_dense.specs.ComponentLoan.{left_components};

    type Item = (Key, &'a mut T);

    ghost next_gives = { YieldsFirstBy (λ entry. (entry.0, entry.1.now)) (left_components Key.keys) };

    ghost remaining = { item_count (left_components Key.keys) };

    fn next(&mut self) -> Option<(Key, &'a mut T)> {
        first_of(&mut self.slots, &mut self.next)
    }
}

impl<'a, Key: ArenaKey, T> DoubleEndedIterator for ComponentVecIterMut<'a, Key, T> {
    ghost use Rattle.wasmi_dense.specs.ComponentLoan.{left_components};

    ghost next_back_gives = { YieldsLastBy (λ entry. (entry.0, entry.1.now)) (left_components Key.keys) };

    fn next_back(&mut self) -> Option<(Key, &'a mut T)> {
        let next = self.next;
        last_of(&mut self.slots, next)
    }
}
